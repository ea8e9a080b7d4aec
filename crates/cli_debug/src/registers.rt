//! Shows a frame's registers with what they hold, pointers by their objects (variables of a frame).

use crate::session::Session;
use crate::values::registers_with_values;
use frame::{Path, Role};
use lists::{OutOfMemory, TextBuffer};
use views::{Objects, Settings, ThingName, Value};

impl Session<'_> {
    /// Adds the arrays of a living frame, if it is a function's.
    fn begin(&self, objects: &mut Objects, path: &Path) -> Result<(), OutOfMemory> {
        match self.debugger.show_frame(path) {
            Some(view) if matches!(view.frame.role, Role::Body) => {
                objects.begin(self.names.program(), view.path, view.frame)
            }
            _ => Ok(()),
        }
    }

    /// Where the objects stand at this position.
    fn objects(&self) -> Result<Objects, OutOfMemory> {
        let paths = self.debugger.paths(self.alloc)?;
        let mut objects = Objects::of(self.alloc, self.verified)?;
        for path in &paths {
            self.begin(&mut objects, path)?;
        }
        Ok(objects)
    }

    fn push_value(&self, out: &mut TextBuffer, value: &Value) {
        match value {
            Value::Number(number) => writeln!(out, "{number}"),
            Value::Truth(truth) => writeln!(out, "{truth}"),
            Value::Pointer(cell) => {
                let thing = ThingName {
                    names: self.names,
                    thing: &cell.thing,
                };
                let index = cell.index;
                writeln!(out, "{thing}:{index}");
            }
        }
    }

    /// A line for each of these registers.
    fn push_settings(&self, out: &mut TextBuffer, settings: &Settings) {
        for setting in &settings.list {
            let name = self.names.register(settings.function, setting.register);
            write!(out, "%{name} ");
            self.push_value(out, &setting.value);
        }
    }

    /// The registers of a frame that have values, but for regions.
    pub(crate) fn push_registers(
        &self,
        out: &mut TextBuffer,
        path: &Path,
    ) -> Result<(), OutOfMemory> {
        let Some(view) = self.debugger.show_frame(path) else {
            self.push_missing(out, "frame", path);
            return Ok(());
        };
        let registers = registers_with_values(self.alloc, self.verified, view.frame)?;
        let objects = self.objects()?;
        let settings = objects.settings(self.names.program(), view.frame, registers.as_slice())?;
        self.push_settings(out, &settings);
        Ok(())
    }
}
