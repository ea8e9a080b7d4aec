//! The objects of a run by their addresses: what a word means that is a pointer.

use crate::change::{CellPlace, Setting, Settings, Thing, Value};
use frame::Path;
use frame_engine::{Frame, Places};
use lists::{ListBuffer, OutOfMemory};
use program::{Program, RegisterId, RegisterKind};
use std::alloc::Global;
use verifier::Verified;

/// Where the arrays of a living frame stand.
#[derive(Drop)]
struct Home {
    path: Path,
    function: usize,
    first: i64,
    cells: u64,
}

/// Where objects begin, with the frames that have arrays of their own.
pub struct Objects {
    alloc: Global,
    pub places: Places,
    homes: Vec<Home>,
}

/// Written out, so that no crate above proves it anew.
impl Drop for Objects {
    fn drop(self) {
        let Objects {
            alloc: _,
            places: _,
            homes: _,
        } = self;
    }
}

/// The cells of a function's allocas.
fn room_of(program: &Program, function: usize) -> u64 {
    let mut room = 0u64;
    if let Some(function) = program.functions.as_slice().get(function) {
        for alloca in function.allocas.as_slice() {
            room = room.saturating_add(alloca.cells);
        }
    }
    room
}

/// The number of the object that begins last at or before an address, and how far behind its start that stands.
fn object_before(starts: &[i64], address: i64) -> Option<(usize, u64)> {
    let mut found = None;
    for (number, start) in starts.iter().enumerate() {
        if *start <= address {
            found = Some((number, address.wrapping_sub(*start).cast_unsigned()));
        }
    }
    found
}

impl Objects {
    /// Those of a module, without frames.
    pub fn of(alloc: Global, verified: &Verified) -> Result<Objects, OutOfMemory> {
        Ok(Objects {
            alloc,
            places: Places::of_program(alloc, verified.program())?,
            homes: Vec::new(alloc),
        })
    }

    /// A function's frame begins.
    pub fn begin(
        &mut self,
        program: &Program,
        path: &Path,
        frame: &Frame,
    ) -> Result<(), OutOfMemory> {
        let function = frame.function.0;
        let cells = room_of(program, function);
        if cells > 0 {
            self.homes.push(Home {
                path: path.copy(self.alloc)?,
                function,
                first: frame.home,
                cells,
            })?;
        }
        Ok(())
    }

    /// The frame of this path has returned.
    pub fn end(&mut self, path: &Path) {
        for place in 0..self.homes.len() {
            if self.homes[place].path.is_same(path) {
                let _home = self.homes.swap_remove(place);
                return;
            }
        }
    }

    /// The frame whose arrays have a cell at this address.
    fn home_at(&self, address: i64) -> Option<&Home> {
        for home in &self.homes {
            if address.wrapping_sub(home.first).cast_unsigned() < home.cells {
                return Some(home);
            }
        }
        None
    }

    /// The cell at an address.
    pub fn cell_at(&self, address: i64) -> Result<Option<CellPlace>, OutOfMemory> {
        let home = self.home_at(address);
        let (starts, distance) = match home {
            Some(home) => (
                self.places.allocas.as_slice().get(home.function),
                address.wrapping_sub(home.first),
            ),
            None => (Some(&self.places.globals), address),
        };
        let Some(starts) = starts else {
            return Ok(None);
        };
        let Some((number, index)) = object_before(starts.as_slice(), distance) else {
            return Ok(None);
        };
        let thing = match home {
            Some(home) => Thing::Alloca {
                owner: home.path.copy(self.alloc)?,
                function: home.function,
                number,
            },
            None => Thing::Global(number),
        };
        Ok(Some(CellPlace { thing, index }))
    }

    /// What a register of this kind holds; none of a region.
    fn value_of(&self, kind: &RegisterKind, word: i64) -> Result<Option<Value>, OutOfMemory> {
        Ok(match kind {
            RegisterKind::Number(_) => Some(Value::Number(word)),
            RegisterKind::Truth => Some(Value::Truth(word != 0)),
            RegisterKind::Region => None,
            RegisterKind::Object | RegisterKind::Element => match self.cell_at(word)? {
                Some(cell) => Some(Value::Pointer(cell)),
                None => None,
            },
        })
    }

    /// What these registers of a frame hold now, but for regions.
    pub fn settings(
        &self,
        program: &Program,
        frame: &Frame,
        registers: &[RegisterId],
    ) -> Result<Settings, OutOfMemory> {
        let mut list = ListBuffer::new(self.alloc);
        let function = frame.function.0;
        let kinds = match program.functions.as_slice().get(function) {
            Some(function) => function.registers.as_slice(),
            None => &[],
        };
        for register in registers {
            let register = register.0;
            if let Some(kind) = kinds.get(register)
                && let Some(word) = frame.registers.as_slice().get(register)
                && let Some(value) = self.value_of(kind, *word)?
            {
                list.push(Setting { register, value });
            }
        }
        let list = list.finish()?;
        Ok(Settings { function, list })
    }
}
