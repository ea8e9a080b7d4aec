//! What the globals hold at a time of a run, by name or all of them.

ghost use Rattle.std.specs.Prelude.{◌≡◌, ℤ, IfOk, Some};
ghost use Rattle.semantics.specs.Events as running;
ghost use Rattle.frame_engine.specs.Flat.{cell_in};
ghost use Rattle.schedule_workers.specs.Layouts.{number_in};
ghost use Rattle.schedule_core.specs.Stages.{HoldsGlobals, IsState, global_named};

use crate::machine::Machine;
use crate::stage::Stage;
use frame_engine::sum;
use lists::OutOfMemory;
use serial_machine::Memory;

/// What stands in the row at the address, an index; 0 where there is no such cell.
fn cell_of(row: &[i64], address: i64) -> i64
    ensures { (z : ℤ) → cell_in row.now address ≡ Some z → result ≡ z }
{
    match usize::try_from(address) {
        Ok(index) => row.get(index).copied().unwrap_or(0),
        Err(_) => 0,
    }
}

/// Where the object of this number begins.
fn number_in(starts: &[i64], number: usize) -> i64
    ensures { result ≡ number_in starts.now number }
{
    starts.get(number).copied().unwrap_or(0)
}

impl Machine<'_> {
    /// What a cell of a global holds; none where there is no such cell.
    pub fn get_global(&self, name: &str, index: u64) -> Option<i64>
        ensures { (m : running.Machine) → IsState self.now.stage m → result ≡ global_named m self.now.stage.memory name.now index }
    {
        let (global, cells) = self.stage.memory.place_of(name)?;
        if cells <= index {
            return None;
        }
        let start = number_in(self.places().globals.as_slice(), global);
        let address = sum(start, index.cast_signed());
        Some(cell_of(self.stage.run.cells.cells.as_slice(), address))
    }

    /// The globals as they were handed in.
    pub fn handed_in(&self) -> &Memory
        ensures { result.now ≡ self.now.stage.memory }
    {
        &self.stage.memory
    }

    /// The globals, as the events left them, in memory of their own.
    ///
    /// # Errors
    ///
    /// Memory was refused.
    pub fn memory(&self) -> Result<Memory, OutOfMemory>
        ensures { IfOk result (λ after. (m : running.Machine) → IsState self.now.stage m → HoldsGlobals m self.now.stage.memory after) }
    {
        self.stage
            .memory
            .with_row(self.stage.run.cells.cells.as_slice())
    }

    /// The globals of a run that has ended, or was given up; it takes no memory.
    pub fn into_memory(self) -> Memory
        ensures { (m : running.Machine) → IsState self.entry.stage m → HoldsGlobals m self.entry.stage.memory result }
    {
        let Stage {
            verified: _,
            places: _,
            mut memory,
            run,
        } = self.stage;
        memory.refill(run.cells.cells.as_slice());
        memory
    }
}
