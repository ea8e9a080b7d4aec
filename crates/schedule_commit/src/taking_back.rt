//! Takes a frame strand back that was written: its frame and the cells hold what they did (rollback).

ghost use Rattle.std.specs.Prelude.{◌≡◌, ◌≢◌, ℕ, ℤ, IfOk, IsTrue, Some, length, map, slice_get};
ghost use Rattle.frame_engine.specs.Flat.{cell_in, is_cell};
ghost use Rattle.frame_strand.specs.Keeping.{AreDifferent};
ghost use Rattle.frame_strand.specs.declared.cells.Written.{Written as ShownWritten};
ghost use Rattle.schedule_workers.specs.Rooms.{IsRoomier};
ghost use Rattle.schedule_workers.specs.declared.run.Run.{Run as ShownRun};
ghost use Rattle.schedule_commit.specs.TakingBack.{AreNumbersOf, IsRestored, WasPut};

use crate::cells::{number_in, set};
use crate::taking::write_frame;
use frame_strand::{FrameStrand, Written};
use lists::OutOfMemory;
use schedule_workers::Run;

/// What the cell holds that was written.
fn number_of(row: &[i64], written: &Written) -> i64
    requires { IsTrue (is_cell row.now written.now.at) }
    ensures { cell_in row.now written.now.at ≡ Some result }
{
    number_in(row, written.at)
}

/// The cell that was written holds the number from here on.
fn put_number(row: &mut [i64], written: &Written, number: &i64)
    requires { IsTrue (is_cell row.old written.now.at) }
    ensures long { length row.new ≡ length row.old }
    ensures here { cell_in row.new written.now.at ≡ Some number.now }
    ensures others { (a : ℤ) → a ≢ written.now.at → cell_in row.new a ≡ cell_in row.old a }
{
    set(row, written.at, *number);
}

/// What the cells hold that the strand wrote.
pub(crate) fn numbers_before(run: &Run, strand: &FrameStrand) -> Result<Vec<i64>, OutOfMemory>
    requires { (i : ℕ) (w : ShownWritten) → slice_get strand.now.course.cells.writes i ≡ Some w → IsTrue (is_cell run.now.cells.cells.items w.at) }
    ensures { IfOk result (λ numbers. AreNumbersOf run.now.cells.cells.items strand.now.course.cells.writes numbers.items) }
{
    let row = run.cells.cells.as_slice();
    let writes = strand.writes();
    let mut numbers = Vec::with_capacity(run.alloc, writes.len())?;
    for written in writes {
        numbers.push(number_of(row, written))?;
    }
    Ok(numbers)
}

/// Puts numbers back into the cells that were written.
fn restore(row: &mut [i64], writes: &[Written], numbers: &[i64])
    requires within { (i : ℕ) (w : ShownWritten) → slice_get writes.now i ≡ Some w → IsTrue (is_cell row.old w.at) }
    requires many { length numbers.now ≡ length writes.now }
    requires differ { AreDifferent (map (λ (w : ShownWritten). w.at) writes.now) }
    ensures { IsRestored writes.now numbers.now row.old row.new }
{
    for (index, written) in writes.iter().enumerate() {
        put_number(row, written, &numbers[index]);
    }
}

/// Takes a strand back that was put into the run: the loaded frame and the numbers that the written cells held are there again.
pub(crate) fn take_back(run: &mut Run, slot: usize, strand: &FrameStrand, numbers: &[i64])
    requires { (before : ShownRun) × WasPut before run.old slot strand.now numbers.now }
    ensures { (before : ShownRun) → WasPut before run.old slot strand.now numbers.now → IsRoomier before run.new }
{
    restore(run.cells.cells.as_mut_slice(), strand.writes(), numbers);
    let Some(activation) = run.cactus.frame_mut(slot) else {
        unreachable!()
    };
    let loaded = strand.loaded();
    write_frame(&mut activation.frame, loaded, loaded.waits);
    run.instructions -= strand.done();
}
