//! Cells of the board's row: read and set, and a strand's writes and adds put into it.

ghost use Rattle.std.specs.Prelude.{◌≡◌, ◌≢◌, ℕ, ℤ, IsTrue, Some, None, map, slice_get, length, IfOk};
ghost use Rattle.frame_engine.specs.Flat.{cell_in, is_cell};
ghost use Rattle.frame_strand.specs.Keeping.{AreDifferent};
ghost use Rattle.frame_strand.specs.declared.cells.Written.{Written as ShownWritten};
ghost use Rattle.schedule_commit.specs.Putting.{IsPutInto, put_change};

use frame_engine::sum;
use frame_strand::{Change, Written};

/// What the row's cell at an address holds; none where there is no such cell.
pub fn cell(row: &[i64], at: i64) -> Option<i64>
    ensures { result ≡ cell_in row.now at }
{
    if at < 0 {
        return None;
    }
    row.get(at as usize).copied()
}

/// What the row's cell at an address holds.
pub(crate) fn number_in(row: &[i64], at: i64) -> i64
    requires { IsTrue (is_cell row.now at) }
    ensures { cell_in row.now at ≡ Some result }
{
    row[at as usize]
}

/// Writes the cell at an address of the row.
pub(crate) fn set(row: &mut [i64], at: i64, number: i64)
    requires { IsTrue (is_cell row.old at) }
    ensures long { length row.new ≡ length row.old }
    ensures here { cell_in row.new at ≡ Some number }
    ensures others { (a : ℤ) → a ≢ at → cell_in row.new a ≡ cell_in row.old a }
{
    row[at as usize] = number;
}

/// Puts a change into the row's cell.
fn put(row: &mut [i64], written: &Written)
    requires { IsTrue (is_cell row.old written.now.at) }
    ensures long { length row.new ≡ length row.old }
    ensures here { cell_in row.new written.now.at ≡ put_change (Some written.now.change) (cell_in row.old written.now.at) }
    ensures others { (a : ℤ) → a ≢ written.now.at → cell_in row.new a ≡ cell_in row.old a }
{
    match written.change {
        Change::Stored(number) => set(row, written.at, number),
        Change::Delta(number) => {
            let held = number_in(row, written.at);
            set(row, written.at, sum(held, number));
        }
    }
}

/// Puts what a strand wrote into a row of cells.
pub fn put_writes(row: &mut [i64], writes: &[Written])
    requires within { (i : ℕ) (w : ShownWritten) → slice_get writes.now i ≡ Some w → IsTrue (is_cell row.old w.at) }
    requires differ { AreDifferent (map (λ (w : ShownWritten). w.at) writes.now) }
    ensures { IsPutInto writes.now row.old row.new }
{
    for written in writes {
        put(row, written);
    }
}
