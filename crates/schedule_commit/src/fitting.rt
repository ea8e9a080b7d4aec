//! Whether a frame strand fits: its frame is as it was loaded, and so is each cell that it read (validation).

ghost use Rattle.std.specs.Prelude.{◌≡◌, ◌↔◌, ℕ, IsTrue, IfNone, IfSome, Some};
ghost use Rattle.frame_engine.specs.Flat.{cell_in};
ghost use Rattle.frame_strand.specs.Standing.{IsCopy};
ghost use Rattle.schedule_commit.specs.Fitting.{FitsRun, HoldReads};

use crate::cells::cell;
use frame::{Role, Wait};
use frame_engine::{Frame, Place};
use frame_strand::{FrameStrand, Read};
use program::FunctionId;
use schedule_workers::Run;

fn same_function(one: FunctionId, other: FunctionId) -> bool
    ensures { IsTrue result ↔ (one ≡ other) }
{
    one == other
}

fn same_place(one: Place, other: Place) -> bool
    ensures { IsTrue result ↔ (one ≡ other) }
{
    one == other
}

fn same_wait(one: Wait, other: Wait) -> bool
    ensures { IsTrue result ↔ (one ≡ other) }
{
    one == other
}

fn same_role(one: Role, other: Role) -> bool
    ensures { IsTrue result ↔ (one ≡ other) }
{
    one == other
}

fn same_words(one: &[i64], other: &[i64]) -> bool
    ensures { IsTrue result ↔ (one.now ≡ other.now) }
{
    one == other
}

/// Whether the numbers are the same, in the same order.
pub fn same_numbers(one: &[u64], other: &[u64]) -> bool
    ensures { IsTrue result ↔ (one.now ≡ other.now) }
{
    one == other
}

/// Whether the frames are equal, word for word.
pub fn is_same(one: &Frame, other: &Frame) -> bool
    ensures { IsTrue result ↔ IsCopy other.now one.now }
{
    if !same_function(one.function, other.function) || !same_place(one.place, other.place) {
        return false;
    }
    if !same_wait(one.waits, other.waits) || !same_role(one.role, other.role) {
        return false;
    }
    if one.home != other.home || one.made != other.made || one.depth != other.depth {
        return false;
    }
    same_words(one.registers.as_slice(), other.registers.as_slice())
}

/// Whether the cell holds what was read.
fn holds(row: &[i64], read: &Read) -> bool
    ensures { IsTrue result ↔ (cell_in row.now read.now.at ≡ Some read.now.value) }
{
    match cell(row, read.at) {
        Some(number) => number == read.value,
        None => false,
    }
}

/// Whether each cell that was read holds what was read.
pub fn hold_reads(reads: &[Read], row: &[i64]) -> bool
    ensures { IsTrue result ↔ HoldReads reads.now row.now }
{
    for read in reads {
        if !holds(row, read) {
            return false;
        }
    }
    true
}

/// The slot of the worker's frame, where that is the one that the strand was loaded from, and what was read is there.
pub fn fitting_slot(run: &Run, worker: u8, strand: &FrameStrand) -> Option<usize>
    ensures fits { IfSome result (FitsRun run.now worker strand.now) }
    ensures only { IfNone result ((slot : ℕ) → FitsRun run.now worker strand.now slot → ⊥) }
{
    let slot = run.hand(worker)?;
    let node = run.cactus.node(slot)?;
    if same_numbers(node.path.numbers.as_slice(), strand.path())
        && is_same(&node.frame.frame, strand.loaded())
        && hold_reads(strand.reads(), run.cells.cells.as_slice())
    {
        Some(slot)
    } else {
        None
    }
}
