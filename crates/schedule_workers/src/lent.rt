//! Cells that are lent to workers, for the allocas of frames that they make apart from the run.

ghost use Rattle.std.specs.Prelude.{◌≡◌, ◌↔◌, ◌+◌, ◌≤◌, ℕ, IfNone, IfSome, IsTrue, OnOk, slice_get};
ghost use Rattle.schedule_workers.specs.Lent.{AllAreClearOf, IsClearOf, IsFree, IsVacant, Lends, place_at};
ghost use Rattle.program.specs.declared.function.Program.{Program as Text};
ghost use Rattle.frame_engine.specs.declared.activation.Places.{Places};
ghost use Rattle.schedule_workers.specs.Left.{LeavesAsShown};
ghost use Rattle.schedule_workers.specs.RunShown.{LiesWithin, cells_in};

use crate::run::{Block, Run};
use frame::Role;
use frame_engine::{Frame, frame_cells};
use lists::OutOfMemory;
use program::{Function, FunctionId, Program};

/// Whether so many cells from the start on end at the limit or before it.
fn ends_by(start: usize, cells: usize, limit: usize) -> bool
    ensures { IsTrue result ↔ (start + cells ≤ limit) }
{
    match start.checked_add(cells) {
        Some(end) => end <= limit,
        None => false,
    }
}

/// Whether the block lies within the other.
fn lies_within(outer: Block, block: Block) -> bool
    ensures { IsTrue result ↔ LiesWithin outer block }
{
    match block.start.checked_sub(outer.start) {
        Some(offset) => ends_by(offset, block.cells, outer.cells),
        None => false,
    }
}

/// The place of a frame's home in the row.
pub(crate) fn home_place(home: i64) -> usize
    ensures { result ≡ place_at home }
{
    if home < 0 {
        0
    } else {
        home.cast_unsigned() as usize
    }
}

/// The cells of the function's allocas; none where 64 bits don't count them.
fn own_cells(program: &Program, function: FunctionId) -> Option<usize>
    ensures some { IfSome result (λ n. n ≡ cells_in (slice_get program.now.functions function.0)) }
    ensures none { IfNone result (18446744073709551616 ≤ cells_in (slice_get program.now.functions function.0)) }
{
    match program.functions.as_slice().get(function.0) {
        Some(function) => frame_cells(function.allocas.as_slice()),
        None => Some(0),
    }
}

/// Where the allocas of a function's frame end; none where 64 bits don't tell.
pub(crate) fn own_end(program: &Program, frame: &Frame) -> Option<usize>
    ensures some { IfSome result (λ end. end ≡ place_at frame.now.home + cells_in (slice_get program.now.functions frame.now.function.0)) }
    ensures none { IfNone result (18446744073709551616 ≤ place_at frame.now.home + cells_in (slice_get program.now.functions frame.now.function.0)) }
{
    let cells = own_cells(program, frame.function)?;
    home_place(frame.home).checked_add(cells)
}

/// Whether the frame's own allocas are beside the part.
fn is_clear_of(program: &Program, part: Block, frame: &Frame) -> bool
    ensures { IsTrue result ↔ IsClearOf program.now part frame.now }
{
    let home = home_place(frame.home);
    if frame.role != Role::Body || ends_by(part.start, part.cells, home) {
        return true;
    }
    match own_end(program, frame) {
        Some(end) => end == home || end <= part.start,
        None => false,
    }
}

/// Whether no function has allocas.
fn have_no_allocas(functions: &[Function]) -> bool
    ensures { IsTrue result → (function : ℕ) → cells_in (slice_get functions.now function) ≡ 0 }
{
    for function in functions {
        if !function.allocas.is_empty() {
            return false;
        }
    }
    true
}

impl Run {
    /// Whether the functions say that no frame has allocas. They are not asked where there are more of them than living frames, which tell it as fast.
    pub(crate) fn needs_no_allocas(&self, program: &Program) -> bool
        ensures { IsTrue result → (function : ℕ) → cells_in (slice_get program.now.functions function) ≡ 0 }
    {
        let functions = program.functions.as_slice();
        functions.len() as u64 <= self.cactus.live_frames() && have_no_allocas(functions)
    }

    /// Whether no living frame has its allocas in the part.
    fn all_are_clear_of(&self, program: &Program, part: Block) -> bool
        ensures { IsTrue result ↔ AllAreClearOf program.now self.now part }
    {
        if self.needs_no_allocas(program) {
            return true;
        }
        for (_slot, node) in self.cactus.iter() {
            if !is_clear_of(program, part, &node.frame.frame) {
                return false;
            }
        }
        true
    }

    /// Whether the part, which has cells, is one of what is lent, and no living frame's.
    fn is_vacant(&self, program: &Program, part: Block) -> bool
        ensures { IsTrue result ↔ IsVacant program.now self.now part }
    {
        lies_within(self.lent, part)
            && self.end <= self.cells.cells.len()
            && self.all_are_clear_of(program, part)
    }

    /// Whether a worker may have the part for frames that it makes apart from the run.
    pub fn is_free(&self, program: &Program, part: Block) -> bool
        ensures { IsTrue result ↔ IsFree program.now self.now part }
    {
        ends_by(part.start, part.cells, self.cells.cells.len())
            && (part.cells == 0 || self.is_vacant(program, part))
    }

    /// Lends so many cells to the workers, where none are lent yet. Nothing changes that is seen of the run.
    ///
    /// # Errors
    ///
    /// Memory was refused.
    pub fn lend(&mut self, cells: usize) -> Result<(), OutOfMemory>
        ensures only { self.new ≡ record self.old { cells = self.new.cells; lent = self.new.lent; end = self.new.end } }
        ensures lends { OnOk result (Lends cells self.old self.new) }
        ensures left { (prog : Text) (places : Places) → LeavesAsShown prog places self.old self.new }
    {
        if self.lent.cells != 0 {
            return Ok(());
        }
        let Some(end) = self.end.checked_add(cells) else {
            return Err(OutOfMemory);
        };
        let missing = end.saturating_sub(self.cells.cells.len());
        self.cells.grow(missing)?;
        self.lent = Block {
            start: self.end,
            cells,
        };
        self.end = end;
        Ok(())
    }
}
