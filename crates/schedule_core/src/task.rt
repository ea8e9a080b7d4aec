//! How a task stands (running, ready, stalled), its frames, and the line of its next instruction.

ghost use Rattle.std.specs.Prelude.{◌≡◌};
ghost use Rattle.schedule_core.specs.Lines as lines;
ghost use Rattle.schedule_core.specs.Viewed.{status_by};

use frame::{Path, Wait, block_at};
use frame_engine::Frame;
use program::{Block, BlockId, FunctionId, Program, RegisterId};
use schedule_workers::Activation;

/// How a task stands.
#[derive(Clone, Copy, PartialEq, Eq)]
pub enum Status {
    /// The worker runs it.
    Running(u8),
    /// No worker runs it; a thief may take it.
    Ready,
    /// It stands at a sync within the region; the last child that it waits for takes it on.
    Stalled(RegisterId),
}

/// A task, between two events. It is named by the path of its lowest frame.
#[derive(Clone, Copy)]
pub struct TaskView<'a> {
    pub path: &'a Path,
    pub status: Status,
    /// The frame whose instruction is next, over words: a register without a value holds any.
    pub top: &'a Frame,
    pub top_path: &'a Path,
    /// The line of that instruction, from 1; of a stalled task the line of its sync. 0 where no instruction stands there.
    pub line: u32,
}

/// How the task stands whose top this is.
pub(crate) fn standing(top: &Activation) -> Status
    ensures { result ≡ status_by top.now.runner top.now.frame.waits }
{
    match (top.runner, top.frame.waits) {
        (Some(worker), _) => Status::Running(worker),
        (None, Wait::Region(region)) => Status::Stalled(region),
        (None, _) => Status::Ready,
    }
}

/// The line of the block's terminator.
fn ending_line(block: &Block) -> Option<u32>
    ensures { result ≡ lines.ending_line block.now }
{
    match &block.ending {
        Some(ending) => Some(ending.line),
        None => None,
    }
}

/// The line of the instruction with this index in the block; behind the last one stands the terminator.
fn line_in(block: &Block, index: usize) -> Option<u32>
    ensures { result ≡ lines.line_in block.now index }
{
    match block.steps.as_slice().get(index) {
        Some(step) => Some(step.line),
        None => ending_line(block),
    }
}

/// The line of the frame's next instruction.
pub(crate) fn next_line(program: &Program, frame: &Frame) -> Option<u32>
    ensures { result ≡ lines.next_line program.now frame.now }
{
    match block_at(program, frame.function, frame.place.block) {
        Some(block) => line_in(block, frame.place.index),
        None => None,
    }
}

/// The line of the block's terminator, where there is such a block.
fn sync_line(program: &Program, function: FunctionId, block: BlockId) -> Option<u32>
    ensures { result ≡ lines.sync_line program.now function block }
{
    match block_at(program, function, block) {
        Some(found) => ending_line(found),
        None => None,
    }
}

/// The line of the frame's next instruction, or of the sync at which it is stalled.
fn standing_line(program: &Program, top: &Activation) -> Option<u32>
    ensures { result ≡ lines.line_by program.now top.now.frame top.now.stalled_in (status_by top.now.runner top.now.frame.waits) }
{
    match standing(top) {
        Status::Stalled(_) => sync_line(program, top.frame.function, top.stalled_in?),
        _ => next_line(program, &top.frame),
    }
}

/// The line at which the task stands whose top this is; 0 where no instruction stands there.
pub(crate) fn line(program: &Program, top: &Activation) -> u32
    ensures { let status = status_by top.now.runner top.now.frame.waits in
        result ≡ lines.line_or_zero (lines.line_by program.now top.now.frame top.now.stalled_in status) }
{
    match standing_line(program, top) {
        Some(line) => line,
        None => 0,
    }
}
