//! Strands: what a worker does outside of the machine, as lists of effects that the machine takes over at once. There is no code to run here.
//!
//! - `Footprint`: the cells that a frame strand read and wrote, and the deltas that it adds.
//! - `FrameStrands`: what a frame strand is, and where it pauses.
//! - `Law`: a frame strand that fits a machine is steps of the worker that runs its frame.
//! - `stacks`: strands, over borders, with a stack of frames.
#![tactic(auto)]

ghost use Rattle.laws_strands.specs.Law.{ReachedNeverTraps, FrameReadsAreThere, FrameStrandsAreSteps, FrameStrandsAreStepsWhereDefined, FrameStrandsGoOverBorders};

pub mod stacks;

pub use stacks::{
    any_memory_serves, ends_match, reached_are_orderly, reads_are_there, sample_goes_over_borders,
    strands_are_steps, strands_count, strands_go_over_borders, strands_keep, strands_leave_tasks,
    writes_are_seen,
};

/// Where the frame and the reads of a strand are those of a machine that never traps, the strand is as many steps of the worker that runs
/// the frame: each is enabled, and after them the machine is what it was but for the strand's frame, writes, deltas and count.
pub fn frame_strands_are_steps()
    ensures { FrameStrandsAreSteps }
{}

/// A strand is as many steps of its worker, and none of them traps, from any machine that has not trapped, where the loaded frame may go on
/// and each cell that the strand wrote holds a value.
pub fn frame_strands_are_steps_where_defined()
    ensures { FrameStrandsAreStepsWhereDefined }
{}

/// The strand's steps and one more of the worker, as at a border: it is enabled and does not trap.
pub fn frame_strands_go_over_borders()
    ensures { FrameStrandsGoOverBorders }
{}

/// Where no schedule from a machine traps, none does from a machine that a schedule leads it to.
pub fn reached_never_traps()
    ensures { ReachedNeverTraps }
{}

/// Where a worker of a machine that never traps runs the loaded frame, and each cell that the strand read holds what was read or nothing,
/// it holds what was read: the strand fits.
pub fn frame_reads_are_there()
    ensures { FrameReadsAreThere }
{}
