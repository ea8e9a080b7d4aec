//! Strands: what one worker does outside of the machine from a frame on, across calls, detaches, and what ends them. There is no code to run here.
//!
//! - `Footprint`: the cells that a strand read and wrote, and the deltas that it adds.
//! - `Strands`: what a strand is.
//! - `Law`: a strand that fits a machine is steps of the worker that runs its base.

ghost use Rattle.laws_strands.specs.stacks.Strands.{AnyMemoryServes, WritesAreSeen};
ghost use Rattle.laws_strands.specs.stacks.Sample.{SampleGoesOverBorders};
ghost use Rattle.laws_strands.specs.stacks.Law.{EndsMatch, ReadsAreThere, StrandsAreSteps, StrandsCount, StrandsGoOverBorders, StrandsKeep, StrandsLeaveTasks, ReachedAreOrderly};

/// Where the base and the reads of a strand are those of a machine that never traps, the strand is as many steps of the worker that
/// runs the base: each is enabled, and after them the machine is what it was but for the strand's frames, writes, deltas, count and top frame.
pub fn strands_are_steps()
    ensures { StrandsAreSteps }
{}

/// The strand's steps and one more of the worker, as where the base ends: it is enabled and does not trap.
pub fn strands_go_over_borders()
    ensures { StrandsGoOverBorders }
{}

/// Where a worker of a machine that never traps runs the base, and each cell that the strand read holds what was read or nothing, it holds
/// what was read: the strand fits.
pub fn reads_are_there()
    ensures { ReadsAreThere }
{}

/// After the strand's steps the worker runs its top frame's task, and the tasks of the frames behind its detaches are ready for thieves.
pub fn strands_leave_tasks()
    ensures { StrandsLeaveTasks }
{}

/// After the strand's steps each of its frames has one living child at most beside the base's older ones: the frame above it.
pub fn strands_count()
    ensures { StrandsCount }
{}

/// What holds whatever the cells hold, and is kept by each step, holds wherever a strand comes that begins where it holds.
pub fn strands_keep()
    ensures { StrandsKeep }
{}

/// Where the top frame of a strand ends, the frame below waits for just such an end.
pub fn ends_match()
    ensures { EndsMatch }
{}

/// Each machine that a schedule leads to without a trap is orderly.
pub fn reached_are_orderly()
    ensures { ReachedAreOrderly }
{}

/// A strand's next action is what its top frame does with any memory that holds what the strand read and has what it wrote.
pub fn any_memory_serves()
    ensures { AnyMemoryServes }
{}

/// What the strand keeps of writes and adds is what a whole memory would hold after them.
pub fn writes_are_seen()
    ensures { WritesAreSeen }
{}

/// A sample program's root goes over a detach, a call, a return, a reattach and a sync in one strand.
pub fn sample_goes_over_borders()
    ensures { SampleGoesOverBorders }
{}
