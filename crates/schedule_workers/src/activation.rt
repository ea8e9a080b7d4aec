//! A living frame with what the scheduler keeps of it: counts of children, callee, runner, stall.

ghost use Rattle.std.specs.Prelude.{◌≡◌, ◌↔◌, ℕ, IfOk, IsTrue, Some, None, length};
ghost use Rattle.schedule_workers.specs.Scheduling.{counted_in};
ghost use Rattle.schedule_workers.specs.Tasks.{IsReady};

use frame::Wait;
use frame_engine::Frame;
use lists::OutOfMemory;
use program::BlockId;
use std::alloc::Global;
use sync_join::RegionCounts;

/// A living frame with what the scheduler knows of it. A task is a frame that no call made, with the frames called on top of it, one on
/// the other; the uppermost is the task's top.
#[derive(Drop)]
pub struct Activation {
    pub frame: Frame,
    /// By the register that names a region: the children that the frame detached within it and that still live.
    pub counts: RegionCounts,
    /// The slot of the frame that this one called and waits for.
    pub callee: Option<usize>,
    /// The worker that runs the task of which this frame is the top.
    pub runner: Option<u8>,
    /// The block at whose sync the frame stalls; the frame itself stands at the sync's target.
    pub stalled_in: Option<BlockId>,
}

impl Activation {
    /// A frame that the worker begins to run.
    pub fn new(alloc: Global, frame: Frame, worker: u8) -> Result<Activation, OutOfMemory>
        ensures is { IfOk result (λ a. a ≡ record { frame = frame; counts = a.counts; callee = None; runner = Some worker; stalled_in = None }) }
        ensures none { IfOk result (λ a. (region : ℕ) → counted_in a region ≡ 0) }
        ensures as_many { IfOk result (λ a. length a.counts.items ≡ length frame.registers.items) }
    {
        Activation::with_counts(RegionCounts::new(alloc), frame, worker)
    }

    /// A frame that the worker begins to run, with its counts in this list, whatever it holds.
    pub fn with_counts(
        mut counts: RegionCounts,
        frame: Frame,
        worker: u8,
    ) -> Result<Activation, OutOfMemory>
        ensures is { IfOk result (λ a. a ≡ record { frame = frame; counts = a.counts; callee = None; runner = Some worker; stalled_in = None }) }
        ensures none { IfOk result (λ a. (region : ℕ) → counted_in a region ≡ 0) }
        ensures as_many { IfOk result (λ a. length a.counts.items ≡ length frame.registers.items) }
    {
        counts.restart(frame.registers.len())?;
        Ok(Activation {
            frame,
            counts,
            callee: None,
            runner: Some(worker),
            stalled_in: None,
        })
    }

    /// Whether the frame is the top of a task that a thief may take.
    pub fn is_ready(&self) -> bool
        ensures { IsTrue result ↔ IsReady self.now }
    {
        self.runner.is_none() && self.frame.waits == Wait::Nothing
    }

    /// The worker goes on with the frame. A sync at which it stalled was counted there, and is not done again.
    pub fn run_by(&mut self, worker: u8)
        ensures { self.new ≡ record self.old { runner = Some worker; stalled_in = None } }
    {
        self.stalled_in = None;
        self.runner = Some(worker);
    }
}
