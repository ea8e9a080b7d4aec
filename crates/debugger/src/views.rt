//! What else is seen of the state at the position: frames with their registers, cells of allocas, and what workers run.

ghost use Rattle.std.specs.Prelude.{◌≡◌, IfNone, IfOk, IfSome, None};
ghost use Rattle.schedule_core.specs.FrameViews.{AreLiving, IsFrameAt, IsHeldBy};
ghost use Rattle.schedule_core.specs.Stages.{IsState};
ghost use Rattle.schedule_core.specs.Viewed.{IsRunBy, place_in};
ghost use Rattle.debugger.specs.Sessions.{Debugs, Session, state_at};

use crate::debugger::Debugger;
use frame::Path;
use lists::OutOfMemory;
use schedule_core::{Event, FrameView, Machine, TaskView};
use std::alloc::Global;

impl<'v> Debugger<'v> {
    /// The events of the schedule.
    pub fn events(&self) -> &[Event]
        ensures { result.now ≡ self.now.events.items }
    {
        self.events.as_slice()
    }

    /// The state at the position.
    pub fn machine(&self) -> &Machine<'v>
        ensures { (s : Session) → Debugs s self.now → IsState result.now.stage (state_at s self.now.position) }
    {
        &self.machine
    }

    /// The paths of the living frames, in no order that tells.
    ///
    /// # Errors
    ///
    /// Memory was refused.
    pub fn paths(&self, alloc: Global) -> Result<Vec<Path>, OutOfMemory>
        ensures { IfOk result (λ paths. (s : Session) → Debugs s self.now → AreLiving (state_at s self.now.position) paths.items) }
    {
        self.machine.paths(alloc)
    }

    /// The frame of the path, with its registers; none where no such frame lives.
    pub fn show_frame(&self, path: &Path) -> Option<FrameView<'_>>
        ensures shown { (s : Session) → Debugs s self.now → IfSome result (IsFrameAt self.now.machine.stage (state_at s self.now.position) path.now) }
        ensures absent { (s : Session) → Debugs s self.now → IfNone result ((state_at s self.now.position).core.frames (place_in path.now) ≡ None) }
    {
        self.machine.frame(path)
    }

    /// What a cell of an alloca holds, of the frame of this path; none where no such frame lives, or its function has no such alloca. A cell without a
    /// value may hold any, and an index behind the last cell gives what stands there.
    pub fn show_alloca(&self, path: &Path, alloca: usize, index: u64) -> Option<i64>
        ensures { (s : Session) → Debugs s self.now → IsHeldBy self.now.machine.stage (state_at s self.now.position) path.now alloca index result }
    {
        self.machine.alloca_cell(path, alloca, index)
    }

    /// The task that the worker runs; none where it is idle, and where there is no such worker.
    pub fn show_worker(&self, worker: u8) -> Option<TaskView<'_>>
        ensures shown { (s : Session) → Debugs s self.now → IfSome result (IsRunBy self.now.machine.stage (state_at s self.now.position) worker) }
        ensures idle { (s : Session) → Debugs s self.now → IfNone result ((state_at s self.now.position).hands worker ≡ None) }
    {
        self.machine.task_of(worker)
    }
}
