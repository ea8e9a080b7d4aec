//! Tasks by path or by worker, the ready task of least path, and the block and item where a task's frame stands.

ghost use Rattle.std.specs.Prelude.{◌≡◌, ◌↔◌, ◌<◌, None, Some, IsSome, IsSomeAnd, IfNone, IfSome};
ghost use Rattle.std.specs.Option.{option_copied, option_map};
ghost use Rattle.cactus.specs.Frames.{Lives, HasPath, frame_at, node_of_use};
ghost use Rattle.cactus.specs.ByPath.{IsTree};
ghost use Rattle.semantics.specs.Events as running;
ghost use Rattle.schedule_workers.specs.Tasks.{IsReady};
ghost use Rattle.schedule_core.specs.Replaying.{HasLine};
ghost use Rattle.schedule_core.specs.Stages.{IsState, workers_of};
ghost use Rattle.schedule_core.specs.Viewed.{Advances, IsFirstReady, IsLesser, IsNamedBelow, IsNoneReady, IsReadyAt};
ghost use Rattle.schedule_core.specs.Viewed.{IsRunBy, IsTask, Shows, place_in, status_in};

use crate::machine::Machine;
use crate::task::{TaskView, line, standing};
use frame::Path;
use std::cmp::Ordering;

/// The lesser of two paths.
fn lesser<'a>(first: &'a Path, path: &'a Path) -> &'a Path
    ensures { IsLesser (Some first.now) path.now result.now }
{
    match path.compare(first) {
        Ordering::Less => path,
        _ => first,
    }
}

/// The lesser of the path and another, if there is another.
fn lesser_of<'a>(first: Option<&'a Path>, path: &'a Path) -> &'a Path
    ensures { IsLesser (option_copied first.entry) path.now result.now }
{
    match first {
        Some(other) => lesser(other, path),
        None => path,
    }
}

impl Machine<'_> {
    /// The task with this lowest frame and this top.
    fn view(&self, lowest: usize, top: usize) -> Option<TaskView<'_>>
        ensures shown { IfSome result (λ view. Shows self.now.stage lowest top view) }
        ensures found { Lives self.now.stage.run.cactus lowest → Lives self.now.stage.run.cactus top → IsSome result }
    {
        let path = &self.stage.run.cactus.node(lowest)?.path;
        let node = self.stage.run.cactus.node(top)?;
        Some(TaskView {
            path,
            status: standing(&node.frame),
            top: &node.frame.frame,
            top_path: &node.path,
            line: line(self.stage.verified.program(), &node.frame),
        })
    }

    /// The task of the path; none where the path is no task's.
    pub fn task(&self, path: &Path) -> Option<TaskView<'_>>
        ensures shown { (m : running.Machine) → IsState self.now.stage m → IfSome result (IsTask self.now.stage m path.now) }
        ensures absent { (m : running.Machine) → IsState self.now.stage m → IfNone result (status_in (workers_of self.now.stage) m path.now ≡ None) }
        ensures line { IfSome result (HasLine self.now.stage (place_in path.now)) }
    {
        let top = self.stage.run.top_of(path)?;
        let (lowest, _generation) = self.stage.run.cactus.spot(path)?;
        self.view(lowest, top)
    }

    /// The task that the worker runs; none where it is idle.
    pub fn task_of(&self, worker: u8) -> Option<TaskView<'_>>
        ensures shown { (m : running.Machine) → IsState self.now.stage m → IfSome result (IsRunBy self.now.stage m worker) }
        ensures idle { (m : running.Machine) → IsState self.now.stage m → IfNone result (m.hands worker ≡ None) }
        ensures line { IfSome result (λ view. HasLine self.now.stage (place_in view.path.now) view) }
    {
        let top = self.stage.run.hand(worker)?;
        self.view(self.stage.run.lowest_below(top)?, top)
    }

    /// The path of the task on which the slot's frame stands.
    fn lowest_path(&self, slot: usize) -> Option<&Path>
        ensures shown { IfSome (option_copied result) (IsNamedBelow self.now.stage.run.cactus slot) }
        ensures found { IsTree self.now.stage.run.cactus → Lives self.now.stage.run.cactus slot → IsSome result }
    {
        let lowest = self.stage.run.lowest_below(slot)?;
        Some(&self.stage.run.cactus.node(lowest)?.path)
    }

    /// The path of the task of which the slot's frame is the top, where the task is ready.
    fn ready_task(&self, slot: usize) -> Option<&Path>
        ensures shown { IfSome (option_copied result) (IsReadyAt self.now.stage.run.cactus slot) }
        ensures absent { IsTree self.now.stage.run.cactus → IfNone (option_copied result) (¬ IsSomeAnd (frame_at self.now.stage.run.cactus slot) IsReady) }
    {
        let node = self.stage.run.cactus.node(slot)?;
        if node.frame.is_ready() {
            self.lowest_path(slot)
        } else {
            None
        }
    }

    /// The lesser of the path, if there is one, and that of the task of which the slot's frame is the top, if it is ready.
    fn first_of<'a>(&'a self, first: Option<&'a Path>, slot: usize) -> Option<&'a Path>
        ensures { Advances self.now.stage.run.cactus slot (option_copied first.entry) (option_copied result) }
    {
        match self.ready_task(slot) {
            Some(path) => Some(lesser_of(first, path)),
            None => first,
        }
    }

    /// The path of the ready task of least path.
    pub fn first_ready(&self) -> Option<&Path>
        ensures least { (m : running.Machine) → IsState self.now.stage m → IfSome (option_copied result) (IsFirstReady (workers_of self.now.stage) m) }
        ensures none { (m : running.Machine) → IsState self.now.stage m → IfNone (option_copied result) (IsNoneReady (workers_of self.now.stage) m) }
    {
        let mut first: Option<&Path> = None;
        for (slot, _node) in self.stage.run.cactus.iter() {
            first = self.first_of(first, slot);
        }
        first
    }

    /// The slot and the generation of the frame of this path; none where no such frame lives.
    pub fn spot(&self, path: &Path) -> Option<(usize, u64)>
        ensures found { IfSome result (λ spot. HasPath self.now.stage.run.cactus spot.0 spot.1 path.now) }
        ensures given { IfSome result (λ spot. spot.1 < self.now.stage.run.cactus.made) }
        ensures lives { (m : running.Machine) → IsState self.now.stage m → IsSome result ↔ IsSome (m.core.frames (place_in path.now)) }
    {
        self.stage.run.cactus.spot(path)
    }

    /// The path of the frame that lives in this use of a slot.
    pub fn path_at(&self, slot: usize, generation: u64) -> Option<&Path>
        ensures { option_copied result ≡ option_map (λ node. node.path) (node_of_use self.now.stage.run.cactus slot generation) }
    {
        self.stage.run.cactus.path_at(slot, generation)
    }
}
