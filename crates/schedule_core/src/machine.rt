//! A run of workers between two events: it starts, does an event, is copied, and tells how far it has come.

ghost use Rattle.std.specs.Prelude.{◌↔◌, ◌≡◌, ◌≢◌, [], Err, Ok, IsSome, IsTrue, IfOk, true, false, OnErr, OnOk};
ghost use Rattle.semantics.specs.Events as running;
ghost use Rattle.semantics.specs.Replay.{CountsFrames, has_ended};
ghost use Rattle.schedule_core.specs.Admission.{IsAdmitted};
ghost use Rattle.schedule_core.specs.Spots.{KeepsSpots};
ghost use Rattle.schedule_core.specs.Replaying.{GrowsOnly, Happens, IsMachine, KeepsItsSchedule, KeepsSchedules, LeavesAsBefore};
ghost use Rattle.schedule_core.specs.Replaying.{Replays, ReplaysOneMore, StandsAsWell, event_of};
ghost use Rattle.serial_machine.specs.store.Made.{IsMadeFor};
ghost use Rattle.schedule_core.specs.Stages.{IsState, program_of};

use crate::events::{apply_to, begin, copied};
use crate::stage::Stage;
use frame::Event;
use lists::OutOfMemory;
use serial_machine::{Memory, RunFault, Verified};
use std::alloc::Global;

/// A run of a verified module by workers, between two events.
#[derive(Drop)]
pub struct Machine<'v> {
    pub(crate) stage: Stage<'v>,
    ghost kept: { ∥ IsMachine stage ∥₁ },
}

impl<'v> Machine<'v> {
    /// The state before the first event: worker 0 runs the root at the entry of `main`, the other workers are idle. The
    /// memory was made for this module.
    ///
    /// # Errors
    ///
    /// 801 where the arguments are not those of `main`, then 802 where there are not from 1 to 64 workers; both hand the
    /// memory back. 803 where memory is refused.
    pub fn start(
        alloc: Global,
        verified: &'v Verified,
        arguments: &[i64],
        memory: Memory,
        workers: usize,
    ) -> Result<Machine<'v>, RunFault>
        requires { IsMadeFor verified.now memory }
        ensures replays { IfOk result (λ m. Replays verified.now arguments.now memory workers [] m.stage) }
        ensures schedule { OnOk result (KeepsItsSchedule verified.now arguments.now memory workers []) }
        ensures admitted { IsAdmitted verified.now arguments.now memory workers result }
        ensures not_stopped { result ≢ Err RunFault.Stopped }
    {
        let stage = begin(alloc, verified, arguments, memory, workers)?;
        Ok(Machine { stage })
    }

    /// One event. The answer is whether it was enabled; where it was not, nothing changes.
    ///
    /// # Errors
    ///
    /// Memory was refused: nothing has changed that is seen of the machine. Only a step that makes a frame takes memory.
    pub fn apply(&mut self, event: &Event) -> Result<bool, OutOfMemory>
        ensures enabled { IfOk result (Happens self.old.stage self.new.stage (event_of event.now)) }
        ensures not_enabled { result ≡ Ok false → self.new.stage ≡ self.old.stage }
        ensures refused { OnErr result (LeavesAsBefore self.old.stage self.new.stage) }
        ensures only { OnErr result ((m : running.Machine) → IsState self.old.stage m → GrowsOnly (program_of self.old.stage) m event.now) }
        ensures over { (m : running.Machine) → IsState self.old.stage m → has_ended m ≡ true → result ≡ Ok false }
        ensures keeps { OnOk result (ReplaysOneMore self.old.stage self.new.stage event.now) }
        ensures spots { KeepsSpots self.old.stage.run.cactus self.new.stage.run.cactus }
        ensures names { self.new.stage.memory ≡ self.old.stage.memory }
    {
        apply_to(&mut self.stage, event)
    }

    /// The schedule theorem of whatever events led here, and of every list that goes on from them.
    pub fn keeps_schedules(&self)
        ensures { KeepsSchedules self.now.stage }
    {
        // for what it says of the module: that it is accepted
        let _accepted = self.stage.verified.program();
    }

    /// A copy of the machine.
    ///
    /// # Errors
    ///
    /// Memory was refused.
    pub fn copy(&self) -> Result<Machine<'v>, OutOfMemory>
        ensures same { IfOk result (λ m. StandsAsWell self.now.stage m.stage) }
    {
        let stage = copied(&self.stage)?;
        Ok(Machine { stage })
    }

    /// Whether `main` has returned.
    pub fn ended(&self) -> bool
        ensures { (m : running.Machine) → IsState self.now.stage m → IsTrue result ↔ IsSome m.core.result }
    {
        self.stage.run.result.is_some()
    }

    /// The number of living frames.
    pub fn live_frames(&self) -> u64
        ensures { (m : running.Machine) → IsState self.now.stage m → CountsFrames m.core result }
    {
        self.stage.run.cactus.live_frames()
    }

    /// The number of instructions that were executed, terminators counted, phis not.
    pub fn instructions(&self) -> u64
        ensures { (m : running.Machine) → IsState self.now.stage m → result ≡ m.core.done }
    {
        self.stage.run.instructions
    }

    /// The most frames from the root to a frame that ever lived.
    pub fn peak(&self) -> u64
        ensures { (m : running.Machine) → IsState self.now.stage m → result ≡ m.core.peak }
    {
        self.stage.run.peak
    }

    /// What `main` returned.
    pub fn result(&self) -> Option<i64>
        ensures { (m : running.Machine) → IsState self.now.stage m → result ≡ m.core.result }
    {
        self.stage.run.result
    }
}
