//! The step of a return: the worker goes on with the caller, or the run is over.

ghost use Rattle.std.specs.Prelude.{◌≡◌, ◌<◌, true, ℤ, Option, Some, None, length, vec_len};
ghost use Rattle.semantics.specs.Paths.{Path};
ghost use Rattle.semantics.specs.Frames as frames;
ghost use Rattle.semantics.specs.Frames.{Ends};
ghost use Rattle.semantics.specs.Events.{Step};
ghost use Rattle.semantics.specs.State.{resumed};
ghost use Rattle.program.specs.declared.instruction.Terminator.TheVariants as terminator;
ghost use Rattle.cactus.specs.Frames.{node_at};
ghost use Rattle.cactus.specs.declared.node.Node.{Node};
ghost use Rattle.frame_engine.specs.declared.activation.Places.{Places};
ghost use Rattle.frame_engine.specs.Activation.{ShowsFrame};
ghost use Rattle.frame_engine.specs.Names.{HasResult, taker_of};
ghost use Rattle.frame_engine.specs.Shows.{Layout};
ghost use Rattle.schedule_workers.specs.declared.activation.Activation.{Activation as Living};
ghost use Rattle.schedule_workers.specs.Events.{LeavesStalls};
ghost use Rattle.schedule_workers.specs.Follows.{Follows};
ghost use Rattle.schedule_workers.specs.Going.{DoesStep, StandsSafely, TextFits};
ghost use Rattle.schedule_workers.specs.Scheduling.{hand_of};
ghost use Rattle.schedule_workers.specs.RunShown.{item_here};

use crate::activation::Activation;
use crate::run::Run;
use frame::Wait;
use frame_engine::{Places, taker};
use program::{Operand, Program};

impl Activation {
    /// The worker goes on with the frame, whose call has returned this.
    fn take_result(&mut self, worker: u8, number: Option<i64>)
        requires { HasResult (length self.old.frame.registers.items) (taker_of self.old.frame.waits) }
        ensures only { self.new ≡ record self.old { frame = self.new.frame; callee = None; runner = Some worker } }
        ensures frame { self.new.frame ≡ record self.old.frame { registers = self.new.frame.registers; waits = Wait.Nothing } }
        ensures registers { length self.new.frame.registers.items ≡ length self.old.frame.registers.items }
        ensures shown { (l : Layout) (places : Places) (p : Path) (g : frames.Frame) → ShowsFrame l places p g self.old.frame
            → ShowsFrame l places p (resumed g (taker_of self.old.frame.waits) number) self.new.frame }
    {
        let register = taker(self.frame.waits);
        self.frame.resume(register, number);
        self.callee = None;
        self.runner = Some(worker);
    }
}

impl Run {
    /// The worker's frame, which is in the slot, returns: the worker goes on with its caller, or the run is over.
    pub fn return_with(
        &mut self,
        program: &Program,
        places: &Places,
        worker: u8,
        slot: usize,
        value: Option<Operand>,
    )
        requires text { TextFits program.now places.now (length self.old.moves.items) }
        requires hand { hand_of self.old.hands.items worker ≡ Some slot }
        requires worker { worker < vec_len self.old.hands }
        requires item { (node : Node Living) → node_at self.old.cactus slot ≡ Some node →
            item_here program.now node.frame.frame ≡ Some (Ends (terminator.Return value)) }
        requires safe { StandsSafely program.now places.now self.old }
        ensures steps { DoesStep program.now places.now self.old self.new worker }
        ensures stalls { LeavesStalls program.now places.now self.old self.new (Step worker) true }
        ensures follows { Follows self.old.cactus self.new.cactus }
        ensures workers { length self.new.hands.items ≡ length self.old.hands.items }
        ensures moves { self.new.moves ≡ self.old.moves }
    {
        let over = self.cactus.pop_call(slot);
        let number = over.frame.frame.returned(value);
        self.instructions += 1;
        if let Some(above) = over.parent {
            let Some(caller) = self.cactus.frame_mut(above) else {
                unreachable!()
            };
            caller.take_result(worker, number);
        } else if number.is_some() {
            self.result = number;
        }
        self.set_hand(worker, over.parent);
        self.cactus.keep(over);
    }
}
