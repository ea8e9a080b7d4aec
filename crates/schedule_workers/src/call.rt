//! The step of a call: the callee's frame is made on top, and the worker goes on with it.

ghost use Rattle.std.specs.Prelude.{◌≡◌, ◌+◌, ◌<◌, ◌≤◌, true, ℕ, IfOk, OnErr, OnOk, Some, length, max, slice_get, vec_len};
ghost use Rattle.semantics.specs.Paths.{Path};
ghost use Rattle.semantics.specs.Events.{Step};
ghost use Rattle.semantics.specs.Frames as frames;
ghost use Rattle.semantics.specs.Frames.{Does};
ghost use Rattle.semantics.specs.State.{waiting};
ghost use Rattle.program.specs.declared.instruction.Argument.{Argument as Passed};
ghost use Rattle.program.specs.declared.instruction.Instruction.TheVariants as instruction;
ghost use Rattle.cactus.specs.Frames.{node_at};
ghost use Rattle.cactus.specs.declared.node.Node.{Node};
ghost use Rattle.frame_engine.specs.declared.activation.Places.{Places};
ghost use Rattle.frame_engine.specs.Activation.{ShowsFrame, allocas_of};
ghost use Rattle.frame_engine.specs.Names.{HasArgument, sizes};
ghost use Rattle.frame_engine.specs.Shows.{Layout};
ghost use Rattle.schedule_workers.specs.declared.activation.Activation.{Activation as Living};
ghost use Rattle.schedule_workers.specs.Calls.{IsCallee, waiting_on};
ghost use Rattle.schedule_workers.specs.Events.{Grows, LeavesStalls};
ghost use Rattle.schedule_workers.specs.Follows.{Follows};
ghost use Rattle.schedule_workers.specs.Rooms.{IsRoomier};
ghost use Rattle.schedule_workers.specs.Scheduling.{hand_of};
ghost use Rattle.schedule_workers.specs.RunShown.{item_here};
ghost use Rattle.schedule_workers.specs.Going.{DoesStep, StandsSafely, TextFits};

use crate::activation::Activation;
use crate::run::Run;
use frame::{Role, Wait};
use frame_engine::{Places, blank, frame_cells, function_at};
use lists::OutOfMemory;
use program::{Argument, FunctionId, Program, RegisterId};
use std::alloc::Global;

/// A call: the function, what it is passed, and the register for its value.
#[derive(Clone, Copy)]
pub struct Call<'a> {
    pub register: Option<RegisterId>,
    pub callee: FunctionId,
    pub arguments: &'a [Argument],
}

impl Activation {
    /// The frame of this frame's call, whose function has so many registers; the worker begins it.
    fn callee_of(
        &self,
        alloc: Global,
        places: &Places,
        worker: u8,
        call: Call<'_>,
        registers: usize,
        start: usize,
    ) -> Result<Activation, OutOfMemory>
        requires depth { self.now.frame.depth + 1 < 18446744073709551616 }
        requires there { self.now.frame.function.0 < length places.now.allocas }
        requires names { (k : ℕ) (a : Passed) → slice_get call.arguments.now k ≡ Some a
            → HasArgument (sizes (length self.now.frame.registers.items) (length places.now.globals)
            (length (allocas_of places.now self.now.frame.function.0))) a }
        requires room { length call.arguments.now ≤ registers }
        requires start { start < 9223372036854775808 }
        ensures { IfOk result (IsCallee places.now self.now.frame worker call.entry.callee registers call.entry.arguments.now start) }
    {
        let mut frame = blank(alloc);
        self.frame.call_into(
            places,
            &mut frame,
            call.callee,
            registers,
            call.arguments,
            (start as u64).cast_signed(),
        )?;
        frame.role = Role::Body;
        frame.waits = Wait::Nothing;
        Activation::new(alloc, frame, worker)
    }

    /// The frame waits for the call that it has just made, whose frame is in the child's slot. No worker runs it then.
    fn wait_for(&mut self, register: Option<RegisterId>, child: usize)
        requires made { self.old.frame.made + 1 < 18446744073709551616 }
        requires index { self.old.frame.place.index + 1 < 18446744073709551616 }
        ensures is { self.new ≡ waiting_on register child self.old }
        ensures shown { (l : Layout) (places : Places) (p : Path) (g : frames.Frame) → ShowsFrame l places p g self.old.frame
            → ShowsFrame l places p (waiting g register) self.new.frame }
    {
        self.frame.wait_for_call(register);
        self.callee = Some(child);
        self.runner = None;
    }
}

impl Run {
    /// A frame of this depth begins by an instruction.
    fn count_call(&mut self, depth: usize)
        requires counted { self.old.instructions + 1 < 18446744073709551616 }
        requires depth { depth + 1 < 18446744073709551616 }
        ensures { self.new ≡ record self.old { instructions = self.old.instructions + 1; peak = max self.old.peak (depth + 1) } }
    {
        self.instructions += 1;
        self.peak = self.peak.max(depth as u64 + 1);
    }

    /// The worker's frame, which is in the slot, does the call, and the worker goes on with the callee. Where memory is refused the
    /// run is as it was, with more room at most.
    pub fn call(
        &mut self,
        program: &Program,
        places: &Places,
        worker: u8,
        slot: usize,
        call: Call<'_>,
    ) -> Result<(), OutOfMemory>
        requires text { TextFits program.now places.now (length self.old.moves.items) }
        requires hand { hand_of self.old.hands.items worker ≡ Some slot }
        requires worker { worker < vec_len self.old.hands }
        requires item { (node : Node Living) → node_at self.old.cactus slot ≡ Some node →
            item_here program.now node.frame.frame ≡ Some (Does (instruction.Call call.register call.callee call.arguments.now)) }
        requires safe { StandsSafely program.now places.now self.old }
        ensures steps { OnOk result (DoesStep program.now places.now self.old self.new worker) }
        ensures stalls { OnOk result (LeavesStalls program.now places.now self.old self.new (Step worker) true) }
        ensures follows { Follows self.old.cactus self.new.cactus }
        ensures left { OnErr result (IsRoomier self.old self.new) }
        ensures grows { OnErr result (Grows program.now places.now self.old worker) }
        ensures workers { length self.new.hands.items ≡ length self.old.hands.items }
        ensures moves { self.new.moves ≡ self.old.moves }
    {
        let called = function_at(program, call.callee);
        let Some(cells) = frame_cells(called.allocas.as_slice()) else {
            return Err(OutOfMemory);
        };
        let child = self.cactus.next_slot();
        let block = self.make_room(child, cells)?;
        let Some(node) = self.cactus.node(slot) else {
            unreachable!()
        };
        let begun = node.frame.callee_of(
            self.alloc,
            places,
            worker,
            call,
            called.registers.len(),
            block.start,
        )?;
        let number = node.frame.frame.made;
        let depth = node.frame.frame.depth + 1;
        self.cactus.push_call_in(child, slot, number, begun)?;
        let Some(caller) = self.cactus.frame_mut(slot) else {
            unreachable!()
        };
        caller.wait_for(call.register, child);
        self.give(child, block);
        self.count_call(depth);
        self.set_hand(worker, Some(child));
        Ok(())
    }
}
