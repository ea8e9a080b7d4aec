//! What a frame does at a border: sync, detach, reattach, the wait for a call, and what a return gives it.

ghost use Rattle.std.specs.Prelude.{◌≡◌, ◌+◌, ◌<◌, ◌∷◌, ℕ, ℤ, Option, OnOk, Some, length, slice_get};
ghost use Rattle.semantics.specs.Paths.{Path};
ghost use Rattle.semantics.specs.Frames as frames;
ghost use Rattle.semantics.specs.Effect.{Return, registers_along, terminator_action};
ghost use Rattle.semantics.specs.State.{continued, detached, resumed, synced, waiting};
ghost use Rattle.program.specs.declared.function.Function.{Function};
ghost use Rattle.program.specs.declared.function.Program.{Program};
ghost use Rattle.program.specs.declared.instruction.Terminator.TheVariants as terminator;
ghost use Rattle.frame_engine.specs.declared.activation.Places.{Places};
ghost use Rattle.frame_engine.specs.Activation.{ShowsFrame};
ghost use Rattle.frame_engine.specs.Fits.{EdgeFits, HasReturned};
ghost use Rattle.frame_engine.specs.Names.{HasResult, sizes, taker_of};
ghost use Rattle.frame_engine.specs.Shows.{Layout};

use crate::activation::Frame;
use crate::calls::have_words;
use crate::entering::enter;
use crate::functions::function_at;
use crate::turning::Place;
use crate::words::{define, word};
use frame::{Role, Wait};
use lists::OutOfMemory;
use program::{BlockId, Operand, Program, RegisterId};

/// The register that takes what a call returns, of a frame that waits for one.
#[inline(always)]
pub fn taker(waits: Wait) -> Option<RegisterId>
    ensures { result ≡ taker_of waits }
{
    match waits {
        Wait::Call { register, .. } => register,
        Wait::Nothing | Wait::Region(_) => None,
    }
}

impl Frame {
    /// Goes along the edge to the target of its sync, to wait there for its children within the region.
    #[inline(always)]
    pub fn sync(
        &mut self,
        program: &Program,
        moves: &mut [i64],
        region: RegisterId,
        target: BlockId,
    )
        requires there { self.old.function.0 < length program.now.functions }
        requires edge { (f : Function) → slice_get program.now.functions self.old.function.0 ≡ Some f
            → EdgeFits (sizes (length self.old.registers.items) 0 0) (length moves.old) self.old.place.block.0 f.blocks target.0 }
        ensures only { self.new ≡ record self.old { place = record { block = target; index = 0 }; registers = self.new.registers; waits = Wait.Region region } }
        ensures registers { length self.new.registers.items ≡ length self.old.registers.items }
        ensures moves { length moves.new ≡ length moves.old }
        ensures shown { (l : Layout) (places : Places) (p : Path) (g : frames.Frame) (r : frames.Registers)
            → ShowsFrame l places p g self.old → registers_along program.now g target.0 ≡ Some r
            → ShowsFrame l places p (synced g region.0 target.0 r) self.new }
    {
        let function = function_at(program, self.function);
        enter(
            self.registers.as_mut_slice(),
            moves,
            &function.blocks,
            self.place.block,
            target,
        );
        self.place = Place {
            block: target,
            index: 0,
        };
        self.waits = Wait::Region(region);
    }

    /// Goes on at the continuation, once the child of its detach was made.
    #[inline(always)]
    pub fn continue_at(&mut self, continuation: BlockId)
        requires { self.old.made + 1 < 18446744073709551616 }
        ensures is { self.new ≡ record self.old { place = record { block = continuation; index = 0 }; made = self.old.made + 1; waits = Wait.Nothing } }
        ensures shown { (l : Layout) (places : Places) (p : Path) (g : frames.Frame) → ShowsFrame l places p g self.old
            → ShowsFrame l places p (continued g continuation.0) self.new }
    {
        self.place = Place {
            block: continuation,
            index: 0,
        };
        self.made += 1;
        self.waits = Wait::Nothing;
    }

    /// Waits for the call that it has just made.
    #[inline(always)]
    pub fn wait_for_call(&mut self, register: Option<RegisterId>)
        requires made { self.old.made + 1 < 18446744073709551616 }
        requires index { self.old.place.index + 1 < 18446744073709551616 }
        ensures is { self.new
            ≡ record self.old {
              place = record { block = self.old.place.block; index = self.old.place.index + 1 };
              made = self.old.made + 1;
              waits = Wait.Call self.old.made register;
            } }
        ensures shown { (l : Layout) (places : Places) (p : Path) (g : frames.Frame) → ShowsFrame l places p g self.old
            → ShowsFrame l places p (waiting g register) self.new }
    {
        self.waits = Wait::Call {
            child: self.made,
            register,
        };
        self.place.index += 1;
        self.made += 1;
    }

    /// What it returns.
    #[inline(always)]
    pub fn returned(&self, value: Option<Operand>) -> Option<i64>
        requires { HasReturned (sizes (length self.now.registers.items) 0 0) value }
        ensures { (prog : Program) (l : Layout) (places : Places) (p : Path) (g : frames.Frame) (v : Option ℤ)
            → ShowsFrame l places p g self.now → terminator_action prog p g (terminator.Return value) ≡ Return v → result ≡ v }
    {
        match value {
            Some(operand) => Some(word(self.registers.as_slice(), operand)),
            None => None,
        }
    }

    /// Goes on with what its call returned, which the register takes.
    #[inline(always)]
    pub fn resume(&mut self, register: Option<RegisterId>, number: Option<i64>)
        requires { HasResult (length self.old.registers.items) register }
        ensures only { self.new ≡ record self.old { registers = self.new.registers; waits = Wait.Nothing } }
        ensures registers { length self.new.registers.items ≡ length self.old.registers.items }
        ensures shown { (l : Layout) (places : Places) (p : Path) (g : frames.Frame) → ShowsFrame l places p g self.old
            → ShowsFrame l places p (resumed g register number) self.new }
    {
        self.waits = Wait::Nothing;
        match (register, number) {
            (Some(taker), Some(word)) => define(self.registers.as_mut_slice(), taker, word),
            (Some(_), None) => {}
            (None, _) => {}
        }
    }

    /// Makes `child` the child of this frame's detach, whatever it was.
    #[inline(always)]
    pub fn detach_into(
        &self,
        child: &mut Frame,
        region: RegisterId,
        body: BlockId,
        continuation: BlockId,
    ) -> Result<(), OutOfMemory>
        requires { self.now.depth + 1 < 18446744073709551616 }
        ensures registers { OnOk result (child.new.registers.items ≡ self.now.registers.items) }
        ensures function { OnOk result (child.new.function ≡ self.now.function) }
        ensures shown { OnOk result ((l : Layout) (places : Places) (p : Path) (g : frames.Frame) → ShowsFrame l places p g self.now
            → ShowsFrame l places (g.made ∷ p) (detached g region.0 body.0 continuation.0) child.new) }
    {
        have_words(&mut child.registers, self.registers.len())?;
        child.registers.copy_from_slice(self.registers.as_slice());
        child.function = self.function;
        child.place = Place {
            block: body,
            index: 0,
        };
        child.home = self.home;
        child.made = 0;
        child.waits = Wait::Nothing;
        child.role = Role::Child {
            region,
            continuation,
        };
        child.depth = self.depth + 1;
        Ok(())
    }
}
