//! The function that an instruction calls.

ghost use Rattle.std.specs.Prelude.{◌≡◌};
ghost use Rattle.program.specs.Calls.{callee_of};

use program::Instruction;

/// The function that an instruction calls.
pub fn callee_of(instruction: &Instruction) -> Option<usize>
    ensures { result ≡ callee_of instruction.now }
{
    match instruction {
        Instruction::Call { callee, .. } => Some(callee.0),
        Instruction::Binary { .. }
        | Instruction::Compare { .. }
        | Instruction::Convert { .. }
        | Instruction::Alloca { .. }
        | Instruction::ElementPointer { .. }
        | Instruction::Load { .. }
        | Instruction::Store { .. }
        | Instruction::StoreZeros { .. }
        | Instruction::AtomicAdd { .. }
        | Instruction::StartRegion { .. } => None,
    }
}
