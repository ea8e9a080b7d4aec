//! Registers that no fact bounds from the side that is asked for: why that is, and what to do.

use crate::scene::Scene;
use linear::{Fact, Term};
use lists::TextBuffer;
use program::{
    Block, BlockId, Function, FunctionId, Instruction, Operand, Program, RegisterId, Step,
};
use syntax::BinaryOperator;

/// Whether one of the facts bounds the register of a term from the side from which the term does. Where none does, no facts add up to a form with it.
pub(crate) fn is_bounded(facts: &[Fact], term: Term) -> bool {
    let side = term.coefficient.signum();
    for fact in facts {
        for other in fact.form.terms.as_slice() {
            if other.register == term.register && other.coefficient.signum() == side {
                return true;
            }
        }
    }
    side == 0
}

/// Whether an instruction makes a number in this register.
fn makes(step: &Step, made: RegisterId) -> bool {
    match &step.instruction {
        Instruction::Binary { register, .. }
        | Instruction::Convert { register, .. }
        | Instruction::Load { register, .. } => *register == made,
        Instruction::Call { register, .. } => *register == Some(made),
        _ => false,
    }
}

/// The instruction that makes a number in this register, and its block.
fn maker_of(function: &Function, made: RegisterId) -> Option<(BlockId, &Step)> {
    for (index, block) in function.blocks.as_slice().iter().enumerate() {
        for step in block.steps.as_slice() {
            if makes(step, made) {
                return Some((BlockId(index), step));
            }
        }
    }
    None
}

/// What an operation makes, as far as that gives no facts.
fn operation_words(operator: BinaryOperator, is_here: bool) -> Option<&'static str> {
    match operator {
        BinaryOperator::Add | BinaryOperator::Subtract | BinaryOperator::Multiply => {
            Some("made without `nsw`, so that it may wrap: with `nsw` it gives facts")
        }
        BinaryOperator::SignedDivide | BinaryOperator::SignedRemainder if is_here => {
            Some("made by a division: it gives facts where the dividend is shown to be at least 0")
        }
        BinaryOperator::UnsignedDivide
        | BinaryOperator::UnsignedRemainder
        | BinaryOperator::ShiftLeft
        | BinaryOperator::LogicalShiftRight
        | BinaryOperator::ArithmeticShiftRight
        | BinaryOperator::Or
        | BinaryOperator::ExclusiveOr => Some(
            "made by an operation that gives no facts: bound it by an `and` with a mask, or by a signed compare, a branch and a `keeps` line where that leads",
        ),
        _ => None,
    }
}

/// Whether a function says anything of what it returns.
fn has_ensures(program: &Program, function: FunctionId) -> bool {
    match program.functions.as_slice().get(function.0) {
        Some(function) => !function.guarantees.is_empty(),
        None => false,
    }
}

/// What an instruction makes, as far as that gives no facts; none where it may have given some in another block.
fn made_words(program: &Program, step: &Step, is_here: bool) -> Option<&'static str> {
    match &step.instruction {
        Instruction::Load { .. } => Some(
            "loaded: bound it by an `and` with a mask, or by a signed compare, a branch and a `keeps` line where that leads",
        ),
        Instruction::Binary { operator, .. } => operation_words(*operator, is_here),
        Instruction::Call { callee, .. } => if is_here || !has_ensures(program, *callee) {
            Some("the result of a call: an `ensures` line of the callee has to bound it")
        } else {
            None
        },
        _ => None,
    }
}

/// That nothing bounds the register of a term from its side.
fn push_what(scene: &Scene<'_>, facts: &[Fact], term: Term, out: &mut TextBuffer) {
    let name = scene.register(term.register);
    let other_side = Term {
        register: term.register,
        coefficient: 0i64.saturating_sub(term.coefficient),
    };
    if is_bounded(facts, other_side) {
        let side = if term.coefficient > 0 {
            "below"
        } else {
            "above"
        };
        write!(out, "    nothing bounds %{name} from {side}");
    } else {
        write!(out, "    nothing is known of %{name}");
    }
}

/// That nothing bounds the register of a term from its side, and what to do.
pub(crate) fn push_unbounded(
    scene: &Scene<'_>,
    block: BlockId,
    facts: &[Fact],
    term: Term,
    out: &mut TextBuffer,
) {
    push_what(scene, facts, term, out);
    let maker = match maker_of(scene.function, term.register) {
        Some((made_in, step)) => made_words(scene.program, step, made_in == block),
        None => None,
    };
    if let Some(words) = maker {
        writeln!(out, ", which is {words}");
    } else if block.0 == 0 {
        out.push_str(": bound it by `requires`\n");
    } else {
        out.push_str(
            " in this block: a `keeps` line behind its label brings along what is known before it\n",
        );
    }
}

/// Where a register is a quotient by a number, that what only rounding shows is not known of it, and what to do.
pub(crate) fn push_rounded(scene: &Scene<'_>, register: RegisterId, out: &mut TextBuffer) {
    let Some((_, step)) = maker_of(scene.function, register) else {
        return;
    };
    match &step.instruction {
        Instruction::Binary {
            operator: BinaryOperator::SignedDivide,
            right: Operand::Number(divisor),
            ..
        } if *divisor >= 2 => {
            let name = scene.register(register);
            writeln!(
                out,
                "    %{name} is rounded down, which no fact says: in place of (%lo+%hi)/2 take %lo+(%hi-%lo)/2, or let `requires` ask for half the size"
            );
        }
        _ => {}
    }
}
