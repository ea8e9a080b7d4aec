//! What instructions and phis make of registers, as sums (symbolic evaluation).

use crate::edge::{definition_in, phi_value, register_of};
use crate::heap::Heap;
use crate::sum::Sum;
use lists::Name;
use syntax::{BinaryOperator, Block, Function, Instruction, Operand, Phi, Step};

/// How often an operator's left and right operand stand in the sum that it makes, but for what its width cannot hold; none where it makes
/// no sum.
fn times_of(operator: BinaryOperator, left: &Operand, right: &Operand) -> Option<(i128, i128)> {
    match operator {
        BinaryOperator::Add | BinaryOperator::AddNoWrap => Some((1, 1)),
        BinaryOperator::Subtract | BinaryOperator::SubtractNoWrap => Some((1, -1)),
        BinaryOperator::Multiply | BinaryOperator::MultiplyNoWrap => match (left, right) {
            (_, Operand::Number(number)) => Some((i128::from(*number), 0)),
            (Operand::Number(number), Operand::Register(_)) => Some((0, i128::from(*number))),
            _ => None,
        },
        _ => None,
    }
}

/// The sum that an instruction makes; none where it makes no sum.
pub fn definition_of<'a>(heap: &'a Heap, instruction: &'a Instruction) -> Option<Sum<'a>> {
    let Instruction::Binary {
        operator,
        left,
        right,
        ..
    } = instruction
    else {
        return None;
    };
    let Some((of_left, of_right)) = times_of(*operator, left, right) else {
        return None;
    };
    let mut sum = Sum::of_operand(heap, left, of_left);
    sum.add_operand(right, of_right);
    Some(sum)
}

/// The sum that a function's instruction makes of a register; none where that makes no sum, or none defines the register.
pub fn value_of<'a>(heap: &'a Heap, function: &'a Function, name: &str) -> Option<Sum<'a>> {
    match definition_in(function, name) {
        Some(instruction) => definition_of(heap, instruction),
        None => None,
    }
}

/// Whether an instruction makes its sum or product as it is, without a remainder by the width.
pub fn is_exact(instruction: &Instruction) -> bool {
    match instruction {
        Instruction::Binary { operator, .. } => matches!(
            operator,
            BinaryOperator::AddNoWrap
                | BinaryOperator::SubtractNoWrap
                | BinaryOperator::MultiplyNoWrap
        ),
        _ => false,
    }
}

/// That a register is at most a sum, and that it is at least the sum.
#[derive(Drop)]
pub struct Equation<'a> {
    pub most: Sum<'a>,
    pub least: Sum<'a>,
}

impl<'a> Equation<'a> {
    /// That a register is this sum.
    pub fn of(heap: &'a Heap, name: &'a str, value: &Sum<'a>) -> Equation<'a> {
        let own = Sum::of_register(heap, name, 1);
        Equation {
            most: value.with(&own, -1),
            least: own.with(value, -1),
        }
    }
}

/// Puts in what an instruction's register is made of, if the sum has it; whether the sum is still one.
pub fn put_in<'a>(heap: &'a Heap, sum: &mut Sum<'a>, instruction: &'a Instruction) -> bool {
    match register_of(instruction) {
        Some(name) if sum.has(name) => match definition_of(heap, instruction) {
            Some(value) => {
                sum.put(name, &value);
                true
            }
            None => false,
        },
        _ => true,
    }
}

/// A sum before these steps of a block, as it is behind them: what they define is replaced by what it is made of. None where that is no sum.
pub fn sum_before<'a>(heap: &'a Heap, sum: &Sum<'a>, steps: &'a [Step]) -> Option<Sum<'a>> {
    let mut sum = sum.copy();
    for index in (0..steps.len()).rev() {
        if !put_in(heap, &mut sum, &steps[index].instruction) {
            return None;
        }
    }
    Some(sum)
}

/// A sum at a block's start, with what its phis take on an edge from a block of this label put in.
pub fn moved<'a>(heap: &'a Heap, sum: &Sum<'a>, label: &Name, phis: &'a [Phi]) -> Sum<'a> {
    let mut moved = Sum::number(heap, sum.constant);
    for (name, coefficient) in &sum.terms {
        match phi_value(phis, name, label) {
            Some(value) => moved.add_operand(value, *coefficient),
            None => moved.add_term(name, *coefficient),
        }
    }
    moved
}

/// What is to be so before the steps of a block, for a sum to be at a block with these phis to which an edge leads from there. None where that is no sum.
pub fn moved_before<'a>(
    heap: &'a Heap,
    sum: &Sum<'a>,
    from: &'a Block,
    phis: &'a [Phi],
) -> Option<Sum<'a>> {
    sum_before(
        heap,
        &moved(heap, sum, &from.label, phis),
        from.steps.as_slice(),
    )
}
