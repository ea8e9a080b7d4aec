//! What instructions make known of the registers that they define (transfer functions).

use crate::definition::{Equation, definition_of, is_exact, put_in};
use crate::edge::register_of;
use crate::heap::Heap;
use crate::sum::Sum;
use syntax::{BinaryOperator, Conversion, Instruction, Operand, Step};

/// The greatest number by which a quotient is known.
const MOST_DIVISOR: i128 = 1_000_000;

/// Facts of a register, while they are gathered.
#[derive(Drop)]
struct Learned<'a> {
    heap: &'a Heap,
    name: &'a str,
    facts: Vec<Sum<'a>>,
}

impl<'a> Learned<'a> {
    fn push(&mut self, fact: Sum<'a>) {
        self.heap.push(&mut self.facts, fact);
    }

    fn push_own(&mut self) {
        let own = Sum::of_register(self.heap, self.name, 1);
        self.push(own);
    }

    /// From 0 to a number.
    fn push_up_to(&mut self, most: i128) {
        self.push_own();
        let own = Sum::of_register(self.heap, self.name, -1);
        self.push(own.raised(most));
    }

    fn push_equal(&mut self, value: &Sum<'a>) {
        let equation = Equation::of(self.heap, self.name, value);
        self.push(equation.most);
        self.push(equation.least);
    }

    /// A quotient by a number, rounded down.
    fn push_quotient(&mut self, whole: &'a Operand, divisor: i128) {
        let mut rest = Sum::of_operand(self.heap, whole, 1);
        rest.add_term(self.name, divisor.saturating_neg());
        let over = rest.below(divisor.saturating_sub(1));
        self.push_own();
        self.push(rest);
        self.push(over);
    }

    /// An operation with a number on its right.
    fn push_operation(&mut self, operator: BinaryOperator, left: &'a Operand, right: i128) {
        let is_divisor = 1 <= right && right <= MOST_DIVISOR;
        match operator {
            BinaryOperator::And if right >= 0 => self.push_up_to(right),
            BinaryOperator::SignedRemainder if is_divisor => {
                self.push_up_to(right.saturating_sub(1));
            }
            BinaryOperator::SignedDivide if is_divisor => self.push_quotient(left, right),
            _ => {}
        }
    }

    fn push_all(&mut self, instruction: &'a Instruction) {
        match instruction {
            Instruction::Binary { .. } if is_exact(instruction) => {
                if let Some(value) = definition_of(self.heap, instruction) {
                    self.push_equal(&value);
                }
            }
            Instruction::Binary {
                operator,
                left,
                right: Operand::Number(right),
                ..
            } => self.push_operation(*operator, left, i128::from(*right)),
            Instruction::Convert {
                conversion: Conversion::SignExtend,
                value,
                ..
            } => {
                let value = Sum::of_operand(self.heap, value, 1);
                self.push_equal(&value);
            }
            _ => {}
        }
    }
}

/// What an instruction makes known of its register, or may make known, where its operands are as it wants them.
pub fn facts_of<'a>(heap: &'a Heap, name: &'a str, instruction: &'a Instruction) -> Vec<Sum<'a>> {
    let mut learned = Learned {
        heap,
        name,
        facts: heap.list(),
    };
    learned.push_all(instruction);
    learned.facts
}

/// Whether a sum names a register that these steps of a block define.
pub fn is_made_by(sum: &Sum<'_>, steps: &[Step]) -> bool {
    for step in steps {
        if let Some(name) = register_of(&step.instruction) {
            if sum.has(name) {
                return true;
            }
        }
    }
    false
}

/// No less than a sum, without a register of it and those that these steps define, by one of some facts; none where no fact bounds it.
fn most_by<'a>(facts: &[Sum<'a>], sum: &Sum<'a>, name: &str, steps: &[Step]) -> Option<Sum<'a>> {
    for fact in facts {
        match sum.most_without(name, fact) {
            Some(most) if !is_made_by(&most, steps) => return Some(most),
            _ => {}
        }
    }
    None
}

/// No less than a sum that has the register of the first of these steps, which makes no sum of it: by what that makes known, or by facts behind the steps.
fn most_of_first<'a>(
    heap: &'a Heap,
    sum: &Sum<'a>,
    steps: &'a [Step],
    behind: &[Sum<'a>],
) -> Option<Sum<'a>> {
    let Some(first) = steps.first() else {
        return None;
    };
    let Some(name) = register_of(&first.instruction) else {
        return None;
    };
    let most = most_by(
        facts_of(heap, name, &first.instruction).as_slice(),
        sum,
        name,
        &[],
    );
    if most.is_some() {
        return most;
    }
    most_by(behind, sum, name, steps)
}

/// No less than a sum, before these steps of a block, by what they make known and by facts behind them; none where nothing bounds what they define.
pub fn most_before<'a>(
    heap: &'a Heap,
    sum: &Sum<'a>,
    steps: &'a [Step],
    behind: &[Sum<'a>],
) -> Option<Sum<'a>> {
    let mut most = sum.copy();
    for index in (0..steps.len()).rev() {
        if !put_in(heap, &mut most, &steps[index].instruction) {
            let Some(rest) = most_of_first(heap, &most, &steps[index..], behind) else {
                return None;
            };
            most = rest;
        }
    }
    Some(most)
}
