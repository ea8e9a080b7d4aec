//! The facts that a function's text states: inequalities, and the conditions of branches.

use crate::definition::{put_in, sum_before};
use crate::edge::{Edge, Way, block_at, is_used_beside, register_of};
use crate::heap::Heap;
use crate::learned::facts_of;
use crate::sum::Sum;
use std::mem::replace;
use syntax::{Block, Function, Inequality, Instruction, Operand, Predicate, Step};

/// The most facts of a function that are kept, and the most instructions of one whose sums are facts.
const MOST_FACTS: usize = 512;

const MOST_INSTRUCTIONS: usize = 2_048;

/// The facts that a function's text states anywhere, each once, as far as there is room.
#[derive(Drop)]
pub struct Facts<'a> {
    heap: &'a Heap,
    function: &'a Function,
    /// Sums that are at least 0.
    pub sums: Vec<Sum<'a>>,
    /// The numbers of those that were stated and not taken yet.
    stated: Vec<usize>,
}

impl<'a> Facts<'a> {
    pub fn new(heap: &'a Heap, function: &'a Function) -> Facts<'a> {
        Facts {
            heap,
            function,
            sums: heap.list(),
            stated: heap.list(),
        }
    }

    /// The numbers of the facts that were stated since they were last taken.
    pub fn take(&mut self) -> Vec<usize> {
        replace(&mut self.stated, self.heap.list())
    }

    /// The number of a fact that is stated already.
    fn find(&self, sum: &Sum<'a>) -> Option<usize> {
        for number in 0..self.sums.len() {
            let other = &self.sums[number];
            if other.constant == sum.constant && other.apart_from(sum).is_some() {
                return Some(number);
            }
        }
        None
    }

    /// States that a sum is at least 0, if it is stated already or there is room.
    pub fn add(&mut self, sum: Sum<'a>) {
        let number = self.find(&sum).unwrap_or(self.sums.len());
        if number < MOST_FACTS {
            self.heap.push(&mut self.stated, number);
        }
        if number == self.sums.len() && !self.is_full() {
            self.heap.push(&mut self.sums, sum);
        }
    }

    /// Whether there is no room for another one.
    pub fn is_full(&self) -> bool {
        self.sums.len() >= MOST_FACTS
    }

    /// States what these inequalities say.
    pub fn state(&mut self, inequalities: &'a [Inequality]) {
        for inequality in inequalities {
            let sum = Sum::of_inequality(self.heap, inequality);
            self.add(sum);
        }
    }

    /// States `low <= high`, or `low < high`, behind these steps of a block, and what that is before them.
    fn order(&mut self, steps: &'a [Step], low: &'a Operand, high: &'a Operand, is_strict: bool) {
        let mut sum = Sum::of_operand(self.heap, high, 1);
        sum.add_operand(low, -1);
        sum.add_number(if is_strict { -1 } else { 0 });
        let before = sum_before(self.heap, &sum, steps);
        self.add(sum);
        if let Some(before) = before {
            self.add(before);
        }
    }

    /// States what a comparison says of signed numbers where it holds, or where it does not.
    fn compare(
        &mut self,
        steps: &'a [Step],
        predicate: Predicate,
        left: &'a Operand,
        right: &'a Operand,
        holds: bool,
    ) {
        let (low, high, is_strict) = match predicate {
            Predicate::SignedLess => (left, right, true),
            Predicate::SignedAtMost => (left, right, false),
            Predicate::SignedGreater => (right, left, true),
            Predicate::SignedAtLeast => (right, left, false),
            Predicate::Equal if holds => {
                self.order(steps, left, right, false);
                (right, left, false)
            }
            _ => return,
        };
        if holds {
            self.order(steps, low, high, is_strict)
        } else {
            self.order(steps, high, low, !is_strict)
        }
    }

    /// States the outcome of a block's branch on one of its edges: what the comparisons into the register of its condition say.
    pub fn pass(&mut self, edge: Edge<'a>) {
        let (condition, holds) = match edge.way {
            Way::WhenTrue(condition) => (condition, true),
            Way::WhenFalse(condition) => (condition, false),
            _ => return,
        };
        let Some(block) = block_at(self.function, edge.from) else {
            return;
        };
        let steps = block.steps.as_slice();
        for step in steps {
            if let Instruction::Compare {
                register,
                predicate,
                left,
                right,
                ..
            } = &step.instruction
            {
                if register.as_str() == condition {
                    self.compare(steps, *predicate, left, right, holds);
                }
            }
        }
    }

    /// A fact of a register, where others that the block makes of sums and that no other block takes are replaced by these.
    fn travelling(&self, index: usize, steps: &'a [Step], name: &str, fact: &Sum<'a>) -> Sum<'a> {
        let mut sum = fact.copy();
        for place in (0..steps.len()).rev() {
            let instruction = &steps[place].instruction;
            if let Some(own) = register_of(instruction) {
                if own != name && !is_used_beside(self.function, index, own) {
                    put_in(self.heap, &mut sum, instruction);
                }
            }
        }
        sum
    }

    /// States what an instruction of these steps makes of its register.
    fn make(&mut self, index: usize, steps: &'a [Step], name: &'a str, made: &'a Instruction) {
        for fact in &facts_of(self.heap, name, made) {
            let fact = self.travelling(index, steps, name, fact);
            self.add(fact);
        }
    }

    /// States what a block's own instructions make of registers that other blocks take.
    pub fn make_all(&mut self, index: usize, steps: &'a [Step]) {
        for step in steps {
            match register_of(&step.instruction) {
                Some(name) if is_used_beside(self.function, index, name) => {
                    self.make(index, steps, name, &step.instruction);
                }
                _ => {}
            }
        }
    }

    /// States what the `shows` lines of a block say.
    pub fn show_all(&mut self, block: &'a Block) {
        for step in block.steps.as_slice() {
            self.state(step.shows.as_slice());
        }
        if let Some(ending) = &block.ending {
            self.state(ending.shows.as_slice());
        }
    }
}

/// Whether a function has so many instructions that what they compute is not kept as facts.
pub fn has_many_instructions(function: &Function) -> bool {
    let mut count = 0usize;
    for block in function.blocks.as_slice() {
        count = count.saturating_add(block.steps.len());
    }
    count > MOST_INSTRUCTIONS
}
