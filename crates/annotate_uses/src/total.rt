//! What a function may use in all (its `budget`), by what is left at its entry.

use crate::left::Need;
use annotate_facts::{Heap, Sum, greatest_shown};
use syntax::Function;

/// Self calls and instructions, as numbers.
#[derive(Clone, Copy)]
pub struct Total {
    pub self_calls: u64,
    pub instructions: u64,
}

impl Total {
    /// The budget that covers what is left at the entry, whatever the arguments are by these facts; none where there is none.
    pub fn of_need<'a>(facts: &[Sum<'a>], need: &Need<'a>) -> Option<Total> {
        let self_calls = greatest_shown(facts, &need.calls);
        let instructions = greatest_shown(facts, &need.instructions);
        match (self_calls, instructions) {
            (Some(self_calls), Some(instructions)) => Some(Total {
                self_calls,
                instructions,
            }),
            _ => None,
        }
    }

    /// What is left at the entry, where that is the whole budget.
    pub fn as_need(self, heap: &Heap) -> Need<'_> {
        Need {
            calls: Sum::number(heap, i128::from(self.self_calls)),
            instructions: Sum::number(heap, i128::from(self.instructions)),
        }
    }

    /// The total that a function's text gives, where it has a line for it.
    pub fn given(function: &Function) -> Option<Total> {
        let budget = &function.notes.budget;
        if budget.line == function.line {
            return None;
        }
        Some(Total {
            self_calls: budget.self_calls,
            instructions: budget.instructions,
        })
    }

    /// What any call of a function costs at most, by its budget and the bound of its measure.
    pub fn cost(self, bound: u64) -> u128 {
        let calls = u128::from(self.self_calls);
        let instructions = u128::from(self.instructions);
        let mut cost = instructions;
        for _step in 0..bound {
            cost = instructions.saturating_add(calls.saturating_mul(cost));
        }
        cost
    }
}
