//! What a block does: its self calls, and its instructions with those of the functions that it calls.

ghost use Rattle.std.specs.Prelude.{◌≡◌};
ghost use Rattle.cost_table.specs.Cost.{callee_cost, calls_done, instructions_done, self_call, whole_cost, whole_cost_of};
ghost use Rattle.cost_table.specs.Doing.{IsWork};
ghost use Rattle.cost_table.specs.Tables.{as_u128};

use crate::callee::callee_of;
use crate::entry::cost_of;
use program::{Block, Function};

/// What a block does, `u128::MAX` standing for more: its self calls, and its instructions with those of the other functions that it calls.
#[derive(Clone, Copy)]
pub struct Work {
    pub calls: u128,
    pub instructions: u128,
}

/// What any call of a function costs at most.
pub fn whole_cost(function: &Function) -> u128
    ensures { result ≡ as_u128 (whole_cost function.now) }
{
    cost_of(&function.budget, function.measure.bound)
}

/// What a call of another function costs beside the instruction.
fn callee_cost(functions: &[Function], function: usize, callee: Option<usize>) -> u128
    ensures { result ≡ as_u128 (callee_cost functions.now function callee) }
{
    match callee {
        Some(callee) => {
            if callee == function {
                return 0;
            }
            match functions.get(callee) {
                Some(callee) => whole_cost(callee),
                None => 0,
            }
        }
        None => 0,
    }
}

fn self_call(function: usize, callee: Option<usize>) -> u128
    ensures { result ≡ self_call function callee }
{
    match callee {
        Some(callee) => { if callee == function { 1 } else { 0 } }
        None => 0,
    }
}

fn calls_done(function: usize, block: &Block) -> u128
    ensures { result ≡ as_u128 (calls_done function block.now) }
{
    let mut done: u128 = 0;
    let steps = block.steps.as_slice();
    for step in steps {
        done = done.saturating_add(self_call(function, callee_of(&step.instruction)));
    }
    done
}

fn instructions_done(functions: &[Function], function: usize, block: &Block) -> u128
    ensures { result ≡ as_u128 (instructions_done functions.now function block.now) }
{
    let mut done: u128 = 1;
    let steps = block.steps.as_slice();
    for step in steps {
        let callee = callee_cost(functions, function, callee_of(&step.instruction));
        done = done.saturating_add(callee.saturating_add(1));
    }
    done
}

/// What a block does.
pub fn work_of(functions: &[Function], function: usize, block: &Block) -> Work
    ensures { IsWork functions.now function block.now result }
{
    Work {
        calls: calls_done(function, block),
        instructions: instructions_done(functions, function, block),
    }
}
