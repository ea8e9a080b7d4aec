//! How deep calls reach: the deepest callee, the frames of detaches, and those under a self call (stack bound).

ghost use Rattle.std.specs.Prelude.{◌≡◌, ◌≤◌, ◌+◌, suc, length};
ghost use Rattle.program.specs.declared.instruction.Step.{Step};
ghost use Rattle.program.specs.Calls.{callee_of};
ghost use Rattle.cost_table.specs.Depth.{greatest, callee_depth, block_depth, self_depth, self_call_depth, flat_depth, self_calls_depth};
ghost use Rattle.cost_table.specs.Tables.{as_u64};

use crate::callee::callee_of;
use crate::level::detaches_around;
use program::{Block, Step};
use ranges::Task;

/// What a call of another function adds.
fn callee_depth(before: &[u64], function: usize, callee: Option<usize>) -> u64
    ensures { result ≡ callee_depth before.now function callee }
{
    match callee {
        Some(callee) => {
            if callee == function {
                0
            } else {
                before.get(callee).copied().unwrap_or(0)
            }
        }
        None => 0,
    }
}

/// The depth of the deepest other function that the steps call.
fn deepest_callee(before: &[u64], function: usize, steps: &[Step]) -> u64
    ensures { result ≡ greatest (λ (s : Step). callee_depth before.now function (callee_of s.instruction)) steps.now }
{
    let mut deepest: u64 = 0;
    for step in steps {
        deepest = deepest.max(callee_depth(before, function, callee_of(&step.instruction)));
    }
    deepest
}

/// What a self call adds.
fn self_depth(function: usize, depth: u64, callee: Option<usize>) -> u64
    ensures { result ≡ self_depth function depth callee }
{
    match callee {
        Some(callee) => { if callee == function { depth } else { 0 } }
        None => 0,
    }
}

/// The depth if one of the steps is a self call.
fn deepest_self_call(function: usize, depth: u64, steps: &[Step]) -> u64
    ensures { result ≡ greatest (λ (s : Step). self_depth function depth (callee_of s.instruction)) steps.now }
{
    let mut deepest: u64 = 0;
    for step in steps {
        deepest = deepest.max(self_depth(function, depth, callee_of(&step.instruction)));
    }
    deepest
}

/// The frames that stand on one another within so many detaches.
fn frames_within(level: usize) -> u64
    ensures { result ≡ as_u64 (suc level) }
{
    (level as u64).saturating_add(1)
}

/// How deep a call reaches that makes no self call.
pub fn flat_depth(before: &[u64], function: usize, tasks: &[Task], blocks: &[Block]) -> u64
    ensures { result ≡ as_u64 (flat_depth before.now function tasks.now blocks.now) }
{
    let mut depth: u64 = 0;
    for (index, block) in blocks.iter().enumerate() {
        let level = detaches_around(tasks, index);
        let callee = deepest_callee(before, function, block.steps.as_slice());
        depth = depth.max(frames_within(level).saturating_add(callee));
    }
    depth
}

/// The frames under the deepest self call; 0 where there is none.
pub fn self_calls_depth(function: usize, tasks: &[Task], blocks: &[Block]) -> u64
    ensures { result ≡ as_u64 (self_calls_depth function tasks.now blocks.now 0) }
{
    let mut depth: u64 = 0;
    for (index, block) in blocks.iter().enumerate() {
        let frames = frames_within(detaches_around(tasks, index));
        depth = depth.max(deepest_self_call(function, frames, block.steps.as_slice()));
    }
    depth
}
