//! Comparisons (`icmp`) by which a block is reached, and a loop's test that lets its counter go too far.

use crate::scene::Scene;
use cfg::BlockEdges;
use lists::TextBuffer;
use program::{
    Block, BlockId, Function, Instruction, Operand, RegisterId, Step, Terminator, Width,
};
use syntax::Predicate;

/// A test that bounds a register from above by a number where it is true.
#[derive(Clone, Copy)]
struct Test {
    line: u32,
    outcome: RegisterId,
    width: Width,
    most: i64,
}

/// The block that alone leads to this one, where there is just one.
fn only_before(edges: &[BlockEdges], to: BlockId) -> Option<BlockId> {
    let mut found = None;
    for (index, block) in edges.iter().enumerate() {
        if block.leads_to(to.0) {
            if found.is_some() {
                return None;
            }
            found = Some(BlockId(index));
        }
    }
    found
}

/// The compare by which a block leads to another one, and whether it is true there.
pub(crate) fn compare_to(block: &Block, to: BlockId) -> Option<(&Step, bool)> {
    let Some(ending) = &block.ending else {
        return None;
    };
    let Terminator::Branch {
        condition,
        when_true,
        ..
    } = &ending.terminator
    else {
        return None;
    };
    for step in block.steps.as_slice() {
        match &step.instruction {
            Instruction::Compare { register, .. } if register == condition => {
                return Some((step, *when_true == to));
            }
            _ => {}
        }
    }
    None
}

/// The test that a compare makes, if it is a signed one of this register with a number above it.
fn test_of(step: &Step, tested: RegisterId) -> Option<Test> {
    let Instruction::Compare {
        register: outcome,
        predicate,
        width,
        left: Operand::Register(register),
        right: Operand::Number(number),
    } = &step.instruction
    else {
        return None;
    };
    let most = match predicate {
        Predicate::SignedLess => number.saturating_sub(1),
        Predicate::SignedAtMost => *number,
        _ => return None,
    };
    if *register != tested {
        return None;
    }
    Some(Test {
        line: step.line,
        outcome: *outcome,
        width: *width,
        most,
    })
}

/// The last test that bounds the register on the only way to a block.
fn last_test(
    function: &Function,
    edges: &[BlockEdges],
    to: BlockId,
    register: RegisterId,
) -> Option<Test> {
    let mut at = to;
    for _step in edges {
        let Some(before) = only_before(edges, at) else {
            return None;
        };
        let Some(block) = function.blocks.as_slice().get(before.0) else {
            return None;
        };
        if let Some((step, true)) = compare_to(block, at) {
            if let Some(test) = test_of(step, register) {
                return Some(test);
            }
        }
        at = before;
    }
    None
}

/// Where a test on the only way to a block lets a register be more than it may be at most: the test that would do.
pub(crate) fn push_test(
    scene: &Scene<'_>,
    edges: &[BlockEdges],
    to: BlockId,
    register: RegisterId,
    most: i128,
    out: &mut TextBuffer,
) {
    let Some(test) = last_test(scene.function, edges, to, register) else {
        return;
    };
    if i128::from(test.most) <= most {
        return;
    }
    let line = test.line;
    let outcome = scene.register(test.outcome);
    let name = scene.register(register);
    let width = match test.width {
        Width::Bits64 => "i64",
        Width::Bits32 => "i32",
    };
    writeln!(
        out,
        "    the test in line {line} lets %{name} be too much: `%{outcome} = icmp sle {width} %{name}, {most}` would do"
    );
}
