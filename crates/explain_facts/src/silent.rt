//! Compares that give no facts on an edge, as unsigned ones.

use crate::compare::compare_to;
use crate::unmet::Unmet;
use lists::TextBuffer;
use program::{Block, BlockId, Instruction, Operand, Step};
use syntax::Predicate;

/// The signed predicate to write for one that gives no facts where it comes out so; none where it gives some.
fn signed_for(predicate: Predicate, outcome: bool) -> Option<&'static str> {
    match predicate {
        Predicate::UnsignedLess | Predicate::NotEqual => Some("slt"),
        Predicate::UnsignedAtMost => Some("sle"),
        Predicate::UnsignedGreater => Some("sgt"),
        Predicate::UnsignedAtLeast => Some("sge"),
        Predicate::Equal if !outcome => Some("sge"),
        _ => None,
    }
}

/// Whether what is not shown is about a register that is one of these operands.
fn is_about(unmet: &Unmet, left: Operand, right: Operand) -> bool {
    for sum in unmet.choices.as_slice() {
        for part in sum.parts.as_slice() {
            let operand = part.operand;
            let is_register = matches!(operand, Operand::Register(_));
            if is_register && (operand == left || operand == right) {
                return true;
            }
        }
    }
    false
}

/// The signed predicate to write for a compare that gives no facts where it comes out so, if it tests what is not shown.
fn signed_in_place_of(step: &Step, outcome: bool, unmet: &Unmet) -> Option<&'static str> {
    match &step.instruction {
        Instruction::Compare {
            predicate,
            left,
            right,
            ..
        } if is_about(unmet, *left, *right) => signed_for(*predicate, outcome),
        _ => None,
    }
}

/// Says of the compare by which a block leads to another one that it gives no facts there, if it tests what is not shown.
pub(crate) fn push_silent_compare(block: &Block, to: BlockId, unmet: &Unmet, out: &mut TextBuffer) {
    let Some((step, outcome)) = compare_to(block, to) else {
        return;
    };
    if let Some(word) = signed_in_place_of(step, outcome, unmet) {
        let line = step.line;
        writeln!(
            out,
            "    the compare in line {line} gives no facts on this edge: a signed one does, as `icmp {word}`"
        );
    }
}
