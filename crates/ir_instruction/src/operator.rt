//! The words of operations (opcodes) and of comparisons' predicates, read.

ghost use Rattle.std.specs.Prelude.{◌≡◌};
ghost use Rattle.ir_instruction.specs.Answers.{Finds};
ghost use Rattle.ir_instruction.specs.Operators.{operator_of, without_wrap, predicate_of, predicate_at};

use crate::fault::LineFault;
use crate::symbol::Symbol;
use ir_lex::is_text;
use syntax::{BinaryOperator, Predicate};

/// The operation that a word names without `nsw`.
#[tactic(auto, unfolding(crate::specs::Operators::operator_of))]
pub fn operator_of(word: &[u8]) -> Option<BinaryOperator>
    ensures { result ≡ operator_of word.now }
{
    if is_text(word, b"add") {
        Some(BinaryOperator::Add)
    } else if is_text(word, b"sub") {
        Some(BinaryOperator::Subtract)
    } else if is_text(word, b"mul") {
        Some(BinaryOperator::Multiply)
    } else if is_text(word, b"sdiv") {
        Some(BinaryOperator::SignedDivide)
    } else if is_text(word, b"udiv") {
        Some(BinaryOperator::UnsignedDivide)
    } else if is_text(word, b"srem") {
        Some(BinaryOperator::SignedRemainder)
    } else if is_text(word, b"urem") {
        Some(BinaryOperator::UnsignedRemainder)
    } else if is_text(word, b"shl") {
        Some(BinaryOperator::ShiftLeft)
    } else if is_text(word, b"lshr") {
        Some(BinaryOperator::LogicalShiftRight)
    } else if is_text(word, b"ashr") {
        Some(BinaryOperator::ArithmeticShiftRight)
    } else if is_text(word, b"and") {
        Some(BinaryOperator::And)
    } else if is_text(word, b"or") {
        Some(BinaryOperator::Or)
    } else if is_text(word, b"xor") {
        Some(BinaryOperator::ExclusiveOr)
    } else {
        None
    }
}

/// The operator for `add nsw`, `sub nsw` or `mul nsw`, given the one without `nsw`; none for other operators.
pub fn without_wrap(operator: BinaryOperator) -> Option<BinaryOperator>
    ensures { result ≡ without_wrap operator }
{
    match operator {
        BinaryOperator::Add => Some(BinaryOperator::AddNoWrap),
        BinaryOperator::Subtract => Some(BinaryOperator::SubtractNoWrap),
        BinaryOperator::Multiply => Some(BinaryOperator::MultiplyNoWrap),
        _ => None,
    }
}

#[tactic(auto, unfolding(crate::specs::Operators::predicate_of))]
fn predicate_of(word: &[u8]) -> Option<Predicate>
    ensures { result ≡ predicate_of word.now }
{
    if is_text(word, b"eq") {
        Some(Predicate::Equal)
    } else if is_text(word, b"ne") {
        Some(Predicate::NotEqual)
    } else if is_text(word, b"ugt") {
        Some(Predicate::UnsignedGreater)
    } else if is_text(word, b"uge") {
        Some(Predicate::UnsignedAtLeast)
    } else if is_text(word, b"ult") {
        Some(Predicate::UnsignedLess)
    } else if is_text(word, b"ule") {
        Some(Predicate::UnsignedAtMost)
    } else if is_text(word, b"sgt") {
        Some(Predicate::SignedGreater)
    } else if is_text(word, b"sge") {
        Some(Predicate::SignedAtLeast)
    } else if is_text(word, b"slt") {
        Some(Predicate::SignedLess)
    } else if is_text(word, b"sle") {
        Some(Predicate::SignedAtMost)
    } else {
        None
    }
}

pub fn predicate_at(symbols: &[Symbol]) -> Option<(Predicate, &[Symbol])>
    ensures { Finds (λ found. (found.0, found.1.now)) result (predicate_at symbols.now) }
{
    match symbols {
        [Symbol::Word(word), rest @ ..] => match predicate_of(word.as_bytes()) {
            Some(predicate) => Some((predicate, rest)),
            None => None,
        },
        _ => None,
    }
}
