//! What stands at the front of the rest of a line, and what is left behind it.

ghost use Rattle.std.specs.Prelude.{◌≡◌, codes};
ghost use Rattle.ir_instruction.specs.Outcome.{◌>>=◌ as ◌▷◌};
ghost use Rattle.ir_instruction.specs.Answers.{Finds, Gives};
ghost use Rattle.ir_instruction.specs.Fronts.{mark_at, word_at, named_at, end_at, is_word, is_mark, behind, register_at, global_at, label_at, numeral_at};
ghost use Rattle.ir_instruction.specs.Fronts.{operand_at, address_at, pointer_at, count_at, array_at, bytes_at, width_at, result_type_at};

use crate::fault::LineFault;
use crate::numeral::{cells_of_bytes, copy_of, count_of, value_of};
use crate::symbol::{Numeral, Symbol};
use lists::Name;
use syntax::{Address, Operand, ResultType, Width};

/// What is behind this mark.
pub fn behind_mark(mark: u8, symbols: &[Symbol]) -> Option<&[Symbol]>
    ensures { Finds (λ rest. rest.now) result (mark_at mark symbols.now) }
{
    match symbols {
        [Symbol::Mark(found), rest @ ..] if *found == mark => Some(rest),
        _ => None,
    }
}

pub fn mark_at(mark: u8, symbols: &[Symbol]) -> Result<&[Symbol], LineFault>
    ensures { Gives (λ rest. rest.now) result (mark_at mark symbols.now) }
{
    match behind_mark(mark, symbols) {
        Some(rest) => Ok(rest),
        None => Err(LineFault::Unexpected),
    }
}

/// What is behind this word.
pub fn behind_word<'a>(text: &[u8], symbols: &'a [Symbol]) -> Option<&'a [Symbol]>
    ensures { Finds (λ rest. rest.now) result (word_at text.now symbols.now) }
{
    match symbols {
        [Symbol::Word(found), rest @ ..] if found.as_bytes() == text => Some(rest),
        _ => None,
    }
}

pub fn word_at<'a>(text: &[u8], symbols: &'a [Symbol]) -> Result<&'a [Symbol], LineFault>
    ensures { Gives (λ rest. rest.now) result (word_at text.now symbols.now) }
{
    match behind_word(text, symbols) {
        Some(rest) => Ok(rest),
        None => Err(LineFault::Unexpected),
    }
}

/// What is behind this global and no other.
pub fn behind_name<'a>(text: &[u8], symbols: &'a [Symbol]) -> Option<&'a [Symbol]>
    ensures { Finds (λ rest. rest.now) result (named_at text.now symbols.now) }
{
    match symbols {
        [Symbol::Global(found), rest @ ..] if found.as_bytes() == text => Some(rest),
        _ => None,
    }
}

pub fn end_at(symbols: &[Symbol]) -> Result<(), LineFault>
    ensures { Gives (λ done. done) result (end_at symbols.now) }
{
    if symbols.is_empty() {
        Ok(())
    } else {
        Err(LineFault::Unexpected)
    }
}

pub fn is_word(text: &[u8], symbols: &[Symbol]) -> bool
    ensures { result ≡ is_word text.now symbols.now }
{
    match symbols {
        [Symbol::Word(found), ..] => found.as_bytes() == text,
        _ => false,
    }
}

pub fn is_mark(mark: u8, symbols: &[Symbol]) -> bool
    ensures { result ≡ is_mark mark symbols.now }
{
    match symbols {
        [Symbol::Mark(found), ..] => *found == mark,
        _ => false,
    }
}

pub fn behind(symbols: &[Symbol]) -> &[Symbol]
    ensures { result.now ≡ behind symbols.now }
{
    match symbols {
        [] => symbols,
        [_, rest @ ..] => rest,
    }
}

pub fn register_at(symbols: &[Symbol]) -> Result<(Name, &[Symbol]), LineFault>
    ensures { Gives (λ found. (found.0, found.1.now)) result (register_at symbols.now) }
{
    match symbols {
        [Symbol::Register(name), rest @ ..] => Ok((name.copy()?, rest)),
        _ => Err(LineFault::Unexpected),
    }
}

pub fn global_at(symbols: &[Symbol]) -> Result<(Name, &[Symbol]), LineFault>
    ensures { Gives (λ found. (found.0, found.1.now)) result (global_at symbols.now) }
{
    match symbols {
        [Symbol::Global(name), rest @ ..] => Ok((name.copy()?, rest)),
        _ => Err(LineFault::Unexpected),
    }
}

/// `label %l`
pub fn label_at(symbols: &[Symbol]) -> Result<(Name, &[Symbol]), LineFault>
    ensures { Gives (λ found. (found.0, found.1.now)) result (label_at symbols.now) }
{
    let Some(rest) = behind_word(b"label", symbols) else {
        return Err(LineFault::Unexpected);
    };
    register_at(rest)
}

pub fn numeral_at(symbols: &[Symbol]) -> Result<(Numeral, &[Symbol]), LineFault>
    ensures { Gives (λ found. (found.0, found.1.now)) result (numeral_at symbols.now) }
{
    match symbols {
        [Symbol::Number(n), rest @ ..] => Ok((copy_of(n)?, rest)),
        _ => Err(LineFault::Unexpected),
    }
}

/// A number or a register.
pub fn operand_at(symbols: &[Symbol]) -> Result<(Operand, &[Symbol]), LineFault>
    ensures { Gives (λ found. (found.0, found.1.now)) result (operand_at symbols.now) }
{
    match symbols {
        [Symbol::Number(n), rest @ ..] => Ok((Operand::Number(value_of(n)), rest)),
        [Symbol::Register(name), rest @ ..] => Ok((Operand::Register(name.copy()?), rest)),
        _ => Err(LineFault::Unexpected),
    }
}

fn address_at(symbols: &[Symbol]) -> Result<(Address, &[Symbol]), LineFault>
    ensures { Gives (λ found. (found.0, found.1.now)) result (address_at symbols.now) }
{
    match symbols {
        [Symbol::Global(name), rest @ ..] => Ok((Address::Global(name.copy()?), rest)),
        [Symbol::Register(name), rest @ ..] => Ok((Address::Register(name.copy()?), rest)),
        _ => Err(LineFault::Unexpected),
    }
}

/// `ptr P`
pub fn pointer_at(symbols: &[Symbol]) -> Result<(Address, &[Symbol]), LineFault>
    ensures { Gives (λ found. (found.0, found.1.now)) result (pointer_at symbols.now) }
{
    let Some(rest) = behind_word(b"ptr", symbols) else {
        return Err(LineFault::Unexpected);
    };
    address_at(rest)
}

fn count_at(symbols: &[Symbol]) -> Option<(u64, &[Symbol])>
    ensures { Finds (λ found. (found.0, found.1.now)) result (count_at symbols.now) }
{
    match symbols {
        [Symbol::Number(n), rest @ ..] => match count_of(n) {
            Some(count) => Some((count, rest)),
            None => None,
        },
        _ => None,
    }
}

/// `x i64]`
fn array_ends(symbols: &[Symbol]) -> Option<&[Symbol]>
    ensures { Finds (λ rest. rest.now) result ((word_at (codes "x") symbols.now ▷ word_at (codes "i64")) ▷ mark_at 93) }
{
    let Some(rest) = behind_word(b"x", symbols) else {
        return None;
    };
    let Some(rest) = behind_word(b"i64", rest) else {
        return None;
    };
    behind_mark(b']', rest)
}

/// `[N x i64]`
pub fn array_at(symbols: &[Symbol]) -> Result<(u64, &[Symbol]), LineFault>
    ensures { Gives (λ found. (found.0, found.1.now)) result (array_at symbols.now) }
{
    let Some(rest) = behind_mark(b'[', symbols) else {
        return Err(LineFault::Unexpected);
    };
    let Some((cells, rest)) = count_at(rest) else {
        return Err(LineFault::Unexpected);
    };
    let Some(rest) = array_ends(rest) else {
        return Err(LineFault::Unexpected);
    };
    Ok((cells, rest))
}

/// So many bytes, as cells.
pub fn bytes_at(symbols: &[Symbol]) -> Option<(u64, &[Symbol])>
    ensures { Finds (λ found. (found.0, found.1.now)) result (bytes_at symbols.now) }
{
    match symbols {
        [Symbol::Number(n), rest @ ..] => match cells_of_bytes(n) {
            Some(cells) => Some((cells, rest)),
            None => None,
        },
        _ => None,
    }
}

pub fn width_at(symbols: &[Symbol]) -> Option<(Width, &[Symbol])>
    ensures { Finds (λ found. (found.0, found.1.now)) result (width_at symbols.now) }
{
    if is_word(b"i64", symbols) {
        Some((Width::Bits64, behind(symbols)))
    } else if is_word(b"i32", symbols) {
        Some((Width::Bits32, behind(symbols)))
    } else {
        None
    }
}

pub fn result_type_at(symbols: &[Symbol]) -> Result<(ResultType, &[Symbol]), LineFault>
    ensures { Gives (λ found. (found.0, found.1.now)) result (result_type_at symbols.now) }
{
    if is_word(b"i64", symbols) {
        Ok((ResultType::Number, behind(symbols)))
    } else if is_word(b"void", symbols) {
        Ok((ResultType::Void, behind(symbols)))
    } else {
        Err(LineFault::Unexpected)
    }
}
