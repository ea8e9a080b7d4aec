//! What a line ends with: a last word, operand, address or label, read up to the line's end. Each reads up to the
//! line's end, and what is read behind one another is let go in few places: a proof follows each step with all that is
//! held at it.

ghost use Rattle.std.specs.Prelude.{◌≡◌, [], ◌∷◌, codes};
ghost use Rattle.ir_instruction.specs.Answers.{Finds, Gives};
ghost use Rattle.ir_instruction.specs.Shape.{gaps_of, gap, word, mark, space, register, function, label, operand, pointer, arguments, cases};

use crate::fault::LineFault;
use crate::front::{
    behind_mark, behind_word, global_at, label_at, operand_at, pointer_at, register_at,
};
use crate::list::arguments_at;
use crate::switch::{SpelledCase, all_cases_at};
use crate::symbol::Symbol;
use lists::{Name, Seq};
use std::alloc::Global;
use syntax::{Address, Argument, Operand};

/// This word, and nothing behind it.
pub fn last_word_at(text: &[u8], symbols: &[Symbol]) -> Option<()>
    ensures { Finds (λ done. done) result (gaps_of (word text.now ∷ []) symbols.now) }
{
    let Some(rest) = behind_word(text, symbols) else {
        return None;
    };
    match rest {
        [] => Some(()),
        _ => None,
    }
}

/// `V`
pub fn last_operand_at(symbols: &[Symbol]) -> Result<Operand, LineFault>
    ensures { Gives (λ found. (found, tt)) result (gaps_of (gap operand ∷ []) symbols.now) }
{
    let (found, rest) = operand_at(symbols)?;
    match rest {
        [] => Ok(found),
        _ => Err(LineFault::Unexpected),
    }
}

/// `V, V`
pub fn last_operands_at(symbols: &[Symbol]) -> Result<(Operand, Operand), LineFault>
    ensures { Gives (λ found. (found.0, (found.1, tt))) result (gaps_of (gap operand ∷ mark 44 ∷ space ∷ gap operand ∷ []) symbols.now) }
{
    let (left, rest) = operand_at(symbols)?;
    let Some(rest) = behind_mark(b',', rest) else {
        return Err(LineFault::Unexpected);
    };
    let right = last_operand_at(rest)?;
    Ok((left, right))
}

/// `, i64 V`
pub fn last_index_at(symbols: &[Symbol]) -> Result<Operand, LineFault>
    ensures { Gives (λ found. (found, tt)) result (gaps_of (mark 44 ∷ space ∷ word (codes "i64") ∷ space ∷ gap operand ∷ []) symbols.now) }
{
    let Some(rest) = behind_mark(b',', symbols) else {
        return Err(LineFault::Unexpected);
    };
    let Some(rest) = behind_word(b"i64", rest) else {
        return Err(LineFault::Unexpected);
    };
    last_operand_at(rest)
}

/// `, ptr P`
pub fn last_pointer_at(symbols: &[Symbol]) -> Result<Address, LineFault>
    ensures { Gives (λ found. (found, tt)) result (gaps_of (mark 44 ∷ space ∷ gap pointer ∷ []) symbols.now) }
{
    let Some(rest) = behind_mark(b',', symbols) else {
        return Err(LineFault::Unexpected);
    };
    let (address, rest) = pointer_at(rest)?;
    match rest {
        [] => Ok(address),
        _ => Err(LineFault::Unexpected),
    }
}

/// `, label %l`
fn last_label_at(symbols: &[Symbol]) -> Result<Name, LineFault>
    ensures { Gives (λ found. (found, tt)) result (gaps_of (mark 44 ∷ space ∷ gap label ∷ []) symbols.now) }
{
    let Some(rest) = behind_mark(b',', symbols) else {
        return Err(LineFault::Unexpected);
    };
    let (target, rest) = label_at(rest)?;
    match rest {
        [] => Ok(target),
        _ => Err(LineFault::Unexpected),
    }
}

/// `, label %l, label %l`
fn last_labels_at(symbols: &[Symbol]) -> Result<(Name, Name), LineFault>
    ensures { Gives (λ found. (found.0, (found.1, tt))) result (gaps_of (mark 44 ∷ space ∷ gap label ∷ mark 44 ∷ space ∷ gap label ∷ []) symbols.now) }
{
    let Some(rest) = behind_mark(b',', symbols) else {
        return Err(LineFault::Unexpected);
    };
    let (first, rest) = label_at(rest)?;
    let second = last_label_at(rest)?;
    Ok((first, second))
}

/// A word and `%x, label %l`
pub fn register_and_label_at(text: &[u8], symbols: &[Symbol]) -> Result<(Name, Name), LineFault>
    ensures { Gives (λ found. (found.0, (found.1, tt))) result
        (gaps_of (word text.now ∷ space ∷ gap register ∷ mark 44 ∷ space ∷ gap label ∷ []) symbols.now) }
{
    let Some(rest) = behind_word(text, symbols) else {
        return Err(LineFault::Unexpected);
    };
    let (found, rest) = register_at(rest)?;
    let target = last_label_at(rest)?;
    Ok((found, target))
}

/// A word and `%x, label %l, label %l`
pub fn register_and_labels_at(
    text: &[u8],
    symbols: &[Symbol],
) -> Result<(Name, (Name, Name)), LineFault>
    ensures { Gives (λ found. (found.0, (found.1.0, (found.1.1, tt)))) result
        (gaps_of (word text.now ∷ space ∷ gap register ∷ mark 44 ∷ space ∷ gap label ∷ mark 44 ∷ space ∷ gap label ∷ []) symbols.now) }
{
    let Some(rest) = behind_word(text, symbols) else {
        return Err(LineFault::Unexpected);
    };
    let (found, rest) = register_at(rest)?;
    let targets = last_labels_at(rest)?;
    Ok((found, targets))
}

fn last_arguments_at(alloc: Global, symbols: &[Symbol]) -> Result<Seq<Argument>, LineFault>
    ensures { Gives (λ found. (found, tt)) result (gaps_of (mark 40 ∷ gap arguments ∷ []) symbols.now) }
{
    let Some(rest) = behind_mark(b'(', symbols) else {
        return Err(LineFault::Unexpected);
    };
    let (found, rest) = arguments_at(alloc, rest)?;
    match rest {
        [] => Ok(found),
        _ => Err(LineFault::Unexpected),
    }
}

/// A type and `@f(ARG, ..)`
pub fn callee_at(
    alloc: Global,
    text: &[u8],
    symbols: &[Symbol],
) -> Result<(Name, Seq<Argument>), LineFault>
    ensures { Gives (λ found. (found.0, (found.1, tt))) result
        (gaps_of (word text.now ∷ space ∷ gap function ∷ mark 40 ∷ gap arguments ∷ []) symbols.now) }
{
    let Some(rest) = behind_word(text, symbols) else {
        return Err(LineFault::Unexpected);
    };
    let (callee, rest) = global_at(rest)?;
    let found = last_arguments_at(alloc, rest)?;
    Ok((callee, found))
}

/// `[ T N, label %l .. ]`
fn last_cases_at(alloc: Global, symbols: &[Symbol]) -> Result<Seq<SpelledCase>, LineFault>
    ensures { Gives (λ found. (found, tt)) result (gaps_of (mark 91 ∷ space ∷ gap cases ∷ []) symbols.now) }
{
    let Some(rest) = behind_mark(b'[', symbols) else {
        return Err(LineFault::Unexpected);
    };
    let (found, rest) = all_cases_at(alloc, rest)?;
    match rest {
        [] => Ok(found),
        _ => Err(LineFault::Unexpected),
    }
}

/// `, label %l [ T N, label %l .. ]`
pub fn last_targets_at(
    alloc: Global,
    symbols: &[Symbol],
) -> Result<(Name, Seq<SpelledCase>), LineFault>
    ensures { Gives (λ found. (found.0, (found.1, tt))) result
        (gaps_of (mark 44 ∷ space ∷ gap label ∷ space ∷ mark 91 ∷ space ∷ gap cases ∷ []) symbols.now) }
{
    let Some(rest) = behind_mark(b',', symbols) else {
        return Err(LineFault::Unexpected);
    };
    let (default, rest) = label_at(rest)?;
    let spelled = last_cases_at(alloc, rest)?;
    Ok((default, spelled))
}
