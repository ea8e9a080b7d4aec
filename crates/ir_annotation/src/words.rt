//! The words of an annotation but forms: numbers, names, registers, objects, modes.

ghost use Rattle.std.specs.Prelude.{◌≡◌, ◌≤◌, IfOk};
ghost use Rattle.ir_annotation.specs.Answers.{Gives};
ghost use Rattle.ir_annotation.specs.Words.{number_of, name_of, register_of, object_of, relation_of, mode_of};

use crate::limits::{Limited, NAME_MOST, up_to};
use ir_lex::{is_name, is_numeral, is_text, small_value};
use lists::Name;
use refusal::{Refused, rule};
use std::alloc::Global;
use syntax::{Address, Mode, Relation};

/// A word is not what its annotation has there.
pub fn unexpected(line: u32) -> Refused
    ensures { result ≡ Refused.Fault 103 line }
{
    Refused::Fault {
        number: rule::MISPLACED_WORD,
        line,
    }
}

/// A number without sign, with the limit `most`.
#[tactic(auto, unfolding(crate::specs::Words::number_of))]
pub fn read_number(most: u64, word: &[u8], line: u32) -> Result<Limited<u64>, Refused>
    ensures value { Gives (λ n. n) line result (number_of most word.now) }
    ensures small { IfOk result (λ n. n.value ≤ most) }
{
    if is_numeral(word) {
        Ok(up_to(most, small_value(word)))
    } else {
        Err(unexpected(line))
    }
}

/// A name without its sigil.
#[tactic(auto, unfolding(crate::specs::Words::name_of))]
pub fn read_name(alloc: Global, name: &[u8], line: u32) -> Result<Limited<Name>, Refused>
    ensures { Gives (λ n. n) line result (name_of name.now) }
{
    if !is_name(name) {
        return Err(unexpected(line));
    }
    match str::from_utf8(name) {
        Err(_) => Err(unexpected(line)),
        Ok(text) => Ok(Limited {
            value: Name::from_text(String::from_str(alloc, text)?),
            is_within_limits: name.len() <= NAME_MOST,
        }),
    }
}

/// `%x`
pub fn read_register(alloc: Global, word: &[u8], line: u32) -> Result<Limited<Name>, Refused>
    ensures { Gives (λ n. n) line result (register_of word.now) }
{
    match word {
        [b'%', name @ ..] => read_name(alloc, name, line),
        _ => Err(unexpected(line)),
    }
}

/// `%x` or `@x`
pub fn read_object(alloc: Global, word: &[u8], line: u32) -> Result<Limited<Address>, Refused>
    ensures { Gives (λ n. n) line result (object_of word.now) }
{
    match word {
        [b'%', name @ ..] => {
            let name = read_name(alloc, name, line)?;
            Ok(Limited {
                value: Address::Register(name.value),
                is_within_limits: name.is_within_limits,
            })
        }
        [b'@', name @ ..] => {
            let name = read_name(alloc, name, line)?;
            Ok(Limited {
                value: Address::Global(name.value),
                is_within_limits: name.is_within_limits,
            })
        }
        _ => Err(unexpected(line)),
    }
}

/// `<=` or `>=`
pub fn read_relation(word: &[u8], line: u32) -> Result<Relation, Refused>
    ensures { Gives (λ r. r) line result (relation_of word.now) }
{
    if is_text(word, b"<=") {
        Ok(Relation::AtMost)
    } else if is_text(word, b">=") {
        Ok(Relation::AtLeast)
    } else {
        Err(unexpected(line))
    }
}

/// `reads`, `writes` or `adds`
pub fn read_mode(word: &[u8], line: u32) -> Result<Mode, Refused>
    ensures { Gives (λ m. m) line result (mode_of word.now) }
{
    if is_text(word, b"reads") {
        Ok(Mode::Reads)
    } else if is_text(word, b"writes") {
        Ok(Mode::Writes)
    } else if is_text(word, b"adds") {
        Ok(Mode::Adds)
    } else {
        Err(unexpected(line))
    }
}
