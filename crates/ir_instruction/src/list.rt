//! Lists within a line: parameters of functions, arguments of calls, entries of phis.

ghost use Rattle.std.specs.Prelude.{◌≡◌, List, length, codes, Option, option_map};
ghost use Rattle.ir_instruction.specs.declared.symbol.Symbol.{Symbol};
ghost use Rattle.ir_instruction.specs.Outcome.{◌>>=◌ as ◌▷◌};
ghost use Rattle.ir_instruction.specs.Answers.{Finds, Gives};
ghost use Rattle.ir_instruction.specs.Fronts.{mark_at, word_at, register_at, operand_at};
ghost use Rattle.ir_instruction.specs.Lists.{list_at, comma_at, pointer_parameter_at, number_parameter_at, parameter_at, pointer_argument_at};
ghost use Rattle.ir_instruction.specs.Lists.{number_argument_at, argument_at, entry_at, all_at, all_entries_at};

use crate::fault::LineFault;
use crate::front::{
    behind, behind_mark, behind_word, bytes_at, is_mark, is_word, operand_at, pointer_at,
    register_at,
};
use crate::symbol::Symbol;
use lists::{Name, Seq};
use std::alloc::Global;
use syntax::{Argument, Operand, Parameter, PhiEntry};

/// What lists are made of.
pub trait Listed: Drop {
    ghost element: { List Symbol → Option (Self × List Symbol) };

    ghost follows: { List Symbol → Option (List Symbol) };

    fn at(symbols: &[Symbol]) -> Result<(Self, &[Symbol]), LineFault>
        ensures { Gives (λ found. (found.0, found.1.now)) result (element symbols.now) };

    /// Where another one begins, if one follows.
    fn next(symbols: &[Symbol]) -> Option<&[Symbol]>
        ensures { option_map (λ rest. rest.now) result ≡ follows symbols.now };
}

/// One or more.
pub fn list_at<T: Listed>(
    alloc: Global,
    symbols: &[Symbol],
) -> Result<(Seq<T>, &[Symbol]), LineFault>
    ensures { Gives (λ found. (found.0, found.1.now)) result (list_at T.element T.follows (length symbols.now) symbols.now) }
{
    let mut found = Vec::new(alloc);
    let mut rest = symbols;
    for _ in 0..symbols.len() {
        let (element, after) = T::at(rest)?;
        found.push(element)?;
        match T::next(after) {
            None => return Ok((Seq::from_vec(found), after)),
            Some(next) => rest = next,
        }
    }
    Err(LineFault::Unexpected)
}

fn comma_at(symbols: &[Symbol]) -> Option<&[Symbol]>
    ensures { option_map (λ rest. rest.now) result ≡ comma_at symbols.now }
{
    if is_mark(b',', symbols) {
        Some(behind(symbols))
    } else {
        None
    }
}

/// `ptr noalias dereferenceable`
fn pointer_words_at(symbols: &[Symbol]) -> Option<&[Symbol]>
    ensures { Finds (λ rest. rest.now) result
        ((word_at (codes "ptr") symbols.now ▷ word_at (codes "noalias")) ▷ word_at (codes "dereferenceable")) }
{
    let Some(rest) = behind_word(b"ptr", symbols) else {
        return None;
    };
    let Some(rest) = behind_word(b"noalias", rest) else {
        return None;
    };
    behind_word(b"dereferenceable", rest)
}

/// A mark and `%x`
fn register_behind(mark: u8, symbols: &[Symbol]) -> Result<(Name, &[Symbol]), LineFault>
    ensures { Gives (λ found. (found.0, found.1.now)) result (mark_at mark symbols.now ▷ register_at) }
{
    let Some(rest) = behind_mark(mark, symbols) else {
        return Err(LineFault::Unexpected);
    };
    register_at(rest)
}

fn pointer_parameter_at(symbols: &[Symbol]) -> Result<(Parameter, &[Symbol]), LineFault>
    ensures { Gives (λ found. (found.0, found.1.now)) result (pointer_parameter_at symbols.now) }
{
    let Some(rest) = pointer_words_at(symbols) else {
        return Err(LineFault::Unexpected);
    };
    let Some(rest) = behind_mark(b'(', rest) else {
        return Err(LineFault::Unexpected);
    };
    let Some((cells, rest)) = bytes_at(rest) else {
        return Err(LineFault::Unexpected);
    };
    let (name, rest) = register_behind(b')', rest)?;
    Ok((Parameter::Pointer { name, cells }, rest))
}

fn number_parameter_at(symbols: &[Symbol]) -> Result<(Parameter, &[Symbol]), LineFault>
    ensures { Gives (λ found. (found.0, found.1.now)) result (number_parameter_at symbols.now) }
{
    let Some(rest) = behind_word(b"i64", symbols) else {
        return Err(LineFault::Unexpected);
    };
    let (name, rest) = register_at(rest)?;
    Ok((Parameter::Number { name }, rest))
}

impl Listed for Parameter {
    ghost element = { parameter_at };

    ghost follows = { comma_at };

    fn at(symbols: &[Symbol]) -> Result<(Parameter, &[Symbol]), LineFault> {
        if is_word(b"ptr", symbols) {
            pointer_parameter_at(symbols)
        } else {
            number_parameter_at(symbols)
        }
    }

    fn next(symbols: &[Symbol]) -> Option<&[Symbol]> {
        comma_at(symbols)
    }
}

fn pointer_argument_at(symbols: &[Symbol]) -> Result<(Argument, &[Symbol]), LineFault>
    ensures { Gives (λ found. (found.0, found.1.now)) result (pointer_argument_at symbols.now) }
{
    let (address, rest) = pointer_at(symbols)?;
    Ok((Argument::Pointer(address), rest))
}

fn number_argument_at(symbols: &[Symbol]) -> Result<(Argument, &[Symbol]), LineFault>
    ensures { Gives (λ found. (found.0, found.1.now)) result (number_argument_at symbols.now) }
{
    let Some(rest) = behind_word(b"i64", symbols) else {
        return Err(LineFault::Unexpected);
    };
    let (value, rest) = operand_at(rest)?;
    Ok((Argument::Number(value), rest))
}

impl Listed for Argument {
    ghost element = { argument_at };

    ghost follows = { comma_at };

    fn at(symbols: &[Symbol]) -> Result<(Argument, &[Symbol]), LineFault> {
        if is_word(b"ptr", symbols) {
            pointer_argument_at(symbols)
        } else {
            number_argument_at(symbols)
        }
    }

    fn next(symbols: &[Symbol]) -> Option<&[Symbol]> {
        comma_at(symbols)
    }
}

/// `[ V`
fn entry_value_at(symbols: &[Symbol]) -> Result<(Operand, &[Symbol]), LineFault>
    ensures { Gives (λ found. (found.0, found.1.now)) result (mark_at 91 symbols.now ▷ operand_at) }
{
    let Some(rest) = behind_mark(b'[', symbols) else {
        return Err(LineFault::Unexpected);
    };
    operand_at(rest)
}

impl Listed for PhiEntry {
    ghost element = { entry_at };

    ghost follows = { comma_at };

    fn at(symbols: &[Symbol]) -> Result<(PhiEntry, &[Symbol]), LineFault> {
        let (value, rest) = entry_value_at(symbols)?;
        let (predecessor, rest) = register_behind(b',', rest)?;
        let Some(rest) = behind_mark(b']', rest) else {
            return Err(LineFault::Unexpected);
        };
        Ok((PhiEntry { value, predecessor }, rest))
    }

    fn next(symbols: &[Symbol]) -> Option<&[Symbol]> {
        comma_at(symbols)
    }
}

/// Parameters up to and with `)`.
pub fn parameters_at(
    alloc: Global,
    symbols: &[Symbol],
) -> Result<(Seq<Parameter>, &[Symbol]), LineFault>
    ensures { Gives (λ found. (found.0, found.1.now)) result (all_at parameter_at symbols.now) }
{
    if is_mark(b')', symbols) {
        return Ok((Seq::new(alloc), behind(symbols)));
    }
    let (found, rest) = list_at::<Parameter>(alloc, symbols)?;
    let Some(rest) = behind_mark(b')', rest) else {
        return Err(LineFault::Unexpected);
    };
    Ok((found, rest))
}

/// Arguments up to and with `)`.
pub fn arguments_at(
    alloc: Global,
    symbols: &[Symbol],
) -> Result<(Seq<Argument>, &[Symbol]), LineFault>
    ensures { Gives (λ found. (found.0, found.1.now)) result (all_at argument_at symbols.now) }
{
    if is_mark(b')', symbols) {
        return Ok((Seq::new(alloc), behind(symbols)));
    }
    let (found, rest) = list_at::<Argument>(alloc, symbols)?;
    let Some(rest) = behind_mark(b')', rest) else {
        return Err(LineFault::Unexpected);
    };
    Ok((found, rest))
}

/// Entries up to the line's end.
pub fn entries_at(
    alloc: Global,
    symbols: &[Symbol],
) -> Result<(Seq<PhiEntry>, &[Symbol]), LineFault>
    ensures { Gives (λ found. (found.0, found.1.now)) result (all_entries_at symbols.now) }
{
    list_at::<PhiEntry>(alloc, symbols)
}
