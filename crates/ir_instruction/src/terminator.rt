//! Terminators: what stands behind their first word.

ghost use Rattle.std.specs.Prelude.{◌≡◌, Some, None, if◌then◌else◌, option_map};
ghost use Rattle.ir_instruction.specs.Answers.{Gives};
ghost use Rattle.ir_instruction.specs.Shape.{gaps_of};
ghost use Rattle.ir_instruction.specs.Cases.{are_cases_of, cases_from};
ghost use Rattle.ir_instruction.specs.Grammar.{jump_shape, jump_from, branch_in, switch_in, return_void_shape, return_void_from, return_shape, return_from};
ghost use Rattle.ir_instruction.specs.Grammar.{detach_in, region_shape, reattach_from, sync_from, br, return, terminator_in};

use crate::ends::{
    last_operand_at, last_targets_at, last_word_at, register_and_label_at, register_and_labels_at,
};
use crate::fault::LineFault;
use crate::front::{behind_word, is_word, label_at, operand_at, width_at};
use crate::numeral::is_same_name;
use crate::switch::{SpelledCase, are_cases_of, cases_from};
use crate::symbol::Symbol;
use ir_lex::is_text;
use lists::{Name, Seq};
use std::alloc::Global;
use syntax::{Case, Terminator, Width};

fn jump_at(symbols: &[Symbol]) -> Result<Terminator, LineFault>
    ensures { Gives (λ made. made) result (option_map jump_from (gaps_of jump_shape symbols.now)) }
{
    let (target, rest) = label_at(symbols)?;
    match rest {
        [] => Ok(Terminator::Jump { target }),
        _ => Err(LineFault::Unexpected),
    }
}

fn branch_at(symbols: &[Symbol]) -> Result<Terminator, LineFault>
    ensures { Gives (λ made. made) result (branch_in symbols.now) }
{
    let (condition, (when_true, when_false)) = register_and_labels_at(b"i1", symbols)?;
    if is_same_name(&when_true, &when_false) {
        return Err(LineFault::Unexpected);
    }
    Ok(Terminator::Branch {
        condition,
        when_true,
        when_false,
    })
}

/// Behind `br`.
fn br_at(symbols: &[Symbol]) -> Result<Terminator, LineFault>
    ensures { Gives (λ made. made) result (br symbols.now) }
{
    if is_word(b"label", symbols) {
        jump_at(symbols)
    } else {
        branch_at(symbols)
    }
}

/// The cases of a switch, where they are cases of this width and default.
fn judged_cases(
    alloc: Global,
    width: Width,
    default: &Name,
    spelled: &[SpelledCase],
) -> Result<Seq<Case>, LineFault>
    ensures { Gives (λ cases. cases) result (if are_cases_of width default.now spelled.now then Some (cases_from spelled.now) else None) }
{
    if are_cases_of(width, default, spelled) {
        Ok(cases_from(alloc, spelled)?)
    } else {
        Err(LineFault::Unexpected)
    }
}

/// Behind `switch`.
fn switch_at(alloc: Global, symbols: &[Symbol]) -> Result<Terminator, LineFault>
    ensures { Gives (λ made. made) result (switch_in symbols.now) }
{
    let Some((width, rest)) = width_at(symbols) else {
        return Err(LineFault::Unexpected);
    };
    let (value, rest) = operand_at(rest)?;
    let (default, spelled) = last_targets_at(alloc, rest)?;
    let cases = judged_cases(alloc, width, &default, spelled.as_slice())?;
    Ok(Terminator::Switch {
        width,
        value,
        default,
        cases,
    })
}

fn return_void_at(symbols: &[Symbol]) -> Result<Terminator, LineFault>
    ensures { Gives (λ made. made) result (option_map return_void_from (gaps_of return_void_shape symbols.now)) }
{
    match last_word_at(b"void", symbols) {
        Some(()) => Ok(Terminator::Return { value: None }),
        None => Err(LineFault::Unexpected),
    }
}

fn return_number_at(symbols: &[Symbol]) -> Result<Terminator, LineFault>
    ensures { Gives (λ made. made) result (option_map return_from (gaps_of return_shape symbols.now)) }
{
    let Some(rest) = behind_word(b"i64", symbols) else {
        return Err(LineFault::Unexpected);
    };
    let value = last_operand_at(rest)?;
    Ok(Terminator::Return { value: Some(value) })
}

/// Behind `ret`.
fn return_at(symbols: &[Symbol]) -> Result<Terminator, LineFault>
    ensures { Gives (λ made. made) result (return symbols.now) }
{
    if is_word(b"void", symbols) {
        return_void_at(symbols)
    } else {
        return_number_at(symbols)
    }
}

/// Behind `detach`.
fn detach_at(symbols: &[Symbol]) -> Result<Terminator, LineFault>
    ensures { Gives (λ made. made) result (detach_in symbols.now) }
{
    let (region, (body, continuation)) = register_and_labels_at(b"within", symbols)?;
    if is_same_name(&body, &continuation) {
        return Err(LineFault::Unexpected);
    }
    Ok(Terminator::Detach {
        region,
        body,
        continuation,
    })
}

/// Behind `reattach`.
fn reattach_at(symbols: &[Symbol]) -> Result<Terminator, LineFault>
    ensures { Gives (λ made. made) result (option_map reattach_from (gaps_of region_shape symbols.now)) }
{
    let (region, continuation) = register_and_label_at(b"within", symbols)?;
    Ok(Terminator::Reattach {
        region,
        continuation,
    })
}

/// Behind `sync`.
fn sync_at(symbols: &[Symbol]) -> Result<Terminator, LineFault>
    ensures { Gives (λ made. made) result (option_map sync_from (gaps_of region_shape symbols.now)) }
{
    let (region, target) = register_and_label_at(b"within", symbols)?;
    Ok(Terminator::Sync { region, target })
}

/// Behind the first word of a terminator.
#[tactic(auto, unfolding(crate::specs::Grammar::terminator_in))]
pub fn terminator_at(
    alloc: Global,
    word: &[u8],
    symbols: &[Symbol],
) -> Result<Terminator, LineFault>
    ensures { Gives (λ made. made) result (terminator_in word.now symbols.now) }
{
    if is_text(word, b"br") {
        br_at(symbols)
    } else if is_text(word, b"switch") {
        switch_at(alloc, symbols)
    } else if is_text(word, b"ret") {
        return_at(symbols)
    } else if is_text(word, b"detach") {
        detach_at(symbols)
    } else if is_text(word, b"reattach") {
        reattach_at(symbols)
    } else if is_text(word, b"sync") {
        sync_at(symbols)
    } else {
        Err(LineFault::Unexpected)
    }
}
