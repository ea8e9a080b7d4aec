//! From the symbols of a line to its item (parser of a line).

ghost use Rattle.std.specs.Prelude.{◌≡◌, [], ◌∷◌, codes, option_map, IsTrue};
ghost use Rattle.ir_reader.specs.declared.item.item.Item.TheVariants as item;
ghost use Rattle.ir_instruction.specs.Outcome.{◌>>=◌ as ◌▷◌};
ghost use Rattle.ir_instruction.specs.Answers.{Gives};
ghost use Rattle.ir_instruction.specs.Fronts.{behind, mark_at};
ghost use Rattle.ir_instruction.specs.Shape.{gaps_of, gap, word, mark, space, parameters};
ghost use Rattle.ir_instruction.specs.Grammar.{global_shape, define_shape, phi_shape, phi_from, terminator_in};
ghost use Rattle.ir_reader.specs.item.Grammar.{global_from, define_from, worded_definition, definition, worded};
ghost use Rattle.ir_reader.specs.item.Grammar.{item_in};
ghost use Rattle.ir_reader.specs.item.Answers.{as_item};

use crate::item::item::Item;
use ir_instruction::{
    LineFault, Symbol, array_at, atomic_at, behind, call_at, call_void_at, end_at, fixed_at,
    global_at, is_mark, mark_at, parameters_at, phi_at, result_type_at, store_at, terminator_at,
    word_at,
};
use ir_lex::is_text;
use lists::{Name, Seq};
use std::alloc;
use syntax::{Global, Instruction, Parameter};

/// `zeroinitializer` at the line's end.
fn zeros_at(symbols: &[Symbol]) -> Result<(), LineFault>
    ensures { Gives (λ done. done) result (gaps_of (word (codes "zeroinitializer") ∷ []) symbols.now) }
{
    let rest = word_at(b"zeroinitializer", symbols)?;
    end_at(rest)
}

/// How many cells a global has.
fn cells_at(symbols: &[Symbol]) -> Result<u64, LineFault>
    ensures { Gives (λ cells. (cells, tt)) result (gaps_of global_shape symbols.now) }
{
    let rest = mark_at(b'=', symbols)?;
    let rest = word_at(b"global", rest)?;
    let (cells, rest) = array_at(rest)?;
    zeros_at(rest)?;
    Ok(cells)
}

/// Behind `@name`.
fn global_item_at(name: &Name, line: u32, symbols: &[Symbol]) -> Result<Item, LineFault>
    ensures { Gives (λ made. made) result (option_map (global_from line name.now) (gaps_of global_shape symbols.now)) }
{
    let cells = cells_at(symbols)?;
    let name = name.copy()?;
    Ok(Item::Global(Global { line, name, cells }))
}

/// `{` at the line's end.
fn brace_at(symbols: &[Symbol]) -> Result<(), LineFault>
    ensures { Gives (λ done. done) result (gaps_of (mark 123 ∷ []) symbols.now) }
{
    let rest = mark_at(b'{', symbols)?;
    end_at(rest)
}

/// `(PARAM, ..) {` at the line's end.
fn parameter_list_at(alloc: alloc::Global, symbols: &[Symbol]) -> Result<Seq<Parameter>, LineFault>
    ensures { Gives (λ found. (found, tt)) result (gaps_of (mark 40 ∷ gap parameters ∷ space ∷ mark 123 ∷ []) symbols.now) }
{
    let rest = mark_at(b'(', symbols)?;
    let (found, rest) = parameters_at(alloc, rest)?;
    brace_at(rest)?;
    Ok(found)
}

/// Behind `define`.
fn define_at(alloc: alloc::Global, symbols: &[Symbol]) -> Result<Item, LineFault>
    ensures { Gives (λ made. made) result (option_map define_from (gaps_of define_shape symbols.now)) }
{
    let (result_type, rest) = result_type_at(symbols)?;
    let (name, rest) = global_at(rest)?;
    let parameters = parameter_list_at(alloc, rest)?;
    Ok(Item::Define {
        name,
        result_type,
        parameters,
    })
}

/// What was read of an instruction, as the item of its line.
fn as_item(read: Result<Instruction, LineFault>) -> Result<Item, LineFault>
    ensures { result ≡ as_item read }
{
    match read {
        Ok(instruction) => Ok(Item::Instruction(instruction)),
        Err(fault) => Err(fault),
    }
}

/// Behind `%d = phi`.
fn phi_item_at(
    alloc: alloc::Global,
    register: Name,
    line: u32,
    symbols: &[Symbol],
) -> Result<Item, LineFault>
    ensures { Gives (λ made. made) result (option_map (λ g. item.Phi (phi_from line register g)) (gaps_of phi_shape symbols.now)) }
{
    let phi = phi_at(alloc, register, line, symbols)?;
    Ok(Item::Phi(phi))
}

/// Behind `%d =` and a word.
fn worded_definition_at(
    alloc: alloc::Global,
    register: Name,
    line: u32,
    word: &[u8],
    symbols: &[Symbol],
) -> Result<Item, LineFault>
    ensures { Gives (λ made. made) result (worded_definition line register word.now symbols.now) }
{
    if is_text(word, b"phi") {
        phi_item_at(alloc, register, line, symbols)
    } else if is_text(word, b"call") {
        as_item(call_at(alloc, register, symbols))
    } else {
        as_item(fixed_at(register, word, symbols))
    }
}

/// Behind `%d =`.
#[tactic(auto, unfolding(crate::specs::item::Grammar::definition))]
fn definition_at(
    alloc: alloc::Global,
    register: &Name,
    line: u32,
    symbols: &[Symbol],
) -> Result<Item, LineFault>
    ensures { Gives (λ made. made) result (definition line register.now symbols.now) }
{
    match symbols {
        [Symbol::Word(word), rest @ ..] => {
            worded_definition_at(alloc, register.copy()?, line, word.as_bytes(), rest)
        }
        _ => Err(LineFault::Unexpected),
    }
}

/// Behind `%d`.
fn defined_at(
    alloc: alloc::Global,
    register: &Name,
    line: u32,
    symbols: &[Symbol],
) -> Result<Item, LineFault>
    ensures { Gives (λ made. made) result (mark_at 61 symbols.now ▷ definition line register.now) }
{
    let rest = mark_at(b'=', symbols)?;
    definition_at(alloc, register, line, rest)
}

/// A terminator behind its first word.
fn terminator_item_at(
    alloc: alloc::Global,
    word: &[u8],
    symbols: &[Symbol],
) -> Result<Item, LineFault>
    ensures { Gives (λ made. made) result (option_map item.Terminator (terminator_in word.now symbols.now)) }
{
    let terminator = terminator_at(alloc, word, symbols)?;
    Ok(Item::Terminator(terminator))
}

/// Behind a first word that is no label.
#[tactic(auto, unfolding(crate::specs::item::Grammar::worded))]
fn worded_at(alloc: alloc::Global, word: &[u8], symbols: &[Symbol]) -> Result<Item, LineFault>
    ensures { Gives (λ made. made) result (worded word.now symbols.now) }
{
    if is_text(word, b"define") {
        define_at(alloc, symbols)
    } else if is_text(word, b"store") {
        as_item(store_at(symbols))
    } else if is_text(word, b"atomicrmw") {
        as_item(atomic_at(symbols))
    } else if is_text(word, b"call") {
        as_item(call_void_at(alloc, symbols))
    } else {
        terminator_item_at(alloc, word, symbols)
    }
}

fn label_at(name: &Name, symbols: &[Symbol]) -> Result<Item, LineFault>
    ensures { Gives (λ made. made) result (option_map (λ gaps. item.Label name.now) (gaps_of [] (behind symbols.now))) }
{
    end_at(behind(symbols))?;
    Ok(Item::Label(name.copy()?))
}

/// Behind `}`.
fn close_at(symbols: &[Symbol]) -> Result<Item, LineFault>
    ensures { Gives (λ made. made) result (option_map (λ gaps. item.Close) (gaps_of [] symbols.now)) }
{
    end_at(symbols)?;
    Ok(Item::Close)
}

/// The item of a line that has tokens and is no annotation.
#[tactic(auto, unfolding(crate::specs::item::Grammar::item_in))]
pub fn item_of(alloc: alloc::Global, line: u32, symbols: &[Symbol]) -> Result<Item, LineFault>
    ensures { Gives (λ made. made) result (item_in line symbols.now) }
{
    match symbols {
        [Symbol::Register(register), rest @ ..] => defined_at(alloc, register, line, rest),
        [Symbol::Global(name), rest @ ..] => global_item_at(name, line, rest),
        [Symbol::Word(word), rest @ ..] => {
            if is_mark(b':', rest) {
                label_at(word, rest)
            } else {
                worded_at(alloc, word.as_bytes(), rest)
            }
        }
        [Symbol::Mark(b'}'), rest @ ..] => close_at(rest),
        _ => Err(LineFault::Unexpected),
    }
}
