//! From a line's bytes to what it says.

ghost use Rattle.std.specs.Prelude.{◌≡◌, ◌∷◌, [], All, IfOk, IfErr, IsUtf8, Ok, Some, map, length, ◌<◌};
ghost use Rattle.std.specs.List.{list_all};
ghost use Rattle.ir_annotation.specs.Lines.{annotation_of};
ghost use Rattle.ir_lex.specs.Lexemes.{IsTokenOf};
ghost use Rattle.ir_lex.specs.Texts.{text_at};
ghost use Rattle.ir_instruction.specs.Symbols.{symbol_at, is_within_limits};
ghost use Rattle.ir_reader.specs.item.Grammar.{item_in};
ghost use Rattle.ir_reader.specs.item.Lines.{annotation_line, item_line, meaning_of, line_of};
ghost use Rattle.ir_reader.specs.item.Answers.{IsFaultOfLine, IsMeaningFault};

use crate::item::grammar::item_of;
use crate::item::item::Item;
use ir_annotation::read_annotation;
use ir_instruction::{LineFault, Numeral, Symbol, symbols_of, words_of};
use ir_lex::{Kind, Token, lex};
use lists::Name;
use refusal::{Refused, rule};
use std::alloc::Global;

/// An item with the judgement of its numbers and names.
#[derive(Drop)]
pub struct Line {
    pub item: Item,
    /// Whether each number is in its range and each name has at most 64 bytes. A number outside its range is any number in it.
    pub is_within_limits: bool,
}

/// Whether a number is in `i64` and a name has at most 64 bytes.
fn is_within_limits(symbol: &Symbol) -> bool
    ensures { result ≡ is_within_limits symbol.now }
{
    match symbol {
        Symbol::Register(name) | Symbol::Global(name) | Symbol::Word(name) => {
            name.as_bytes().len() <= 64
        }
        Symbol::Number(Numeral::Small(_)) => true,
        Symbol::Number(Numeral::Large(_)) => false,
        Symbol::Mark(_) | Symbol::Note => true,
    }
}

fn are_within_limits(symbols: &[Symbol]) -> bool
    ensures { result ≡ list_all is_within_limits symbols.now }
{
    symbols.iter().all(|symbol| is_within_limits(symbol))
}

/// What the symbols of a line say.
fn read_symbols(alloc: Global, symbols: &[Symbol], number: u32) -> Result<Option<Line>, Refused>
    ensures found { IfOk result (λ said. item_line symbols.now (item_in number symbols.now) ≡ Ok said) }
    ensures fault { IfErr result (IsMeaningFault number (item_line symbols.now (item_in number symbols.now))) }
{
    match item_of(alloc, number, symbols) {
        Err(LineFault::Memory) => Err(Refused::Memory),
        Err(LineFault::Unexpected) => Err(Refused::Fault {
            number: rule::MISPLACED_WORD,
            line: number,
        }),
        Ok(item) => Ok(Some(Line {
            item,
            is_within_limits: are_within_limits(symbols),
        })),
    }
}

/// What the words behind `;!` say.
fn read_words(alloc: Global, words: &[Name], number: u32) -> Result<Option<Line>, Refused>
    ensures found { IfOk result (λ said. annotation_line (annotation_of words.now number) ≡ Ok said) }
    ensures fault { IfErr result (IsMeaningFault number (annotation_line (annotation_of words.now number))) }
{
    let found = read_annotation(alloc, words, number)?;
    Ok(Some(Line {
        item: Item::Annotation(found.annotation),
        is_within_limits: found.is_within_limits,
    }))
}

/// What the tokens of a line say.
fn read_tokens(
    alloc: Global,
    line: &[u8],
    tokens: &[Token],
    number: u32,
) -> Result<Option<Line>, Refused>
    requires { All (IsTokenOf line.now) tokens.now }
    ensures found { IfOk result (λ said. meaning_of number line.now tokens.now ≡ Ok said) }
    ensures fault { IfErr result (IsMeaningFault number (meaning_of number line.now tokens.now)) }
{
    match tokens {
        [] => Ok(None),
        [first, words @ ..] => match first.kind {
            Kind::Note => {
                let words = words_of(alloc, line, words)?;
                read_words(alloc, words.as_slice(), number)
            }
            _ => {
                let symbols = symbols_of(alloc, line, tokens)?;
                read_symbols(alloc, symbols.as_slice(), number)
            }
        },
    }
}

/// What a line says: nothing where it is blank or a comment. The faults are 101, 102, 103 and 107; a number or a name past its
/// limit is told by the flag.
pub fn read_line(alloc: Global, line: &[u8], number: u32) -> Result<Option<Line>, Refused>
    ensures found { IfOk result (λ said. IsUtf8 line.now × (line_of number line.now ≡ Ok said)) }
    ensures fault { IfErr result (IsFaultOfLine number line.now) }
{
    let tokens = lex(alloc, line, number)?;
    read_tokens(alloc, line, tokens.as_slice(), number)
}

/// Whether a line is right by itself; one that says nothing is.
///
/// # Errors
///
/// The fault that [`read_line`] names, or 104 where a number or a name is past its limit.
pub fn judge_line(alloc: Global, line: &[u8], number: u32) -> Result<(), Refused> {
    let is_within_limits = match read_line(alloc, line, number)? {
        Some(line) => {
            let is_within_limits = line.is_within_limits;
            drop(line);
            is_within_limits
        }
        None => true,
    };
    if is_within_limits {
        Ok(())
    } else {
        Err(Refused::Fault {
            number: rule::OVER_LIMIT,
            line: number,
        })
    }
}
