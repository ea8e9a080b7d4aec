//! From tokens to symbols: names without sigils, numbers with values, words and signs.

ghost use Rattle.std.specs.Prelude.{◌≡◌, All, IsAscii, IfOk, map, true};
ghost use Rattle.ir_lex.specs.Spelling.{is_number, is_marked_name};
ghost use Rattle.ir_lex.specs.Lexemes.{HasKind, IsTokenOf};
ghost use Rattle.ir_lex.specs.Texts.{text_at};
ghost use Rattle.ir_instruction.specs.Symbols.{number_of, numeral_of, named, symbol_of, symbol_at};

use crate::symbol::{Numeral, Symbol};
use ir_lex::{Kind, Token};
use lists::Name;
use std::alloc::{AllocError, Global};

fn name_of(alloc: Global, text: &[u8]) -> Result<Name, AllocError>
    requires { IsAscii text.now }
    ensures { IfOk result (λ name. name ≡ text.now) }
{
    match str::from_utf8(text) {
        Err(_) => unreachable!(),
        Ok(text) => Ok(Name::from_text(String::from_str(alloc, text)?)),
    }
}

fn number_of(text: &[u8]) -> Option<i64>
    requires { is_number text.now ≡ true }
    ensures { result ≡ number_of text.now }
{
    match str::from_utf8(text) {
        Err(_) => None,
        Ok(text) => match text.parse::<i64>() {
            Err(_) => None,
            Ok(n) => Some(n),
        },
    }
}

fn numeral_of(alloc: Global, text: &[u8]) -> Result<Numeral, AllocError>
    requires { is_number text.now ≡ true }
    ensures { IfOk result (λ numeral. numeral ≡ numeral_of text.now) }
{
    match number_of(text) {
        Some(n) => Ok(Numeral::Small(n)),
        None => Ok(Numeral::Large(name_of(alloc, text)?)),
    }
}

fn named(alloc: Global, text: &[u8]) -> Result<Symbol, AllocError>
    requires { is_marked_name text.now ≡ true }
    ensures { IfOk result (λ symbol. symbol ≡ named text.now) }
{
    let name = name_of(alloc, &text[1..])?;
    if text[0] == b'%' {
        Ok(Symbol::Register(name))
    } else {
        Ok(Symbol::Global(name))
    }
}

fn symbol_of(alloc: Global, kind: Kind, text: &[u8]) -> Result<Symbol, AllocError>
    requires { HasKind kind text.now }
    ensures { IfOk result (λ symbol. symbol ≡ symbol_of kind text.now) }
{
    match kind {
        Kind::Name => named(alloc, text),
        Kind::Number => Ok(Symbol::Number(numeral_of(alloc, text)?)),
        Kind::Word => Ok(Symbol::Word(name_of(alloc, text)?)),
        Kind::Mark => Ok(Symbol::Mark(text[0])),
        Kind::Note => Ok(Symbol::Note),
    }
}

pub fn symbols_of(alloc: Global, line: &[u8], tokens: &[Token]) -> Result<Vec<Symbol>, AllocError>
    requires { All (IsTokenOf line.now) tokens.now }
    ensures { IfOk result (λ v. v.items ≡ map (symbol_at line.now) tokens.now) }
{
    let mut symbols = Vec::new(alloc);
    for token in tokens {
        symbols.push(symbol_of(alloc, token.kind, &line[token.from..token.to])?)?;
    }
    Ok(symbols)
}

/// The bytes of a token.
fn word_at(alloc: Global, line: &[u8], token: Token) -> Result<Name, AllocError>
    requires { IsTokenOf line.now token }
    ensures { IfOk result (λ name. name ≡ text_at line.now token) }
{
    name_of(alloc, &line[token.from..token.to])
}

/// The bytes of each token.
pub fn words_of(alloc: Global, line: &[u8], tokens: &[Token]) -> Result<Vec<Name>, AllocError>
    requires { All (IsTokenOf line.now) tokens.now }
    ensures { IfOk result (λ v. v.items ≡ map (text_at line.now) tokens.now) }
{
    let mut words = Vec::new(alloc);
    for token in tokens {
        words.push(word_at(alloc, line, *token)?)?;
    }
    Ok(words)
}
