//! From the bytes of a line to its tokens (lexer, tokenizer).

ghost use Rattle.std.specs.Prelude.{◌≡◌, ◌<◌, ◌≤◌, length, drop, All, IfOk, IfErr, IsUtf8, Some};
ghost use Rattle.ir_lex.specs.Tokens.{lead, lead_in_note, front_at, tokens_from, tokens_of};
ghost use Rattle.ir_lex.specs.Lexemes.{IsTokenOf};
ghost use Rattle.ir_lex.specs.Faults.{IsFaultOfTokens};
ghost use Rattle.ir_lex.specs.Scanning.{IsWithin, prepend, IsBadToken};

use crate::spelling::{
    is_mark, is_note_mark, is_printed, is_space, kind_of, run_len, spaces, word_len,
};
use crate::token::{Kind, Token};
use refusal::{Refused, rule};
use std::alloc::Global;

/// What stands at the front of the rest of a line.
#[derive(Clone, Copy)]
enum Front {
    Space,
    /// Nothing more comes.
    Comment,
    /// A token of so many bytes.
    Begins(Kind, usize),
    Wrong,
}

#[tactic(auto, unfolding(crate::specs::Tokens::lead))]
fn lead(rest: &[u8]) -> Front
    requires { 0 < length rest.now }
    ensures value { result ≡ lead rest.now }
    ensures within { IsWithin (length rest.now) result }
{
    let byte = rest[0];
    if is_space(byte) {
        Front::Space
    } else if is_mark(byte) {
        Front::Begins(Kind::Mark, 1)
    } else if is_note_mark(rest) {
        Front::Begins(Kind::Note, 2)
    } else if byte == b';' {
        Front::Comment
    } else {
        let len = run_len(rest);
        match kind_of(&rest[..len]) {
            None => Front::Wrong,
            Some(kind) => Front::Begins(kind, len),
        }
    }
}

#[tactic(auto, unfolding(crate::specs::Tokens::lead_in_note))]
fn lead_in_note(rest: &[u8]) -> Front
    requires { 0 < length rest.now }
    ensures value { result ≡ lead_in_note rest.now }
    ensures within { IsWithin (length rest.now) result }
{
    let byte = rest[0];
    if is_space(byte) {
        Front::Space
    } else {
        let len = word_len(rest);
        if is_printed(&rest[..len]) {
            Front::Begins(Kind::Word, len)
        } else {
            Front::Wrong
        }
    }
}

fn front_at(rest: &[u8], in_note: bool) -> Front
    requires { 0 < length rest.now }
    ensures value { result ≡ front_at in_note rest.now }
    ensures within { IsWithin (length rest.now) result }
{
    if in_note {
        lead_in_note(rest)
    } else {
        lead(rest)
    }
}

/// Adds the tokens from place `from` on.
fn scan_from(
    line: &[u8],
    number: u32,
    in_note: bool,
    from: usize,
    mut tokens: Vec<Token>,
) -> Result<Vec<Token>, Refused>
    requires { from ≤ length line.now }
    ensures found { IfOk result (λ v. prepend tokens.items (tokens_from in_note 0 from (drop from line.now)) ≡ Some v.items) }
    ensures fault { IfErr result (IsBadToken number (tokens_from in_note 0 from (drop from line.now))) }
{
    let mut at = from;
    while at < line.len() {
        let rest = &line[at..];
        match front_at(rest, in_note) {
            Front::Space => at += 1,
            Front::Comment => return Ok(tokens),
            Front::Begins(kind, len) => {
                tokens.push(Token {
                    kind,
                    from: at,
                    to: at + len,
                })?;
                at += len;
            }
            Front::Wrong => return Err(Refused::Fault {
                number: rule::NO_TOKEN,
                line: number,
            }),
        }
    }
    Ok(tokens)
}

fn tokens_of(alloc: Global, line: &[u8], number: u32) -> Result<Vec<Token>, Refused>
    ensures found { IfOk result (λ v. IsUtf8 line.now × (tokens_of line.now ≡ Some v.items)) }
    ensures fault { IfErr result (IsFaultOfTokens line.now number) }
{
    if let Err(_) = str::from_utf8(line) {
        return Err(Refused::Fault {
            number: rule::NOT_UTF8,
            line: number,
        });
    }
    let start = spaces(line);
    let mut tokens = Vec::new(alloc);
    if is_note_mark(&line[start..]) {
        tokens.push(Token {
            kind: Kind::Note,
            from: start,
            to: start + 2,
        })?;
        scan_from(line, number, true, start + 2, tokens)
    } else {
        scan_from(line, number, false, start, tokens)
    }
}

/// The tokens of a line without its line end; a blank one has none.
///
/// # Errors
///
/// 101 where the line is no UTF-8, else 102 where some of its bytes are no token; or memory was refused.
pub fn lex(alloc: Global, line: &[u8], number: u32) -> Result<Vec<Token>, Refused>
    ensures found { IfOk result (λ v. IsUtf8 line.now × (tokens_of line.now ≡ Some v.items)) }
    ensures each { IfOk result (λ v. All (IsTokenOf line.now) v.items) }
    ensures fault { IfErr result (IsFaultOfTokens line.now number) }
{
    tokens_of(alloc, line, number)
}
