//! How tokens are spelled: which bytes are blanks, signs, digits and parts of names (character classes).

ghost use Rattle.std.specs.Prelude.{◌≡◌, ◌≤◌, length};
ghost use Rattle.std.specs.List.{prefix_len, list_all};
ghost use Rattle.std.specs.Char.{is_ascii_digit};
ghost use Rattle.std.specs.Str.{bytes_eq};
ghost use Rattle.ir_lex.specs.Spelling.{is_space, is_mark, is_run_byte, is_word_byte, begins_name, continues_name, is_name, is_positive, is_number};
ghost use Rattle.ir_lex.specs.Spelling.{is_marked_name, kind_of, is_printed, is_note_mark};

use crate::token::Kind;

/// Whether a word is this text.
pub fn is_text(word: &[u8], text: &[u8]) -> bool
    ensures { result ≡ bytes_eq word.now text.now }
{
    word == text
}

pub fn is_space(byte: u8) -> bool
    ensures { result ≡ is_space byte }
{
    byte == b' ' || byte == b'\t'
}

pub fn is_mark(byte: u8) -> bool
    ensures { result ≡ is_mark byte }
{
    matches!(
        byte,
        b'=' | b',' | b'(' | b')' | b'[' | b']' | b'{' | b'}' | b':'
    )
}

fn begins_name(byte: u8) -> bool
    ensures { result ≡ begins_name byte }
{
    byte.is_ascii_alphabetic() || byte == b'_' || byte == b'.'
}

fn continue_name(bytes: &[u8]) -> bool
    ensures { result ≡ list_all continues_name bytes.now }
{
    bytes.iter().all(|b| begins_name(*b) || b.is_ascii_digit())
}

fn are_digits(bytes: &[u8]) -> bool
    ensures { result ≡ list_all is_ascii_digit bytes.now }
{
    bytes.iter().all(|b| b.is_ascii_digit())
}

/// A letter, `_` or `.`, and then digits too.
pub fn is_name(run: &[u8]) -> bool
    ensures { result ≡ is_name run.now }
{
    match run {
        [] => false,
        [first, rest @ ..] => begins_name(*first) && continue_name(rest),
    }
}

/// A digit from 1 on, and digits.
pub fn is_positive(run: &[u8]) -> bool
    ensures { result ≡ is_positive run.now }
{
    match run {
        [] => false,
        [first, rest @ ..] => *first >= b'1' && *first <= b'9' && are_digits(rest),
    }
}

fn is_number(run: &[u8]) -> bool
    ensures { result ≡ is_number run.now }
{
    match run {
        [] => false,
        [first, rest @ ..] => {
            (*first == b'0' && rest.is_empty())
                || (*first == b'-' && is_positive(rest))
                || is_positive(run)
        }
    }
}

fn is_marked_name(run: &[u8]) -> bool
    ensures { result ≡ is_marked_name run.now }
{
    match run {
        [] => false,
        [first, rest @ ..] => (*first == b'%' || *first == b'@') && is_name(rest),
    }
}

pub fn kind_of(run: &[u8]) -> Option<Kind>
    ensures { result ≡ kind_of run.now }
{
    if is_name(run) {
        Some(Kind::Word)
    } else if is_number(run) {
        Some(Kind::Number)
    } else if is_marked_name(run) {
        Some(Kind::Name)
    } else {
        None
    }
}

/// Whether a line, or what is left of it, begins with the mark of an annotation.
pub fn is_note_mark(rest: &[u8]) -> bool
    ensures { result ≡ is_note_mark rest.now }
{
    match rest {
        [first, second, ..] => *first == b';' && *second == b'!',
        _ => false,
    }
}

/// How many bytes at the front are of one run.
pub fn run_len(bytes: &[u8]) -> usize
    ensures value { result ≡ prefix_len is_run_byte bytes.now }
    ensures within { result ≤ length bytes.now }
{
    bytes
        .iter()
        .take_while(|b| !(is_space(**b) || is_mark(**b) || **b == b';'))
        .count()
}

pub fn word_len(bytes: &[u8]) -> usize
    ensures value { result ≡ prefix_len is_word_byte bytes.now }
    ensures within { result ≤ length bytes.now }
{
    bytes.iter().take_while(|b| !is_space(**b)).count()
}

pub fn is_printed(run: &[u8]) -> bool
    ensures { result ≡ list_all is_printed run.now }
{
    run.iter().all(|b| *b >= 33 && *b <= 126 && *b != b';')
}

/// How many blanks stand at the front.
pub fn spaces(line: &[u8]) -> usize
    ensures value { result ≡ prefix_len is_space line.now }
    ensures within { result ≤ length line.now }
{
    line.iter().take_while(|b| is_space(**b)).count()
}
