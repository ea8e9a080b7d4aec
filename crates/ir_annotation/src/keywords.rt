//! The first word of an annotation.

ghost use Rattle.std.specs.Prelude.{◌≡◌};
ghost use Rattle.ir_annotation.specs.Keywords.{keyword_of, block_keyword_of};

use ir_lex::is_text;

/// An annotation's word.
#[derive(Clone, Copy)]
pub enum Keyword {
    Requires,
    Ensures,
    Reads,
    Writes,
    Adds,
    Measure,
    Budget,
    Keeps,
    Pending,
    Left,
    Foot,
    Shows,
}

fn block_keyword(word: &[u8]) -> Option<Keyword>
    ensures { result ≡ block_keyword_of word.now }
{
    if is_text(word, b"keeps") {
        Some(Keyword::Keeps)
    } else if is_text(word, b"pending") {
        Some(Keyword::Pending)
    } else if is_text(word, b"left") {
        Some(Keyword::Left)
    } else if is_text(word, b"foot") {
        Some(Keyword::Foot)
    } else if is_text(word, b"shows") {
        Some(Keyword::Shows)
    } else {
        None
    }
}

/// What annotation a word begins.
pub fn read_keyword(word: &[u8]) -> Option<Keyword>
    ensures { result ≡ keyword_of word.now }
{
    if is_text(word, b"requires") {
        Some(Keyword::Requires)
    } else if is_text(word, b"ensures") {
        Some(Keyword::Ensures)
    } else if is_text(word, b"reads") {
        Some(Keyword::Reads)
    } else if is_text(word, b"writes") {
        Some(Keyword::Writes)
    } else if is_text(word, b"adds") {
        Some(Keyword::Adds)
    } else if is_text(word, b"measure") {
        Some(Keyword::Measure)
    } else if is_text(word, b"budget") {
        Some(Keyword::Budget)
    } else {
        block_keyword(word)
    }
}
