//! Tokens with what they stand for: names, numbers, words and signs.

use lists::Name;

/// A number as a line spells it.
#[derive(Drop)]
pub enum Numeral {
    Small(i64),
    /// Outside `i64`, with its digits behind an optional sign.
    Large(Name),
}

/// A token with what it stands for.
#[derive(Drop)]
pub enum Symbol {
    /// `%name`
    Register(Name),
    /// `@name`
    Global(Name),
    Number(Numeral),
    Word(Name),
    /// One of `= , ( ) [ ] { } :`
    Mark(u8),
    /// `;!` behind another token
    Note,
}
