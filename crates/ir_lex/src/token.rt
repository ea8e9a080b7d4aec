//! A token of a line: its kind, and from where to where it stands (lexer).

/// What a token is by its bytes.
#[derive(Clone, Copy, PartialEq, Eq)]
pub enum Kind {
    /// A name behind its sigil, `%` or `@`.
    Name,
    Number,
    /// A name without a sigil; in an annotation any bytes between blanks.
    Word,
    /// One of `= , ( ) [ ] { } :`
    Mark,
    /// `;!`
    Note,
}

/// The bytes of a line from `from` to before `to`, counted from 0.
#[derive(Clone, Copy)]
pub struct Token {
    pub kind: Kind,
    pub from: usize,
    pub to: usize,
}
