//! The lines of a text that can be read, as their tokens.

use ir_lex::{Kind, Token, lex};
use lists::{ListBuffer, OutOfMemory};
use refusal::Refused;
use std::alloc::{AllocError, Global};

/// A line and its tokens.
#[derive(Drop)]
pub struct Row<'a> {
    pub number: u32,
    text: &'a str,
    pub tokens: Vec<Token>,
}

impl<'a> Row<'a> {
    fn part(&self, token: Token) -> &'a str {
        self.text.get(token.from..token.to).unwrap_or("")
    }

    /// The token of this number from 0 on; nothing past the last one.
    pub(crate) fn word(&self, index: usize) -> &'a str {
        match self.tokens.get(index) {
            Some(token) => self.part(*token),
            None => "",
        }
    }

    /// What the line does: its first word, or the one behind the register that it defines.
    pub(crate) fn operation(&self) -> &'a str {
        if self.word(1) == "=" {
            self.word(2)
        } else {
            self.word(0)
        }
    }

    /// The line without a comment and the blanks around.
    pub(crate) fn code(&self) -> &'a str {
        match self.tokens.as_slice() {
            [first, .., last] => self.text.get(first.from..last.to).unwrap_or(""),
            _ => self.word(0),
        }
    }

    /// The label of a label's line.
    pub(crate) fn label(&self) -> Option<&'a str> {
        if self.word(1) == ":" {
            Some(self.word(0))
        } else {
            None
        }
    }

    /// Whether a name stands in the line, as a token of its own; that of a register or a block may be given without its `%`.
    pub(crate) fn has(&self, name: &str) -> bool {
        for token in &self.tokens {
            let part = self.part(*token);
            let is_same = part == name || part.strip_prefix('%') == Some(name);
            if is_same && token.kind == Kind::Name {
                return true;
            }
        }
        false
    }

    /// Whether the line defines the name: by `=`, as a label, or as a function or one of its parameters.
    pub(crate) fn defines(&self, name: &str) -> bool {
        match self.word(1) {
            "=" => self.word(0) == name,
            ":" => name.strip_prefix('%') == Some(self.word(0)),
            _ => self.word(0) == "define" && self.has(name),
        }
    }

    /// What stands behind the token of this number, if that is the mark and not the last one.
    pub(crate) fn behind(&self, index: usize, mark: &str) -> Option<&'a str> {
        match self.tokens.as_slice().get(index..) {
            Some([found, name, ..]) if self.part(*found) == mark => Some(self.part(*name)),
            _ => None,
        }
    }

    /// The first name that stands behind the mark for the second time.
    pub(crate) fn twice_behind(&self, mark: &str) -> Option<&'a str> {
        for index in 0..self.tokens.len() {
            if let Some(name) = self.behind(index, mark) {
                for earlier in 0..index {
                    if self.behind(earlier, mark) == Some(name) {
                        return Some(name);
                    }
                }
            }
        }
        None
    }

    /// The names of the line, each once. Forms of annotations are taken apart.
    pub(crate) fn names(&self, alloc: Global) -> Result<Vec<&'a str>, AllocError> {
        let mut names: ListBuffer<&'a str> = ListBuffer::new(alloc);
        for token in &self.tokens {
            for word in self.part(*token).split(['+', '-', '*']) {
                let is_name = word.starts_with(['%', '@']);
                if is_name && !is_among(names.as_slice(), word) {
                    names.push(word);
                }
            }
        }
        names.finish()
    }
}

/// Whether a name is one of these.
pub(crate) fn is_among(names: &[&str], wanted: &str) -> bool {
    for name in names {
        if *name == wanted {
            return true;
        }
    }
    false
}

/// A line by itself; none where a run of its bytes is no token.
pub(crate) fn row_of<'a>(
    alloc: Global,
    number: u32,
    text: &'a str,
) -> Result<Option<Row<'a>>, OutOfMemory> {
    match lex(alloc, text.as_bytes(), number) {
        Ok(tokens) => Ok(Some(Row {
            number,
            text,
            tokens,
        })),
        Err(Refused::Fault { .. }) => Ok(None),
        Err(Refused::Memory) => Err(OutOfMemory),
    }
}

/// The lines of a text. A line that has no tokens by itself is left out.
pub(crate) fn rows_of<'a>(alloc: Global, text: &'a str) -> Result<Vec<Row<'a>>, OutOfMemory> {
    let mut rows: ListBuffer<Row<'a>> = ListBuffer::new(alloc);
    let mut number: u32 = 0;
    for line in text.split('\n') {
        number = number.saturating_add(1);
        if let Some(row) = row_of(alloc, number, line)? {
            rows.push(row);
        }
    }
    Ok(rows.finish()?)
}

/// How many of these lines stand before the first `}`.
fn count_before_end(rows: &[Row<'_>]) -> usize {
    for index in 0..rows.len() {
        if rows[index].word(0) == "}" {
            return index;
        }
    }
    rows.len()
}

/// The lines of the function in which a line stands, from its `define` to its `}`; none before the first function.
pub(crate) fn function_of<'r, 'a>(rows: &'r [Row<'a>], line: u32) -> &'r [Row<'a>] {
    let mut from = rows.len();
    for (index, row) in rows.iter().enumerate() {
        if row.number <= line && row.word(0) == "define" {
            from = index;
        }
    }
    let function = rows.get(from..).unwrap_or(&[]);
    function.get(..count_before_end(function)).unwrap_or(&[])
}
