//! The words of the debugger's commands, in one table, and how they are abbreviated.

/// The word that a command begins with.
#[derive(Clone, Copy)]
pub(crate) enum Word {
    To,
    Forward,
    Back,
    Next,
    Over,
    Until,
    Break,
    Where,
    Workers,
    Tasks,
    Task,
    Frames,
    Registers,
    Allocas,
    Cells,
    List,
    Help,
    Quit,
}

/// What follows a word.
#[derive(Clone, Copy)]
pub(crate) enum Takes {
    Nothing,
    Number,
    NumberOrNothing,
    Path,
    Cells,
}

/// A word of the dialogue.
#[derive(Clone, Copy)]
pub(crate) struct Row {
    pub(crate) word: Word,
    /// The word in full.
    text: &'static str,
    /// Whether programs have it too.
    is_for_programs: bool,
    pub(crate) takes: Takes,
    /// What the command takes, in words.
    pub(crate) lacks: &'static str,
}

macro_rules! row {
    ($word:ident, $text:literal, $is_for_programs:literal, $takes:ident, $lacks:literal) => {
        Row {
            word: Word::$word,
            text: $text,
            is_for_programs: $is_for_programs,
            takes: Takes::$takes,
            lacks: $lacks,
        }
    };
}

/// The words, in the order in which one that is cut short is looked for.
static ROWS: [Row; 19] = [
    row!(To, "to", true, Number, "to takes how many events: to 6"),
    row!(Forward, "forward", true, Nothing, "this takes nothing more"),
    row!(Back, "back", true, Nothing, "this takes nothing more"),
    row!(
        Next,
        "next",
        false,
        Number,
        "next takes a worker's number: next 1"
    ),
    row!(
        Over,
        "over",
        false,
        Number,
        "over takes a worker's number: over 1"
    ),
    row!(
        Until,
        "until",
        false,
        Path,
        "this takes a path: root, or root.0.1"
    ),
    row!(
        Break,
        "break",
        true,
        Number,
        "break takes a line of the module: break 20"
    ),
    row!(Where, "where", false, Nothing, "this takes nothing more"),
    row!(
        Workers,
        "workers",
        false,
        Nothing,
        "this takes nothing more"
    ),
    row!(Tasks, "tasks", false, Nothing, "this takes nothing more"),
    row!(
        Task,
        "task",
        true,
        Path,
        "this takes a path: root, or root.0.1"
    ),
    row!(Frames, "frames", false, Nothing, "this takes nothing more"),
    row!(
        Registers,
        "regs",
        false,
        Path,
        "this takes a path: root, or root.0.1"
    ),
    row!(
        Allocas,
        "allocas",
        false,
        Path,
        "this takes a path: root, or root.0.1"
    ),
    row!(
        Cells,
        "cells",
        false,
        Cells,
        "cells takes a global, the first index and how many: cells @a 0 8"
    ),
    row!(
        Cells,
        "cell",
        true,
        Cells,
        "cell takes a cell of a global: cell @a:1"
    ),
    row!(
        List,
        "list",
        false,
        NumberOrNothing,
        "list takes a line of the module, or nothing: list 20"
    ),
    row!(Help, "help", false, Nothing, "this takes nothing more"),
    row!(Quit, "quit", true, Nothing, "this takes nothing more"),
];

impl Row {
    /// Whether the word may be a whole command, or else the beginning of one.
    fn fits(&self, is_alone: bool) -> bool {
        match self.takes {
            Takes::NumberOrNothing => true,
            Takes::Nothing => is_alone,
            _ => !is_alone,
        }
    }

    /// Whether this is how programs spell the line: the whole word, and behind a blank what follows it, without a blank.
    pub(crate) fn is_spelled(&self, line: &str, text: &str, rest: &str) -> bool {
        self.is_for_programs
            && text.len() == self.text.len()
            && !line.ends_with(" ")
            && rest.split_once(" ").is_none()
    }
}

/// The row of the word that a text is, or that begins with the text. Of several the first one is meant that may stand alone, or with something behind
/// it, as this one does.
pub(crate) fn row_of(text: &str, is_alone: bool) -> Option<&'static Row> {
    let mut beginning = None;
    let mut fitting = None;
    for row in &ROWS {
        if row.text == text {
            return Some(row);
        }
        if row.text.starts_with(text) {
            beginning = beginning.or(Some(row));
            if row.fits(is_alone) {
                fitting = fitting.or(Some(row));
            }
        }
    }
    fitting.or(beginning)
}
