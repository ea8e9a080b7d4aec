//! Lines of cases with their numbers, and whether all are as expected (a test's report).

use lists::TextBuffer;
use std::alloc::{AllocError, Global};
use std::process::ExitCode;

/// Writes a line of each case, and counts them. Where memory is refused for one, [`Report::into_text`] says so.
#[derive(Drop)]
pub struct Report {
    text: TextBuffer,
    title: &'static str,
    /// How many cases stood below the title.
    below: u64,
    cases: u64,
    as_expected: u64,
    /// The call at a board that was refused memory last.
    pub refused: &'static str,
}

impl Report {
    pub fn new(alloc: Global) -> Report {
        Report {
            text: TextBuffer::new(alloc),
            title: "",
            below: 0,
            cases: 0,
            as_expected: 0,
            refused: "none",
        }
    }

    /// The cases of a title follow.
    pub fn title(&mut self, title: &'static str) {
        self.below = 0;
        self.title = title;
        writeln!(self.text, "==== {title}");
    }

    /// A case is a sentence, and told with its title and its place below it.
    pub fn holds(&mut self, sentence: &str, is_true: bool) {
        self.below = self.below.saturating_add(1);
        self.cases = self.cases.saturating_add(1);
        writeln!(self.text, "{}, {}: {sentence}", self.title, self.below);
        if is_true {
            self.as_expected = self.as_expected.saturating_add(1);
        } else {
            self.text.push_str("NOT AS EXPECTED\n");
        }
    }

    /// Tells the number of cases. The status is 0 where all are as expected.
    pub fn finish(&mut self) -> ExitCode {
        let (good, all) = (self.as_expected, self.cases);
        writeln!(self.text, "{good} of {all} cases are as expected");
        if good == all && all > 0 {
            ExitCode::SUCCESS
        } else {
            ExitCode::FAILURE
        }
    }

    /// All lines.
    ///
    /// # Errors
    ///
    /// Memory was refused for one of them.
    pub fn into_text(self) -> Result<String, AllocError> {
        let Report {
            text,
            title: _,
            below: _,
            cases: _,
            as_expected: _,
            refused: _,
        } = self;
        text.finish()
    }
}
