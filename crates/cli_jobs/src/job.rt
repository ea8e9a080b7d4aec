//! A module that the verifier took, and what is asked of it: what a run is made from.

use cli_words::{Beside, Question, Request};
use program::Function;
use std::alloc::{AllocError, Global};
use std::hash::RandomState;
use store::Verified;

/// What a run is made from.
#[derive(Clone, Copy)]
pub struct Job<'a> {
    pub alloc: Global,
    /// What a text is read with.
    pub state: RandomState,
    pub request: &'a Request,
    /// The module's text.
    pub text: &'a [u8],
    pub verified: &'a Verified,
    /// The schedule's text; none where its file could not be read, or the verb takes none.
    pub schedule: Option<&'a [u8]>,
}

impl<'a> Job<'a> {
    /// What a question asks of this module, which the verifier took.
    pub fn of(question: Question<'a>, text: &'a [u8], verified: &'a Verified) -> Job<'a> {
        Job {
            alloc: question.alloc,
            state: question.state,
            request: question.request,
            text,
            verified,
            schedule: question.schedule,
        }
    }

    /// The module's text.
    pub fn source(&self) -> &'a str {
        str::from_utf8(self.text).unwrap_or("")
    }

    /// The lines of the module's text.
    pub fn lines(&self) -> Result<Vec<&'a str>, AllocError> {
        self.source().lines().collect(self.alloc)
    }

    /// Says how many arguments `main` takes.
    fn note_count(&self, main: &Function, beside: &mut Beside) {
        let error = beside.error_word();
        let wanted = main.parameters.len();
        let given = self.request.args.len();
        let plural = if wanted == 1 { "" } else { "s" };
        writeln!(
            beside,
            "{error} @main takes {wanted} argument{plural}, and the command line gives {given}"
        );
    }

    /// Says that the arguments do not meet the requirement of this line.
    fn note_line(&self, line: u32, beside: &mut Beside) {
        let error = beside.error_word();
        let before = (line as usize).saturating_sub(1);
        let text = self.source().lines().nth(before).unwrap_or("").trim();
        writeln!(
            beside,
            "{error} the arguments do not meet line {line}: {text}"
        );
    }

    /// Says which requirement of `main` the arguments do not meet, counted from 1; 0 is their number.
    pub(crate) fn note_requirement(&self, requirement: usize, beside: &mut Beside) {
        let program = self.verified.program();
        if let Some(main) = program.functions.as_slice().get(program.main.0) {
            if requirement == 0 {
                self.note_count(main, beside);
            } else if let Some(unmet) = main
                .requirements
                .as_slice()
                .get(requirement.saturating_sub(1))
            {
                self.note_line(unmet.line, beside);
            }
        }
    }
}
