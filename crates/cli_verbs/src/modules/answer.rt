//! What is answered (text and exit status), and why there is no answer of its own.

use cli_words::{Beside, Question, Status, print_refused, print_unreadable};
use lists::OutOfMemory;
use std::alloc::AllocError;
use std::io;
use std::io::Write;
use verifier::{Refused, Unverified};

/// What is printed, and the status.
#[derive(Drop)]
pub(crate) struct Answer {
    pub text: Vec<u8>,
    pub status: Status,
}

impl Answer {
    pub(crate) fn of(text: String, status: Status) -> Answer {
        Answer {
            text: text.into_bytes(),
            status,
        }
    }
}

/// Why a question has no answer of its own.
#[derive(Clone, Copy)]
pub(crate) enum Unanswered {
    /// A word names nothing that there is.
    Words,
    /// The module's file could not be read.
    Unreadable,
    /// The module is refused, or memory was.
    Refused(Refused),
    /// The effort is spent before a verdict.
    Undecided,
}

impl From<Unverified> for Unanswered {
    fn from(unverified: Unverified) -> Unanswered {
        match unverified {
            Unverified::Refused(refused) => Unanswered::Refused(refused),
            Unverified::OutOfEffort { .. } => Unanswered::Undecided,
        }
    }
}

impl From<Refused> for Unanswered {
    fn from(refused: Refused) -> Unanswered {
        Unanswered::Refused(refused)
    }
}

impl From<OutOfMemory> for Unanswered {
    fn from(_error: OutOfMemory) -> Unanswered {
        Unanswered::Refused(Refused::Memory)
    }
}

impl From<AllocError> for Unanswered {
    fn from(_error: AllocError) -> Unanswered {
        Unanswered::Refused(Refused::Memory)
    }
}

/// Says why a question has no answer of its own, and answers the status.
pub(crate) fn print_unanswered<W: Write>(
    question: Question<'_>,
    unanswered: Unanswered,
    output: &mut W,
    beside: &mut Beside,
) -> io::Result<Status> {
    match unanswered {
        Unanswered::Words => Ok(Status::Words),
        Unanswered::Unreadable => {
            print_unreadable(question.alloc, question.request.file.as_str(), output)
        }
        Unanswered::Refused(refused) => print_refused(&refused, output),
        Unanswered::Undecided => {
            beside.note("the effort is spent before a verdict; --effort=N grants more");
            output.write_all(if question.request.is_json {
                b"{\"verdict\":\"undecided\"}\n".as_slice()
            } else {
                b"undecided\n".as_slice()
            })?;
            Ok(Status::Stopped)
        }
    }
}
