//! From a question to its answer, or to a module that is to run.

use crate::modules::accepted::accepted;
use crate::modules::answer::{Answer, Unanswered, print_unanswered};
use crate::modules::faults::note_fault;
use crate::modules::json::{known_json, refusal_json};
use crate::modules::requests::{of_text, without_module};
use crate::modules::verdict::{Verdict, verdict_on};
use cli_words::{Beside, Question, Status, Verb};
use std::io;
use std::io::Write;
use verifier::{Refused, Unverified, Verified};
use views::show;

/// A module that the verifier took, and that is to run.
#[derive(Drop)]
pub struct Accepted {
    /// The text as it was judged: with the lines that were put in.
    pub text: Vec<u8>,
    pub verified: Verified,
}

/// What comes of a question before anything runs.
#[derive(Drop)]
pub enum Judgement {
    /// Nothing is to run: the answer is printed, and the program ends with this status.
    Answered(Status),
    /// It is about runs of this module.
    Accepted(Accepted),
}

/// A question about a module, before its answer is printed.
#[derive(Drop)]
enum Reply {
    Answer(Answer),
    Accepted(Accepted),
}

/// What is known of a module by block.
fn shown(question: Question<'_>, text: &[u8], verified: &Verified) -> Result<Answer, Unanswered> {
    let Question {
        alloc,
        state,
        request,
        ..
    } = question;
    let mut shown = show(alloc, state, text, verified)?;
    if request.is_json {
        shown = known_json(alloc, shown.as_str())?;
    }
    Ok(Answer::of(shown, Status::Done))
}

/// What is to be answered by a module that the verifier took.
fn taken(question: Question<'_>, text: Vec<u8>, verified: Verified) -> Result<Reply, Unanswered> {
    let request = question.request;
    let answer = match request.verb {
        Verb::Show => shown(question, text.as_slice(), &verified)?,
        Verb::Verify => accepted(question.alloc, &verified, request)?,
        _ => return Ok(Reply::Accepted(Accepted { text, verified })),
    };
    Ok(Reply::Answer(answer))
}

/// What is answered where a module is not verified. For `verify` it is also noted, for editors, which line of the file is at fault.
fn refused(
    question: Question<'_>,
    text: &[u8],
    unverified: Unverified,
    beside: &mut Beside,
) -> Result<Answer, Unanswered> {
    let Unverified::Refused(Refused::Fault { number, line }) = unverified else {
        return Err(Unanswered::from(unverified));
    };
    let request = question.request;
    if let Verb::Verify = request.verb {
        note_fault(question, line, text, number, line, beside);
    }
    if request.is_json {
        let made = refusal_json(question.alloc, text, number, line)?;
        return Ok(Answer::of(made, Status::Refused));
    }
    Err(Unanswered::from(unverified))
}

/// The verdict on a module's text, and what is to be answered by it.
fn judge(question: Question<'_>, text: &[u8], beside: &mut Beside) -> Result<Reply, Unanswered> {
    let Question {
        alloc,
        state,
        request,
        ..
    } = question;
    let Verdict { text: more, answer } = verdict_on(alloc, state, request, text, beside)?;
    match answer {
        Ok(verified) => taken(question, more, verified),
        Err(unverified) => Ok(Reply::Answer(refused(question, text, unverified, beside)?)),
    }
}

/// What comes of a question, before its answer is printed.
fn replied(question: Question<'_>, beside: &mut Beside) -> Result<Reply, Unanswered> {
    if let Some(answer) = without_module(question.alloc, question.request)? {
        return Ok(Reply::Answer(answer));
    }
    let Some(text) = question.module else {
        return Err(Unanswered::Unreadable);
    };
    match of_text(question, text, beside)? {
        Some(answer) => Ok(Reply::Answer(answer)),
        None => judge(question, text, beside),
    }
}

/// Answers a question for which nothing runs.
pub fn judged<W: Write>(
    question: Question<'_>,
    output: &mut W,
    beside: &mut Beside,
) -> io::Result<Judgement> {
    let status = match replied(question, beside) {
        Ok(Reply::Accepted(accepted)) => return Ok(Judgement::Accepted(accepted)),
        Ok(Reply::Answer(Answer { text, status })) => {
            output.write_all(text.as_slice())?;
            status
        }
        Err(unanswered) => print_unanswered(question, unanswered, output, beside)?,
    };
    Ok(Judgement::Answered(status))
}
