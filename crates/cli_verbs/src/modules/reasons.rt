//! What `explain` prints: a rule, or why a module is refused.

use crate::modules::annotations::{judged_text, lines_put_in};
use crate::modules::answer::{Answer, Unanswered};
use crate::modules::faults::{note_fault, utf8_of};
use crate::modules::json::{faults_json, remarks_json};
use crate::modules::own_lines::with_own_lines;
use annotate::NewLines;
use cli_words::{Beside, Question, Status};
use explain::{Explanation, explain, told};
use lists::OutOfMemory;
use rule_words::rule_text;
use std::alloc::Global;
use verifier::{Effort, Refused};

/// An explanation as JSON, if the request asks for that; else in words, by the lines of the text without those that were put in.
fn spelled(
    question: Question<'_>,
    text: &[u8],
    new: &NewLines,
    explanation: &Explanation,
) -> Result<String, OutOfMemory> {
    let alloc = question.alloc;
    let is_json = question.request.is_json;
    match explanation {
        Explanation::Accepted { remarks } if is_json => Ok(remarks_json(alloc, remarks.as_str())?),
        Explanation::Refused { first, others } if is_json => {
            faults_json(alloc, utf8_of(text), first, others.as_slice())
        }
        _ => {
            let told = told(alloc, text, explanation)?;
            Ok(with_own_lines(alloc, new, told.as_str())?)
        }
    }
}

/// Why a text is refused, or what it could do without. Its first fault is told beside it, on the own line of the text without those that were put in.
fn explained(
    question: Question<'_>,
    text: &[u8],
    new: &NewLines,
    effort: &Effort,
    beside: &mut Beside,
) -> Result<Answer, Unanswered> {
    let explanation = explain(question.alloc, question.state, text, effort)?;
    let status = match &explanation {
        Explanation::Accepted { .. } => Status::Done,
        Explanation::Refused { first, .. } => {
            let own_line = new.own_line(first.line);
            note_fault(question, own_line, text, first.number, first.line, beside);
            Status::Refused
        }
        Explanation::Undecided => return Err(Unanswered::Undecided),
    };
    let made = spelled(question, text, new, &explanation)?;
    Ok(Answer::of(made, status))
}

/// Why a module is refused, or what it could do without, as far as the effort reaches: of its text as it is judged, or, where that cannot be read, as it is.
pub(crate) fn reasons(
    question: Question<'_>,
    text: &[u8],
    effort: &Effort,
    beside: &mut Beside,
) -> Result<Answer, Unanswered> {
    let Question {
        alloc,
        state,
        request,
        ..
    } = question;
    match judged_text(alloc, state, request, text, effort, beside) {
        Ok(more) => {
            let new = lines_put_in(alloc, text, more.as_slice())?;
            explained(question, more.as_slice(), &new, effort, beside)
        }
        Err(Refused::Fault { .. }) => {
            let new = lines_put_in(alloc, text, text)?;
            explained(question, text, &new, effort, beside)
        }
        Err(refused) => Err(Unanswered::from(refused)),
    }
}

/// A rule in words.
pub(crate) fn rule(alloc: Global, number: u16) -> Result<Answer, Unanswered> {
    match rule_text(alloc, number)? {
        Some(text) => Ok(Answer::of(text, Status::Done)),
        None => Err(Unanswered::Words),
    }
}
