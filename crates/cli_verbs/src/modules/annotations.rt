//! Modules with annotations put in that follow from others, or taken out that are not needed.

ghost use Rattle.std.specs.Prelude.{IfOk, Option, ℕ};
ghost use Rattle.cli_verbs.specs.Undecided.{IsSpentWithin};
ghost use Rattle.verifier.specs.Accepted.{IsUnverified};

use crate::modules::answer::{Answer, Unanswered};
use crate::modules::faults::utf8_of;
use crate::modules::limits::note_limits;
use annotate::{NewLines, annotated, pruned};
use cli_words::{Beside, Question, Request, Status};
use explain::line_at;
use std::alloc::{AllocError, Global};
use std::hash::RandomState;
use std::mem;
use verifier::{Effort, Refused, Unverified};

/// A module's text with lines put in that follow from others, or without those that it does not need; or it is kept for the module's own file if that is asked for.
pub(crate) fn annotation(
    question: Question<'_>,
    text: &[u8],
    effort: &Effort,
    beside: &mut Beside,
) -> Result<Answer, Unanswered> {
    let Question {
        alloc,
        state,
        request,
        ..
    } = question;
    let mut made = if request.annotating.takes_out {
        pruned(alloc, state, text, effort)?
    } else {
        with_more(alloc, state, request, text, effort, beside)?
    };
    if request.annotating.writes {
        let file = request.file.as_str();
        beside.keep_file(file, mem::replace(&mut made, Vec::new(alloc)));
    }
    Ok(Answer {
        text: made,
        status: Status::Done,
    })
}

/// The text of a request's file with lines put in that follow from others; what was not looked at for them is told beside it.
fn with_more(
    alloc: Global,
    state: RandomState,
    request: &Request,
    text: &[u8],
    effort: &Effort,
    beside: &mut Beside,
) -> Result<Vec<u8>, Refused> {
    let mut met = Vec::new(alloc);
    let more = annotated(alloc, state, text, effort, &mut met)?;
    note_limits(request.file.as_str(), met.as_slice(), effort, beside);
    Ok(more)
}

/// The text that is judged: with lines put in that follow from others, if the request asks for that.
pub(crate) fn judged_text(
    alloc: Global,
    state: RandomState,
    request: &Request,
    text: &[u8],
    effort: &Effort,
    beside: &mut Beside,
) -> Result<Vec<u8>, Refused> {
    if request.annotating.puts_in {
        return with_more(alloc, state, request, text, effort, beside);
    }
    Ok(Vec::from_slice(alloc, text)?)
}

/// The lines that a text has more than another one.
pub(crate) fn lines_put_in(
    alloc: Global,
    text: &[u8],
    more: &[u8],
) -> Result<NewLines, AllocError> {
    NewLines::between(alloc, utf8_of(text), utf8_of(more))
}

/// Why a text with lines put in is not verified, by the lines of the text without them; which line was put in is told beside it.
pub(crate) fn in_own_lines(
    alloc: Global,
    text: &[u8],
    more: &[u8],
    unverified: Unverified,
    beside: &mut Beside,
) -> Result<Unverified, AllocError>
    ensures spent { (effort : Option ℕ) → IsUnverified more.now effort unverified → IfOk result (IsSpentWithin effort) }
{
    let (number, line) = match unverified {
        Unverified::Refused(Refused::Fault { number, line }) => (number, line),
        Unverified::Refused(Refused::Memory) => return Ok(Unverified::Refused(Refused::Memory)),
        Unverified::OutOfEffort { granted } => return Ok(Unverified::OutOfEffort { granted }),
    };
    let new = lines_put_in(alloc, text, more)?;
    if new.has(line) {
        let put_in = line_at(utf8_of(more), line).unwrap_or("").trim();
        let error = beside.error_word();
        writeln!(beside, "{error} of the line that was put in: {put_in}");
    }
    let line = new.own_line(line);
    Ok(Unverified::Refused(Refused::Fault { number, line }))
}
