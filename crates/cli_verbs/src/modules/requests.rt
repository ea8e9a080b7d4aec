//! What is answered before a module is judged (`print`, `annotate`, `explain`, `completions`, `man`), and the effort.

ghost use Rattle.std.specs.Prelude.{◌≡◌};
ghost use Rattle.cli_verbs.specs.Granted.{granted_by};

use crate::modules::annotations::annotation;
use crate::modules::answer::{Answer, Unanswered};
use crate::modules::reasons::{reasons, rule};
use cli_words::{Beside, Grant, Question, Request, Status, Verb, completions, manual};
use std::alloc::Global;
use verifier::Effort;
use views::printed;

/// The steps of search for a verdict that are granted where a command line names none: a second or two.
const USUAL_EFFORT: u64 = 1_000_000_000;

/// The effort that a request grants.
pub fn effort_of(request: &Request) -> Effort
    ensures { result ≡ granted_by request.now.effort }
{
    match request.effort {
        Grant::Usual => Effort::of(USUAL_EFFORT),
        Grant::Steps(steps) => Effort::of(steps),
        Grant::Unbounded => Effort::unlimited(),
    }
}

/// A rule, or what is made of the program's own words; none where the request is for a module.
pub(crate) fn without_module(
    alloc: Global,
    request: &Request,
) -> Result<Option<Answer>, Unanswered> {
    if let Some(number) = request.rule {
        return Ok(Some(rule(alloc, number)?));
    }
    let text = match (request.verb, request.shell) {
        (Verb::Completions, Some(shell)) => completions(alloc, shell)?,
        (Verb::Man, _) => manual(alloc)?,
        _ => return Ok(None),
    };
    Ok(Some(Answer::of(text, Status::Done)))
}

/// The answer to a request for a text; none where the module is to be judged.
pub(crate) fn of_text(
    question: Question<'_>,
    text: &[u8],
    beside: &mut Beside,
) -> Result<Option<Answer>, Unanswered> {
    let effort = effort_of(question.request);
    let answer = match question.request.verb {
        Verb::Print => Answer::of(printed(question.alloc, question.state, text)?, Status::Done),
        Verb::Annotate => annotation(question, text, &effort, beside)?,
        Verb::Explain => reasons(question, text, &effort, beside)?,
        _ => return Ok(None),
    };
    Ok(Some(answer))
}
