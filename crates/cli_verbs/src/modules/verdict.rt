//! The verdict on a module that a request names.

ghost use Rattle.std.specs.Prelude.{IfErr, IfOk};
ghost use Rattle.cli_verbs.specs.Granted.{granted_by};
ghost use Rattle.cli_verbs.specs.Undecided.{IsSpentWithin};
ghost use Rattle.verifier.specs.Accepted.{IsProgramOf};

use crate::modules::annotations::{in_own_lines, judged_text};
use crate::modules::requests::effort_of;
use cli_words::{Beside, Request};
use std::alloc::{AllocError, Global};
use std::hash::RandomState;
use verifier::{Effort, Unverified, Verified, verify_within};

/// A text as it is judged, and the verdict.
#[derive(Drop)]
pub struct Verdict {
    /// With the lines that were put in.
    pub text: Vec<u8>,
    /// A refusal names a line of the text without them.
    pub answer: Result<Verified, Unverified>,
}

/// The verdict on a module's text; with lines put in that follow from others, if the request asks for that.
pub fn verdict_on(
    alloc: Global,
    state: RandomState,
    request: &Request,
    text: &[u8],
    beside: &mut Beside,
) -> Result<Verdict, AllocError>
    ensures accepted { IfOk result (λ v. IfOk v.answer (IsProgramOf v.text.items)) }
    ensures spent { IfOk result (λ v. IfErr v.answer (IsSpentWithin (granted_by request.now.effort))) }
{
    let granted = effort_of(request);
    let more = match judged_text(alloc, state, request, text, &granted, beside) {
        Ok(more) => more,
        Err(refused) => {
            return Ok(Verdict {
                text: Vec::new(alloc),
                answer: Err(Unverified::Refused(refused)),
            });
        }
    };
    let answer = judged(
        alloc,
        state,
        &effort_of(request),
        text,
        more.as_slice(),
        beside,
    )?;
    Ok(Verdict { text: more, answer })
}

/// The verdict on a text with more lines. A refusal names a line of the text without them.
fn judged(
    alloc: Global,
    state: RandomState,
    effort: &Effort,
    text: &[u8],
    more: &[u8],
    beside: &mut Beside,
) -> Result<Result<Verified, Unverified>, AllocError>
    ensures accepted { IfOk result (λ answer. IfOk answer (IsProgramOf more.now)) }
    ensures spent { IfOk result (λ answer. IfErr answer (IsSpentWithin effort.now)) }
{
    match verify_within(alloc, state, more, effort) {
        Ok(verified) => Ok(Ok(verified)),
        Err(unverified) => {
            let own = in_own_lines(alloc, text, more, unverified, beside)?;
            Ok(Err(own))
        }
    }
}
