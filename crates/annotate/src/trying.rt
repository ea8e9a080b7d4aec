//! Puts annotations into a text (`annotated`), and sees to it that what was accepted still is (annotation inference).

ghost use Rattle.std.specs.Prelude.{◌≡◌, IfErr, IfOk};
ghost use Rattle.annotate.specs.Kept.{IsAnnotated, IsReadable, StaysAccepted};
ghost use Rattle.ir_reader.specs.Reading.{IsFaultOfText};

use crate::own_lines::is_annotated;
use crate::verdict::verdict;
use annotate_lines::{MetLimit, with_lines};
use ir_reader::read;
use ranges::Effort;
use refusal::Refused;
use std::alloc::{AllocError, Global};
use std::hash::RandomState;
use verifier::Unverified;

/// A text as it was.
pub fn copied(alloc: Global, text: &[u8]) -> Result<Vec<u8>, AllocError>
    ensures { IfOk result (λ out. out.items ≡ text.now) }
{
    let mut out = Vec::new(alloc);
    out.extend_from_slice(text)?;
    Ok(out)
}

/// The text without more lines.
fn as_it_was(alloc: Global, text: &[u8]) -> Result<Vec<u8>, AllocError>
    ensures accepted { IfOk result (λ out. StaysAccepted text.now out.items) }
    ensures annotated { IfOk result (λ out. IsAnnotated text.now out.items) }
{
    copied(alloc, text)
}

/// The text with more lines.
fn with_more(alloc: Global, text: &[u8], more: &[u8]) -> Result<Vec<u8>, AllocError>
    requires accepted { StaysAccepted text.now more.now }
    requires annotated { IsAnnotated text.now more.now }
    ensures accepted { IfOk result (λ out. StaysAccepted text.now out.items) }
    ensures annotated { IfOk result (λ out. IsAnnotated text.now out.items) }
{
    let _text = text;
    copied(alloc, more)
}

/// Takes the text with more lines if they are annotations, and it is accepted or the one without them is refused. A text without more is not judged.
fn judged(
    alloc: Global,
    state: RandomState,
    text: &[u8],
    more: &[u8],
    effort: &Effort,
) -> Result<Vec<u8>, AllocError>
    ensures accepted { IfOk result (λ out. StaysAccepted text.now out.items) }
    ensures annotated { IfOk result (λ out. IsAnnotated text.now out.items) }
{
    if more == text || !is_annotated(text, more) {
        return as_it_was(alloc, text);
    }
    match verdict(alloc, state, more, effort) {
        Ok(()) => with_more(alloc, text, more),
        Err(Unverified::Refused(Refused::Memory)) => Err(AllocError),
        Err(_) => match verdict(alloc, state, text, effort) {
            Err(Unverified::Refused(Refused::Fault { .. })) => with_more(alloc, text, more),
            Err(Unverified::Refused(Refused::Memory)) => Err(AllocError),
            _ => as_it_was(alloc, text),
        },
    }
}

/// A module's text with lines put in that follow from others, each of them tried; none is changed or taken away, and a last line without an end gets one. The
/// names of the text are hashed with `state`. Where the effort is spent, the text stays as it was. Which limits of what is looked at were met, so that lines that
/// follow may be missing, is put into `met`, by the lines of the text without those that are put in.
///
/// # Errors
///
/// The first fault of the text, from 101 to 107, at its line; or memory was refused.
pub fn annotated(
    alloc: Global,
    state: RandomState,
    text: &[u8],
    effort: &Effort,
    met: &mut Vec<MetLimit>,
) -> Result<Vec<u8>, Refused>
    ensures accepted { IfOk result (λ out. StaysAccepted text.now out.items) }
    ensures annotated { IfOk result (λ out. IsAnnotated text.now out.items) }
    ensures readable { IfOk result (λ _. IsReadable text.now) }
    ensures refused { IfErr result (IsFaultOfText text.now) }
{
    drop(read(alloc, state, text)?);
    let (more, limits) = with_lines(alloc, state, text, effort)?;
    *met = limits;
    Ok(judged(alloc, state, text, more.as_bytes(), effort)?)
}
