//! Takes annotations out of an accepted text that it can do without (`pruned`), and judges that it stays accepted.

ghost use Rattle.std.specs.Prelude.{◌≡◌, IfErr, IfOk};
ghost use Rattle.annotate.specs.Kept.{IsAcceptedText, IsAnnotated};
ghost use Rattle.verifier.specs.Accepted.{IsUnverified};

use crate::own_lines::is_annotated;
use crate::trying::copied;
use crate::verdict::verdict;
use annotate_lines::without_needless;
use ranges::Effort;
use std::alloc::{AllocError, Global};
use std::hash::RandomState;
use verifier::{Refused, Unverified};

/// An accepted text as it was.
fn as_it_was(alloc: Global, text: &[u8]) -> Result<Vec<u8>, AllocError>
    requires { IsAcceptedText text.now }
    ensures accepted { IfOk result (λ out. IsAcceptedText out.items) }
    ensures annotated { IfOk result (λ out. IsAnnotated out.items text.now) }
{
    copied(alloc, text)
}

/// An accepted text, of which another one is an annotated form.
fn shortened(alloc: Global, text: &[u8], shorter: &[u8]) -> Result<Vec<u8>, AllocError>
    requires accepted { IsAcceptedText shorter.now }
    requires annotated { IsAnnotated shorter.now text.now }
    ensures accepted { IfOk result (λ out. IsAcceptedText out.items) }
    ensures annotated { IfOk result (λ out. IsAnnotated out.items text.now) }
{
    let _text = text;
    copied(alloc, shorter)
}

/// Takes the shorter one of two texts, if it is the other one without annotations, and accepted; else the other.
fn kept(
    alloc: Global,
    state: RandomState,
    text: &[u8],
    shorter: &[u8],
) -> Result<Vec<u8>, AllocError>
    requires { IsAcceptedText text.now }
    ensures accepted { IfOk result (λ out. IsAcceptedText out.items) }
    ensures annotated { IfOk result (λ out. IsAnnotated out.items text.now) }
{
    if !is_annotated(shorter, text) {
        return as_it_was(alloc, text);
    }
    match verdict(alloc, state, shorter, &Effort::unlimited()) {
        Ok(()) => shortened(alloc, text, shorter),
        Err(_) => as_it_was(alloc, text),
    }
}

/// An accepted text without annotations that it can do without, as far as the effort reaches.
fn pruned_within(
    alloc: Global,
    state: RandomState,
    text: &[u8],
    effort: &Effort,
) -> Result<Vec<u8>, AllocError>
    requires { IsAcceptedText text.now }
    ensures accepted { IfOk result (λ out. IsAcceptedText out.items) }
    ensures annotated { IfOk result (λ out. IsAnnotated out.items text.now) }
{
    let shorter = without_needless(alloc, state, text, effort)?;
    kept(alloc, state, text, shorter.as_bytes())
}

/// An accepted text without annotations that it can do without, each tried by itself over what the ones before have left, as far as the effort reaches.
///
/// # Errors
///
/// The verifier's, where the text is not accepted, or no verdict within the effort; or memory was refused.
pub fn pruned(
    alloc: Global,
    state: RandomState,
    text: &[u8],
    effort: &Effort,
) -> Result<Vec<u8>, Unverified>
    ensures accepted { IfOk result (λ out. IsAcceptedText out.items) }
    ensures annotated { IfOk result (λ out. IsAnnotated out.items text.now) }
    ensures verified { IfOk result (λ _. IsAcceptedText text.now) }
    ensures refused { IfErr result (IsUnverified text.now effort.now) }
{
    verdict(alloc, state, text, effort)?;
    match pruned_within(alloc, state, text, effort) {
        Ok(out) => Ok(out),
        Err(_) => Err(Unverified::Refused(Refused::Memory)),
    }
}
