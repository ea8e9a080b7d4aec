//! The verifier's verdict on a text that is tried: accepted, or the error that it is refused by.

ghost use Rattle.std.specs.Prelude.{IfErr, IfOk};
ghost use Rattle.annotate.specs.Kept.{IsAcceptedText};
ghost use Rattle.verifier.specs.Accepted.{IsUnverified};

use ranges::Effort;
use std::alloc::Global;
use std::hash::RandomState;
use verifier::{Unverified, verify_within};

/// Nothing, where the text is accepted.
pub fn verdict(
    alloc: Global,
    state: RandomState,
    text: &[u8],
    effort: &Effort,
) -> Result<(), Unverified>
    ensures accepted { IfOk result (λ _. IsAcceptedText text.now) }
    ensures refused { IfErr result (IsUnverified text.now effort.now) }
{
    match verify_within(alloc, state, text, effort) {
        Ok(verified) => {
            drop(verified);
            Ok(())
        }
        Err(unverified) => Err(unverified),
    }
}
