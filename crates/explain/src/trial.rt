//! What the verifier says of a text that is tried.

use explain_facts::Means;
use ranges::Unanswered;
use std::hash::RandomState;
use verifier::{Refused, Unverified, verify_within};

/// The rule that the verifier names of a text, and the line that breaks it; none inside where it takes the text, and none at all where memory or effort
/// did not reach.
pub fn fault_of(means: &Means<'_>, state: RandomState, text: &str) -> Option<Option<(u16, u32)>> {
    let lack = match verify_within(means.alloc, state, text.as_bytes(), means.effort) {
        Ok(verified) => {
            drop(verified);
            return Some(None);
        }
        Err(Unverified::Refused(Refused::Fault { number, line })) => {
            return Some(Some((number, line)));
        }
        Err(Unverified::Refused(Refused::Memory)) => Unanswered::OutOfMemory,
        Err(Unverified::OutOfEffort { .. }) => Unanswered::OutOfEffort,
    };
    means.note(lack);
    None
}
