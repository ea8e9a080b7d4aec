//! The phases of the verifier in their order: the text is read, names and types are judged, the graph is built, tasks and
//! regions are matched, uses are judged by what is defined before them, numbers by what is known of them, what blocks touch by their zones,
//! and what calls do by their budgets. The first phase with a fault decides.
#![tactic(auto)]

mod cost;
mod verified;

pub use footprints::{Effort, Unverified};
pub use refusal::Refused;
pub use verified::{Verified, verify, verify_within};
