//! What the rules say in words, by their numbers: where a rule is reported, what it means, how to mend it, an example. Only what prints words stands on
//! this; `refusal` names the numbers by which the phases judge.
//!
//! `rules` has a file for each phase; `rule` is what is said of one, and `told` prints it.
#![tactic(auto)]

mod rule;
mod rules;
mod told;

pub use rule::Rule;
pub use rules::{is_rule, rule_of};
pub use told::rule_text;
