//! A module's text with annotations put in that follow from it, each of them tried.
//!
//! [`annotate_lines`] finds the lines, and tries them by the functions of the verifier's phases. Here what it answers is judged: it is given only if it is the
//! text with annotations put in, and if what is accepted without them is accepted with them. [`pruned`] goes the other way: it takes out what an accepted text
//! can do without.
#![tactic(auto)]

mod own_lines;
mod pruning;
mod trying;
mod verdict;

pub use annotate_lines::{Limit, MetLimit, NewLines};
pub use pruning::pruned;
pub use trying::annotated;
