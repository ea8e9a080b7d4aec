//! Entailment of linear inequalities: whether a form is a nonnegative combination of two known facts and a constant.
//!
//! All pairs of facts are tried; of many facts the second is looked up by an index that grows from place to place.
//!
//! - `show`: by two facts (`shown`), among all pairs. `find`, `lookup`, `index`, `meeting`, `merge`, `weight`, `hint`:
//!   by an index.
//! - `known`, `fact_list`, `fact_cursor`, `fact_branches`: facts that grow along places. `effort`: what a search may
//!   take. `laws`.
#![tactic(auto)]

mod effort;
mod fact_branches;
mod fact_cursor;
mod fact_list;
mod find;
mod hint;
mod index;
mod known;
pub mod laws;
mod lookup;
mod meeting;
mod merge;
mod show;
mod weight;

pub use effort::{Effort, OutOfEffort};
pub use fact_branches::{FactBranches, push_copies};
pub use fact_cursor::FactCursor;
pub use fact_list::FactList;
pub use find::find_shown;
pub use known::Known;
pub use show::shown;
