//! What the program answers about modules: whether one is accepted, why not, and how people see it, as words and, in `json`, as JSON.

mod accepted;
mod annotations;
mod answer;
mod faults;
mod json;
mod judging;
mod limits;
mod own_lines;
mod reasons;
mod requests;
mod verdict;

pub use judging::{Judgement, judged};
pub use requests::effort_of;
pub use verdict::{Verdict, verdict_on};
