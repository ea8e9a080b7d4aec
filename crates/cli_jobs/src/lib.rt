//! What each run that the program is asked for begins with, on threads or not, why one does not begin, and the lines of
//! its answer.
//!
//! - `job`: a module that is to run, with what was asked for (`Job`).
//! - `halt`: why a run did not begin or go on (`Halt`), which is said once (`status_of`).
//! - `memory`: the memory that a run begins with (`prepared`), and the events of its schedule (`scheduled`).
//! - `data`: cells that come from files before a run, and go to files after it.
//! - `answer`: what a run came to, and the cells that are asked for (`print_finished`).
#![tactic(auto)]

mod answer;
mod data;
mod halt;
mod job;
mod memory;

pub use answer::{print_finished, print_memory, print_result};
pub use halt::{Halt, status_of};
pub use job::Job;
pub use memory::{prepared, scheduled};
pub use store::Finished;
