//! What the program answers about runs on threads.
//!
//! - `workers`: runs a module on workers, each on a thread of its own, and tells what is asked for (`run_on_workers`).
//! - `speedup`: how long runs take by the number of their workers.
//! - `recorded`: a run of which more is told than the answer.
//! - `strands`: such a run, done once more strand by strand, for its figures and its picture.
//! - `launches`: what a run is started with. `clocks`: how long ago something was.
#![tactic(auto)]

mod clocks;
mod launches;
mod recorded;
mod speedup;
mod strands;
mod workers;

pub use clocks::microseconds_since;
pub use workers::run_on_workers;
