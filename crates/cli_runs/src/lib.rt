//! What the program answers about runs of a module that the verifier took, but for those on threads and the dialogues
//! of `debug`.
//!
//! Runs and their answers, in `runs`:
//!
//! - `running`: the serial run, and the answer of a run that goes by events.
//! - `tell`: what is printed and written of a run's events. `telling`: the run, which is done once more for it.
//!
//! Runs event by event, in `watch`:
//!
//! - `watching`: a run of which each event gives a `Moment` of `views` (`Watch`).
//! - `course`: where the events come from. `random`: events that a seed draws. `dice`: its numbers.
#![tactic(auto)]

mod runs;
mod watch;

pub use runs::{is_told, page_of, print_told, run_drawn, run_replay, run_serial, tell_course};
pub use schedule_core::{Event, Machine};
pub use watch::{Course, after_step, place_if};
