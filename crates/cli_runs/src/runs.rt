//! What the program answers about runs (`serial`, `replay` and the like), but for those on threads.
//!
//! That is the serial run (`running`), and what is told of a run by a list of events, beside its answer: lines of a
//! trace, lines of JSON, a picture, a page and figures (`tell`). `telling` runs the module once more, event by event,
//! and hands each event to a `Teller` of `views`. What a run begins with, and whatever ends it early, stands in
//! `cli_jobs`.

mod running;
mod tell;
mod telling;

pub use running::run_serial;
pub use tell::{is_told, page_of, print_told, run_drawn, run_replay, tell_course};
