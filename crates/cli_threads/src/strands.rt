//! The rounds of a run that was recorded, which is done once more strand by strand.
//!
//! [`run_again`] does a recorded run once more, strand by strand: a run of plain instructions is one event. The rounds are
//! those of `views`, event for event: what a stack passes by itself, as a detach or a child's end, is told beside it, by its [`Levels`],
//! and put to the marks of the run when the stack is.

mod ahead;
mod levels;
mod told;
mod walk;

pub use told::{Told, run_again};
