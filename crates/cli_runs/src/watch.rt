//! Runs watched event by event, and schedules drawn at random.
//!
//! A [`Watch`] runs a module event by event, and tells of each by a `Moment`: where it found its task, what it came to, or why it was not enabled, and,
//! where that is asked for, what it set. The events come from a [`Course`]: a list, or a [`Draw`] by a seed. What is made of moments stands in `views`,
//! which knows no machine.

mod course;
mod dice;
mod random;
mod watching;

pub use course::Course;
pub(crate) use course::Listed;
pub(crate) use random::Draw;
pub(crate) use watching::Watch;
pub use watching::{after_step, place_if};
