//! An event of a schedule: a worker's step, or a steal.

use crate::path::Path;

/// One event of a schedule.
#[derive(Drop)]
pub enum Event {
    /// The worker executes the next instruction of its task.
    Step(u8),
    /// The worker takes the task of this path.
    Steal(u8, Path),
}
