//! What a run on threads is started with: module, arguments, memory and number of workers.

use schedule_core::{Memory, Verified};

/// What a run is started with.
#[derive(Drop)]
pub struct Launch<'a> {
    pub verified: &'a Verified,
    /// Of `main`.
    pub arguments: &'a [i64],
    /// It was made for the module.
    pub memory: Memory,
    pub workers: usize,
}
