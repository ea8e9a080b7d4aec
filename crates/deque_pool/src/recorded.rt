//! The answer of a run on threads, with its events and what each worker did.

use crate::figures::Figures;
use shared_run::{Finished, History};

/// A run that has ended, with what was done in it.
#[derive(Drop)]
pub struct Recorded {
    /// What it came to.
    pub finished: Finished,
    /// The events that were done, in their order; a replay of them comes to the same.
    pub history: History,
    /// What each worker did, by its number.
    pub figures: Vec<Figures>,
}
