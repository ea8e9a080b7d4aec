//! What a machine is made of: the module, where its objects begin, the globals' names, and the run.

use crate::shared_places::SharedPlaces;
use schedule_workers::Run;
use serial_machine::{Memory, Verified};

/// A run of a verified module, with what its steps read.
#[derive(Drop)]
pub struct Stage<'v> {
    pub verified: &'v Verified,
    /// Where the module's objects begin.
    pub places: SharedPlaces,
    /// The globals as they were handed in: their names and sizes. What they hold now stands in the run's cells.
    pub memory: Memory,
    pub run: Run,
}
