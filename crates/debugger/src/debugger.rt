//! What a debugger has: a list of events, a position in it, and the machine there.

ghost use Rattle.std.specs.Prelude.{◌≤◌, length};

use crate::marks::Marks;
use schedule_core::{Event, Machine};

/// A run of a schedule that can go back: it stands at a position, between two events of the list.
pub struct Debugger<'v> {
    pub(crate) events: Vec<Event>,
    /// How many events were done.
    pub(crate) position: usize,
    /// The state at the position.
    pub(crate) machine: Machine<'v>,
    pub(crate) marks: Marks<'v>,
    ghost within: { position ≤ length events.items },
}

/// Written out, so that no crate above proves it anew.
impl Drop for Debugger<'_> {
    fn drop(self) {
        let Debugger {
            events: _,
            position: _,
            machine: _,
            marks: _,
        } = self;
    }
}
