//! What is asked to be told of a run, and what was told.

use crate::figures::Crew;
use crate::names::Names;

/// What is asked for.
#[derive(Clone, Copy)]
pub struct Wanted {
    pub trace: bool,
    /// The events as a schedule.
    pub script: bool,
    pub stats: bool,
    pub picture: bool,
    pub json: bool,
    pub page: bool,
}

impl Wanted {
    /// A page alone.
    pub fn page() -> Wanted {
        Wanted {
            trace: false,
            script: false,
            stats: false,
            picture: false,
            json: false,
            page: true,
        }
    }

    /// Whether anything is asked for.
    pub fn is_any(self) -> bool {
        self.trace || self.script || self.stats || self.picture || self.json || self.page
    }
}

/// What was told of a run, as far as it was asked for; the trace went to the output.
#[derive(Drop)]
pub struct Told {
    /// The events as a schedule; none too where it would be too long.
    pub script: Option<String>,
    /// How many events there were.
    pub events: u64,
    pub stats: String,
    pub picture: Option<String>,
    /// The lines of JSON; none where they are not asked for.
    pub json: String,
    pub page: Option<String>,
}

/// A run of which only the beginning is told.
#[derive(Clone, Copy)]
pub struct Whole {
    /// How many events follow.
    pub untold: u64,
    pub result: i64,
    pub instructions: u64,
    pub peak: u64,
}

/// What a run is told with.
#[derive(Clone, Copy)]
pub struct Words<'a> {
    pub names: &'a Names<'a>,
    /// The lines of the module's text.
    pub lines: &'a [&'a str],
    /// Of a run on threads what its workers did beside the events.
    pub crew: Crew<'a>,
    pub whole: Option<Whole>,
}

impl Words<'_> {
    /// How many events follow those that are told.
    pub fn untold(self) -> u64 {
        match self.whole {
            Some(whole) => whole.untold,
            None => 0,
        }
    }
}
