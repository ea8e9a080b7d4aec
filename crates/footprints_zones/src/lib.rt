//! Zones of cells at a place: what the facts there show of them, and whether what is touched is covered, and clear of what is pending.
//!
//! A zone is an object, a mode and a range of cells, whose ends are forms over registers. What the facts show of zones is decided exactly.
//!
//! - `zone`: zones, and which covers, is apart from or conflicts with which. `place`: what is asked at a place.
//! - `order`: which end is before which. `bounds`, `ends`, `extent`, `measured`: the same by numbers, for many zones.
#![tactic(auto)]

mod bounds;
mod ends;
mod extent;
mod measured;
mod order;
mod place;
mod zone;

pub use measured::MeasuredPlace;
pub use place::{Place, Use, as_written, index_for, is_allowed, is_clear};
pub use ranges::Unanswered;
pub use zone::{
    PlacedZone, conflict, covers, is_apart, is_covered, is_empty, mode_covers, modes_agree,
};
