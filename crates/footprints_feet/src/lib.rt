//! What is touched in zones, as in a new child's foot: whether each is covered, and clear of what is pending.
#![tactic(auto)]

mod foot;

pub use foot::{foot_use, joined_use, no_use, zone_use};
pub use footprints_zones::{
    MeasuredPlace, Place, PlacedZone, Use, as_written, conflict, covers, index_for, is_allowed,
    is_apart, is_clear, is_covered, is_empty, mode_covers, modes_agree,
};
