//! The rules by which parallel parts keep clear of each other, over zones of cells.
//!
//! What the facts at a place show of zones is decided exactly, and so are the rules on what a block touches, what of it may still run beside
//! it, and what it hands on:
//!
//! | Number | Rule |
//! |---|---|
//! | 601 | a zone covers each load, store and add: one of the function's own, and in a child one of its `foot` |
//! | 602 | what is touched conflicts with nothing that is `pending` in its block |
//! | 603 | what is pending, and the foot of a new child, is pending at the target of each edge, with what its phis take put in |
//! | 604 | a zone covers each zone of a callee, with the arguments put in, and each zone of a new child's `foot` |
//!
//! - `check`: the rules over a program. `judge`: what is broken at a step or on an edge.
//! - `access`: the cells of an address. `touch`: what is touched. `pass`: what is handed on along edges. `laws`: what
//!   zones mean.
#![tactic(auto)]

mod access;
mod check;
mod judge;
pub mod laws;
mod pass;
mod touch;

pub use access::{Cell, Pointer, address_cell, cells_zone, pointers_of};
pub use check::check_zones;
pub use footprints_feet::{
    Place, PlacedZone, Use, conflict, covers, is_allowed, is_apart, is_clear, is_covered, is_empty,
    mode_covers, modes_agree,
};
pub use pass::{hands_on, passes_on};
pub use ranges::{Effort, Unverified, check_ranges};
pub use touch::{end_use, put_object, step_use};
