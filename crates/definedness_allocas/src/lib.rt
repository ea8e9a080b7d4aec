//! Where an alloca has a value: its labels at the starts of blocks, and what an edge gives out of them to the block that it leads to.
#![tactic(auto)]

mod edge;
mod fork;
mod sets;

pub use edge::{is_stored, label_along};
pub use fork::Fork;
pub use sets::{Label, Sets, is_among};
