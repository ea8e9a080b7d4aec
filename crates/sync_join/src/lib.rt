//! How a worker leaves a task at a sync and finds one at a reattach: the children of one frame within one sync region
//! that still live are counted (Tapir, "detach", "reattach" and "sync"; Blumofe and Leiserson, "Scheduling
//! multithreaded computations by work stealing").
//!
//! - `count`: the count of one region. `counts`: those of one frame, and whether a child of it lives.
#![tactic(auto)]

mod count;
mod counts;

pub use count::{Outcome, Parent, Passage, RegionCount};
pub use counts::RegionCounts;
