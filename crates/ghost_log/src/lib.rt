//! A list that only proofs read: it takes no memory, and its calls do nothing at run time.
//!
//! Whoever has one says in an invariant of its own what the list is to the values that it has: nothing else ties it to them.
#![tactic(auto)]

mod log;

pub use log::Log;
