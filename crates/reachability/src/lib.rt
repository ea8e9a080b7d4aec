//! Which nodes of a graph a way leads to: the one search that goes along edges from block to block, and along calls from function
//! to function.
#![tactic(auto)]

mod marks;
mod search;

pub use marks::{no_marks, one_mark};
pub use search::{Node, reached};
