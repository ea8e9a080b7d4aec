//! The graph of a program: the edges between the blocks of each function, the moves of the phis along them, and which
//! blocks a path leads to.
//!
//! | Number | Rule |
//! |---|---|
//! | 211 | a phi has exactly one entry for each predecessor of its block, and no other |
//! | 212 | the entry block has no predecessor, and each block is on a path |
//! | 213 | each block has a terminator |
//!
//! - `structure`: edges, and the ways along them. `program_graph`: a program with its edges (`Graph`).
//! - `edges`: the edges and moves of a function. `judge`: the rules. `build`: both of a whole program (`graph`).
//! - `reach`: the blocks that a path leads to.
#![tactic(auto)]

mod build;
mod edges;
mod judge;
mod program_graph;
mod reach;
mod structure;
mod targets;

pub use build::graph;
pub use edges::make_moves;
pub use program_graph::Graph;
pub use reach::reached;
pub use reachability::{no_marks, one_mark};
pub use refusal::Refused as GraphFault;
pub use structure::{BlockEdges, Edge, FunctionGraph, Guard, Move, Successor, Way};
pub use targets::successors;
