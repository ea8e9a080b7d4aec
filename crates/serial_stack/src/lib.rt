//! The serial run on the engine: steps over a stack of frames, of which the one on top goes on (Tapir, "serial
//! elision"). Its callers show that it may go on wherever it comes, so nothing is tested.
//!
//! - `stack`: the frames, each in a box, and their cells (`Stack`). `start`: the first frame of a run.
//! - `going`: plain steps, to a border or a limit (`Stack::advance`), and what stands there (`Stack::border`).
//! - `borders`: each border: a call, a return, a detach, a reattach, a sync and an array store.
#![tactic(auto)]

mod borders;
mod going;
mod stack;
mod start;

pub use stack::Stack;
