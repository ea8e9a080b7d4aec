//! The workers' machine on the engine: steps of workers over frames in slots and cells in one row. Its callers show
//! that each worker's frame may go on wherever a schedule comes, so nothing is tested.
//!
//! An address is an index of the row: globals first, then blocks, one a slot, and among them the cells that are lent to
//! workers. A function's frame has its allocas in its slot's block, or in what is lent, as long as it lives, so no path
//! is walked for a cell, and a copy of a frame names the same cells.
//!
//! The definitions tell how a run is shown (`RunShown`), what it rests on (`Going`), how it begins (`Starts`), and what
//! a step or a steal comes to (`Events`) and leaves of slots (`Follows`) and of stalled frames (`Stalls`), and which
//! cells a worker may have apart (`Lent`).
//!
//! The run:
//!
//! - `run`: a run between two events (`Run`). `activation`: a live frame with what the scheduler knows of it.
//! - `start`: a run before its first event. `copies`: a run again, in lists of its own.
//!
//! Its events:
//!
//! - `step`: a step of a worker (`Run::step`), and a border's alone (`Run::border`).
//! - `plain`: an instruction that is no border.
//! - `call`, `returning`, `detach`, `reattach`, `sync`, `clear`: each border (`Call`, `Detach` say what it is to do; `clear` is the array store).
//! - `steal`: a steal.
//!
//! What it looks up:
//!
//! - `hands`: the frame that a worker runs next. `tops`, `lowest`: the top frame of a task, and its lowest one.
//! - `room`: a slot's block of cells.
//! - `lent`: the cells that are lent to workers. `pieces`: each worker's piece of them, and what is free of it.
#![tactic(auto)]

mod activation;
mod call;
mod clear;
mod copies;
mod detach;
mod hands;
mod lent;
mod lowest;
mod pieces;
mod plain;
mod reattach;
mod returning;
mod room;
mod run;
mod start;
mod steal;
mod step;
mod sync;
mod tops;

pub use activation::Activation;
pub use call::Call;
pub use copies::frame_copy_in;
pub use detach::Detach;
pub use run::{Block, Run};
