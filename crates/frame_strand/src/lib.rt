//! What a worker does outside of the machine, on a copy of a frame: plain instructions over the cells that it has read
//! and written itself.
//!
//! - `outside`: a frame strand (`FrameStrand`): it is loaded, goes on, and is told what a cell holds.
//! - `standing`: the copy of the frame, with its path and what it has done (`Course`), and why it goes on no further.
//! - `cells`: the cells that a strand read, with what they held, and those that it wrote (`FrameStrandCells`). No call
//!   but `new` takes memory. `access`: they are cells of the engine. `finding`: an index of their addresses.
//! - `law`: what plain steps do to these cells takes the strand on as the definitions say.
#![tactic(auto)]

mod access;
mod cells;
mod finding;
mod law;
mod outside;
mod standing;

pub use cells::{CellStop, Change, FrameStrandCells, Read, Written};
pub use law::accesses_are_frame_strands;
pub use outside::FrameStrand;
pub use standing::{Course, FrameStrandPause, MOST, copy_frame};
