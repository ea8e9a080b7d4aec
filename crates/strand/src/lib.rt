//! A worker's strand: what it does from a frame on, apart from the machine, across calls, detaches and what ends them.
//!
//! - `strand`: the base with its path, its frames and its cells (`Strand`).
//! - `cells`: the cells of its own frames' allocas, in a segment of addresses, and those that were read and written of others (`strand_pages`).
//! - `span`: its frames, as windows of one row, from the base to the one that goes on.
//! - `loading`: it begins with a frame of the board.
//! - `going`: it goes on (`Strand::go`). `stretch` is the loop over codes and borders, and what the text says; `crossing` each border.
//! - `told`: what is seen of its frames.
//! - `leaving`: its frames are written into boxes, from which they are published (`Strand::settle`).
#![tactic(auto)]

mod cells;
mod crossing;
mod going;
mod leaving;
mod loading;
mod span;
mod strand;
mod stretch;
mod told;

pub use cells::StrandCells;
pub use going::StrandPause;
pub use loading::BoardFrame;
pub use strand::{Base, Strand};
pub use strand_pages::page_around;
pub use windows::CodePlace;
