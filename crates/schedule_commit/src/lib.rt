//! A worker's instructions, done at once as steps of the worker whose frame they began with: those of a strand, over
//! borders, and those of a frame strand.
//!
//! - `cells`: what a cell of the row holds, and what a strand wrote, put into it.
//!
//! A worker's strand, in `strands`:
//!
//! - `taking`: publishes it, where it fits (`publish`).
//! - `fitting`: whether it fits (`fitting_base`). `linking`: its frames, as they are to stand in the cactus.
//! - `committing`: writes base, cells and counts, which takes no memory.
//!
//! A frame strand:
//!
//! - `taking`: does its steps and its border's, where it fits (`absorb`). `fitting`: whether it fits (`fitting_slot`).
//! - `taking_back`: takes it back, where the border's step is refused memory.
#![tactic(auto)]

mod cells;
mod fitting;
mod strands;
mod taking;
mod taking_back;

pub use cells::{cell, put_writes};
pub use fitting::{fitting_slot, hold_reads, is_same, same_numbers};
pub use frame_strand::{FrameStrand, FrameStrandPause};
pub use strand::{BoardFrame, CodePlace, Strand, StrandPause, page_around};
pub use strands::{fitting_base, has_no_child, publish};
pub use taking::absorb;
