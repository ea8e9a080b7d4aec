//! A serial run's frames as windows of one row of words, and its cells: the state of a serial engine whose calls and detaches are as fast as its
//! loops. The steps are those of `serial_stack`. A frame stands at the slot of a code. The codes, which mean the program, stand in `code_tables`, and
//! the loop over them in `window_runs`.
//!
//! - `windows`: the row. A frame's registers stand behind its caller's, and nothing is zeroed. A frame from elsewhere is taken in as the only one
//!   (`take_in`), and a window's words are given out (`take_out`).
//! - `passing`: what a call passes, with names resolved.
//! - `sites`: calls of the program's text, resolved.
//! - `borders`: each step over a border shows the definitions' frames again.
//! - `stack`: windows with their cells. Each step over a border is a step of the serial run.
//! - `places`, `starts`: the slots, in one array of codes for all functions. There is one for each step and for each block's ending, in the order of
//!   the program, and two behind the ending for its edges. So where a code stands is a sum, and each item has a code of its own, even the second of
//!   two that are done at once.
//! - `law`: borders, and segments of plain steps between them, are a walk from the run's start (`borders_walk`, `segments_walk`). The slot of an item
//!   is for that item (`slots_stand`), so the codes' slots are those that the borders ask for (`borders_stand`).
#![tactic(auto)]

mod borders;
mod law;
mod passing;
mod places;
mod sites;
mod stack;
mod starts;
mod windows;

pub use law::{borders_stand, borders_walk, segments_walk, slots_stand};
pub use passing::Passed;
pub use places::{CodePlace, code_places};
pub use sites::{CallCodes, CallText, call_site, resolve};
pub use stack::WindowStack;
pub use starts::function_starts;
pub use windows::{CallSite, Saved, Windows};
