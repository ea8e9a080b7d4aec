//! What a worker keeps of the cells that it read and wrote apart from the board, by pages of 64 cells.
//!
//! - `PageLog`: the pages in use (`Pages`, with a directory that leads from a cell's page to them), and a list of adds to cells far from one another.
//!   No call but `new` and `widen` takes memory.
//! - `page_around`: the cells of a page as the board has them.
//!
//! Files: `log` (`PageLog`), with its `table` of `page`s, their `bits`, and what was `added` elsewhere; `access` makes
//! it cells of the engine; `row` has `page_around`.
#![tactic(auto)]

mod access;
mod added;
mod bits;
mod log;
mod page;
mod row;
mod table;

pub use frame_strand::{CellStop, copy_frame};
pub use log::PageLog;
pub use row::page_around;
