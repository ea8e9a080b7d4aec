//! A frame over words, which goes on step by step with no test: what it rests on is asked for.
//!
//! - `activation`: a frame (`Frame`). `beginning`: its start. `items`, `functions`: what stands at its place.
//! - `turning`: the loop over blocks. `stepping`: over instructions. `doing`, `arithmetic`: one instruction. `ending`,
//!   `entering`: a block's end, an edge with its phis.
//! - `borders`, `calls`, `clearing`: what a frame does at a border.
//! - `cells`: memory as a trait (`Cells`). `flat`: as one array. `words`: registers and addresses. `placing`: where
//!   objects begin.
#![tactic(auto)]

mod activation;
mod arithmetic;
mod beginning;
mod borders;
mod calls;
mod cells;
mod clearing;
mod doing;
mod ending;
mod entering;
mod flat;
mod functions;
mod items;
mod placing;
mod stepping;
mod turning;
mod words;

pub use activation::{Frame, Places};
pub use arithmetic::{binary, compare, convert, sum};
pub use beginning::{blank, first_registers};
pub use borders::taker;
pub use cells::Cells;
pub use clearing::write_zeros;
pub use entering::move_all;
pub use flat::Flat;
pub use functions::{frame_cells, function_at, most_moves};
pub use items::Item;
pub use turning::{Pause, Place, advance};
pub use words::{behind, define};
