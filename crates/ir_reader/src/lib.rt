//! From a module's text to its syntax tree, line by line.
//!
//! Reading stops at the first line with a fault; of several faults on one line the lowest number is named. A line's item is put behind
//! what was read (`draft`), and then the module so far is held to its limits (`limits`) and its names to being defined once (`names`).
//!
//! `reader` goes over the text's `lines`; an `item` is what one of them says. `opening`, `annotating`: items put into
//! the module. `scope`: which names an item defines.
#![tactic(auto)]

mod annotating;
mod draft;
pub mod item;
mod limits;
mod lines;
mod names;
mod opening;
mod reader;
mod scope;

pub use item::{Item, Line, items_are_read_back, judge_line, lines_are_read_back, read_line};
pub use lines::{content, cut_line};
pub use reader::read;
pub use refusal::Refused as TextFault;
