//! What stands on one line of a module's text.

mod grammar;
mod item;
mod laws;
mod line;
mod printed_laws;

pub use item::Item;
pub use laws::lines_are_read_back;
pub use line::{Line, judge_line, read_line};
pub use printed_laws::items_are_read_back;
