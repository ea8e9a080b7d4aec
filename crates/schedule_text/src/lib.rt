//! Schedules as text.
//!
//! A schedule is a list of events. `read_schedule` and `print_schedule` turn its text into the list and back, and `spell_schedule` one that may be too
//! long: each list has one spelling, and each text that is read is the spelling of its list.
//!
//! `read`, `print`: texts and lists of events. `line`, `numeral`: their parts. `fault`: why a text is no schedule.
//! `laws`: one spelling.
#![tactic(auto)]

mod fault;
pub mod laws;
mod line;
mod numeral;
mod print;
mod read;

pub use fault::ScheduleFault;
pub use line::{Line, read_task};
pub use numeral::read_number;
pub use print::{print_schedule, spell_schedule};
pub use read::read_schedule;
