//! Forwards and backwards through a schedule.
//!
//! A [`Debugger`] stands at a position of a list of events, and its machine is the replay of so many events from the
//! start, whatever was done before. What it is made of is passed on to the crates above, and so are schedules as text.
//!
//! - `debugger`: a list of events, a position and the machine there (`Debugger`).
//! - `going`: goes to a position, forwards, backwards, and to a line; a task and a cell at the position.
//! - `views`: frames, cells of allocas, and what workers run there.
//! - `marks`: states that are kept on the way, so that going back need not begin at the start.
#![tactic(auto)]

mod debugger;
mod going;
mod marks;
mod views;

pub use debugger::Debugger;
pub use schedule_core::{
    Event, Finished, Frame, FrameView, Machine, Memory, Places, RunFault, Status, TaskView, replay,
};
pub use schedule_text::{
    Line, ScheduleFault, print_schedule, read_number, read_schedule, read_task,
};
pub use verifier::{Effort, Refused, Unverified, Verified, verify, verify_within};
