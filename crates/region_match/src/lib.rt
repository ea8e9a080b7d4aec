//! The tasks of a function's blocks, and the rules on detach, reattach and sync (Tapir).
//!
//! | Number | Rule |
//! |---|---|
//! | 306 | no two paths give one block different tasks |
//! | 301, 302 | a reattach names the region and the continuation of its task's detach |
//! | 303 | a region is used by the task that started it |
//! | 304 | a sync of its region follows each detach before its task ends |
//! | 305 | a `ret` stands in no task |
//! | 307 | regions, phis and `foot` lines stand where they may, and a detached block has its detach as only predecessor |
//!
//! - `check`: the rules over a program. `task`, `tables`: each block's task. `label`, `clash`: rule 306.
//! - `matching`: rules 301 to 303 and 305. `unsynced`: 304. `places`: 307.
#![tactic(auto)]

mod check;
mod clash;
mod label;
mod matching;
mod places;
mod tables;
mod task;
mod unsynced;

pub use cfg::{Graph, Move, Way, make_moves};
pub use check::regions;
pub use matching::ending_of;
pub use refusal::Refused as RegionFault;
pub use tables::{FunctionTasks, Regions};
pub use task::Task;
pub use unsynced::{detach_of, open_marks};
