//! What a worker does when, with no lock and no handle: `turn` goes on outside of the board to where the worker wants something of it, and `meet` does at
//! the board what it wants, and more as long as that is short. Who runs a worker holds the board's lock around `meet` alone.

mod ahead;
mod going;
mod habits;
mod heights;
mod meeting;
mod offers;
mod pace;
mod tasks;

pub use going::turn;
pub use habits::Habits;
pub use meeting::{Met, meet};
pub use offers::Offers;
pub use tasks::{Hunger, Reason, Tasks, Told};
