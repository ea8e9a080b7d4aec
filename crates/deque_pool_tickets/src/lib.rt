//! The tickets of tasks that may be stolen: each worker has a list, to which it adds and from which it takes at one end,
//! and from whose other end thieves take (Blumofe and Leiserson, "Scheduling multithreaded computations by work stealing").
//!
//! A list changes by three kinds of atomic step: the owner's offer at the back, the owner's taking of the newest, and a
//! thief's taking of the oldest. `specs/TicketList.antt` has the rule that each step keeps, however the threads run: a list has one history, of the steps
//! of all ends, and is what that leads to. The contract of an end knows the history up to its own last step.
#![tactic(auto)]

mod hands;
mod law;
mod taken;
mod ticket_list;

pub use hands::{Hands, Thief};
pub use law::each_as_often;
pub use taken::Taken;
