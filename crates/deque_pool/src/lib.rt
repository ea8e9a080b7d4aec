//! A run on threads: each worker does strands of its own, offers the tickets of tasks that may be stolen, and takes
//! those of other workers when it has none (Blumofe and Leiserson, "Scheduling multithreaded computations by work
//! stealing"). The lists of tickets are those of `deque_pool_tickets`.
//!
//! What a host calls:
//!
//! - `threads`: `run`, and `run_recorded`, which also gives the events. They start with a `Launch`.
//! - `gate`: what the host lets a run pass before each strand (`Gate`, `OpenGate`).
//! - `recorded`: a run with its events. `figures`: what each worker did.
//!
//! How it is done:
//!
//! - `alone`: the run of one worker, which has nobody to share with.
//! - `rounds`: starts and joins the threads, and sets the workers to work again where they left a run too soon.
//! - `workers`: the workers, each with its seat, its strand and its tickets.
//! - `work`: the loop of a worker on its thread. `turns`: the worker at the board. `locking`: how it comes by the lock.
//! - `tickets`: what a worker offers and takes.
//! - `demand`: how many workers have no task, how many tasks are ready, and the bell for those that sleep.
//! - `outlook`: why workers leave, and what becomes of a run that has not ended then (`what_next`).
#![tactic(auto)]

mod alone;
mod demand;
mod figures;
mod gate;
mod locking;
mod outlook;
mod recorded;
mod rounds;
mod threads;
mod tickets;
mod turns;
mod work;
mod workers;

pub use deque_pool_tickets::{Hands, Taken, Thief, each_as_often};
pub use figures::Figures;
pub use gate::{Gate, Go, OpenGate};
pub use recorded::Recorded;
pub use shared_run::{Entry, Event, History, Launch, Machine, replay};
pub use threads::{run, run_recorded};
