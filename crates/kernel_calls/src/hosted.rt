//! A run whose host brings the threads and the lock: a board at rest, and workers with their strands. No call here waits.
//!
//! `HostedRun::meet` needs the board and a worker, so a host calls it under its lock; `HostedWorker::turn` needs the worker alone. Whatever calls are made,
//! in whatever order, an answer of `HostedRun::finish` is that of the serial meaning.
//!
//! A [`Stop`] that is set, and fuel that is spent, end no run: whoever meets the board is told so, and nothing is done there.

mod met;
mod run;
mod stop;
mod worker;

pub use met::{Met, Progress};
pub use run::HostedRun;
pub use stop::Stop;
pub use worker::HostedWorker;
