//! One run that several threads do: the board, and the seats at which its workers make their moves.
//!
//! A board has the machine and the history of its events; contracts see the start, the events since then, and the run
//! that they led to. Each call at a seat appends to the history exactly the events that it names, and does them, or it
//! leaves board and seat as they were. So the machine is always the replay of the history, each event of which was
//! enabled where it stands, and the schedule theorem holds of it (`Board::machine`). Tokens of `std::sync::ledger`
//! count: the board's book counts all events, each seat's share those that its own calls appended.
//!
//! `Shared` is a board in a lock. No call here waits: a thread locks `Shared::board` itself. Where the run begins
//! stands with the ledger, in contracts alone, so nothing has to be copied or compared to tell what is in the lock.
//!
//! The board:
//!
//! - `board`: the machine with its history (`Board`), and the calls at a seat. `answers`: what these answer.
//! - `launch`: what a run is started with. `bench`: the ledger of one run, with where the run begins. `start`: that as data.
//! - `seat`: a worker's seat. `history`: the events so far, kept or seen by contracts alone.
//! - `ticket`: the name of a task that may be stolen.
//! - `shared`: a board in a lock (`Shared`). `rest`: board and strand between the calls of a host.
//!
//! The strands:
//!
//! - `worker_strand`: a worker's strand (`WorkerStrand`). `frames`: its frame on top.
//! - `publishing`: what a board does with it: it gives a base and pages, and takes the steps.
//! - `outside`: frame strands, apart from the board.
//!
//! Who does what when:
//!
//! - `turns`: what a worker does at the board (`meet`), and what without it (`turn`), with no lock and no handle.
#![tactic(auto)]

mod answers;
mod bench;
mod board;
mod frames;
mod history;
mod launch;
mod outside;
mod publishing;
mod rest;
mod seat;
mod shared;
mod start;
mod ticket;
pub mod turns;
mod worker_strand;

pub use answers::{Claimed, Committed, Fetched, Loaded, Published, Stepped};
pub use bench::Bench;
pub use board::Board;
pub use frames::Top;
pub use history::{Entry, History, Keeping};
pub use launch::Launch;
pub use outside::{advance, blank_frame_strand, clear};
pub use rest::{BoardRest, StrandRest};
pub use schedule_core::{
    CodePlace, Decoded, Event, Finished, FrameStrand, FrameStrandPause, Machine, Memory, Places,
    RunFault, Status, TaskView, Verified, replay, steps_of,
};
pub use seat::Seat;
pub use shared::{Shared, Unended};
pub use start::Start;
pub use ticket::Ticket;
pub use worker_strand::{MOST_INSTRUCTIONS, Standing, WorkerStrand};
