//! What hosts in C call, as functions of Rattle: `tapirvm_c` has an export for each, and nothing else. So this much is
//! proved once, and the little library that is proved again where it is built has little in it.
//!
//! What a handle holds stays in its block on the heap, so a meeting needs no memory for it.
//!
//! The calls:
//!
//! - `judge`: the verdict on a text (`verify`). `open`: the same, and the module is kept (`open_module`).
//! - `run`, `rows`, `replay`: a module that is kept runs once, over many rows, and by a schedule.
//! - `serial`: the serial run over a row of cells, and the call that judges a text anew for it (`verify_and_run`).
//! - `boards`: a run on threads that the host brings: `meet_board` under its lock, `turn_worker` without it.
//! - `schedule`: what such a run has done, as text.
//! - `stop`: what a host holds to stop runs (`StopHandle`), and the calls that set it.
//! - `inside`: globals, arguments and cells of a module that is kept. `range`: what `requires` says of one argument.
//! - `words`: rules, reasons and statuses in words.
//!
//! What is told, and what is held:
//!
//! - `requests`: what a host asks of runs. `told`: verdicts, outcomes and statuses, as the header has them.
//! - `handle`, `board_handle`: what a host holds between its calls (`Handle`, `BoardHandle`, `WorkerHandle`).
//! - `kernel`, `run_at`, `worker_at`, `stop_at`: what handles hold, as pointers of no type. `loose`: a box as its
//!   pointer.
//! - `block`: a run with its module, and a worker with its own hold on the module.
//! - `prepared`: a module, decoded for its runs. `names`: the names of its arguments. `shared`: a module with several
//!   owners.
//!
//! Below the calls:
//!
//! - `hosted`: a run whose host brings the threads and the lock (`HostedRun`, `HostedWorker`, `Stop`).
//! - `until`: a serial run that may be stopped (`run_watched`).
//! - `cells`: how many cells globals and frames have. `seed`: random numbers from the host, for the verifier's tables.
#![tactic(auto)]

mod block;
mod board_handle;
mod boards;
mod cells;
mod handle;
pub mod hosted;
mod inside;
mod judge;
mod kernel;
mod loose;
mod names;
mod open;
mod prepared;
mod range;
mod replay;
mod requests;
mod rows;
mod run;
mod run_at;
mod schedule;
mod seed;
mod serial;
mod shared;
mod stop;
mod stop_at;
mod told;
mod until;
mod words;
mod worker_at;

pub use board_handle::{BoardHandle, WorkerHandle};
pub use boards::{
    close_board, close_worker, finish_board, grant_fuel, meet_board, open_board, open_worker,
    turn_worker,
};
pub use handle::Handle;
pub use inside::{
    GlobalCells, count_arguments, count_frame_cells, count_globals, find_global, tell_global,
};
pub use judge::verify;
pub use open::{close_module, open_module, share_module};
pub use range::{Range, tell_argument};
pub use replay::replay_module;
pub use requests::{BoardRequest, RowsRequest, RunRequest};
pub use rows::run_each_row;
pub use run::run_module;
pub use schedule::write_schedule;
pub use seed::Seed;
pub use serial::verify_and_run;
pub use stop::{StopHandle, clear_stop, close_stop, is_stop_set, open_stop, set_stop, share_stop};
pub use told::{Outcome, Verdict};
pub use words::{put, write_explanation, write_rule, write_words};
