//! The verifier and the serial machine for hosts that are written in C, as `include/tapirvm.h` declares them: an export for each call of `kernel_calls`.
//!
//! A module is judged by `tapirvm_open`, which keeps it in a [`Handle`](kernel_calls::Handle), and run from there by `tapirvm_run`, `tapirvm_rows` and
//! `tapirvm_replay`. `tapirvm_verify` and `tapirvm_serial` judge a text anew and keep nothing. `tapirvm_rule` and `tapirvm_explain` give reasons in words.
//!
//! A run on threads has a [`BoardHandle`](kernel_calls::BoardHandle), and each of its threads a [`WorkerHandle`](kernel_calls::WorkerHandle): the host
//! calls `tapirvm_meet` under a lock of its own, and `tapirvm_turn` without it. A [`StopHandle`](kernel_calls::StopHandle) stops runs from another thread.
//!
//! - `modules`, `runs`, `boards`, `stops`, `inside`, `words`: the exports, by what they are about. `abi`: their
//!   version.
#![tactic(auto)]

mod abi;
mod boards;
mod inside;
mod modules;
mod runs;
mod stops;
mod words;

pub use abi::{tapirvm_abi, tapirvm_minor, tapirvm_version};
pub use boards::{
    tapirvm_board_close, tapirvm_board_finish, tapirvm_board_fuel, tapirvm_board_open,
    tapirvm_board_schedule, tapirvm_meet, tapirvm_turn, tapirvm_worker_close, tapirvm_worker_open,
};
pub use inside::{
    tapirvm_argument_at, tapirvm_arguments, tapirvm_frame_cells, tapirvm_global, tapirvm_global_at,
    tapirvm_globals,
};
pub use modules::{tapirvm_close, tapirvm_open, tapirvm_share, tapirvm_verify};
pub use runs::{tapirvm_replay, tapirvm_rows, tapirvm_run, tapirvm_serial};
pub use stops::{
    tapirvm_stop_clear, tapirvm_stop_close, tapirvm_stop_is_set, tapirvm_stop_open,
    tapirvm_stop_set, tapirvm_stop_share,
};
pub use words::{tapirvm_explain, tapirvm_rule, tapirvm_words};
