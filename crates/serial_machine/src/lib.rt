//! The serial run of a program that the verifier took never stops: it ends with the serial meaning, or memory is
//! refused.
//!
//! - `run`: the serial run with that promise, which `specs/SerialPromise.antt` says: on the engine's windows
//!   (`window_runs`), over a row of the globals' numbers. `serial_run` does it, `serial_run_within` within some fuel.
//!   Both decode the module for each run; `serial_run_by` and `serial_run_within_by` go by what was decoded once for
//!   all its runs.
//! - `decoded`: what a module's runs go by (`Decoded`). `places`: where its objects begin.
//! - `law`: the laws below the promise.
//!
//! The proof, in `proofs`, puts the schedule theorem together with what the engine asks for:
//!
//! - `walks`: what holds along the steps of a serial run, from its start on (`walks_go_on`, `walks_keep`,
//!   `walks_count`).
//! - `room`: the numbers that an instruction reads are of its width (`operands_fit`).
//! - `safe`: wherever the run comes it can do its next step (`serial_runs_are_safe`).
//! - `text`: what the text names is there (`texts_fit`).
//! - `Rows`: what a run over a row of cells comes to (`rows_mean`). `Held`: memory as such a row, and back.
//! - `Engine`: so the run is safe, and means what it should, on the engine's stack of boxes, by which a lone worker
//!   goes. `Windows`: the same on its windows, by which this crate goes.
//! - `Arguments`: arguments that the machine's test takes are those that the theorem asks for.
//! - `Globals`: memory that was made for a program has values in its cells.
//! - `Ends`: what a run comes to is the run that the theorem speaks of.
#![tactic(auto)]

mod decoded;
mod law;
mod places;
mod run;

pub use decoded::Decoded;
pub use law::{
    operands_fit, rows_mean, serial_runs_are_safe, texts_fit, walks_count, walks_go_on, walks_keep,
};
pub use run::{Unfinished, serial_run, serial_run_by, serial_run_within, serial_run_within_by};
pub use store::{Finished, Memory, RunFault, Verified, unmet_requirement};
