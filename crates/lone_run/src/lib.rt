//! A serial run strand by strand, with no board, lock or copy: of one worker alone under a gate that watches, and of a
//! host that may stop it. It goes on the stack of `serial_stack`, which can pause where it likes, and its frames go on by
//! the codes of the serial run, which itself goes by windows and never pauses.
//!
//! - `run`: a run between two strands (`LoneRun`). `LoneRun::strand` does one, which ends where one of the board's
//!   workers would end it.
//! - `steps`: the stack goes on, to a border, a limit, or one cell too many.
//! - `counted`: the cells of the run, which count what a strand reads and writes (`CountedCells`). `counts`: how many
//!   these are.
//! - `unwatched`: where nobody sees the strands, the run is the serial run (`run_unwatched`).
#![tactic(auto)]

mod counted;
mod counts;
mod run;
mod steps;
mod unwatched;

pub use run::LoneRun;
pub use unwatched::run_unwatched;
