//! The dialogue of `tapirvm debug`: what is answered while somebody goes through a schedule.
//!
//! [`answer_commands`] has it with programs on a pipe, a line for each line, or with people: they have a prompt, words
//! that may be abbreviated, and answers that show tasks, frames, registers and cells by the module's names and lines.
//!
//! What is asked:
//!
//! - `dialogue`: a line is read, done and answered, until `quit` or the end of the input.
//! - `word`: the words of commands, in one table. `command`: what a line asks for. `help`: the commands in words.
//!
//! What is done, and what is shown:
//!
//! - `session`: a debugger with what is shown with it (`Session`), as the paths of live frames, sorted.
//! - `going`: going through the schedule.
//! - `showing`: tasks, frames, workers, arrays, and the position.
//! - `registers`: the registers of a frame, as they are shown. `values`: which of them have values.
//! - `source`: the lines around a line. `paint`: colours of a terminal.
#![tactic(auto)]

mod command;
mod dialogue;
mod going;
mod help;
mod paint;
mod registers;
mod session;
mod showing;
mod source;
mod values;
mod word;

pub use dialogue::answer_commands;
