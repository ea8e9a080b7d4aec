//! How the parts of a module's canonical text are spelled: its words, instructions and terminators, and the lines of annotations, globals,
//! heads of functions and steps.
//!
//! - `instruction_text`, `terminator_text`, `spelling`: instructions, terminators, values and words.
//! - `lines`, `note_lines`: whole lines, of code and of annotations, of `pieces`.
#![tactic(auto)]

mod instruction_text;
mod lines;
mod note_lines;
mod pieces;
mod spelling;
mod terminator_text;

pub use lines::{push_define, push_ending, push_globals, push_phis, push_steps};
pub use note_lines::{
    push_all_pending, push_feet, push_function_notes, push_inequalities, push_left_line,
};
