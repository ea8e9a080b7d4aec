//! A module's text: `read` makes the syntax tree of it (`ir_reader`), and `print` writes the tree as canonical text, which is read back.
#![tactic(auto)]

mod laws;
mod printer;

pub use ir_reader::{TextFault, read};
pub use laws::print_is_read_back;
pub use printer::print;
