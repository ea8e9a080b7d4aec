//! What goes in and out of the program: the files that words name, its statuses, what is told beside the output, and the numbers of a global's
//! cells as data: decimal numbers with white space between, or words of eight bytes.
//!
//! [`read_numbers`] and [`print_numbers`] turn text into numbers and back, [`read_words`] and [`write_words`] bytes. What is printed
//! is read back as the same numbers: [`laws`] says so.
mod beside;
mod endings;
mod fault;
mod files;
pub mod laws;
mod numbers;
mod scan;
mod status;
mod words;

pub use beside::{Beside, FileBytes, Times};
pub use endings::{ended, print_refused, print_unreadable, stop_for_memory};
pub use fault::DataFault;
pub use files::{read_data, read_file, write_bytes};
pub use numbers::{print_numbers, read_numbers};
pub use status::Status;
pub use words::{read_words, write_words};
