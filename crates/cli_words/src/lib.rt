//! The command line of the program `tapirvm`: which words there are, and the request that they make; and what goes in
//! and out by the files that words name.
//!
//! The words:
//!
//! - `table`: the program's commands, each with its words and options. Help, completions and the manual page are made
//!   from it.
//! - `command`: the command line as `clap` parses it. `parsing`: from words to a request (`words`).
//! - `options`: the words and options of a command, read one by one. `names`: what is a name of a module's text.
//! - `manual_page`, `shells`: the manual page, and scripts that complete words. `version`: what `--version` prints.
//! - `word`: a word that is not UTF-8, as a path may be, as a text (`text_of`), and as a word again (`bytes_of`).
//!
//! What they ask for:
//!
//! - `request`: what is asked for (`Request`, `Verb`). `question`: a request over the bytes of its files.
//!
//! What goes in and out, in `io`:
//!
//! - `files`: the files that words name. `numbers`, `words`: a global's cells as text, and as words of eight bytes.
//!   `scan`: the words of a text. `fault`: why a text has no numbers.
//! - `beside`: what is told beside standard output. `endings`: what is said of streams, of memory and of files that
//!   cannot be read. `status`: the exit statuses.
//! - `laws`: what is printed of numbers is read back as these.
#![tactic(auto)]

mod command;
pub mod io;
mod manual_page;
mod names;
mod options;
mod parsing;
mod question;
mod request;
mod shells;
mod table;
mod version;
mod word;

pub use io::{
    Beside, DataFault, FileBytes, Status, Times, ended, print_numbers, print_refused,
    print_unreadable, read_data, read_file, read_numbers, read_words, stop_for_memory, write_bytes,
    write_words,
};
pub use manual_page::manual;
pub use names::is_name;
pub use parsing::words;
pub use question::Question;
pub use request::{
    Annotating, CellWord, DataWord, DataWords, Dialogue, Grant, Request, RowWord, Setting, Shell,
    Telling, Verb, WordsFault,
};
pub use shells::completions;
pub use word::{bytes_of, is_raw, text_of};
