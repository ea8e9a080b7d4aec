//! The parts of a line: its symbols, what stands at the front of them, and the instruction or terminator behind a first word. Which
//! of them make an item is for the crate above, which knows annotations too.
//!
//! - `tokens`, `symbol`, `numeral`: symbols. `front`, `ends`, `list`: parts of a line. `fault`: why there is no item.
//! - `definition`, `effect`, `operator`: instructions. `terminator`, `switch`: terminators.
#![tactic(auto)]

mod definition;
mod effect;
mod ends;
mod fault;
mod front;
mod list;
mod numeral;
mod operator;
mod switch;
mod symbol;
mod terminator;
mod tokens;

pub use definition::{call_at, fixed_at, phi_at};
pub use effect::{atomic_at, call_void_at, store_at};
pub use fault::LineFault;
pub use front::{array_at, behind, end_at, global_at, is_mark, mark_at, result_type_at, word_at};
pub use list::parameters_at;
pub use symbol::{Numeral, Symbol};
pub use terminator::terminator_at;
pub use tokens::{symbols_of, words_of};
