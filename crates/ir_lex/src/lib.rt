//! The tokens of one line of a module's text; numbers without sign.
#![tactic(auto)]

mod numeral;
mod scan;
mod spelling;
mod token;

pub use numeral::{is_numeral, small_value};
pub use refusal::Refused as TextFault;
pub use scan::lex;
pub use spelling::{is_name, is_note_mark, is_text, spaces};
pub use token::{Kind, Token};
