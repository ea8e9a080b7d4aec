//! Modules as people see them: the canonical text of a module, and what the verifier knows of each block of one that it took.
//!
//! [`printed`] needs a text that is read, [`show`] a module that is verified. `show` asks the phases again for what they know, and spells
//! it with the names of the text, as [`register_names`] lists them.

mod canonical;
mod form;
mod name;
mod open;
mod overview;
mod range;
mod usage;

pub use canonical::printed;
pub(crate) use name::register_names;
pub use overview::show;
