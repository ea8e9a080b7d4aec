//! Names are resolved and types are judged: from the syntax tree of a module to the program that it means.
//!
//! Each rule has a number and stands alone; of the rules that a module breaks the one of the lowest line is named, and on
//! that line the lowest number.
//!
//! | Number | Rule |
//! |---|---|
//! | 201 | each name that is used is defined, and `@main` is |
//! | 202 | each use has the type that stands there |
//! | 203 | a call has as many arguments as its callee has parameters |
//! | 204 | pointers name whole objects, and different ones at a call |
//! | 205 | a function calls itself or functions above it |
//! | 206 | forms keep their limits, and a block's notes name nothing that its own instructions define |
//!
//! `names` says what single names, operands, addresses, forms and zones stand for.
//!
//! `check` has the whole phase (`check_types`), and `typed` what it answers; `function`, `block`, `instruction`, `call`
//! and `terminator` are judged each in a file.
#![tactic(auto)]

mod block;
mod call;
mod check;
mod function;
mod instruction;
pub mod names;
mod terminator;
mod typed;

pub use check::check_types;
pub use names::{Refused, TypeFault};
pub use typed::Typed;
