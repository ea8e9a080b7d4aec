//! Whether registers are defined (401), and allocas have values (402), wherever a program uses them.
//!
//! - `check`: the rules over a program. `judge`: the first use of what is not defined. `act`, `table`: uses and
//!   definitions.
//! - Registers: `registers` (their uses and definitions), `missing` (blocks that they may reach undefined).
//! - Allocas: `allocas` (their reads and stores), `fork`, `given`, `settle` (the labels of blocks, by a fixed point),
//!   `unsure`.
#![tactic(auto)]

mod act;
mod allocas;
mod check;
mod fork;
mod given;
mod judge;
mod missing;
mod registers;
mod settle;
mod table;
mod unsure;

pub use check::defined;
pub use refusal::Refused as DefinedFault;
