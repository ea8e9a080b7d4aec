//! What calls cost at most and how deep they reach, by the budgets and measures that functions declare.
//!
//! `check_cost` judges the rules on cost by what is known at a program's places:
//!
//! | Number | Rule |
//! |---|---|
//! | 701 | at a block's start what is `left` is at least 0 |
//! | 702 | what is left of a block covers what it does and what is left behind each edge, at a detach in both targets together |
//! | 703 | a `measure` lies from 0 to its bound, and falls at each self call |
//! | 704 | the `budget` covers what is left at the entry |
//! | 705 | no call costs over a million million |
//!
//! The table that it answers has the costs and depths of all functions, exact for each measure within its bound.
//!
//! - `check`: the rules over a program. `judge`: what is broken at one place. `sum`: whether what is left covers what
//!   is done.
//! - `work`: what a block does. `level`: within how many detaches it stands. `callee`: whom an instruction calls.
//! - `entry`: what a call costs at most and the greatest depth that it reaches. `depth`: parts of that. `table`: the
//!   table.
#![tactic(auto)]

mod callee;
mod check;
mod depth;
mod entry;
mod judge;
mod level;
mod sum;
mod table;
mod work;

pub use check::check_cost;
pub use entry::FunctionCost;
pub use table::{Table, make_table};
pub use work::{Work, work_of};
