//! What an instruction, a call or the end of a block owes, as sums of operands that must be shown to be at least 0.
#![tactic(auto)]

mod inequality;
mod owe;
mod scale;
mod sum;

pub use cfg::{Guard, Move, Successor, Way, make_moves, successors};
pub use inequality::{
    argument_moves, call_moves, difference_of, differences_of, operand_for, push_parts,
    result_moves,
};
pub use owe::{inequalities_owed, owed, owed_at_end};
pub use scale::scale_of;
pub use sum::{Obligation, Part, Sum, opposite};
