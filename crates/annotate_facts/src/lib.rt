//! Facts of a function's registers, and which of them hold wherever a block begins.
//!
//! A fact is a sum of registers that is at least 0. Here are sums, with their bounds, the facts that add up to one, and how it is spelled; what instructions
//! make of registers; the edges from block to block, by the labels of the text; and the heap that all that is made on. [`known_of`] takes what the text states,
//! the outcomes of branches and what instructions make, and if asked what may be so of counters; of these it finds what all ways to a block bring along.
//!
//! Sums: `sum` (affine expressions), `bound`, `search` (facts that add up to one). Text: `edge` (successors, uses),
//! `definition` and `learned` (what instructions make), `live`, `fact` (what the text states). Over blocks: `keep`
//! (what holds at each block's start), `guess` and `balance` (what may hold of phis; dominators). `heap`: memory.
#![tactic(auto)]

mod balance;
mod bound;
mod definition;
mod edge;
mod fact;
mod guess;
mod heap;
mod keep;
mod learned;
mod live;
mod search;
mod sum;

pub use bound::{greatest, greatest_apart, greatest_number, greatest_shown};
pub use definition::{Equation, definition_of, moved, moved_before, sum_before, value_of};
pub use edge::{
    Edge, Way, block_at, block_numbered, defines, definition_in, edges_of, is_phi, is_used_beside,
    last_of, phi_value, register_of, value_from,
};
pub use fact::{Facts, has_many_instructions};
pub use guess::{Place, Rise, dominators_of, is_above, rise_of};
pub use heap::Heap;
pub use keep::{Extra, Known, MOST_BLOCKS, known_of, names_made, names_own};
pub use learned::{facts_of, most_before};
pub use live::Lives;
pub use search::{lines_between, times_for};
pub use sum::Sum;
