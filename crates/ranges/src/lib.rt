//! What is known of the registers at each place of a program, and that it shows what the program owes: the facts of the verifier.
//!
//! | Number | What is shown |
//! |---|---|
//! | 501 | an index of `getelementptr` lies in its object |
//! | 502 | a divisor is not 0, and no division is of the least value by -1 |
//! | 503 | an `nsw` operation does not overflow |
//! | 504 | an amount of a shift is below the width |
//! | 505 | a block's `keeps`, on each edge to it |
//! | 506 | a callee's `requires`, at a call |
//! | 507 | a function's `ensures`, at each `ret` |
//! | 508 | `shows`, where it stands |
//!
//! - `check`: the rules over a program. `walk`: a block, step by step. `judge`: what is not shown. `past`,
//!   `unverified`: faults.
//! - `learn`, `edge`: what instructions and edges make known. `know`, `form`: facts of sums. `table`: what is kept of
//!   it. `laws`.
#![tactic(auto)]

mod check;
mod edge;
mod form;
mod judge;
mod know;
pub mod laws;
mod learn;
mod past;
mod table;
mod unverified;
mod walk;

pub use check::check_ranges;
pub use edge::{Comparison, EdgeSums, edges_out};
pub use form::sum_form;
pub use know::{is_met, is_met_at, shows, shows_at};
pub use linear_shown::{Effort, FactBranches, FactCursor, Known, OutOfEffort};
pub use past::stands_before;
pub use ranges_owed::{
    Move, Obligation, Part, Sum, Way, argument_moves, call_moves, difference_of, inequalities_owed,
    operand_for, owed, owed_at_end, push_parts, result_moves,
};
pub use region_match::{Graph, Regions, Task};
pub use table::{BlockFacts, EdgeFacts, Facts, FunctionFacts};
pub use unverified::{Unanswered, Unverified};
pub use walk::{block_facts, start_facts, stated};
