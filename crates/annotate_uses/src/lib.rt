//! What a text asks of numbers, the zones of cells that it touches, and what is left to be used where a block begins: zones and lines to be tried.
//!
//! Here is what is asked before instructions and along edges ([`Scope::goals`]), the cells that instructions touch ([`Scope::touched`]), and the zones that are
//! made of them: of children and functions that say nothing of what they touch ([`zones_from`]), of what the rounds of a loop may still touch at its head
//! ([`hulls_of`]), and of what is handed on from block to block ([`handed_of`]). [`needs_of`] reckons what is left, in self calls and instructions, from the ends
//! of a function back, and counts the rounds of loops by their counters; by that a function has its budget ([`Total`]).
//!
//! Zones: `cells`, `feet` (of children and functions), `hull` (of loops), `pending`. Numbers: `goal`. Costs: `left` (of
//! blocks), `ring` and `reserve` (of loops), `total` (budgets).
#![tactic(auto)]

mod cells;
mod feet;
mod goal;
mod hull;
mod left;
mod pending;
mod reserve;
mod ring;
mod total;

pub use cells::{Cells, firsts_of};
pub use feet::{Stand, has_no_zones, waits_for_callee, zones_from};
pub use goal::{Call, Scope, ends_of};
pub use hull::{Hull, hulls_of};
pub use left::{Need, given, needs_of, uses_of};
pub use pending::{Handed, handed_of};
pub use total::Total;
