//! Why a module is refused, in words: each fault of the first phase that has one, with the line, the rule, what was to be shown and what is
//! known there; and of a module that is accepted what it could do without.
//!
//! Faults of words: what was found, and what could stand there. Faults of names, blocks and regions: where each name of the line is defined, what leads to
//! its block, and the region lines of its function. Faults of zones: what is touched, the zones that stand beside it, and lines to try.
//!
//! What is a fault is asked of the phases alone. [`explain`] promises that its first fault is the one that the verifier names.
//!
//! - `explaining`: the faults of a text (`explain`). `report`, `printing`: what is told. `accepted`: what could be left
//!   out.
//! - Words, names, blocks: `row`, `word`, `left_out`, `note`, `cause`, `table`. Values: `alloca`.
//! - Zones: `found`, `access`, `cover`, `passing`, `widen`, `zone_text`, `spot`. Lines to try: `tries`, `trial`.
#![tactic(auto)]

mod accepted;
mod access;
mod alloca;
mod cause;
mod cover;
mod explaining;
mod found;
mod left_out;
mod note;
mod passing;
mod printing;
mod report;
mod row;
mod spot;
mod table;
mod trial;
mod tries;
mod widen;
mod word;
mod zone_text;

pub use explain_facts::{Finding, line_at};
pub use explaining::explain;
pub use printing::told;
pub use report::Explanation;
