//! Why numbers and costs of a module are refused: what is known of numbers at a place, how far that is from showing what is to be shown there, and lines
//! that would mend it. Functions of a program beside the names of their text, how forms are spelled with them, and the lines of a text. What the budgets
//! of an accepted module have left over.
//!
//! - `finding`: one fault with what is said of it. `means`: memory and effort. `lines`, `scene`, `spelling`: text and
//!   names.
//! - Numbers: `unmet`, `number`, `gap`, `known`, `unknown`, `compare`, `silent`, `missing`. Lines to try: `tries`,
//!   `trial`.
//! - Costs: `cost`, `sums`, `left`, `rounds`, `missing_budget`, `budgets`.
#![tactic(auto)]

mod budgets;
mod compare;
mod cost;
mod finding;
mod gap;
mod known;
mod left;
mod lines;
mod means;
mod missing;
mod missing_budget;
mod number;
mod rounds;
mod scene;
mod silent;
mod spelling;
mod sums;
mod trial;
mod tries;
mod unknown;
mod unmet;

pub use budgets::push_budgets;
pub use cost::{cost_findings, told_cost_findings};
pub use finding::{Finding, Source};
pub use gap::{coefficient, is_against, raised, shortfall};
pub use known::{Known, fact_lines, lack_of};
pub use lines::{Put, line_at, with_line};
pub use means::Means;
pub use number::number_findings;
pub use scene::Scene;
pub use spelling::{plural, push_form};
pub use trial::{Matched, match_text, taken};
pub use tries::Trying;
