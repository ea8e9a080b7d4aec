//! Why a phase refuses a module: a rule that it breaks and the line, or want of memory; and which rule is named where several
//! are broken. Every phase answers a [`Refused`], under a name of its own. `rule` has the numbers of the rules.
#![tactic(auto)]

mod broken;
mod refused;
pub mod rule;

pub use broken::{Broken, lower};
pub use refused::Refused;
