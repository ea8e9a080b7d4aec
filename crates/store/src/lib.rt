//! What every run of a module begins with and answers: the cells of its globals, by number and by name, what it asks of its arguments, and
//! what it comes to. The cells of allocas stand with the frames that own them.
#![tactic(auto)]

mod arguments;
mod memory;
mod outcome;
mod rows;
mod sums;

pub use arguments::unmet_requirement;
pub use memory::Memory;
pub use outcome::{Finished, RunFault};
pub use verifier::Verified;
