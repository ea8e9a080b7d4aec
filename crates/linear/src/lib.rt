//! Linear forms over the registers of a function, and how they are made.
#![tactic(auto)]

mod fault;
mod form;
pub mod laws;
mod make;
mod side;

pub use fault::FormFault;
pub use form::{Fact, Form, RegisterId, Term};
pub use side::{Side, coefficient, side_of};
