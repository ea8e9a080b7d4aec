//! What an explanation is: what an accepted module could do without, faults, or no verdict.

use explain_facts::Finding;
use lists::Seq;

/// What a module's text comes to.
#[derive(Drop)]
pub enum Explanation {
    /// The verifier takes the module. The remarks say what it could do without, in lines that end with LF.
    Accepted {
        remarks: String,
    },
    /// The fault that the verifier names, and others of its phase in the order of their lines, those last that may follow from earlier ones.
    Refused {
        first: Finding,
        others: Seq<Finding>,
    },
    /// The effort that was granted is spent before a verdict.
    Undecided,
}
