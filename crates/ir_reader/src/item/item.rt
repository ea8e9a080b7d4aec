//! What a line of a text says: a global, a function's head, a label, an instruction or an annotation (syntax node).

use ir_annotation::Annotation;
use lists::{Name, Seq};
use syntax::{Global, Instruction, Parameter, Phi, ResultType, Terminator};

/// What a line of the text says. Lines that are blank or hold only a comment say nothing.
#[derive(Drop)]
pub enum Item {
    Global(Global),
    /// `define T @f(..) {`
    Define {
        name: Name,
        result_type: ResultType,
        parameters: Seq<Parameter>,
    },
    /// `name:`
    Label(Name),
    Phi(Phi),
    Instruction(Instruction),
    Terminator(Terminator),
    /// `}`
    Close,
    /// `;! ..`
    Annotation(Annotation),
}
