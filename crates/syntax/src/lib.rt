//! The syntax tree of a module: plain data, with names as the text spells them and a line beside each part.
//!
//! The reader makes it and the printer writes it; the layers above resolve its names. Lines are counted from 1.
#![tactic(auto)]

mod annotation;
mod instruction;
mod module;
mod names;
mod operator;
mod terminator;

pub use annotation::{
    BlockNotes, Budget, Form, FunctionNotes, Inequality, Left, Measure, Pending, Relation, Term,
    Zone,
};
pub use instruction::{Address, AllocaSize, Argument, Instruction, Operand, Phi, PhiEntry, Step};
pub use lists::{Name, Seq};
pub use module::{Block, Function, Global, Module, Parameter, ResultType};
pub use names::register_names;
pub use operator::{BinaryOperator, Conversion, Mode, Predicate, Width};
pub use terminator::{Case, Ending, Terminator};
