//! The program that a module means, with each name resolved to what it names: plain data that the verifier judges
//! and the machine runs. Everything is an index; lines are counted from 1.
#![tactic(auto)]

mod annotation;
mod function;
mod identifier;
mod instruction;
mod width;

pub use annotation::{Budget, Inequality, Left, Measure, Pending, Zone};
pub use function::{Alloca, Block, Function, Global, Parameter, Program, RegisterKind};
pub use identifier::{AllocaId, BlockId, FunctionId, GlobalId, ObjectName, same_object};
pub use instruction::{
    Address, Argument, Case, Ending, Instruction, Operand, Phi, PhiEntry, Step, Terminator,
    entry_for, entry_from,
};
pub use linear::{Fact, Form, RegisterId, Term};
pub use syntax::{BinaryOperator, Conversion, Mode, Predicate, ResultType, Width};
pub use width::source_width;
