//! Globals, parameters, kinds of registers (types), allocas, blocks, functions, and the whole program.

use crate::annotation::{Budget, Inequality, Left, Measure, Pending, Zone};
use crate::identifier::FunctionId;
use crate::instruction::{Ending, Phi, Step};
use linear::RegisterId;
use syntax::{Name, ResultType, Seq, Width};

/// A global array; its cells begin at 0.
#[derive(Drop)]
pub struct Global {
    pub line: u32,
    pub name: Name,
    pub cells: u64,
}

/// A parameter: an `i64`, or a whole object of at least so many cells.
#[derive(Clone, Copy)]
pub enum Parameter {
    Number,
    Pointer { cells: u64 },
}

/// What a register holds.
#[derive(Clone, Copy)]
pub enum RegisterKind {
    Number(Width),
    /// `i1`
    Truth,
    /// A whole object: a pointer parameter or an `alloca`.
    Object,
    /// The result of a `getelementptr`.
    Element,
    /// A sync region.
    Region,
}

/// An array of a frame; its cells begin undefined (LLVM Language Reference, "alloca").
#[derive(Clone, Copy)]
pub struct Alloca {
    pub line: u32,
    pub register: RegisterId,
    pub cells: u64,
}

/// A block with its annotations. A block without an ending is refused by the layer of the graph.
#[derive(Drop)]
pub struct Block {
    pub line: u32,
    pub keeps: Seq<Inequality>,
    pub pending: Seq<Pending>,
    pub left: Left,
    pub foot: Seq<Zone>,
    pub phis: Seq<Phi>,
    pub steps: Seq<Step>,
    pub ending: Option<Ending>,
}

/// A function with its annotations. The parameters are the registers from 0 on, in their order; the other
/// registers follow in the order of the text. In `guarantees` the register behind the last one is the result.
pub struct Function {
    pub line: u32,
    pub name: Name,
    pub result_type: ResultType,
    pub parameters: Seq<Parameter>,
    pub registers: Seq<RegisterKind>,
    pub allocas: Seq<Alloca>,
    pub requirements: Seq<Inequality>,
    pub guarantees: Seq<Inequality>,
    /// `reads`, then `writes`, then `adds`, each in the order of the text.
    pub zones: Seq<Zone>,
    pub measure: Measure,
    pub budget: Budget,
    pub blocks: Seq<Block>,
}

/// Written out, so that no crate above proves it anew.
impl Drop for Function {
    fn drop(self) {
        let Function {
            line: _,
            name: _,
            result_type: _,
            parameters: _,
            registers: _,
            allocas: _,
            requirements: _,
            guarantees: _,
            zones: _,
            measure: _,
            budget: _,
            blocks: _,
        } = self;
    }
}

/// A whole module. The run begins at `main`.
pub struct Program {
    pub globals: Seq<Global>,
    pub functions: Seq<Function>,
    pub main: FunctionId,
}

impl Drop for Program {
    fn drop(self) {
        let Program {
            globals: _,
            functions: _,
            main: _,
        } = self;
    }
}
