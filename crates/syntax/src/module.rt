//! The syntax tree of a module: globals, functions with their parameters, and blocks.

use crate::annotation::{BlockNotes, FunctionNotes};
use crate::instruction::{Phi, Step};
use crate::terminator::Ending;
use lists::{Name, Seq};

/// `@a = global [N x i64] zeroinitializer`
#[derive(Drop)]
pub struct Global {
    pub line: u32,
    pub name: Name,
    pub cells: u64,
}

/// `i64` or `void`
#[derive(Clone, Copy)]
pub enum ResultType {
    Number,
    Void,
}

/// A parameter, on the line of its `define`. A pointer's bytes are eight times its cells.
#[derive(Drop)]
pub enum Parameter {
    /// `i64 %x`
    Number { name: Name },
    /// `ptr noalias dereferenceable(B) %p`
    Pointer { name: Name, cells: u64 },
}

/// A label with all that stands up to the next one. A block without an ending is refused by the layers above.
#[derive(Drop)]
pub struct Block {
    pub line: u32,
    pub label: Name,
    pub notes: BlockNotes,
    pub phis: Seq<Phi>,
    pub steps: Seq<Step>,
    pub ending: Option<Ending>,
}

/// A function; its first block is the entry.
pub struct Function {
    pub line: u32,
    pub name: Name,
    pub result_type: ResultType,
    pub parameters: Seq<Parameter>,
    pub notes: FunctionNotes,
    pub blocks: Seq<Block>,
}

/// Written out, so that no crate above proves it anew.
impl Drop for Function {
    fn drop(self) {
        let Function {
            line: _,
            name: _,
            result_type: _,
            parameters: _,
            notes: _,
            blocks: _,
        } = self;
    }
}

/// A module as its text spells it.
#[derive(Drop)]
pub struct Module {
    pub globals: Seq<Global>,
    pub functions: Seq<Function>,
}
