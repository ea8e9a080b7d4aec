//! The syntax tree of annotations: forms (affine expressions), inequalities, zones, measures and budgets.

use crate::instruction::Address;
use crate::operator::Mode;
use lists::{Name, Seq};

/// A register times a number; the number is not 0.
#[derive(Drop)]
pub struct Term {
    pub register: Name,
    pub coefficient: i64,
}

/// A sum of registers times numbers, and a number. The terms rise by the bytes of their names; no number is -2^63.
#[derive(Drop)]
pub struct Form {
    pub terms: Seq<Term>,
    pub constant: i64,
}

/// `<=` or `>=`
#[derive(Clone, Copy)]
pub enum Relation {
    AtMost,
    AtLeast,
}

/// `F R F` of `requires`, `ensures`, `keeps` and `shows`.
#[derive(Drop)]
pub struct Inequality {
    pub line: u32,
    pub left: Form,
    pub relation: Relation,
    pub right: Form,
}

/// Cells of an object from `low` to before `high`: `O F F`.
#[derive(Drop)]
pub struct Zone {
    pub line: u32,
    pub mode: Mode,
    pub object: Address,
    pub low: Form,
    pub high: Form,
}

/// `pending %s MODE O F F`
#[derive(Drop)]
pub struct Pending {
    pub region: Name,
    pub zone: Zone,
}

/// `measure F max N`. Where it is left out it is `0 max 0` on the function's line.
#[derive(Drop)]
pub struct Measure {
    pub line: u32,
    pub form: Form,
    pub bound: u64,
}

/// `budget K S`: self calls and instructions. Where it is left out it is `0 0` on the function's line.
#[derive(Drop)]
pub struct Budget {
    pub line: u32,
    pub self_calls: u64,
    pub instructions: u64,
}

/// `left F F`: self calls and instructions. Where it is left out it is `0 0` on the label's line.
#[derive(Drop)]
pub struct Left {
    pub line: u32,
    pub self_calls: Form,
    pub instructions: Form,
}

/// The annotations of a function, each kind in the order of the text.
#[derive(Drop)]
pub struct FunctionNotes {
    pub requirements: Seq<Inequality>,
    pub guarantees: Seq<Inequality>,
    pub reads: Seq<Zone>,
    pub writes: Seq<Zone>,
    pub adds: Seq<Zone>,
    pub measure: Measure,
    pub budget: Budget,
}

/// The annotations at the head of a block, each kind in the order of the text.
#[derive(Drop)]
pub struct BlockNotes {
    pub keeps: Seq<Inequality>,
    pub pending: Seq<Pending>,
    pub left: Left,
    pub foot: Seq<Zone>,
}
