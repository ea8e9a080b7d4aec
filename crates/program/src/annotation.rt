//! Annotations with resolved names: inequalities, zones, pending zones, measures, budgets and what is left.

use crate::identifier::ObjectName;
use linear::{Form, RegisterId};
use syntax::{Mode, Seq};

/// `low` is at most `high`; `F >= G` stands here as `G <= F`.
#[derive(Drop)]
pub struct Inequality {
    pub line: u32,
    pub low: Form,
    pub high: Form,
}

/// The cells of an object from `low` to before `high`, and what they may be used for.
#[derive(Drop)]
pub struct Zone {
    pub line: u32,
    pub mode: Mode,
    pub object: ObjectName,
    pub low: Form,
    pub high: Form,
}

/// What children of a region that may still run may touch.
#[derive(Drop)]
pub struct Pending {
    pub region: RegisterId,
    pub zone: Zone,
}

/// What falls with each self call, and its greatest value.
#[derive(Drop)]
pub struct Measure {
    pub line: u32,
    pub form: Form,
    pub bound: u64,
}

/// What a call may use: self calls, and instructions of its own and of the other functions that it calls.
#[derive(Clone, Copy)]
pub struct Budget {
    pub line: u32,
    pub self_calls: u64,
    pub instructions: u64,
}

/// What may still be used from a block's start on.
#[derive(Drop)]
pub struct Left {
    pub line: u32,
    pub self_calls: Form,
    pub instructions: Form,
}
