//! Where registers are used later on, so that a line about them may serve (liveness).

use crate::edge::{Edge, block_at, block_uses, defines, is_register, phi_takes};
use crate::heap::Heap;
use crate::sum::Sum;
use syntax::{Block, Form, Function, Inequality, Terminator, Zone};

/// Where a register is used later on.
#[derive(Drop)]
struct Life<'a> {
    name: &'a str,
    /// For each block whether it or a block behind it uses the register as it is where the block begins.
    at: Vec<bool>,
}

/// Where the registers of a function are used later on: found for each one when it is asked for, and kept.
#[derive(Drop)]
pub struct Lives<'a> {
    heap: &'a Heap,
    function: &'a Function,
    lives: Vec<Life<'a>>,
}

fn names(form: &Form, name: &str) -> bool {
    for term in form.terms.as_slice() {
        if term.register.as_str() == name {
            return true;
        }
    }
    false
}

fn any_names(inequalities: &[Inequality], name: &str) -> bool {
    for inequality in inequalities {
        if names(&inequality.left, name) || names(&inequality.right, name) {
            return true;
        }
    }
    false
}

fn zone_names(zone: &Zone, name: &str) -> bool {
    names(&zone.low, name) || names(&zone.high, name)
}

fn any_zone_names(zones: &[Zone], name: &str) -> bool {
    for zone in zones {
        if zone_names(zone, name) {
            return true;
        }
    }
    false
}

/// Whether the lines at a block's head name the register, but for the zones of a child.
fn head_names(block: &Block, name: &str) -> bool {
    let notes = &block.notes;
    for pending in notes.pending.as_slice() {
        if zone_names(&pending.zone, name) {
            return true;
        }
    }
    names(&notes.left.self_calls, name)
        || names(&notes.left.instructions, name)
        || any_names(notes.keeps.as_slice(), name)
}

/// Whether the function's own lines ask something about the register in all its blocks, or a zone of a child names it; what is pending of that later on is asked
/// in other blocks.
fn is_asked(function: &Function, name: &str) -> bool {
    let notes = &function.notes;
    for block in function.blocks.as_slice() {
        if any_zone_names(block.notes.foot.as_slice(), name) {
            return true;
        }
    }
    any_zone_names(notes.reads.as_slice(), name)
        || any_zone_names(notes.writes.as_slice(), name)
        || any_zone_names(notes.adds.as_slice(), name)
        || any_names(notes.guarantees.as_slice(), name)
        || names(&notes.measure.form, name)
}

/// Whether a line before an instruction or the end of a block names the register, or the end takes it.
fn steps_use(block: &Block, name: &str) -> bool {
    for step in block.steps.as_slice() {
        if any_names(step.shows.as_slice(), name) {
            return true;
        }
    }
    let Some(ending) = &block.ending else {
        return false;
    };
    let is_taken = match &ending.terminator {
        Terminator::Return { value: Some(value) } | Terminator::Switch { value, .. } => {
            is_register(value, name)
        }
        _ => false,
    };
    is_taken || any_names(ending.shows.as_slice(), name)
}

impl<'a> Lives<'a> {
    pub fn new(heap: &'a Heap, function: &'a Function) -> Lives<'a> {
        Lives {
            heap,
            function,
            lives: heap.list(),
        }
    }

    /// Whether the register is used behind an edge as it is before it.
    fn is_used_behind(&self, edge: Edge<'a>, at: &[bool], name: &str) -> bool {
        let (Some(from), Some(to)) = (
            block_at(self.function, edge.from),
            block_at(self.function, edge.to),
        ) else {
            return false;
        };
        let is_live = edge.to < at.len() && at[edge.to];
        is_live && !defines(to, name) || phi_takes(to.phis.as_slice(), name, &from.label)
    }

    /// For each block whether it uses the register itself.
    fn uses_of(&self, name: &str) -> Vec<bool> {
        let is_asked = is_asked(self.function, name);
        let mut at = self.heap.list();
        for block in self.function.blocks.as_slice() {
            let is_used = is_asked
                || block_uses(block, name)
                || steps_use(block, name)
                || head_names(block, name);
            self.heap.push(&mut at, is_used);
        }
        at
    }

    /// Goes along the edges, the last one first, to the blocks from which the register is used; whether one is new.
    fn spread(&self, edges: &[Edge<'a>], at: &mut [bool], name: &str) -> bool {
        let mut is_new = false;
        for number in (0..edges.len()).rev() {
            let edge = edges[number];
            if edge.from < at.len() && !at[edge.from] && self.is_used_behind(edge, at, name) {
                at[edge.from] = true;
                is_new = true;
            }
        }
        is_new
    }

    /// Where the register is used later on: round after round until nothing is new.
    fn find(&self, edges: &[Edge<'a>], name: &str) -> Vec<bool> {
        let mut at = self.uses_of(name);
        for _round in 0..self.function.blocks.len() {
            if !self.spread(edges, at.as_mut_slice(), name) {
                break;
            }
        }
        at
    }

    fn is_asked_for(&self, name: &str) -> bool {
        for life in &self.lives {
            if life.name == name {
                return true;
            }
        }
        false
    }

    /// Finds where the registers of a sum are used later on.
    pub fn ask(&mut self, edges: &[Edge<'a>], sum: &Sum<'a>) {
        for (name, _coefficient) in &sum.terms {
            if !self.is_asked_for(name) {
                let at = self.find(edges, name);
                self.heap.push(&mut self.lives, Life { name, at });
            }
        }
    }

    /// Whether all registers of a sum that was asked for are used from a block on.
    pub fn are_live(&self, block: usize, sum: &Sum<'a>) -> bool {
        for life in &self.lives {
            if sum.has(life.name) && !life.at.get(block).copied().unwrap_or(false) {
                return false;
            }
        }
        true
    }
}
