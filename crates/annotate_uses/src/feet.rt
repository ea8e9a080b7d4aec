//! Zones of children and functions that state none, by the cells that their instructions touch (effect inference).

use crate::cells::{Cells, is_same_object};
use crate::goal::Scope;
use crate::hull::zone_of;
use annotate_facts::{Place, Sum, is_above, value_of};
use syntax::{Block, Function, Instruction, Mode, Zone};

/// How often a register of an end is replaced.
const MOST_STEPS: usize = 16;

/// Where zones stand, and what is known at the ends of blocks.
#[derive(Clone, Copy)]
pub struct Stand<'w, 'a> {
    pub scope: Scope<'a>,
    /// For each block the facts at its end.
    pub ends: &'w [Vec<Sum<'a>>],
    pub place: Place<'w, 'a>,
}

/// Whether a sum is less than another one, or there is no other one.
fn is_closer<'a>(sum: &Sum<'a>, other: &Option<Sum<'a>>) -> bool {
    match other {
        Some(other) => matches!(sum.apart_from(other), Some(over) if over < 0),
        None => true,
    }
}

/// The zones of one place, while they are gathered.
#[derive(Drop)]
struct Finder<'w, 'a> {
    stand: Stand<'w, 'a>,
    touched: Vec<Cells<'a>>,
}

impl<'a> Stand<'_, 'a> {
    /// A register of a sum that has no value where the zones stand.
    fn unknown_in(&self, sum: &Sum<'a>) -> Option<&'a str> {
        for (name, _coefficient) in &sum.terms {
            if !self.place.has_value(name) {
                return Some(*name);
            }
        }
        None
    }

    /// How little is known of a sum: first its registers that have no value there, then whether it is but a number.
    fn rank_of(&self, sum: &Sum<'a>) -> usize {
        let mut rank = if sum.terms.is_empty() { 1usize } else { 0 };
        for (name, _coefficient) in &sum.terms {
            if !self.place.has_value(name) {
                rank = rank.saturating_add(2);
            }
        }
        rank
    }

    /// No less than a sum, without this register, by the fact that leaves the best one: of that the least is known, and of as little the closest.
    fn without(&self, facts: &[Sum<'a>], sum: &Sum<'a>, name: &'a str) -> Option<Sum<'a>> {
        let mut best: Option<Sum<'a>> = None;
        let mut least = usize::MAX;
        for fact in facts {
            if let Some(rest) = sum.most_without(name, fact) {
                let rank = self.rank_of(&rest);
                if rank < least || rank == least && is_closer(&rest, &best) {
                    best = Some(rest);
                    least = rank;
                }
            }
        }
        best
    }

    /// No less than a sum, by registers that have their values where the zones stand; none where none is found.
    fn most_of(&self, facts: &[Sum<'a>], sum: &Sum<'a>) -> Option<Sum<'a>> {
        let mut most = sum.copy();
        for _step in 0..MOST_STEPS {
            let Some(name) = self.unknown_in(&most) else {
                return if most.is_form() { Some(most) } else { None };
            };
            if let Some(value) = value_of(self.scope.heap, self.scope.function, name) {
                most.put(name, &value);
            } else {
                let Some(rest) = self.without(facts, &most, name) else {
                    return None;
                };
                most = rest;
            }
        }
        None
    }

    /// The cells as they are seen where the zones stand: all of the object, where an end is not known there.
    fn seen(&self, facts: &[Sum<'a>], cells: &Cells<'a>) -> Option<Cells<'a>> {
        let heap = self.scope.heap;
        if let (Some(below), Some(high)) = (
            self.most_of(facts, &cells.low.times(-1)),
            self.most_of(facts, &cells.high),
        ) {
            return Some(cells.between(below.times(-1), high));
        }
        match self.scope.cells_of(cells.object) {
            Some(count) => {
                let end = Sum::number(heap, i128::from(count));
                Some(cells.between(Sum::number(heap, 0), end))
            }
            None => None,
        }
    }
}

impl<'a> Cells<'a> {
    /// The cells of the same object from one to before another.
    fn between(&self, low: Sum<'a>, high: Sum<'a>) -> Cells<'a> {
        Cells {
            mode: self.mode,
            object: self.object,
            low,
            high,
        }
    }

    /// Whether others are of the same object and touched in a way that covers these.
    fn is_like(&self, other: &Cells<'a>) -> bool {
        is_same_object(self.object, other.object)
            && (self.mode == other.mode || self.mode == Mode::Writes && other.mode == Mode::Reads)
    }

    /// Takes others in that are not apart from these; whether they are not.
    fn widen(&mut self, other: &Cells<'a>) -> bool {
        let (Some(low), Some(high)) = (
            self.low.apart_from(&other.low),
            self.high.apart_from(&other.high),
        ) else {
            return false;
        };
        if self.mode != other.mode && (low > 0 || high < 0) {
            return false;
        }
        if low > 0 {
            self.low = other.low.copy();
        }
        if high < 0 {
            self.high = other.high.copy();
        }
        true
    }

    /// Takes others in that end where these begin, or begin where these end; whether they do.
    fn extend(&mut self, other: &Cells<'a>) -> bool {
        if matches!(self.high.apart_from(&other.low), Some(0)) {
            self.high = other.high.copy();
            return true;
        }
        let is_behind = matches!(self.low.apart_from(&other.high), Some(0));
        if is_behind {
            self.low = other.low.copy();
        }
        is_behind
    }

    /// Takes others in, where both are next to each other; whether they are.
    fn take_in(&mut self, other: &Cells<'a>) -> bool {
        self.is_like(other) && (self.widen(other) || self.mode == other.mode && self.extend(other))
    }
}

impl<'a> Finder<'_, 'a> {
    fn push(&mut self, cells: Cells<'a>) {
        for other in &mut self.touched {
            if other.take_in(&cells) {
                return;
            }
        }
        self.stand.scope.heap.push(&mut self.touched, cells);
    }

    /// Adds the cells of this mode that an instruction touches.
    fn push_touched(
        &mut self,
        index: usize,
        block: &'a Block,
        instruction: &'a Instruction,
        mode: Mode,
    ) {
        let stand = self.stand;
        let Some(facts) = stand.ends.get(index) else {
            return;
        };
        let is_function = stand.place.block == 0;
        for cells in &stand.scope.touched(block.steps.as_slice(), instruction) {
            if cells.mode == mode && !(is_function && cells.is_own(stand.scope.function)) {
                if let Some(seen) = stand.seen(facts.as_slice(), cells) {
                    self.push(seen);
                }
            }
        }
    }

    /// Adds the cells of this mode that the block of the place and all blocks that it dominates touch.
    fn push_all(&mut self, mode: Mode) {
        let stand = self.stand;
        for (index, block) in stand.scope.function.blocks.as_slice().iter().enumerate() {
            if is_above(stand.place.above, stand.place.block, index) {
                for step in block.steps.as_slice() {
                    self.push_touched(index, block, &step.instruction, mode);
                }
            }
        }
    }
}

/// The zones of what is touched from a place on: those that write first, since they cover what is read.
pub fn zones_from<'w, 'a>(stand: Stand<'w, 'a>) -> Vec<Zone> {
    let heap = stand.scope.heap;
    let mut finder = Finder {
        stand,
        touched: heap.list(),
    };
    for mode in [Mode::Writes, Mode::Adds, Mode::Reads] {
        finder.push_all(mode);
    }
    let mut zones = heap.list();
    for cells in &finder.touched {
        heap.push(&mut zones, zone_of(heap, cells));
    }
    zones
}

/// Whether a function says nothing of what it touches.
pub fn has_no_zones(function: &Function) -> bool {
    let notes = &function.notes;
    notes.reads.is_empty() && notes.writes.is_empty() && notes.adds.is_empty()
}

/// Whether a function touches something itself or by calls.
fn touches(function: &Function) -> bool {
    for block in function.blocks.as_slice() {
        for step in block.steps.as_slice() {
            let is_touch = match &step.instruction {
                Instruction::Call { callee, .. } => !callee.is_same(&function.name),
                Instruction::Load { .. }
                | Instruction::Store { .. }
                | Instruction::AtomicAdd { .. }
                | Instruction::StoreZeros { .. } => true,
                _ => false,
            };
            if is_touch {
                return true;
            }
        }
    }
    false
}

/// Whether an instruction calls another function of which it is not told yet what it touches.
fn calls_untold<'a>(scope: Scope<'a>, instruction: &'a Instruction) -> bool {
    match scope.call_of(instruction) {
        Some(call) => {
            !call.callee.name.is_same(&scope.function.name)
                && has_no_zones(call.callee)
                && touches(call.callee)
        }
        None => false,
    }
}

/// Whether a function calls another one of which it is not told yet what it touches.
pub fn waits_for_callee(scope: Scope<'_>) -> bool {
    for block in scope.function.blocks.as_slice() {
        for step in block.steps.as_slice() {
            if calls_untold(scope, &step.instruction) {
                return true;
            }
        }
    }
    false
}
