//! Facts that follow from those that are known where a register is made, and may be of use in later blocks: between which numbers it lies, and what its call
//! says of it.

use crate::limits::{Limit, MetLimit, meet};
use annotate_facts::{
    Edge, Extra, Heap, Known, Sum, block_at, facts_of, greatest_number, is_used_beside,
    register_of, value_from,
};
use annotate_uses::Scope;
use syntax::{Block, Instruction, Phi};

/// The facts of a block's head that are looked at, and those of its end; the registers of them whose numbers are bounded.
const MOST_AT_HEAD: usize = 128;

const MOST_AT_END: usize = 256;

const MOST_REGISTERS: usize = 64;

/// The most facts of a function that are found.
const MOST_FOUND: usize = 512;

/// The greatest number that an operand may be, and that less than 0 it may be.
#[derive(Clone, Copy)]
struct Span {
    above: Option<i128>,
    below: Option<i128>,
}

impl Span {
    /// The span that has this one and another one, if there is one.
    fn joined(self, other: Option<Span>) -> Span {
        match other {
            Some(Span { above, below }) => Span {
                above: greater(above, self.above),
                below: greater(below, self.below),
            },
            None => self,
        }
    }
}

fn greater(one: Option<i128>, other: Option<i128>) -> Option<i128> {
    match (one, other) {
        (Some(one), Some(other)) => Some(one.max(other)),
        _ => None,
    }
}

/// Facts that follow in a function, while they are gathered.
#[derive(Drop)]
struct Finder<'w, 'a> {
    scope: Scope<'a>,
    known: &'w Known<'a>,
    /// For each block what is known at its end.
    ends: Vec<Vec<Sum<'a>>>,
    extras: Vec<Extra<'a>>,
    /// The limits that were met.
    met: Vec<MetLimit>,
}

fn span_of<'a>(facts: &[Sum<'a>], sum: &Sum<'a>) -> Span {
    Span {
        above: greatest_number(facts, sum),
        below: greatest_number(facts, &sum.times(-1)),
    }
}

/// That a register lies in a span.
fn facts_of_span<'a>(heap: &'a Heap, name: &'a str, span: Span) -> Vec<Sum<'a>> {
    let mut facts = heap.list();
    if let Some(most) = span.below {
        let own = Sum::of_register(heap, name, 1);
        heap.push(&mut facts, own.raised(most));
    }
    if let Some(most) = span.above {
        let own = Sum::of_register(heap, name, -1);
        heap.push(&mut facts, own.raised(most));
    }
    facts
}

impl<'a> Finder<'_, 'a> {
    /// Notes that a limit is met at a line.
    fn meet(&mut self, line: u32, limit: Limit) {
        meet(self.scope.heap, &mut self.met, line, limit);
    }

    fn push_extra(&mut self, block: usize, is_at_head: bool, fact: Sum<'a>) {
        if fact.is_form() && self.extras.len() < MOST_FOUND {
            let extra = Extra {
                block,
                is_at_head,
                fact,
            };
            self.scope.heap.push(&mut self.extras, extra);
        }
    }

    /// Tries that a register lies in a span.
    fn push_span(&mut self, block: usize, is_at_head: bool, name: &'a str, span: Span) {
        for fact in facts_of_span(self.scope.heap, name, span) {
            self.push_extra(block, is_at_head, fact);
        }
    }

    /// Adds to facts between which numbers a register lies.
    fn bound(&self, facts: &mut Vec<Sum<'a>>, name: &'a str) -> Span {
        let heap = self.scope.heap;
        let span = span_of(facts.as_slice(), &Sum::of_register(heap, name, 1));
        for fact in facts_of_span(heap, name, span) {
            heap.push(facts, fact);
        }
        span
    }

    /// The registers of facts of the block of this line, each once.
    fn registers_in(&mut self, line: u32, facts: &[Sum<'a>]) -> Sum<'a> {
        let mut all = Sum::number(self.scope.heap, 0);
        for fact in facts {
            for (name, _coefficient) in &fact.terms {
                let is_new = !all.has(name);
                if is_new && all.terms.len() < MOST_REGISTERS {
                    all.add_term(name, 1);
                } else if is_new {
                    self.meet(line, Limit::AtEnds);
                }
            }
        }
        all
    }

    /// What is known where the block of this line begins, with the bounds of its registers.
    fn facts_at(&mut self, line: u32, index: usize) -> Vec<Sum<'a>> {
        let mut facts = self.known.facts_at(index);
        if facts.len() > MOST_AT_HEAD {
            self.meet(line, Limit::AtEnds);
            facts.truncate(MOST_AT_HEAD);
        }
        let registers = self.registers_in(line, facts.as_slice());
        for (name, _coefficient) in &registers.terms {
            self.bound(&mut facts, name);
        }
        facts
    }

    /// Adds what an instruction makes known.
    fn learn(&mut self, facts: &mut Vec<Sum<'a>>, index: usize, instruction: &'a Instruction) {
        let heap = self.scope.heap;
        if let Some(call) = self.scope.call_of(instruction) {
            for inequality in call.callee.notes.guarantees.as_slice() {
                let fact = call.said(inequality);
                self.push_extra(index, false, fact.copy());
                heap.push(facts, fact);
            }
        }
        if let Some(name) = register_of(instruction) {
            self.learn_register(facts, index, name, instruction);
        }
    }

    /// Adds what it makes known of its register.
    fn learn_register(
        &mut self,
        facts: &mut Vec<Sum<'a>>,
        index: usize,
        name: &'a str,
        instruction: &'a Instruction,
    ) {
        for fact in facts_of(self.scope.heap, name, instruction) {
            self.scope.heap.push(facts, fact);
        }
        let span = self.bound(facts, name);
        if is_used_beside(self.scope.function, index, name) {
            self.push_span(index, false, name, span);
        }
    }

    fn add_end(&mut self, index: usize, block: &'a Block) {
        let mut facts = self.facts_at(block.line, index);
        for step in block.steps.as_slice() {
            if facts.len() < MOST_AT_END {
                self.learn(&mut facts, index, &step.instruction);
            } else {
                self.meet(block.line, Limit::AtEnds);
            }
        }
        self.scope.heap.push(&mut self.ends, facts);
    }

    /// What is known along an edge.
    fn facts_along(&self, number: usize, edge: Edge<'a>) -> Vec<Sum<'a>> {
        let mut facts = self.known.sums_on(number);
        if let Some(end) = self.ends.get(edge.from) {
            for fact in end {
                self.scope.heap.push(&mut facts, fact.copy());
            }
        }
        facts
    }

    /// Between which numbers what a phi takes along an edge lies, by what is known there; none where it takes nothing.
    fn span_along(&self, number: usize, edge: Edge<'a>, phi: &'a Phi) -> Option<Span> {
        let Some(from) = block_at(self.scope.function, edge.from) else {
            return None;
        };
        let Some(value) = value_from(phi, &from.label) else {
            return None;
        };
        let facts = self.facts_along(number, edge);
        let taken = Sum::of_operand(self.scope.heap, value, 1);
        Some(span_of(facts.as_slice(), &taken))
    }

    /// Between which numbers a phi lies, along whichever edge the run comes; none where that is not known of one edge.
    fn span_of_phi(&self, index: usize, phi: &'a Phi) -> Option<Span> {
        let mut all: Option<Span> = None;
        for (number, edge) in self.known.edges.iter().enumerate() {
            if edge.to == index {
                let Some(span) = self.span_along(number, *edge, phi) else {
                    return None;
                };
                all = Some(span.joined(all));
            }
        }
        all
    }

    fn add_phis(&mut self, index: usize, phis: &'a [Phi]) {
        for phi in phis {
            if let Some(span) = self.span_of_phi(index, phi) {
                self.push_span(index, true, phi.register.as_str(), span);
            }
        }
    }
}

/// What is known at the ends of the blocks, and the facts that are found there.
fn finder_of<'w, 'a>(scope: Scope<'a>, known: &'w Known<'a>) -> Finder<'w, 'a> {
    let mut finder = Finder {
        scope,
        known,
        ends: scope.heap.list(),
        extras: scope.heap.list(),
        met: scope.heap.list(),
    };
    for (index, block) in scope.function.blocks.as_slice().iter().enumerate() {
        finder.add_end(index, block);
    }
    finder
}

/// Facts that follow from what is known at the blocks, or may be so, and the limits that were met.
pub fn derived<'w, 'a>(scope: Scope<'a>, known: &'w Known<'a>) -> (Vec<Extra<'a>>, Vec<MetLimit>) {
    let mut finder = finder_of(scope, known);
    for (index, block) in scope.function.blocks.as_slice().iter().enumerate() {
        finder.add_phis(index, block.phis.as_slice());
    }
    if finder.extras.len() >= MOST_FOUND {
        finder.meet(scope.function.line, Limit::Derived);
    }
    let Finder { extras, met, .. } = finder;
    (extras, met)
}

/// For each block what is known at its end, and the limits that were met.
pub fn ends_of<'w, 'a>(
    scope: Scope<'a>,
    known: &'w Known<'a>,
) -> (Vec<Vec<Sum<'a>>>, Vec<MetLimit>) {
    let Finder { ends, met, .. } = finder_of(scope, known);
    (ends, met)
}
