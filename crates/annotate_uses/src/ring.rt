//! Loops that a counter leads round: what falls each time, and what a round needs (ranking function, loop bound).

use annotate_facts::{
    Edge, Known, Sum, block_at, greatest_apart, greatest_number, is_phi, last_of, moved,
    names_made, names_own, phi_value, value_from, value_of,
};
use syntax::{Function, Operand};

/// A loop, from the block at its head to the last one in the text from which an edge leads back.
pub struct Ring<'a> {
    pub head: usize,
    pub last: usize,
    /// What falls by `step` each time round.
    pub rank: Sum<'a>,
    pub step: i128,
    /// The least number that the rank has at the head.
    pub least: i128,
    /// What is held at the head for what the loops within do, and not counted in a round.
    pub reserve: Sum<'a>,
    /// Whether the head tests it, so that a round that has begun is one of those that the rank counts.
    pub is_tested_first: bool,
    /// The self calls and instructions of one time round, at most.
    pub calls: i128,
    pub instructions: i128,
}

/// Written out, so that each path that lets go of a loop is short.
impl Drop for Ring<'_> {
    fn drop(self) {
        let Ring {
            head: _,
            last: _,
            rank: _,
            step: _,
            least: _,
            reserve: _,
            is_tested_first: _,
            calls: _,
            instructions: _,
        } = self;
    }
}

impl<'a> Ring<'a> {
    pub fn has(&self, block: usize) -> bool {
        self.head <= block && block <= self.last
    }

    /// The loop with this reserve, whose rounds are still to be counted.
    pub fn with_reserve(&self, reserve: Sum<'a>) -> Ring<'a> {
        Ring {
            head: self.head,
            last: self.last,
            rank: self.rank.copy(),
            step: self.step,
            least: self.least,
            reserve,
            is_tested_first: self.is_tested_first,
            calls: 0,
            instructions: 0,
        }
    }

    /// Adds a round's cost to a sum as often as rounds are left.
    pub fn add_rounds(&self, sum: &mut Sum<'a>, cost: i128) {
        let over = cost.saturating_add(self.step).saturating_sub(1);
        let times = over.checked_div(self.step).unwrap_or(0);
        sum.add(&self.rank, times);
        sum.add_number(0i128.saturating_sub(times.saturating_mul(self.least)));
    }
}

/// Whether a sum names a register that a block of the loop defines, but for its head's phis.
pub fn names_inner(known: &Known<'_>, head: usize, last: usize, sum: &Sum<'_>) -> bool {
    for index in head..last.saturating_add(1) {
        if let Some(block) = block_at(known.function, index) {
            let is_named = if index == head {
                names_made(block, sum)
            } else {
                names_own(block, sum)
            };
            if is_named {
                return true;
            }
        }
    }
    false
}

/// Adds what a phi takes next so many times, by what its instruction makes of it.
fn add_next<'a>(known: &Known<'a>, fall: &mut Sum<'a>, value: &'a Operand, times: i128) {
    if let Operand::Register(next) = value {
        if let Some(sum) = value_of(known.heap, known.function, next.as_str()) {
            fall.add(&sum, times);
            return;
        }
    }
    fall.add_operand(value, times);
}

/// By how much a sum at the head falls along an edge that leads back to it.
fn fall_along<'a>(known: &Known<'a>, edge: Edge<'a>, rank: &Sum<'a>) -> Sum<'a> {
    let mut fall = Sum::number(known.heap, 0);
    if let (Some(head), Some(from)) = (
        block_at(known.function, edge.to),
        block_at(known.function, edge.from),
    ) {
        for (name, coefficient) in &rank.terms {
            if let Some(value) = phi_value(head.phis.as_slice(), name, &from.label) {
                fall.add_term(name, *coefficient);
                add_next(known, &mut fall, value, coefficient.saturating_neg());
            }
        }
    }
    fall
}

/// The least number that a sum may come to at a block, by the bounds of its registers.
pub fn least_of<'a>(known: &Known<'a>, block: usize, sum: &Sum<'a>) -> Option<i128> {
    let opposite = sum.times(-1);
    let facts = known.facts_at(block);
    match greatest_apart(facts.as_slice(), &opposite) {
        Some(most) => Some(0i128.saturating_sub(most)),
        None => None,
    }
}

/// By how much a sum at the head of a loop falls each time round at least: the same number on each edge that leads back, 1 or more.
pub fn fall_of<'a>(known: &Known<'a>, head: usize, rank: &Sum<'a>) -> Option<i128> {
    let mut found = None;
    for edge in &known.edges {
        if edge.to == head && edge.from >= head {
            match least_of(known, head, &fall_along(known, *edge, rank)) {
                Some(fall) if fall >= 1 && fall == found.unwrap_or(fall) => found = Some(fall),
                _ => return None,
            }
        }
    }
    found
}

/// What is at least 0 at the head, if this is so on an edge within the loop: where that leads back to the head, each phi in place of what it takes there.
fn rank_by<'a>(function: &'a Function, head: usize, edge: Edge<'a>, fact: &Sum<'a>) -> Sum<'a> {
    let mut rank = fact.copy();
    if edge.to != head {
        return rank;
    }
    if let (Some(to), Some(from)) = (block_at(function, head), block_at(function, edge.from)) {
        for phi in to.phis.as_slice() {
            if let Some(Operand::Register(next)) = value_from(phi, &from.label) {
                rank = rank.renamed(next.as_str(), phi.register.as_str());
            }
        }
    }
    rank
}

/// The least number that a rank has at the head where it falls by `step`.
fn least_at<'a>(known: &Known<'a>, head: usize, rank: &Sum<'a>, step: i128) -> i128 {
    let nothing = Sum::number(known.heap, 0);
    let lack = known.lack_of(head, rank, &nothing);
    0i128.saturating_sub(lack.unwrap_or(step))
}

/// The loop from a head to its last block, if a rank falls each time round.
fn ring_with<'a>(
    known: &Known<'a>,
    last: usize,
    edge: Edge<'a>,
    head: usize,
    rank: Sum<'a>,
) -> Option<Ring<'a>> {
    if names_inner(known, head, last, &rank) {
        return None;
    }
    let Some(step) = fall_of(known, head, &rank) else {
        return None;
    };
    let least = least_at(known, head, &rank, step);
    Some(Ring {
        head,
        last,
        rank,
        step,
        least,
        reserve: Sum::number(known.heap, 0),
        is_tested_first: edge.from == head,
        calls: 0,
        instructions: 0,
    })
}

/// A rank, where the greatest numbers that its registers may be take their place, but for those of the head's phis. None where there are none such.
fn rank_by_numbers<'a>(known: &Known<'a>, head: usize, rank: &Sum<'a>) -> Option<Sum<'a>> {
    let Some(block) = block_at(known.function, head) else {
        return None;
    };
    let facts = known.facts_at(head);
    let mut plain = Sum::number(known.heap, 0);
    let mut rest = rank.copy();
    for (name, coefficient) in &rank.terms {
        if is_phi(block.phis.as_slice(), name) {
            plain.add_term(name, *coefficient);
            rest.add_term(name, coefficient.saturating_neg());
        }
    }
    match greatest_apart(facts.as_slice(), &rest) {
        Some(most) => Some(plain.raised(most)),
        None => None,
    }
}

/// How far above its least number the rank of a loop is at most where the loop is entered, by what the head's phis take there.
fn most_at_start<'a>(known: &Known<'a>, ring: &Ring<'a>) -> Option<i128> {
    let facts = known.facts_at(ring.head);
    let mut all = None;
    for edge in &known.edges {
        if edge.to == ring.head && edge.from < ring.head {
            let start = along(known, *edge, &ring.rank);
            let Some(most) = greatest_number(facts.as_slice(), &start) else {
                return None;
            };
            let most = most.saturating_sub(ring.least);
            all = Some(most.max(all.unwrap_or(most)));
        }
    }
    all
}

/// A sum at the target of an edge, as it is along the edge.
pub fn along<'a>(known: &Known<'a>, edge: Edge<'a>, sum: &Sum<'a>) -> Sum<'a> {
    match (
        block_at(known.function, edge.to),
        block_at(known.function, edge.from),
    ) {
        (Some(to), Some(from)) => moved(known.heap, sum, &from.label, to.phis.as_slice()),
        _ => sum.copy(),
    }
}

/// Whether it is known how far the rank of a loop may be below 0 at its head.
fn is_bounded(known: &Known<'_>, ring: &Ring<'_>) -> bool {
    let nothing = Sum::number(known.heap, 0);
    known.lack_of(ring.head, &ring.rank, &nothing).is_some()
}

/// A loop, by numbers where it has fewer rounds so, or no more and it is sure that they do not fall below 0: of `%n-%i` from 1 on, which may be -1, `64-%i`
/// has fewer.
fn with_fewer<'a>(known: &Known<'a>, edge: Edge<'a>, ring: Ring<'a>) -> Ring<'a> {
    if ring.least >= 0 {
        return ring;
    }
    let Some(rank) = rank_by_numbers(known, ring.head, &ring.rank) else {
        return ring;
    };
    let Some(plain) = ring_with(known, ring.last, edge, ring.head, rank) else {
        return ring;
    };
    match (most_at_start(known, &plain), most_at_start(known, &ring)) {
        (Some(few), Some(many))
            if few < many
                || few == many && is_bounded(known, &plain) && !is_bounded(known, &ring) => plain,
        _ => ring,
    }
}

/// What falls each time round a loop by a fact on this edge within it.
fn ring_on<'a>(
    known: &Known<'a>,
    head: usize,
    last: usize,
    number: usize,
    edge: Edge<'a>,
) -> Option<Ring<'a>> {
    for fact in &known.sums_on(number) {
        let rank = rank_by(known.function, head, edge, fact);
        if let Some(ring) = ring_with(known, last, edge, head, rank) {
            return Some(with_fewer(known, edge, ring));
        }
    }
    None
}

/// What falls each time round the loop of this head; none where nothing is found.
pub fn ring_of<'a>(known: &Known<'a>, head: usize) -> Option<Ring<'a>> {
    let Some(last) = last_of(known.edges.as_slice(), head) else {
        return None;
    };
    match ring_among(known, head, last, true) {
        Some(ring) => Some(ring),
        None => ring_among(known, head, last, false),
    }
}

/// What falls each time round a loop, by a branch at its head or on an edge that leads back (`is_near`), or else by one anywhere else within.
fn ring_among<'a>(known: &Known<'a>, head: usize, last: usize, is_near: bool) -> Option<Ring<'a>> {
    for number in 0..known.edges.len() {
        let edge = known.edges[number];
        let is_inside = head <= edge.from
            && edge.from <= last
            && head <= edge.to
            && edge.to <= last;
        let is_asked = edge.from == head || edge.to == head;
        if is_inside && is_asked == is_near {
            let ring = ring_on(known, head, last, number, edge);
            if ring.is_some() {
                return ring;
            }
        }
    }
    None
}
