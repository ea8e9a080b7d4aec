//! What a block needs in self calls and instructions, with what is left behind it (backward cost analysis).

use crate::reserve::reserves_of;
use crate::ring::{Ring, along, fall_of, names_inner, ring_of};
use annotate_facts::{
    Edge, Heap, Known, MOST_BLOCKS, Sum, Way, block_at, greatest, most_before, moved,
};
use lists::Name;
use syntax::{Block, Function, Instruction, Phi};

/// How often one goes round a loop until what is needed at its head is found.
const MOST_TURNS: usize = 4;

/// Self calls and instructions.
pub struct Need<'a> {
    pub calls: Sum<'a>,
    pub instructions: Sum<'a>,
}

/// Written out, so that each path that lets go of a need is short.
impl Drop for Need<'_> {
    fn drop(self) {
        let Need {
            calls: _,
            instructions: _,
        } = self;
    }
}

/// The needs of a function's blocks, while they are found.
#[derive(Drop)]
struct Finder<'w, 'a> {
    known: &'w Known<'a>,
    /// The names and the greatest costs of functions.
    costs: &'w [(&'a str, u128)],
    /// The loops whose rounds are counted.
    rings: &'w [Ring<'a>],
    lefts: Vec<Option<Need<'a>>>,
}

/// What is needed behind a loop, at its head.
#[derive(Drop)]
struct Exits<'a> {
    need: Need<'a>,
    /// Whether the rounds that the rank counts cover what is done before.
    is_covered: bool,
}

/// What a call of another function costs at most.
fn cost_of(costs: &[(&str, u128)], callee: &str) -> u128 {
    for (name, cost) in costs {
        if *name == callee {
            return *cost;
        }
    }
    0
}

/// What the instructions of a block use, and its terminator.
pub fn uses_of<'a>(
    heap: &'a Heap,
    function: &Function,
    costs: &[(&'a str, u128)],
    block: &Block,
) -> Need<'a> {
    let mut need = Need::none(heap);
    need.instructions.add_number(1);
    for step in block.steps.as_slice() {
        need.instructions.add_number(1);
        if let Instruction::Call { callee, .. } = &step.instruction {
            if callee.is_same(&function.name) {
                need.calls.add_number(1);
            } else {
                let cost = cost_of(costs, callee.as_str());
                let cost = i128::try_from(cost).unwrap_or(i128::MAX);
                need.instructions.add_number(cost);
            }
        }
    }
    need
}

impl<'a> Need<'a> {
    fn none(heap: &'a Heap) -> Need<'a> {
        Need {
            calls: Sum::number(heap, 0),
            instructions: Sum::number(heap, 0),
        }
    }

    fn copy(&self) -> Need<'a> {
        Need {
            calls: self.calls.copy(),
            instructions: self.instructions.copy(),
        }
    }

    fn is_form(&self) -> bool {
        self.calls.is_form() && self.instructions.is_form()
    }

    /// Adds another need so many times.
    pub fn add(&mut self, other: &Need<'a>, times: i128) {
        self.calls.add(&other.calls, times);
        self.instructions.add(&other.instructions, times);
    }

    /// What a need is along an edge to a block with these phis, from one of this label.
    pub fn moved(&self, heap: &'a Heap, label: &Name, phis: &'a [Phi]) -> Need<'a> {
        Need {
            calls: moved(heap, &self.calls, label, phis),
            instructions: moved(heap, &self.instructions, label, phis),
        }
    }

    /// Joins what is needed along one more edge to what is needed along those before: at a detach that of both targets together, else of that which needs most,
    /// as far as that is known at the block.
    fn joined(
        self,
        known: &Known<'a>,
        block: usize,
        way: Way<'a>,
        all: Option<Need<'a>>,
    ) -> Need<'a> {
        match all {
            None => self,
            Some(all) if matches!(way, Way::Continued(_)) => Need {
                calls: all.calls.with(&self.calls, 1),
                instructions: all.instructions.with(&self.instructions, 1),
            },
            Some(all) => Need {
                calls: known.greater(block, &all.calls, &self.calls),
                instructions: known.greater(block, &all.instructions, &self.instructions),
            },
        }
    }

    /// Whether it names a register that a block of the loop defines, but for its head's phis.
    fn names_inner(&self, known: &Known<'a>, ring: &Ring<'a>) -> bool {
        names_inner(known, ring.head, ring.last, &self.calls)
            || names_inner(known, ring.head, ring.last, &self.instructions)
    }
}

impl<'a> Finder<'_, 'a> {
    /// What the target of the edge of this number needs, at the start of the block where the edge begins: what that block's instructions define is replaced by
    /// what it is made of, or by what it is at most. None where nothing says that.
    fn behind(&self, number: usize, edge: Edge<'a>) -> Option<Need<'a>> {
        let known = self.known;
        let (Some(from), Some(Some(left))) = (
            block_at(known.function, edge.from),
            self.lefts.get(edge.to),
        ) else {
            return None;
        };
        let calls = along(known, edge, &left.calls);
        let instructions = along(known, edge, &left.instructions);
        let steps = from.steps.as_slice();
        let facts = known.sums_on(number);
        match (
            most_before(known.heap, &calls, steps, facts.as_slice()),
            most_before(known.heap, &instructions, steps, facts.as_slice()),
        ) {
            (Some(calls), Some(instructions)) => Some(Need {
                calls,
                instructions,
            }),
            _ => None,
        }
    }

    /// What is needed behind all edges of a block; none where it is not known.
    fn join_all(&self, block: usize) -> Option<Need<'a>> {
        let mut all = None;
        for (number, edge) in self.known.edges.iter().enumerate() {
            if edge.from == block {
                let Some(next) = self.behind(number, *edge) else {
                    return None;
                };
                all = Some(next.joined(self.known, block, edge.way, all));
            }
        }
        Some(all.unwrap_or(Need::none(self.known.heap)))
    }

    /// What is needed behind an edge out of a loop, at its head; none where it is not known there.
    fn behind_exit(&self, ring: &Ring<'a>, number: usize, edge: Edge<'a>) -> Option<Need<'a>> {
        match self.behind(number, edge) {
            Some(next) if edge.from == ring.head || !next.names_inner(self.known, ring) => {
                Some(next)
            }
            _ => None,
        }
    }

    /// What is needed behind all edges out of a loop, at its head, and whether the rounds that the rank counts cover what is done before; none where it is not
    /// known there.
    fn join_exits(&self, ring: &Ring<'a>) -> Option<Exits<'a>> {
        let mut all = None;
        let mut is_covered = true;
        for (number, edge) in self.known.edges.iter().enumerate() {
            if ring.has(edge.from) && !ring.has(edge.to) {
                let Some(next) = self.behind_exit(ring, number, *edge) else {
                    return None;
                };
                all = Some(next.joined(self.known, ring.head, edge.way, all));
                is_covered = is_covered && edge.from == ring.head;
            }
        }
        Some(Exits {
            need: all.unwrap_or(Need::none(self.known.heap)),
            is_covered: is_covered || ring.is_tested_first,
        })
    }

    /// Adds what the instructions of a block do, and its terminator.
    fn add_steps(&self, need: &mut Need<'a>, block: &Block) {
        need.add(
            &uses_of(self.known.heap, self.known.function, self.costs, block),
            1,
        );
    }

    /// What each block needs by now, but for those of a loop, and this at the loop's head.
    fn lefts_around(&self, ring: &Ring<'a>, need: &Need<'a>) -> Vec<Option<Need<'a>>> {
        let heap = self.known.heap;
        let mut lefts = heap.list();
        for (block, left) in self.lefts.iter().enumerate() {
            let left = match left {
                _ if block == ring.head => Some(need.copy()),
                Some(left) if !ring.has(block) => Some(left.copy()),
                _ => None,
            };
            heap.push(&mut lefts, left);
        }
        lefts
    }

    /// What is needed at the head of a loop for one round, if this is needed once it is done.
    fn need_of_round(&self, ring: &Ring<'a>, head: &'a Block, need: &Need<'a>) -> Option<Need<'a>> {
        let mut finder = Finder {
            known: self.known,
            costs: self.costs,
            rings: self.rings,
            lefts: self.lefts_around(ring, need),
        };
        finder.count();
        finder.need_behind(ring.head, head)
    }

    /// How much a need at the head of a loop lacks to be no less than one round needs and this once more.
    fn lack_of(&self, ring: &Ring<'a>, head: &'a Block, need: &Need<'a>) -> Option<(i128, i128)> {
        let known = self.known;
        let Some(next) = self.need_of_round(ring, head, need) else {
            return None;
        };
        let calls = known.lack_of(ring.head, &need.calls, &next.calls);
        let instructions = known.lack_of(ring.head, &need.instructions, &next.instructions);
        match (calls, instructions) {
            (Some(calls), Some(instructions)) => Some((calls, instructions)),
            _ => None,
        }
    }

    /// What is needed at the head of a loop where what is needed behind it falls from round to round by what a round does, so that one round needs no more.
    fn need_that_falls(&self, ring: &Ring<'a>, head: &'a Block) -> Option<Need<'a>> {
        let Some(exits) = self.join_exits(ring) else {
            return None;
        };
        if fall_of(self.known, ring.head, &exits.need.instructions).is_none() {
            return None;
        }
        let mut need = exits.need.copy();
        for _round in 0..MOST_TURNS {
            match self.lack_of(ring, head, &need) {
                Some((0, 0)) => return Some(need),
                Some((calls, instructions)) => {
                    need.calls.add_number(calls);
                    need.instructions.add_number(instructions);
                }
                None => return None,
            }
        }
        None
    }

    /// What is needed at the head of a loop: so many rounds, as the rank says, and what is needed behind it.
    fn need_of_rounds(&self, ring: &Ring<'a>, head: &Block, exits: Exits<'a>) -> Need<'a> {
        let Exits {
            mut need,
            is_covered,
        } = exits;
        if is_covered {
            self.add_steps(&mut need, head);
        } else {
            need.calls.add_number(ring.calls);
            need.instructions.add_number(ring.instructions);
        }
        ring.add_rounds(&mut need.calls, ring.calls);
        ring.add_rounds(&mut need.instructions, ring.instructions);
        need.instructions.add(&ring.reserve, 1);
        need
    }

    /// What a block needs by the edges behind it, if that is known.
    fn need_behind(&self, number: usize, block: &Block) -> Option<Need<'a>> {
        let mut need = self.join_all(number);
        if let Some(need) = &mut need {
            self.add_steps(need, block);
        }
        need
    }

    /// What a block needs, where each loop is counted by its rounds. None where that is not known.
    fn counted_need(&self, number: usize) -> Option<Need<'a>> {
        let Some(block) = block_at(self.known.function, number) else {
            return None;
        };
        match ring_at(self.rings, number) {
            Some(ring) => match self.join_exits(ring) {
                Some(exits) => Some(self.need_of_rounds(ring, block, exits)),
                None => None,
            },
            None => self.need_behind(number, block),
        }
    }

    /// What a block needs. A loop's rounds are not counted where what is needed behind it falls from round to round, and so pays for them.
    fn need(&self, number: usize) -> Option<Need<'a>> {
        if let (Some(ring), Some(head)) = (
            ring_at(self.rings, number),
            block_at(self.known.function, number),
        ) {
            let need = self.need_that_falls(ring, head);
            if need.is_some() {
                return need;
            }
        }
        self.counted_need(number)
    }

    /// Whether it is not known yet what a block needs.
    fn is_open(&self, block: usize) -> bool {
        block < self.lefts.len() && self.lefts[block].is_none()
    }

    /// Keeps what a block needs, if that was found and is a form; whether it is.
    fn keep(&mut self, block: usize, found: Option<Need<'a>>) -> bool {
        match found {
            Some(need) if need.is_form() && block < self.lefts.len() => {
                self.lefts[block] = Some(need);
                true
            }
            _ => false,
        }
    }

    /// Finds what the blocks need, the last one first, round after round until nothing new is found.
    fn draw(&mut self) {
        for _round in 0..self.lefts.len() {
            let mut is_new = false;
            for block in (0..self.lefts.len()).rev() {
                if self.is_open(block) {
                    let found = self.need(block);
                    is_new = self.keep(block, found) || is_new;
                }
            }
            if !is_new {
                return;
            }
        }
    }

    /// Finds what the blocks need, each loop within counted by its rounds, the last block first, round after round until nothing new is found.
    fn count(&mut self) {
        for _round in 0..self.lefts.len() {
            let mut is_new = false;
            for block in (0..self.lefts.len()).rev() {
                if self.is_open(block) {
                    let found = self.counted_need(block);
                    is_new = self.keep(block, found) || is_new;
                }
            }
            if !is_new {
                return;
            }
        }
    }
}

/// The loop of this head.
fn ring_at<'w, 'a>(rings: &'w [Ring<'a>], head: usize) -> Option<&'w Ring<'a>> {
    for ring in rings {
        if ring.head == head {
            return Some(ring);
        }
    }
    None
}

/// The greatest number that a sum may come to at a block.
fn greatest_at<'a>(known: &Known<'a>, block: usize, sum: &Sum<'a>) -> Option<i128> {
    match sum.as_number() {
        Some(number) => Some(number),
        None => {
            let facts = known.facts_at(block);
            match greatest(facts.as_slice(), sum) {
                Some(most) => Some(i128::from(most)),
                None => None,
            }
        }
    }
}

/// Loops while their rounds are counted.
#[derive(Clone, Copy)]
struct Counting<'w, 'a> {
    known: &'w Known<'a>,
    costs: &'w [(&'a str, u128)],
    /// The loops within.
    rings: &'w [Ring<'a>],
}

impl<'a> Counting<'_, 'a> {
    /// What a round needs, where only what the loop holds in reserve is needed once it is done, and nothing behind the loop.
    fn round_need(self, ring: &Ring<'a>) -> Option<Need<'a>> {
        let heap = self.known.heap;
        let mut lefts = heap.list();
        for block in 0..self.known.function.blocks.len() {
            let mut none = Need::none(heap);
            if block == ring.head {
                none.instructions.add(&ring.reserve, 1);
            }
            let is_open = block != ring.head && ring.has(block);
            heap.push(&mut lefts, if is_open { None } else { Some(none) });
        }
        let mut finder = Finder {
            known: self.known,
            costs: self.costs,
            rings: self.rings,
            lefts,
        };
        finder.draw();
        match block_at(self.known.function, ring.head) {
            Some(head) => finder.need_behind(ring.head, head),
            None => None,
        }
    }

    /// A loop with this reserve, with what a round needs beside what falls of that; none where it is not known.
    fn counted(self, ring: &Ring<'a>, reserve: Sum<'a>) -> Option<Ring<'a>> {
        let mut ring = ring.with_reserve(reserve);
        let Some(need) = self.round_need(&ring) else {
            return None;
        };
        let used = need.instructions.with(&ring.reserve, -1);
        let calls = greatest_at(self.known, ring.head, &need.calls);
        let instructions = greatest_at(self.known, ring.head, &used);
        match (calls, instructions) {
            (Some(calls), Some(instructions)) => {
                ring.calls = calls;
                ring.instructions = instructions;
                Some(ring)
            }
            _ => None,
        }
    }

    /// The instructions that all rounds of a loop need at most.
    fn most_of(self, ring: &Ring<'a>) -> Option<i128> {
        let mut all = ring.reserve.copy();
        ring.add_rounds(&mut all, ring.instructions);
        greatest_at(self.known, ring.head, &all)
    }

    /// Whether all rounds of one loop need less than those of the other.
    fn is_less(self, one: &Ring<'a>, other: &Ring<'a>) -> bool {
        match (self.most_of(one), self.most_of(other)) {
            (Some(one), Some(other)) => one < other,
            _ => false,
        }
    }

    /// A loop with what a round needs: without a reserve, or with one, where its rounds need less so. None where it is not known.
    fn best(self, ring: &Ring<'a>) -> Option<Ring<'a>> {
        let mut best = self.counted(ring, Sum::number(self.known.heap, 0));
        for reserve in reserves_of(self.known, self.rings, ring) {
            if let Some(next) = self.counted(ring, reserve) {
                let is_better = match &best {
                    Some(best) => self.is_less(&next, best),
                    None => true,
                };
                if is_better {
                    best = Some(next);
                }
            }
        }
        best
    }
}

/// The loops whose rounds are counted, the inner ones first.
fn rings_of<'a>(known: &Known<'a>, costs: &[(&'a str, u128)]) -> Vec<Ring<'a>> {
    let mut rings = known.heap.list();
    let count = known.function.blocks.len();
    if count > MOST_BLOCKS {
        return rings;
    }
    for head in (0..count).rev() {
        if let Some(ring) = ring_of(known, head) {
            let counting = Counting {
                known,
                costs,
                rings: rings.as_slice(),
            };
            if let Some(ring) = counting.best(&ring) {
                known.heap.push(&mut rings, ring);
            }
        }
    }
    rings
}

/// The `left` line of a block, where it has one.
pub fn given<'a>(heap: &'a Heap, block: &'a Block) -> Option<Need<'a>> {
    let left = &block.notes.left;
    if left.line == block.line {
        return None;
    }
    Some(Need {
        calls: Sum::of_form(heap, &left.self_calls),
        instructions: Sum::of_form(heap, &left.instructions),
    })
}

/// What each block needs: what its line says, and where it has none what follows, from the ends back. None where that is not known.
pub fn needs_of<'w, 'a>(
    known: &'w Known<'a>,
    costs: &'w [(&'a str, u128)],
) -> Vec<Option<Need<'a>>> {
    let rings = rings_of(known, costs);
    let mut lefts = known.heap.list();
    for block in known.function.blocks.as_slice() {
        known.heap.push(&mut lefts, given(known.heap, block));
    }
    let mut finder = Finder {
        known,
        costs,
        rings: rings.as_slice(),
        lefts,
    };
    finder.draw();
    finder.lefts
}
