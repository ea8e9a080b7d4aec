//! Facts that would show what a block asks and its facts do not show: tried where their registers are made.

use annotate_facts::{
    Edge, Extra, Heap, Sum, block_at, dominators_of, is_above, moved_before, names_made, names_own,
    sum_before,
};
use syntax::{Block, Function};

/// The most facts of a function that are wanted, and how far back a fact is moved.
const MOST_WANTS: usize = 256;

const MOST_MOVES: usize = 4;

/// What is wanted at a block's start, if that can still be moved back so often.
#[derive(Drop)]
struct Want<'a> {
    block: usize,
    sum: Sum<'a>,
    moves: usize,
}

/// What is wanted in a function, and the facts that would show it.
#[derive(Drop)]
pub struct Wants<'w, 'a> {
    heap: &'a Heap,
    function: &'a Function,
    edges: &'w [Edge<'a>],
    /// For each block one that is on all ways to it, once the facts are looked for.
    above: Vec<usize>,
    wants: Vec<Want<'a>>,
    /// Whether more is wanted than there is room for.
    is_full: bool,
    extras: Vec<Extra<'a>>,
}

impl<'w, 'a> Wants<'w, 'a> {
    pub fn new(heap: &'a Heap, function: &'a Function, edges: &'w [Edge<'a>]) -> Wants<'w, 'a> {
        Wants {
            heap,
            function,
            edges,
            above: heap.list(),
            wants: heap.list(),
            is_full: false,
            extras: heap.list(),
        }
    }

    fn is_wanted(&self, block: usize, sum: &Sum<'a>) -> bool {
        for want in &self.wants {
            if want.block == block && matches!(want.sum.apart_from(sum), Some(0)) {
                return true;
            }
        }
        false
    }

    /// Wants a sum to be at least 0 at a block's start.
    fn push(&mut self, block: usize, sum: Sum<'a>, moves: usize) {
        if self.is_full || sum.first().is_none() || !sum.is_form() || self.is_wanted(block, &sum) {
            return;
        }
        if self.wants.len() < MOST_WANTS {
            let want = Want { block, sum, moves };
            self.heap.push(&mut self.wants, want);
        } else {
            self.is_full = true;
        }
    }

    /// Wants sums to be at least 0 at a block's start.
    pub fn push_all(&mut self, block: usize, sums: Vec<Sum<'a>>) {
        for sum in sums {
            self.push(block, sum, MOST_MOVES);
        }
    }

    /// The block in which the last of a sum's registers is defined, if all others are known there; none where that is the entry's head.
    fn home_of(&self, sum: &Sum<'a>) -> Option<usize> {
        let blocks = self.function.blocks.as_slice();
        let mut home = None;
        for (index, block) in blocks.iter().enumerate() {
            if names_own(block, sum) {
                match home {
                    Some(before) if !is_above(self.above.as_slice(), before, index) => {
                        return None;
                    }
                    _ => home = Some(index),
                }
            }
        }
        home
    }

    /// Tries a sum where the last of its registers is made.
    fn want_at_home(&mut self, home: usize, sum: &Sum<'a>, moves: usize) {
        let Some(block) = block_at(self.function, home) else {
            return;
        };
        if names_made(block, sum) {
            if let Some(before) = sum_before(self.heap, sum, block.steps.as_slice()) {
                self.push(home, before, moves);
            }
            self.push_extra(home, false, sum.copy());
        } else {
            self.push(home, sum.copy(), moves);
        }
    }

    /// Tries a sum at a block, and wants it on the ways there.
    fn want_at(&mut self, index: usize, sum: &Sum<'a>, moves: usize) {
        self.push_extra(index, true, sum.copy());
        let Some(block) = block_at(self.function, index) else {
            return;
        };
        if moves > 0 {
            for edge in self.edges {
                if edge.to == index {
                    self.want_along(*edge, block, sum, moves.saturating_sub(1));
                }
            }
        }
    }

    fn push_extra(&mut self, block: usize, is_at_head: bool, fact: Sum<'a>) {
        let extra = Extra {
            block,
            is_at_head,
            fact,
        };
        self.heap.push(&mut self.extras, extra);
    }

    /// Wants a sum of a block's phis on an edge that leads there.
    fn want_along(&mut self, edge: Edge<'a>, to: &'a Block, sum: &Sum<'a>, moves: usize) {
        if let Some(from) = block_at(self.function, edge.from) {
            if let Some(before) = moved_before(self.heap, sum, from, to.phis.as_slice()) {
                self.push(edge.from, before, moves);
            }
        }
    }

    /// The facts that would show what is wanted, and whether more is wanted than there was room for.
    pub fn finish(self) -> (Vec<Extra<'a>>, bool) {
        let mut wants = self;
        wants.above = dominators_of(wants.heap, wants.edges, wants.function.blocks.len());
        for index in 0..MOST_WANTS {
            let Some(want) = wants.wants.get(index) else {
                break;
            };
            let (block, sum, moves) = (want.block, want.sum.copy(), want.moves);
            if block > 0 {
                wants.want_at(block, &sum, moves);
            }
            if let Some(home) = wants.home_of(&sum) {
                if home != block {
                    wants.want_at_home(home, &sum, moves);
                }
            }
        }
        let Wants {
            extras,
            is_full,
            ..
        } = wants;
        (extras, is_full)
    }
}
