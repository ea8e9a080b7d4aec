//! What is known wherever a block begins, because all ways to it bring it along (data flow, meet over predecessors).

use crate::bound::lesser_of;
use crate::definition::moved_before;
use crate::edge::{Edge, Way, block_at, edges_of};
use crate::fact::{Facts, has_many_instructions};
use crate::guess::{Place, dominators_of};
use crate::heap::Heap;
use crate::learned::is_made_by;
use crate::sum::Sum;
use syntax::{Block, Function};

/// The most blocks of a function in which something is guessed, and rounds are counted.
pub const MOST_BLOCKS: usize = 256;

/// A fact that may be so, and is to be tried.
pub struct Extra<'a> {
    pub block: usize,
    /// Whether it is so where the block begins, or from its end on.
    pub is_at_head: bool,
    pub fact: Sum<'a>,
}

/// Written out, so that no crate above proves it anew.
impl Drop for Extra<'_> {
    fn drop(self) {
        let Extra {
            block: _,
            is_at_head: _,
            fact: _,
        } = self;
    }
}

/// The facts of a function, and which of them hold where.
pub struct Known<'a> {
    pub heap: &'a Heap,
    pub function: &'a Function,
    pub edges: Vec<Edge<'a>>,
    /// For each block the numbers of the edges that lead to it.
    into: Vec<Vec<usize>>,
    pub facts: Facts<'a>,
    /// For each block the numbers of the facts that its head states.
    given: Vec<Vec<usize>>,
    /// For each block the numbers of the facts that may be so at it, and are to be tried.
    guessed: Vec<Vec<usize>>,
    /// Whether there are such facts.
    has_guesses: bool,
    /// For each edge the numbers of the facts that its source adds: first those that being taken says of it, which are so many, then those that are shown.
    added: Vec<Vec<usize>>,
    taken: Vec<usize>,
    /// For each block the numbers of the facts that its own instructions make.
    made: Vec<Vec<usize>>,
    /// For each block whether each fact is brought along to it; no fact that is not is marked.
    marks: Vec<Vec<bool>>,
}

/// Written out, so that no crate above proves it anew.
impl Drop for Known<'_> {
    fn drop(self) {
        let Known {
            heap: _,
            function: _,
            edges: _,
            into: _,
            facts: _,
            given: _,
            guessed: _,
            has_guesses: _,
            added: _,
            taken: _,
            made: _,
            marks: _,
        } = self;
    }
}

/// A row of numbers; one that is not there has none.
fn row_of(rows: &[Vec<usize>], row: usize) -> &[usize] {
    if row < rows.len() {
        rows[row].as_slice()
    } else {
        &[]
    }
}

fn row_has(rows: &[Vec<usize>], row: usize, number: usize) -> bool {
    row_of(rows, row).contains(&number)
}

/// Adds numbers to a row, where it is there.
fn extend(heap: &Heap, rows: &mut Vec<Vec<usize>>, row: usize, numbers: &[usize]) {
    if row < rows.len() {
        heap.kept(rows[row].extend_from_slice(numbers));
    }
}

impl<'a> Known<'a> {
    /// States what the blocks' heads say; at the entry what the function asks of its parameters too.
    fn give_all(&mut self) {
        let function = self.function;
        self.facts.state(function.notes.requirements.as_slice());
        for block in function.blocks.as_slice() {
            self.facts.state(block.notes.keeps.as_slice());
            self.heap.push(&mut self.given, self.facts.take());
            self.heap.push(&mut self.guessed, self.heap.list());
            self.heap.push(&mut self.into, self.heap.list());
        }
    }

    /// States what the edges add; what the lines of a block show is the same on all of its edges, which stand next to each other.
    fn add_all(&mut self) {
        let mut shown = self.heap.list();
        let mut last = None;
        for number in 0..self.edges.len() {
            if let Some(edge) = self.edges.get(number).copied() {
                if last != Some(edge.from) {
                    last = Some(edge.from);
                    shown = self.shown_by(edge.from);
                }
                self.add(edge, shown.as_slice());
                extend(self.heap, &mut self.into, edge.to, &[number]);
            }
        }
    }

    /// The numbers of what the lines of a block show.
    fn shown_by(&mut self, block: usize) -> Vec<usize> {
        if let Some(block) = block_at(self.function, block) {
            self.facts.show_all(block);
        }
        self.facts.take()
    }

    /// States what being taken says of an edge, beside what its source shows.
    fn add(&mut self, edge: Edge<'a>, shown: &[usize]) {
        self.facts.pass(edge);
        let mut added = self.facts.take();
        self.heap.push(&mut self.taken, added.len());
        self.heap.kept(added.extend_from_slice(shown));
        self.heap.push(&mut self.added, added);
    }

    /// States what the instructions of the blocks make, unless the function has many.
    fn make_all(&mut self) {
        let is_short = !has_many_instructions(self.function);
        for (index, block) in self.function.blocks.as_slice().iter().enumerate() {
            if is_short {
                self.facts.make_all(index, block.steps.as_slice());
            }
            self.heap.push(&mut self.made, self.facts.take());
        }
    }

    /// States a fact that may be so where a block begins, or from its end on.
    fn suppose(&mut self, block: usize, is_at_head: bool, fact: Sum<'a>) {
        self.facts.add(fact);
        let stated = self.facts.take();
        if is_at_head {
            self.has_guesses = self.has_guesses || !stated.is_empty();
            extend(self.heap, &mut self.guessed, block, stated.as_slice())
        } else {
            extend(self.heap, &mut self.made, block, stated.as_slice())
        }
    }

    /// The last of the blocks before this one whose instructions make a register of a sum.
    fn maker_of(&self, end: usize, sum: &Sum<'a>) -> Option<usize> {
        let mut maker = None;
        for (index, block) in self.function.blocks.as_slice().iter().enumerate() {
            if index < end && names_made(block, sum) {
                maker = Some(index);
            }
        }
        maker
    }

    /// States what may be so on an edge that leads back to a loop's head, because this is so at the head then: at the source of the edge, where that names
    /// several of its phis, as others are guessed phi by phi; or from where a register is made that a phi of the head takes.
    fn guess_along(&mut self, edge: Edge<'a>, sum: &Sum<'a>) {
        let (Some(to), Some(from)) = (
            block_at(self.function, edge.to),
            block_at(self.function, edge.from),
        ) else {
            return;
        };
        let Some(before) = moved_before(self.heap, sum, from, to.phis.as_slice()) else {
            return;
        };
        if count_phis(from, &before) >= 2 {
            self.suppose(edge.from, true, before)
        } else if let Some(maker) = self.maker_of(edge.from, &before.beside(sum)) {
            self.suppose(maker, false, before)
        }
    }

    /// States what may be so on each edge that leads back to a loop's head, because these sums are at least 0 at the head then.
    fn guess_before(&mut self, block: usize, sums: &[Sum<'a>]) {
        for number in 0..self.edges.len() {
            match self.edges.get(number).copied() {
                Some(edge) if edge.to == block && edge.from > block => {
                    for sum in sums {
                        self.guess_along(edge, sum);
                    }
                }
                _ => {}
            }
        }
    }

    /// States what may be so of the counters of all blocks, by the facts from this number on.
    fn guess_from(&mut self, above: &[usize], first: usize) {
        for block in 0..self.function.blocks.len() {
            let place = Place {
                heap: self.heap,
                function: self.function,
                above,
                block,
            };
            let sums = self.facts.sums.as_slice();
            let guesses = place.guesses(&sums[first.min(sums.len())..], first == 0);
            self.guess_before(block, guesses.as_slice());
            for guess in guesses {
                self.suppose(block, true, guess);
            }
        }
    }

    /// States what may be so at the heads of loops, unless the function has many blocks; then what may be so if that is.
    fn guess_all(&mut self) {
        let count = self.function.blocks.len();
        if count > MOST_BLOCKS {
            return;
        }
        let above = dominators_of(self.heap, self.edges.as_slice(), count);
        let stated = self.facts.sums.len();
        self.guess_from(above.as_slice(), 0);
        self.guess_from(above.as_slice(), stated)
    }

    /// The numbers of the facts that the source of an edge adds on it.
    pub fn facts_on(&self, edge: usize) -> &[usize] {
        row_of(self.added.as_slice(), edge)
    }

    /// The facts that the source of an edge adds on it.
    pub fn sums_on(&self, edge: usize) -> Vec<Sum<'a>> {
        let mut sums = self.heap.list();
        for number in self.facts_on(edge) {
            if let Some(sum) = self.facts.sums.get(*number) {
                self.heap.push(&mut sums, sum.copy());
            }
        }
        sums
    }

    /// The numbers of the facts that being taken says of an edge.
    pub fn facts_by_taking(&self, edge: usize) -> &[usize] {
        let added = self.facts_on(edge);
        let count = self.taken.get(edge).copied().unwrap_or(0);
        &added[..count.min(added.len())]
    }

    /// The facts that are known at a block.
    pub fn facts_at(&self, block: usize) -> Vec<Sum<'a>> {
        let mut facts = self.heap.list();
        for number in 0..self.facts.sums.len() {
            if self.is_known(block, number) {
                self.heap.push(&mut facts, self.facts.sums[number].copy());
            }
        }
        facts
    }

    /// Whether the fact is a guess at the block.
    pub fn is_guessed(&self, block: usize, fact: usize) -> bool {
        row_has(self.guessed.as_slice(), block, fact)
    }

    pub fn is_given(&self, block: usize, fact: usize) -> bool {
        row_has(self.given.as_slice(), block, fact)
    }

    /// Whether a block is the first one of a child.
    pub fn is_child(&self, block: usize) -> bool {
        for edge in &self.edges {
            if edge.to == block && matches!(edge.way, Way::Detached) {
                return true;
            }
        }
        false
    }

    /// Whether the fact is marked at the block.
    pub fn is_known(&self, block: usize, fact: usize) -> bool {
        if block >= self.marks.len() {
            return false;
        }
        let marks = self.marks[block].as_slice();
        fact < marks.len() && marks[fact]
    }

    /// Whether another fact that is known at the block says more of the same registers with the same coefficients. Beside guesses only what heads state is
    /// sure enough.
    pub fn is_weaker(&self, block: usize, fact: &Sum<'a>) -> bool {
        for number in 0..self.facts.sums.len() {
            if self.is_known(block, number) && (!self.has_guesses || self.is_given(block, number)) {
                if let Some(apart) = fact.apart_from(&self.facts.sums[number]) {
                    if apart > 0 {
                        return true;
                    }
                }
            }
        }
        false
    }

    /// How much one sum lacks to be no less than the other: by itself, or by one or two facts that are known at the block, of which the first takes a register
    /// out.
    pub fn lack_of(&self, block: usize, one: &Sum<'a>, other: &Sum<'a>) -> Option<i128> {
        let difference = one.with(other, -1);
        let facts = self.facts_at(block);
        let mut least = lack_by(facts.as_slice(), &difference);
        for fact in &facts {
            if let Some(rest) = rest_of(&difference, fact) {
                least = lesser_of(least, lack_by(facts.as_slice(), &rest));
            }
        }
        least
    }

    /// The greater of two sums, or one with what it may lack, or their sum where nothing is known of that.
    pub fn greater(&self, block: usize, one: &Sum<'a>, other: &Sum<'a>) -> Sum<'a> {
        match (
            self.lack_of(block, one, other),
            self.lack_of(block, other, one),
        ) {
            (Some(first), Some(second)) if second < first => other.raised(second),
            (Some(first), _) => one.raised(first),
            (None, Some(second)) => other.raised(second),
            (None, None) => one.with(other, 1),
        }
    }

    /// Marks each fact at each block to begin with, but at the entry only what it states.
    fn mark_all(&mut self) {
        for block in 0..self.function.blocks.len() {
            let mut marks = self.heap.list();
            for fact in 0..self.facts.sums.len() {
                let is_marked = block != 0 || self.is_given(block, fact);
                self.heap.push(&mut marks, is_marked);
            }
            self.heap.push(&mut self.marks, marks);
        }
    }

    /// Whether some way leads to the block and each of them brings the fact.
    fn is_brought(&self, block: usize, fact: usize) -> bool {
        let into = row_of(self.into.as_slice(), block);
        for number in into {
            if !self.is_along(*number, fact) {
                return false;
            }
        }
        !into.is_empty()
    }

    /// Whether the edge of this number brings the fact.
    fn is_along(&self, number: usize, fact: usize) -> bool {
        if number >= self.edges.len() {
            return false;
        }
        let from = self.edges[number].from;
        self.is_known(from, fact)
            || row_has(self.added.as_slice(), number, fact)
            || row_has(self.made.as_slice(), from, fact)
    }

    /// Whether the fact names a register that the block defines.
    fn is_renamed(&self, block: usize, fact: usize) -> bool {
        match (block_at(self.function, block), self.facts.sums.get(fact)) {
            (Some(block), Some(sum)) => names_own(block, sum),
            _ => true,
        }
    }

    /// Whether a mark at a block still stands.
    fn stands(&self, block: usize, fact: usize) -> bool {
        self.is_given(block, fact)
            || self.is_guessed(block, fact)
            || self.is_brought(block, fact) && !self.is_renamed(block, fact)
    }

    fn unmark(&mut self, block: usize, fact: usize) {
        if block < self.marks.len() && fact < self.marks[block].len() {
            self.marks[block][fact] = false;
        }
    }

    /// Takes away the marks that no longer stand, in one round over the blocks; whether there were some.
    fn settle(&mut self) -> bool {
        let mut is_changed = false;
        for block in 0..self.function.blocks.len() {
            for fact in 0..self.facts.sums.len() {
                if self.is_known(block, fact) && !self.stands(block, fact) {
                    self.unmark(block, fact);
                    is_changed = true;
                }
            }
        }
        is_changed
    }

    /// Finds the facts, and marks what is known at each block.
    fn find(&mut self, has_guesses: bool, extras: &[Extra<'a>]) {
        self.give_all();
        self.add_all();
        self.make_all();
        if has_guesses {
            self.guess_all();
        }
        for extra in extras {
            self.suppose(extra.block, extra.is_at_head, extra.fact.copy());
        }
        self.mark_all();
        for _round in 0..self.function.blocks.len() {
            if !self.settle() {
                return;
            }
        }
    }
}

/// A sum without as much of a fact as takes the fact's first register out of it; none where the sum has that not, or with the other sign.
fn rest_of<'a>(sum: &Sum<'a>, fact: &Sum<'a>) -> Option<Sum<'a>> {
    let Some((name, coefficient)) = fact.first() else {
        return None;
    };
    let times = sum.coefficient(name).checked_div(coefficient).unwrap_or(0);
    if times <= 0 {
        return None;
    }
    Some(sum.with(fact, 0i128.saturating_sub(times)))
}

/// How much a sum lacks to be at least 0: by itself where it is a number, or by one of these facts.
fn lack_by<'a>(facts: &[Sum<'a>], sum: &Sum<'a>) -> Option<i128> {
    let mut least = sum.lack();
    for fact in facts {
        if let Some(rest) = rest_of(sum, fact) {
            least = lesser_of(least, rest.lack());
        }
    }
    least
}

/// How many phis of the block a sum names.
fn count_phis(block: &Block, sum: &Sum<'_>) -> usize {
    let mut count = 0usize;
    for phi in block.phis.as_slice() {
        if sum.has(phi.register.as_str()) {
            count = count.saturating_add(1);
        }
    }
    count
}

/// Whether a sum names a register that the block's instructions make.
pub fn names_made(block: &Block, sum: &Sum<'_>) -> bool {
    is_made_by(sum, block.steps.as_slice())
}

/// Whether a sum names a register that the block defines.
pub fn names_own(block: &Block, sum: &Sum<'_>) -> bool {
    count_phis(block, sum) > 0 || names_made(block, sum)
}

/// What is known at each block, by what heads state, `shows` and the outcomes of branches. A fact about registers that the block defines
/// anew is not brought along to it. What may be so of counters is among it, if guesses are asked for, and further facts that may be so.
pub fn known_of<'a>(
    heap: &'a Heap,
    function: &'a Function,
    has_guesses: bool,
    extras: &[Extra<'a>],
) -> Known<'a> {
    let mut known = Known {
        heap,
        function,
        edges: edges_of(heap, function),
        into: heap.list(),
        facts: Facts::new(heap, function),
        given: heap.list(),
        guessed: heap.list(),
        has_guesses: false,
        added: heap.list(),
        taken: heap.list(),
        made: heap.list(),
        marks: heap.list(),
    };
    known.find(has_guesses, extras);
    known
}
