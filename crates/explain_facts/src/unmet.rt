//! What a program owes of its numbers and what is known there does not show.

use crate::means::Means;
use crate::trial::Matched;
use linear_shown::{FactBranches, FactCursor, Known};
use lists::{ListBuffer, OutOfMemory, Seq};
use program::{Block, Ending, Function, Inequality, Program, Step};
use ranges::{BlockFacts, Obligation, Sum, inequalities_owed, is_met_at, owed, owed_at_end};
use std::slice;

/// A place of a block: its line, how many of the facts at the block's end are known there, and the edge that is left by.
#[derive(Clone, Copy)]
pub struct Site {
    pub function: usize,
    pub block: usize,
    pub line: u32,
    pub count: usize,
    pub edge: Option<usize>,
}

/// What is owed at a place and not shown there: one of the sums is to be at least 0. `asked` is the line of the annotation that asks it.
#[derive(Drop)]
pub struct Unmet {
    pub site: Site,
    pub number: u16,
    pub choices: Seq<Sum>,
    pub asked: Option<u32>,
}

/// What a program owes of its numbers and does not show, as far as it is gone through.
#[derive(Drop)]
struct Owing<'a> {
    means: &'a Means<'a>,
    program: &'a Program,
    unmet: ListBuffer<Unmet>,
}

/// The inequalities that an instruction is asked by: a callee's `requires`.
fn asking_of<'a>(program: &'a Program, step: &Step) -> &'a [Inequality] {
    match &step.instruction {
        program::Instruction::Call { callee, .. } => {
            match program.functions.as_slice().get(callee.0) {
                Some(callee) => callee.requirements.as_slice(),
                None => &[],
            }
        }
        _ => &[],
    }
}

impl Owing<'_> {
    /// Adds what is known not to meet. The inequalities, if there are any, are those that ask it, in the same order.
    fn push_unmet(
        &mut self,
        site: Site,
        known: &Known<'_>,
        owed: Result<Vec<Obligation>, OutOfMemory>,
        asking: &[Inequality],
    ) {
        let means = self.means;
        let mut place: usize = 0;
        for obligation in means.items(owed) {
            if !means.is_so(is_met_at(means.alloc, known, &obligation)) {
                self.unmet.push(Unmet {
                    site,
                    number: obligation.number,
                    choices: obligation.choices,
                    asked: match asking.get(place) {
                        Some(inequality) => Some(inequality.line),
                        None => None,
                    },
                });
            }
            place = place.saturating_add(1);
        }
    }

    /// Adds the `shows` lines that are not shown; each is a fact for those after it. `count` facts are known at the last of them.
    fn push_shows(&mut self, site: Site, cursor: &mut FactCursor<'_>, shows: &[Inequality]) {
        let means = self.means;
        let mut at = site;
        at.count = site.count.saturating_sub(shows.len());
        for inequality in shows {
            at.line = inequality.line;
            means.seek(cursor, at.count);
            let only = slice::from_ref(inequality);
            let owed = inequalities_owed(means.alloc, 508, &[], only);
            self.push_unmet(at, &cursor.known(), owed, &[]);
            at.count = at.count.saturating_add(1);
        }
        means.seek(cursor, site.count);
    }

    /// Adds what is not shown of the targets of the edges that leave a place.
    fn push_edges(&mut self, mut site: Site, function: &Function, table: &BlockFacts) {
        let means = self.means;
        let mut facts = FactBranches::new(means.alloc, table.facts.as_slice(), means.effort);
        for (place, edge) in table.edges.as_slice().iter().enumerate() {
            if let Some(target) = function.blocks.as_slice().get(edge.to.0) {
                let keeps = target.keeps.as_slice();
                let moves = edge.moves.as_slice();
                let owed = inequalities_owed(means.alloc, 505, moves, keeps);
                means.noted(facts.switch_to(means.alloc, edge.facts.as_slice()));
                site.edge = Some(place);
                self.push_unmet(site, &facts.known(), owed, keeps);
            }
        }
    }

    /// Adds what is not shown in a block, from this place of it on.
    fn push_block(
        &mut self,
        mut site: Site,
        function: &Function,
        block: &Block,
        table: &BlockFacts,
    ) {
        let means = self.means;
        let program = self.program;
        let mut cursor = FactCursor::new(means.alloc, table.facts.as_slice(), means.effort);
        for (place, step) in block.steps.as_slice().iter().enumerate() {
            site.line = step.line;
            site.count = table.at_step(place).len();
            self.push_shows(site, &mut cursor, step.shows.as_slice());
            let owed = owed(means.alloc, program, function, &step.instruction);
            self.push_unmet(site, &cursor.known(), owed, asking_of(program, step));
        }
        if let Some(ending) = &block.ending {
            site.line = ending.line;
            site.count = table.facts.len();
            self.push_ending(site, &mut cursor, function, ending);
            self.push_edges(site, function, table);
        }
    }

    /// Adds what is not shown at the end of a block, but for its edges.
    fn push_ending(
        &mut self,
        site: Site,
        cursor: &mut FactCursor<'_>,
        function: &Function,
        ending: &Ending,
    ) {
        self.push_shows(site, cursor, ending.shows.as_slice());
        let owed = owed_at_end(self.means.alloc, function, &ending.terminator);
        self.push_unmet(site, &cursor.known(), owed, function.guarantees.as_slice());
    }

    /// Adds what is not shown in a function.
    fn push_function(&mut self, index: usize, function: &Function) {
        let means = self.means;
        let program = self.program;
        for (place, block) in function.blocks.as_slice().iter().enumerate() {
            if let Some((table, Some(_))) = means.table(program, function, place, block) {
                let site = Site {
                    function: index,
                    block: place,
                    line: block.line,
                    count: 0,
                    edge: None,
                };
                self.push_block(site, function, block, &table);
            }
        }
    }
}

/// All that a program owes of its numbers and does not show, in the order of its blocks.
pub(crate) fn all_unmet(means: &Means<'_>, matched: &Matched) -> Vec<Unmet> {
    let mut owing = Owing {
        means: &*means,
        program: &matched.graph.program,
        unmet: ListBuffer::new(means.alloc),
    };
    for (index, function) in matched
        .graph
        .program
        .functions
        .as_slice()
        .iter()
        .enumerate()
    {
        owing.push_function(index, function);
    }
    let Owing { unmet, .. } = owing;
    means.list(unmet)
}
