//! Which of the lines that were put in are refused, by the functions of the phases.

use crate::new_lines::NewLines;
use crate::plain::{is_plain, said_of};
use explain_facts::{Matched, Means, cost_findings};
use footprints::passes_on;
use linear_shown::{FactBranches, FactCursor, Known};
use program::{Block, Function, Inequality, Program};
use ranges::{BlockFacts, Move, Unanswered, block_facts, difference_of, shows_at};

/// What a trial is of: the lines that were put in, of which it refuses some.
#[derive(Drop)]
pub struct Trial<'a> {
    pub means: &'a Means<'a>,
    pub new: NewLines,
}

/// What is refused of blocks.
#[derive(Clone, Copy)]
enum Part {
    /// The `keeps` lines that an edge does not show, and the `shows` lines that their places do not.
    Facts,
    /// The `keeps` lines that say no more than another one of their block.
    Plain,
    /// The `pending` lines that an edge does not hand on.
    Zones,
}

impl Trial<'_> {
    /// Whether what is known shows an inequality, with these moves put in.
    fn shows(
        &self,
        known: &Known<'_>,
        moves: &[Move],
        inequality: &Inequality,
    ) -> Result<bool, Unanswered> {
        let sum = difference_of(self.means.alloc, moves, inequality)?;
        shows_at(self.means.alloc, known, &sum)
    }

    /// Refuses the line of an inequality, unless what is known shows that.
    fn try_line(&mut self, known: &Known<'_>, moves: &[Move], inequality: &Inequality) {
        let answer = self.shows(known, moves, inequality);
        if !self.means.is_so(answer) {
            self.new.refuse(inequality.line);
        }
    }

    /// Refuses the `keeps` lines of their targets that the edges of a block do not show.
    fn try_edges(&mut self, blocks: &[Block], table: &BlockFacts) {
        let means = self.means;
        let mut facts = FactBranches::new(means.alloc, table.facts.as_slice(), means.effort);
        for edge in table.edges.as_slice() {
            means.noted(facts.switch_to(means.alloc, edge.facts.as_slice()));
            if let Some(target) = blocks.get(edge.to.0) {
                for inequality in target.keeps.as_slice() {
                    if self.new.has(inequality.line) {
                        self.try_line(&facts.known(), edge.moves.as_slice(), inequality);
                    }
                }
            }
        }
    }

    /// Refuses the `shows` lines of a place that the facts before them do not show; behind the place so many are known.
    fn try_shows(&mut self, cursor: &mut FactCursor<'_>, count: usize, shows: &[Inequality]) {
        let before = count.saturating_sub(shows.len());
        for (place, inequality) in shows.iter().enumerate() {
            if self.new.has(inequality.line) {
                cursor.seek(before.saturating_add(place));
                self.means.noted(cursor.index());
                self.try_line(&cursor.known(), &[], inequality);
            }
        }
    }

    /// Refuses the `shows` lines of a block that the facts before them do not show.
    fn try_steps(&mut self, block: &Block, table: &BlockFacts) {
        let facts = table.facts.as_slice();
        let mut cursor = FactCursor::new(self.means.alloc, facts, self.means.effort);
        for (place, step) in block.steps.as_slice().iter().enumerate() {
            self.try_shows(&mut cursor, table.count_at(place), step.shows.as_slice());
        }
        if let Some(ending) = &block.ending {
            self.try_shows(&mut cursor, facts.len(), ending.shows.as_slice());
        }
    }

    /// Refuses the `keeps` lines of a block that say no more than another one.
    fn try_plain(&mut self, block: &Block) {
        let said = said_of(self.means, block);
        for one in &said {
            if self.new.has(one.line) && is_plain(self.means, said.as_slice(), one) {
                self.new.refuse(one.line);
            }
        }
    }

    /// Refuses the `pending` lines of a block that an edge does not hand on, where it hands on what a new child may touch.
    fn try_zones(&mut self, blocks: &[Block], block: &Block, table: &BlockFacts) {
        let means = self.means;
        let alloc = means.alloc;
        let Some(ending) = &block.ending else {
            return;
        };
        let pending = block.pending.as_slice();
        let end = &ending.terminator;
        let mut facts = FactBranches::new(alloc, table.facts.as_slice(), means.effort);
        for edge in table.edges.as_slice() {
            for place in 0..pending.len() {
                let line = pending[place].zone.line;
                let one = &pending[place..place + 1];
                if self.new.has(line)
                    && !means.is_so(passes_on(alloc, blocks, &mut facts, one, end, edge))
                    && means.is_so(passes_on(alloc, blocks, &mut facts, &[], end, edge))
                {
                    self.new.refuse(line);
                }
            }
        }
    }

    fn try_block(
        &mut self,
        program: &Program,
        function: &Function,
        index: usize,
        block: &Block,
        part: Part,
    ) {
        let means = self.means;
        let made = block_facts(means.alloc, program, function, index, block, means.effort);
        if let Some((table, _broken)) = means.kept(made) {
            let blocks = function.blocks.as_slice();
            if matches!(part, Part::Zones) {
                self.try_zones(blocks, block, &table);
            } else {
                self.try_edges(blocks, &table);
                self.try_steps(block, &table);
            }
        }
    }

    /// Refuses lines of all blocks.
    fn try_blocks(&mut self, program: &Program, part: Part) {
        for function in program.functions.as_slice() {
            for (index, block) in function.blocks.as_slice().iter().enumerate() {
                match part {
                    Part::Plain => self.try_plain(block),
                    Part::Zones if block.pending.is_empty() => {}
                    _ => self.try_block(program, function, index, block, part),
                }
            }
        }
    }

    /// Refuses the `budget` of a function and the `left` lines of its blocks that do not cover what a fault at this line says.
    fn try_costs_at(&mut self, function: &Function, line: u32) {
        if function.budget.line == line {
            self.new.refuse(line);
        }
        for block in function.blocks.as_slice() {
            let is_at_end = match &block.ending {
                Some(ending) => ending.line == line,
                None => false,
            };
            if is_at_end || block.left.line == line {
                self.new.refuse(block.left.line);
            }
        }
    }

    /// Refuses the `left` and `budget` lines that do not cover what is used.
    fn try_costs(&mut self, matched: &Matched) {
        let means = self.means;
        let found = means.kept(cost_findings(means.alloc, matched, means.effort));
        let Some(findings) = found else {
            return;
        };
        for finding in &findings {
            for function in matched.graph.program.functions.as_slice() {
                self.try_costs_at(function, finding.line);
            }
        }
    }

    /// Refuses lines of facts; where there is none, those that say no more than others; where there is none of these either, those of zones and costs.
    pub fn try_all(&mut self, matched: &Matched) {
        let program = &matched.graph.program;
        self.try_blocks(program, Part::Facts);
        if !self.new.has_refused() {
            self.try_blocks(program, Part::Plain);
        }
        if !self.new.has_refused() {
            self.try_blocks(program, Part::Zones);
            self.try_costs(matched);
        }
    }
}
