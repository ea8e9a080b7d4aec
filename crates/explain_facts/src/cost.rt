//! Faults of costs, each with both sides and the difference.

use crate::finding::{Finding, Source, push_found};
use crate::gap::facts_with;
use crate::known::{Known, fact_lines, lack_of};
use crate::means::Means;
use crate::missing_budget::missing_budget;
use crate::scene::Scene;
use crate::spelling::{plural, push_form};
use crate::sums::{Counted, Share, amount};
use crate::trial::Matched;
use crate::tries::Trying;
use cfg::BlockEdges;
use cost_table::{Table, Work, make_table, work_of};
use linear::{Fact, Form};
use lists::TextBuffer;
use program::{Argument, Block, BlockId, Instruction, Left, Step, Terminator};
use ranges::{
    BlockFacts, EdgeFacts, Effort, Move, Sum, Unanswered, argument_moves, block_facts, start_facts,
};
use std::alloc::Global;

/// The greatest cost that a call may have.
const GREATEST_COST: u64 = 1_000_000_000_000;

/// A block beside what it does and what is known at its end.
#[derive(Clone, Copy)]
pub struct Doing<'s, 'a> {
    pub trying: Trying<'s, 'a>,
    pub block: &'a Block,
    pub work: Work,
}

/// What is tried where this is known, the first `stated` of the facts to a `shows` line there.
fn trying_where<'s, 'a>(
    trying: Trying<'s, 'a>,
    facts: &'a [Fact],
    stated: usize,
    line: u32,
) -> Trying<'s, 'a> {
    Trying {
        known: Known {
            facts,
            stated,
            line,
            ..trying.known
        },
        ..trying
    }
}

/// By how much too little is left, where that is a number.
fn push_too_few(counted: Counted, lack: Option<i128>, out: &mut TextBuffer) {
    match lack {
        Some(lack) => {
            let unit = counted.unit();
            let s = plural(lack);
            write!(out, "\n    {lack} {unit}{s} too few");
        }
        None => out.push_str("\n    that may be too few"),
    }
}

impl Doing<'_, '_> {
    /// What is left of the block behind what it does and what is left at all of these places.
    fn rest(&self, counted: Counted, shares: &[Share<'_>]) -> Sum {
        let means = self.trying.known.means;
        let done = amount(counted.of_work(self.work));
        let start = means.sum(0i128.saturating_sub(done));
        let mut rest = means.plus(start, &[], counted.of_left(&self.block.left));
        for share in shares {
            rest = means.less(rest, share.moves, counted.of_left(share.left));
        }
        rest
    }

    /// The sides of that: what is left of the block, what it does, and what is left at these places.
    fn push_sides(&self, counted: Counted, shares: &[Share<'_>], out: &mut TextBuffer) {
        let scene = self.trying.known.scene;
        let unit = counted.unit();
        let done = counted.of_work(self.work);
        write!(out, "  {unit}s: left ");
        push_form(scene, counted.of_left(&self.block.left), out);
        write!(out, ", the block does {done}");
        for share in shares {
            let label = scene.label(share.to);
            write!(out, ", left at %{label} ");
            push_form(scene, counted.of_left(share.left), out);
        }
    }

    /// How much too little is left, if it is: a number, or what is to be shown.
    fn push_counted(&self, counted: Counted, shares: &[Share<'_>], out: &mut TextBuffer) {
        let known = self.trying.known;
        let rest = self.rest(counted, shares);
        if known.shows(&rest) {
            return;
        }
        self.push_sides(counted, shares, out);
        let lack = lack_of(known.means, &rest);
        push_too_few(counted, lack, out);
        if let [only] = shares {
            let label = known.scene.label(only.to);
            write!(out, " on the edge to %{label}");
        }
        out.push_str("\n");
        if lack.is_none() {
            self.trying.push_detail(&rest, "    ", out);
        }
    }

    /// What there is to say where the block does not leave what is left at all of these places; nothing where it does.
    fn push_lack(&self, shares: &[Share<'_>], notes: &mut TextBuffer) {
        self.push_counted(Counted::SelfCalls, shares, notes);
        self.push_counted(Counted::Instructions, shares, notes);
    }

    /// 702 with these notes, if there are any: of a block without a `left` line that it has none, and which would do.
    fn push_fault(
        &self,
        shares: &[Share<'_>],
        is_one_way: bool,
        notes: TextBuffer,
        findings: &mut Vec<Finding>,
    ) {
        let known = self.trying.known;
        let mut notes = notes;
        let mut follows = false;
        let has_left = self.block.left.line != self.block.line;
        if !notes.is_empty() && !has_left && self.trying.source.is_some() {
            notes = TextBuffer::new(known.means.alloc);
            follows = self.push_missing(shares, is_one_way, &mut notes);
        }
        push_finding(known.means, findings, 702, known.line, notes, follows);
    }

    /// 702 on each edge.
    fn push_edges(&self, edges: &[EdgeFacts], findings: &mut Vec<Finding>) {
        let known = self.trying.known;
        let means = known.means;
        let blocks = known.scene.function.blocks.as_slice();
        let mut notes = TextBuffer::new(means.alloc);
        let mut shares: Vec<Share<'_>> = Vec::new(means.alloc);
        for edge in edges {
            if let Some(share) = share_of(blocks, edge.to, edge.moves.as_slice()) {
                let facts = means.items(facts_with(
                    means.alloc,
                    known.facts,
                    edge.facts.as_slice(),
                ));
                let facts = facts.as_slice();
                let there = Doing {
                    trying: trying_where(self.trying, facts, known.stated, known.line),
                    ..*self
                };
                there.push_lack(&[share], &mut notes);
                means.push(&mut shares, share);
            }
        }
        self.push_fault(shares.as_slice(), false, notes, findings);
    }

    /// 702 where all of this comes next.
    fn push_all(&self, shares: &[Share<'_>], findings: &mut Vec<Finding>) {
        let mut notes = TextBuffer::new(self.trying.known.means.alloc);
        self.push_lack(shares, &mut notes);
        self.push_fault(shares, true, notes, findings);
    }

    /// 702 at a terminator.
    fn push_ending(
        &self,
        terminator: &Terminator,
        edges: &[EdgeFacts],
        findings: &mut Vec<Finding>,
    ) {
        let blocks = self.trying.known.scene.function.blocks.as_slice();
        match terminator {
            Terminator::Return { .. } | Terminator::Reattach { .. } => {
                self.push_all(&[], findings)
            }
            Terminator::Detach {
                body,
                continuation,
                ..
            } => {
                let child = share_of(blocks, *body, &[]);
                let parent = share_of(blocks, *continuation, &[]);
                if let (Some(child), Some(parent)) = (child, parent) {
                    self.push_all(&[child, parent], findings)
                }
            }
            _ => self.push_edges(edges, findings),
        }
    }
}

/// What is left at the start of a block, with the moves put in.
fn share_of<'a>(blocks: &'a [Block], to: BlockId, moves: &'a [Move]) -> Option<Share<'a>> {
    match blocks.get(to.0) {
        Some(block) => Some(Share {
            to,
            moves,
            left: &block.left,
        }),
        None => None,
    }
}

/// Adds a fault with what was written of it, if anything was, or that to the last one, if that is the same.
fn push_finding(
    means: &Means<'_>,
    findings: &mut Vec<Finding>,
    number: u16,
    line: u32,
    notes: TextBuffer,
    follows: bool,
) {
    let notes = means.text(notes);
    if notes.is_empty() {
        return;
    }
    let found = Finding {
        number,
        line,
        cause: None,
        follows,
        notes,
    };
    push_found(means, findings, found);
}

/// A sum that is to be at least 0, where it is not so, or is not shown.
fn push_sum(trying: Trying<'_, '_>, what: &str, sum: &Sum, notes: &mut TextBuffer) {
    if trying.known.shows(sum) {
        return;
    }
    match lack_of(trying.known.means, sum) {
        Some(lack) => writeln!(notes, "  not so, by {lack}: {what}"),
        None => {
            writeln!(notes, "  not shown: {what}");
            trying.push_detail(sum, "  ", notes);
        }
    }
}

/// What is not shown of two sums that are to be at least 0, each behind what that says.
fn unshown(trying: Trying<'_, '_>, first: (&str, &Sum), second: (&str, &Sum)) -> TextBuffer {
    let mut notes = TextBuffer::new(trying.known.means.alloc);
    push_sum(trying, first.0, first.1, &mut notes);
    push_sum(trying, second.0, second.1, &mut notes);
    notes
}

/// 701 of a block.
fn push_start(trying: Trying<'_, '_>, left: &Left, findings: &mut Vec<Finding>) {
    let means = trying.known.means;
    let calls = means.placed(&[], &left.self_calls);
    let instructions = means.placed(&[], &left.instructions);
    let notes = unshown(
        trying,
        ("the self calls left are at least 0", &calls),
        ("the instructions left are at least 0", &instructions),
    );
    push_finding(means, findings, 701, left.line, notes, false);
}

/// What is not shown of the measure that a self call has, by itself and beside the one here; of a function without a `measure` line that it has none, where
/// the measure stands on the function's own.
fn call_notes(trying: Trying<'_, '_>, arguments: &[Argument]) -> TextBuffer {
    let scene = trying.known.scene;
    let means = trying.known.means;
    let measure = &scene.function.measure;
    let form = &measure.form;
    let moves = means.items(argument_moves(means.alloc, arguments));
    let there = means.placed(moves.as_slice(), form);
    let falls = means.less(means.plus(means.sum(-1), &[], form), moves.as_slice(), form);
    let mut notes = unshown(
        trying,
        ("the call's measure is at least 0", &there),
        ("the call's measure is below the one here", &falls),
    );
    if !notes.is_empty() && measure.line == scene.function.line {
        notes = missing_measure(means, scene);
    }
    notes
}

/// That a function has no `measure` line, and what one would say.
fn missing_measure(means: &Means<'_>, scene: &Scene<'_>) -> TextBuffer {
    let name = scene.written.name.as_str();
    let after = scene.function.line;
    let mut notes = TextBuffer::new(means.alloc);
    writeln!(
        notes,
        "  @{name} has no `measure` line, without which no self call is taken\n    \
write ;! measure F max N, after line {after}: F is a form of the parameters that each self call makes less, N the most that it may be"
    );
    notes
}

/// 703 of a self call.
fn push_call(trying: Trying<'_, '_>, step: &Step, findings: &mut Vec<Finding>) {
    match &step.instruction {
        Instruction::Call {
            callee,
            arguments,
            ..
        } if callee.0 == trying.known.scene.index => {
            let notes = call_notes(trying, arguments.as_slice());
            push_finding(trying.known.means, findings, 703, step.line, notes, false);
        }
        _ => {}
    }
}

/// 703 at a function's head.
fn push_measure(trying: Trying<'_, '_>, findings: &mut Vec<Finding>) {
    let means = trying.known.means;
    let measure = &trying.known.scene.function.measure;
    let least = means.placed(&[], &measure.form);
    let most = means.room(measure.bound, &measure.form);
    let notes = unshown(
        trying,
        ("the measure is at least 0", &least),
        ("the measure is at most its bound", &most),
    );
    push_finding(means, findings, 703, measure.line, notes, false);
}

/// 704 at a function's head.
fn push_budget(trying: Trying<'_, '_>, left: &Left, findings: &mut Vec<Finding>) {
    let means = trying.known.means;
    let function = trying.known.scene.function;
    let budget = &function.budget;
    let calls = means.room(budget.self_calls, &left.self_calls);
    let instructions = means.room(budget.instructions, &left.instructions);
    let mut notes = unshown(
        trying,
        (
            "the self calls left at the entry are within the budget",
            &calls,
        ),
        (
            "the instructions left at the entry are within the budget",
            &instructions,
        ),
    );
    let has_line = budget.line != function.line;
    if !notes.is_empty() && !has_line && trying.source.is_some() {
        notes = missing_budget(trying, left, means.text(notes).as_str());
    }
    push_finding(means, findings, 704, budget.line, notes, false);
}

/// 705 of a function.
fn push_whole(means: &Means<'_>, scene: &Scene<'_>, table: &Table, findings: &mut Vec<Finding>) {
    let measure = scene.function.measure.bound;
    let cost = table.cost(scene.index, measure).unwrap_or(0);
    if cost <= GREATEST_COST {
        return;
    }
    let more = if cost == u64::MAX { " or more" } else { "" };
    let mut notes = TextBuffer::new(means.alloc);
    writeln!(
        notes,
        "  a call of measure {measure} may cost {cost}{more}; the greatest is {GREATEST_COST}"
    );
    push_finding(means, findings, 705, scene.function.line, notes, false);
}

/// Adds the faults inside a block with this table of facts; inside a function's first one also those at its head.
fn push_tabled_block(
    trying: Trying<'_, '_>,
    block: &Block,
    table: &BlockFacts,
    findings: &mut Vec<Finding>,
) {
    let known = trying.known;
    if known.block.0 == 0 {
        let head = trying_where(trying, known.facts, 0, known.scene.function.line);
        push_measure(head, findings);
        push_budget(head, &block.left, findings);
    }
    push_start(trying, &block.left, findings);
    for (place, step) in block.steps.as_slice().iter().enumerate() {
        let facts = table.at_step(place);
        let there = trying_where(trying, facts, facts.len(), step.line);
        push_call(there, step, findings);
    }
    if let Some(ending) = &block.ending {
        let functions = known.scene.program.functions.as_slice();
        let facts = table.facts.as_slice();
        let doing = Doing {
            trying: trying_where(trying, facts, facts.len(), ending.line),
            block: &*block,
            work: work_of(functions, known.scene.index, block),
        };
        doing.push_ending(&ending.terminator, table.edges.as_slice(), findings);
    }
}

/// Adds the faults inside the blocks of a function, and at its head.
fn push_blocks(
    means: &Means<'_>,
    source: Option<Source<'_>>,
    scene: &Scene<'_>,
    edges: &[BlockEdges],
    findings: &mut Vec<Finding>,
) {
    let alloc = means.alloc;
    let function = scene.function;
    for (index, block) in function.blocks.as_slice().iter().enumerate() {
        let made = block_facts(alloc, scene.program, function, index, block, means.effort);
        if let Some((table, _)) = means.kept(made) {
            let lines = fact_lines(means, function, index, block, &table);
            let facts = means.items(start_facts(alloc, function, index, block));
            let known = Known {
                scene: &*scene,
                edges,
                block: BlockId(index),
                facts: facts.as_slice(),
                lines: lines.as_slice(),
                stated: 0,
                line: block.line,
                means: &*means,
            };
            push_tabled_block(Trying::of(source, known), block, &table, findings);
        }
    }
}

/// All faults of costs of a program whose numbers and zones are right, as far as the effort reaches: where they are, and what is not so.
pub fn cost_findings(
    alloc: Global,
    matched: &Matched,
    effort: &Effort,
) -> Result<Vec<Finding>, Unanswered> {
    told_cost_findings(alloc, None, matched, effort)
}

/// All faults of costs as far as the effort reaches; where there is a text, each with what is known at its place and lines to try there.
pub fn told_cost_findings(
    alloc: Global,
    source: Option<Source<'_>>,
    matched: &Matched,
    effort: &Effort,
) -> Result<Vec<Finding>, Unanswered> {
    let means = Means::new(alloc, effort);
    let program = &matched.graph.program;
    let table = make_table(alloc, program, &matched.regions)?;
    let mut findings: Vec<Finding> = Vec::new(alloc);
    for index in 0..program.functions.len() {
        if let Some(scene) = means.found(Scene::of(alloc, program, &matched.whole, index)) {
            push_whole(&means, &scene, &table, &mut findings);
            let edges = matched.edges(index);
            push_blocks(&means, source, &scene, edges, &mut findings);
        }
    }
    means.finish()?;
    Ok(findings)
}
