//! The lines that are put in (`keeps`, `pending`, `left`, `shows`, `budget`): which are proposed, kind by kind.

use crate::derived::{derived, ends_of};
use crate::limits::{Limit, MetLimit, meet};
use crate::order::put_in_order;
use crate::step::{Told, Walk};
use crate::wanted::Wants;
use annotate_facts::{
    Extra, Heap, Known, Lives, MOST_BLOCKS, Place, Sum, dominators_of, edges_of,
    has_many_instructions, known_of,
};
use annotate_uses::{
    Need, Scope, Stand, Total, firsts_of, handed_of, has_no_zones, hulls_of, needs_of, uses_of,
    waits_for_callee, zones_from,
};
use explain_facts::Means;
use ir_annotation::push_zone;
use ir_reader::read;
use lists::{Seq, TextBuffer};
use ranges::Unanswered;
use refusal::Refused;
use std::hash::RandomState;
use std::mem::replace;
use syntax::{Block, Function, Module, Zone};

/// The lines of one word that may stand at one place.
pub(crate) const MOST_LINES: usize = 32;

/// The facts and rests that are looked at for `shows` lines in all.
const MOST_EFFORT: usize = 4_000_000;

/// The facts of a function from which others are derived at most.
const MOST_DERIVED_FROM: usize = 500;

/// How often what follows from facts is found anew, with what followed before.
const DERIVED_ROUNDS: usize = 2;

/// Which lines are proposed.
#[derive(Clone, Copy)]
pub(crate) enum Kind {
    /// `keeps` that all ways to a block bring along.
    Facts,
    /// `keeps` that may be so of counters and are to be tried, with what follows from them.
    Guesses,
    /// `keeps` that would show what blocks ask.
    Wanted,
    /// `shows`
    Steps,
    /// `foot` of children, and `reads`, `writes` and `adds` of functions, where they have none.
    Feet,
    /// `pending`
    Zones,
    /// `left` and `budget`
    Costs,
}

/// What is put in, and what calls of the functions so far cost.
#[derive(Drop)]
struct Draft<'a> {
    heap: &'a Heap,
    module: &'a Module,
    kind: Kind,
    /// What is left of the effort for `shows` lines.
    effort: usize,
    /// For each line of the text the lines to put behind it, each with its end.
    behind: Vec<String>,
    costs: Vec<(&'a str, u128)>,
    /// The lines of functions whose zones wait for those of a callee, and whether zones are proposed.
    waiting: Vec<u32>,
    has_zones: bool,
    /// The limits that were met, by the lines of the text.
    met: Vec<MetLimit>,
}

/// A text with lines put in.
#[derive(Drop)]
pub(crate) struct Proposal {
    pub text: String,
    /// The limits that were met, by the lines of the text without them.
    pub met: Vec<MetLimit>,
}

/// Whether a fact is known at a block, but not by its head or by a fact that says more, and may serve there.
fn is_kept<'a>(
    known: &Known<'a>,
    lives: &Lives<'a>,
    index: usize,
    number: usize,
    fact: &Sum<'a>,
) -> bool {
    known.is_known(index, number)
        && !known.is_given(index, number)
        && fact.is_form()
        && (known.is_guessed(index, number) || lives.are_live(index, fact))
        && !known.is_weaker(index, fact)
}

/// Whether a function has no zones, or one of its children.
fn lacks_zones(known: &Known<'_>) -> bool {
    for (index, block) in known.function.blocks.as_slice().iter().enumerate() {
        if known.is_child(index) && block.notes.foot.is_empty() {
            return true;
        }
    }
    has_no_zones(known.function)
}

/// The last of a block's `keeps` lines, or its label.
fn end_of_keeps(block: &Block) -> u32 {
    let mut line = block.line;
    for inequality in block.notes.keeps.as_slice() {
        line = line.max(inequality.line);
    }
    line
}

/// The last of a block's `keeps` and `pending` lines, or its label.
fn end_of_pending(block: &Block) -> u32 {
    let mut line = end_of_keeps(block);
    for pending in block.notes.pending.as_slice() {
        line = line.max(pending.zone.line);
    }
    line
}

impl<'a> Draft<'a> {
    fn scope_of(&self, function: &'a Function) -> Scope<'a> {
        Scope {
            heap: self.heap,
            module: self.module,
            function,
        }
    }

    /// Notes a limit of what is looked at, if it is met at a line.
    fn meet(&mut self, line: u32, limit: Limit, is_met: bool) {
        if is_met {
            meet(self.heap, &mut self.met, line, limit);
        }
    }

    fn meet_all(&mut self, met: &[MetLimit]) {
        for next in met {
            self.meet(next.line, next.limit, true);
        }
    }

    /// What is known in a function.
    fn known(
        &mut self,
        function: &'a Function,
        has_guesses: bool,
        extras: &[Extra<'a>],
    ) -> Known<'a> {
        let known = known_of(self.heap, function, has_guesses, extras);
        self.meet(function.line, Limit::Facts, known.facts.is_full());
        known
    }

    /// Notes the blocks of which more may be so than is guessed.
    fn meet_guesses(&mut self, known: &Known<'a>) {
        let (heap, function) = (self.heap, known.function);
        let blocks = function.blocks.as_slice();
        if blocks.len() > MOST_BLOCKS {
            return;
        }
        let above = dominators_of(heap, known.edges.as_slice(), blocks.len());
        for (index, block) in blocks.iter().enumerate() {
            let place = Place {
                heap,
                function,
                above: above.as_slice(),
                block: index,
            };
            let has_all = place.has_all_guesses(known.facts.sums.as_slice());
            self.meet(block.line, Limit::Guesses, has_all);
        }
    }

    /// Proposes lines behind a line of the text; there is one proposal for a line at most.
    fn propose(&mut self, behind: u32, lines: TextBuffer) {
        if let Some(lines) = self.heap.kept(lines.finish()) {
            let place = (behind as usize).wrapping_sub(1);
            if let Some(slot) = self.behind.get_mut(place) {
                *slot = lines;
            }
        }
    }

    /// Proposes the facts that are known at a block and not stated there, as many as there is room for.
    fn propose_keeps(&mut self, known: &Known<'a>, lives: &Lives<'a>, index: usize, block: &Block) {
        let mut count = block.notes.keeps.len();
        let mut lines = self.heap.text();
        for (number, fact) in known.facts.sums.iter().enumerate() {
            if is_kept(known, lives, index, number, fact) {
                if count >= MOST_LINES {
                    self.meet(block.line, Limit::Keeps, true);
                    break;
                }
                lines.push_str("  ;! keeps ");
                fact.spell_inequality(&mut lines);
                lines.push_str("\n");
                count = count.saturating_add(1);
            }
        }
        self.propose(block.line, lines);
    }

    /// Goes over a block of the child with this first block.
    fn walk_over(
        &mut self,
        known: &Known<'a>,
        index: usize,
        block: &'a Block,
        first: usize,
    ) -> Walk<'a> {
        let scope = self.scope_of(known.function);
        let mut walk = Walk::new(scope, index, block, first, self.effort);
        for step in block.steps.as_slice() {
            walk.pass(step);
        }
        if let Some(ending) = &block.ending {
            let uses = uses_of(self.heap, known.function, self.costs.as_slice(), block);
            walk.end(known, ending, &uses);
        }
        walk
    }

    /// Goes over all blocks, and proposes how facts show what their steps and ends ask, if `shows` lines are wanted. What they do not show is wanted.
    fn walk_all<'w>(&mut self, known: &'w Known<'a>) -> Wants<'w, 'a> {
        let edges = known.edges.as_slice();
        let blocks = known.function.blocks.as_slice();
        let firsts = firsts_of(self.heap, edges, blocks.len());
        let mut wants = Wants::new(self.heap, known.function, edges);
        for (index, block) in blocks.iter().enumerate() {
            let first = firsts.get(index).copied().flatten().unwrap_or(0);
            let walk = self.walk_over(known, index, block, first);
            wants.push_all(index, self.take_up(walk));
        }
        wants
    }

    /// Proposes what one told who went over a block, if `shows` lines are wanted. What was missed.
    fn take_up(&mut self, walk: Walk<'a>) -> Vec<Sum<'a>> {
        let Walk {
            block,
            effort,
            missed,
            lines,
            met,
            ..
        } = walk;
        self.meet_all(met.as_slice());
        let is_spent = effort == 0 && self.effort > 0;
        self.meet(block.line, Limit::Effort, is_spent);
        self.effort = effort;
        if matches!(self.kind, Kind::Steps) {
            for told in lines {
                let Told { behind, lines } = told;
                self.propose(behind, lines);
            }
        }
        missed
    }

    /// Facts that follow from others and from guesses, and what follows from these in turn.
    fn derived(&mut self, function: &'a Function) -> Vec<Extra<'a>> {
        let scope = self.scope_of(function);
        let mut extras = self.heap.list();
        for _round in 0..DERIVED_ROUNDS {
            let known = self.known(function, true, extras.as_slice());
            if known.facts.sums.len() > MOST_DERIVED_FROM {
                self.meet(function.line, Limit::DerivedFrom, true);
                return extras;
            }
            let (found, met) = derived(scope, &known);
            self.meet_all(met.as_slice());
            extras = found;
        }
        extras
    }

    /// Facts that would show what the blocks of a function ask.
    fn wanted(&mut self, function: &'a Function) -> Vec<Extra<'a>> {
        let known = self.known(function, false, &[]);
        let (extras, is_full) = self.walk_all(&known).finish();
        self.meet(function.line, Limit::Wanted, is_full);
        extras
    }

    /// Facts that may be so, beside those of counters.
    fn extras(&mut self, function: &'a Function) -> Vec<Extra<'a>> {
        match self.kind {
            _ if function.blocks.len() > MOST_BLOCKS => self.heap.list(),
            Kind::Wanted => self.wanted(function),
            Kind::Guesses => self.derived(function),
            _ => self.heap.list(),
        }
    }

    /// Proposes the facts of all blocks; what an entry knows stands at the function's head already.
    fn add_facts(&mut self, function: &'a Function) {
        let extras = self.extras(function);
        let has_guesses = matches!(self.kind, Kind::Guesses);
        let known = self.known(function, has_guesses, extras.as_slice());
        if matches!(self.kind, Kind::Facts) {
            self.meet_guesses(&known);
        }
        let mut lives = Lives::new(self.heap, function);
        for fact in &known.facts.sums {
            lives.ask(known.edges.as_slice(), fact);
        }
        let blocks = function.blocks.as_slice();
        for index in 1..blocks.len() {
            self.propose_keeps(&known, &lives, index, &blocks[index]);
        }
    }

    /// Adds a zone, and the end of its line.
    fn push_zone(&self, out: &mut TextBuffer, zone: &Zone) {
        let mut spelled = self.heap.string("");
        self.heap.kept(push_zone(&mut spelled, zone));
        out.push_str(spelled.as_str());
        out.push_str("\n");
    }

    /// Proposes the zones of the children that have none, and of the function, if it has none.
    fn add_feet(&mut self, function: &'a Function) {
        let scope = self.scope_of(function);
        if function.blocks.len() > MOST_BLOCKS {
            return;
        }
        let known = self.known(function, false, &[]);
        if waits_for_callee(scope) {
            if lacks_zones(&known) {
                self.heap.push(&mut self.waiting, function.line);
            }
            return;
        }
        let (ends, met) = ends_of(scope, &known);
        self.meet_all(met.as_slice());
        let above = dominators_of(self.heap, known.edges.as_slice(), function.blocks.len());
        for (block, own) in function.blocks.as_slice().iter().enumerate() {
            let (begin, behind) = if block == 0 && has_no_zones(function) {
                ("  ;! ", function.line)
            } else if known.is_child(block) && own.notes.foot.is_empty() {
                ("  ;! foot ", end_of_pending(own).max(own.notes.left.line))
            } else {
                continue;
            };
            let place = Place {
                heap: self.heap,
                function,
                above: above.as_slice(),
                block,
            };
            let ends = ends.as_slice();
            let mut lines = self.heap.text();
            for zone in &zones_from(Stand { scope, ends, place }) {
                lines.push_str(begin);
                self.push_zone(&mut lines, zone);
            }
            self.has_zones = self.has_zones || !lines.is_empty();
            self.propose(behind, lines);
        }
    }

    /// Notes the functions that wait for zones of a callee, if some are proposed, so that more would be found with these.
    fn meet_waiting(&mut self) {
        let waiting = replace(&mut self.waiting, self.heap.list());
        for line in &waiting {
            self.meet(*line, Limit::Calls, self.has_zones);
        }
    }

    /// Proposes what is handed on to the heads of the blocks, as far as there is room.
    fn add_zones(&mut self, function: &'a Function) {
        let edges = edges_of(self.heap, function);
        let hulls = hulls_of(self.heap, function, edges.as_slice());
        let handed = handed_of(self.heap, function, edges.as_slice(), hulls.as_slice());
        for (index, block) in function.blocks.as_slice().iter().enumerate() {
            let Some(handed) = handed.get(index) else {
                return;
            };
            let room = MOST_LINES.saturating_sub(block.notes.pending.len());
            self.meet(block.line, Limit::Pending, handed.len() > room);
            let count = room.min(handed.len());
            let mut lines = self.heap.text();
            for next in &handed[..count] {
                lines.push_str("  ;! pending %");
                lines.push_str(next.region);
                lines.push_str(" ");
                self.push_zone(&mut lines, next.zone);
            }
            self.propose(end_of_keeps(block), lines);
        }
    }

    /// Proposes the budget that covers what is left at the entry, if there is one.
    fn propose_budget(&mut self, function: &'a Function, entry: &Need<'a>) -> Option<Total> {
        let mut facts = self.heap.list();
        for inequality in function.notes.requirements.as_slice() {
            let fact = Sum::of_inequality(self.heap, inequality);
            self.heap.push(&mut facts, fact);
        }
        let total = Total::of_need(facts.as_slice(), entry);
        if let Some(new) = total {
            let calls = new.self_calls;
            let instructions = new.instructions;
            let mut line = self.heap.text();
            write!(line, "  ;! budget {calls} {instructions}\n");
            self.propose(function.line, line);
        }
        total
    }

    /// Proposes what is left at the head of a block, if it does not say that itself.
    fn propose_left(&mut self, block: &Block, need: &Need<'_>) {
        if block.notes.left.line == block.line {
            let mut lines = self.heap.text();
            lines.push_str("  ;! left ");
            need.calls.spell(&mut lines);
            lines.push_str(" ");
            need.instructions.spell(&mut lines);
            lines.push_str("\n");
            self.propose(end_of_pending(block), lines);
        }
    }

    /// Proposes what is left at the heads of the blocks, where it is known: at the entry all of the budget that is given, and else a budget. The budget then.
    fn add_costs(&mut self, function: &'a Function, given: Option<Total>) -> Option<Total> {
        let known = self.known(function, false, &[]);
        let needs = needs_of(&known, self.costs.as_slice());
        let blocks = function.blocks.as_slice();
        let mut total = given;
        for (index, block) in blocks.iter().enumerate() {
            match (given, needs.get(index)) {
                (Some(given), Some(_)) if index == 0 => {
                    self.propose_left(block, &given.as_need(self.heap));
                }
                (_, Some(Some(need))) => {
                    self.propose_left(block, need);
                    if index == 0 {
                        total = self.propose_budget(function, need);
                    }
                }
                _ => {}
            }
        }
        total
    }

    fn add_functions(&mut self) {
        let module = self.module;
        for function in module.functions.as_slice() {
            let mut total = Total::given(function);
            let has_many_blocks = function.blocks.len() > MOST_BLOCKS;
            self.meet(function.line, Limit::Blocks, has_many_blocks);
            let is_long = has_many_instructions(function);
            self.meet(function.line, Limit::Instructions, is_long);
            match self.kind {
                Kind::Facts | Kind::Guesses | Kind::Wanted => self.add_facts(function),
                Kind::Steps => {
                    let known = self.known(function, false, &[]);
                    drop(self.walk_all(&known));
                }
                Kind::Feet => self.add_feet(function),
                Kind::Zones => self.add_zones(function),
                Kind::Costs => total = self.add_costs(function, total),
            }
            if let Some(total) = total {
                let cost = total.cost(function.notes.measure.bound);
                self.heap
                    .push(&mut self.costs, (function.name.as_str(), cost));
            }
        }
        self.meet_waiting()
    }

    /// The text with the lines put in.
    fn put_in(&self, text: &str) -> TextBuffer {
        let mut out = self.heap.text();
        let mut place: usize = 0;
        for line in text.lines() {
            if let Some(more) = self.behind.get(place) {
                out.push_str(line);
                out.push_str("\n");
                out.push_str(more.as_str());
            }
            place = place.saturating_add(1);
        }
        out
    }
}

/// Puts the blocks of all functions in order.
pub(crate) fn put_all_in_order(heap: &Heap, module: &mut Module) {
    let mut functions = replace(&mut module.functions, Seq::from_vec(heap.list())).into_vec();
    for function in &mut functions {
        put_in_order(heap, function);
    }
    module.functions = Seq::from_vec(functions);
}

/// The text of a module with the lines put in.
fn with_lines_of(means: &Means<'_>, module: Module, text: &str, kind: Kind) -> Proposal {
    let heap = Heap::new(means.alloc);
    let mut module = module;
    put_all_in_order(&heap, &mut module);
    let mut draft = Draft {
        heap: &heap,
        module: &module,
        kind,
        effort: MOST_EFFORT,
        behind: heap.list(),
        costs: heap.list(),
        waiting: heap.list(),
        has_zones: false,
        met: heap.list(),
    };
    for _line in text.lines() {
        heap.push(&mut draft.behind, String::new(means.alloc));
    }
    draft.add_functions();
    means.noted(heap.finish());
    let text = means.text(draft.put_in(text));
    let Draft { met, .. } = draft;
    Proposal { text, met }
}

/// A module's text with lines of a kind put in that follow from others; none is changed or taken away, and a last line without an end gets one. The
/// names of the text are hashed with `state`. A text that cannot be read stays as it was; where the means do not reach, it is empty.
pub(crate) fn proposed(means: &Means<'_>, state: RandomState, text: &str, kind: Kind) -> Proposal {
    let mut same = Proposal {
        text: String::new(means.alloc),
        met: Vec::new(means.alloc),
    };
    if means.finish().is_err() {
        return same;
    }
    match read(means.alloc, state, text.as_bytes()) {
        Ok(module) => return with_lines_of(means, module, text, kind),
        Err(Refused::Fault { .. }) => {
            same.text = means.made(String::from_str(means.alloc, text));
        }
        Err(Refused::Memory) => means.note(Unanswered::OutOfMemory),
    }
    same
}
