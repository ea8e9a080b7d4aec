//! Lines within blocks, with which facts show what is asked at an instruction or along an edge: lines to be tried.

use crate::limits::{Limit, MetLimit, meet};
use crate::proposal::MOST_LINES;
use annotate_facts::{
    Edge, Equation, Heap, Known, Sum, Way, block_at, facts_of, lines_between, moved, register_of,
    sum_before, times_for,
};
use annotate_uses::{Call, Cells, Need, Scope, ends_of, given};
use lists::TextBuffer;
use syntax::{
    BinaryOperator, Block, Conversion, Ending, Inequality, Instruction, Operand, Step, Terminator,
    Width, Zone,
};

/// The most facts of a block that are looked at.
const MOST_FACTS: usize = 1_024;

/// Lines that may stand behind a line of the text.
#[derive(Drop)]
pub struct Told {
    pub behind: u32,
    pub lines: TextBuffer,
}

/// What is known in a block as far as one has come.
#[derive(Drop)]
pub struct Walk<'a> {
    scope: Scope<'a>,
    place: usize,
    pub block: &'a Block,
    /// Whether the block belongs to the function itself, and not to a child.
    is_function: bool,
    facts: Vec<Sum<'a>>,
    /// What is left of the effort.
    pub effort: usize,
    /// The zones that cover what the block may touch.
    covering: [&'a [Zone]; 3],
    /// What is told before an instruction, beside so many lines of the text.
    told: Vec<Sum<'a>>,
    stated: usize,
    /// The line of what is gone over.
    line: u32,
    /// How many steps were gone over.
    passed: usize,
    /// What is asked and not shown, at the block's start.
    pub missed: Vec<Sum<'a>>,
    /// The lines that were told.
    pub lines: Vec<Told>,
    /// The limits that were met.
    pub met: Vec<MetLimit>,
}

/// What is at least 0 where cells do not begin before a zone.
fn begin_in<'a>(cells: &Cells<'a>, zone: &'a Zone) -> Sum<'a> {
    let mut low = cells.low.copy();
    low.add_form(&zone.low, -1);
    low
}

/// Whether an operator makes a quotient or a remainder of signed numbers, which are known where the dividend is not below 0.
fn is_of_signed_parts(operator: BinaryOperator) -> bool {
    matches!(
        operator,
        BinaryOperator::SignedDivide | BinaryOperator::SignedRemainder
    )
}

/// What is at least 0 where cells do not end behind a zone.
fn end_in<'a>(heap: &'a Heap, cells: &Cells<'a>, zone: &'a Zone) -> Sum<'a> {
    let mut high = Sum::of_form(heap, &zone.high);
    high.add(&cells.high, -1);
    high
}

impl<'a> Walk<'a> {
    /// At the head of the block of this number, of the child with this first block.
    pub fn new(
        scope: Scope<'a>,
        place: usize,
        block: &'a Block,
        first: usize,
        effort: usize,
    ) -> Walk<'a> {
        let mut walk = Walk {
            scope,
            place,
            block,
            is_function: first == 0,
            facts: scope.heap.list(),
            effort,
            covering: scope.covering(first),
            told: scope.heap.list(),
            stated: 0,
            line: block.line,
            passed: 0,
            missed: scope.heap.list(),
            lines: scope.heap.list(),
            met: scope.heap.list(),
        };
        let stated = if place == 0 {
            scope.function.notes.requirements.as_slice()
        } else {
            block.notes.keeps.as_slice()
        };
        for inequality in stated {
            walk.learn(Sum::of_inequality(scope.heap, inequality));
        }
        if let Some(left) = given(scope.heap, block) {
            walk.ask_left(&left.calls);
            walk.ask_left(&left.instructions);
        }
        walk
    }

    fn learn(&mut self, fact: Sum<'a>) {
        let heap = self.scope.heap;
        let line = self.block.line;
        if self.facts.len() < MOST_FACTS {
            heap.push(&mut self.facts, fact);
        } else {
            meet(heap, &mut self.met, line, Limit::InBlock);
        }
    }

    /// Says in lines that sums are at least 0, and states them, if there is room for the lines.
    fn tell_all(&mut self, lines: Vec<Sum<'a>>) {
        let count = self.stated.saturating_add(self.told.len());
        if count.saturating_add(lines.len()) > MOST_LINES {
            let line = self.line;
            meet(self.scope.heap, &mut self.met, line, Limit::Shows);
            return;
        }
        for line in &lines {
            if !self.says(line) {
                self.learn(line.copy());
                self.scope.heap.push(&mut self.told, line.copy());
            }
        }
    }

    /// Whether one of the facts says no less of the same registers.
    fn says(&self, line: &Sum<'a>) -> bool {
        for fact in &self.facts {
            if let Some(over) = line.apart_from(fact) {
                if over >= 0 {
                    return true;
                }
            }
        }
        false
    }

    /// The lines with which the facts show a sum, or what shows another one beside one more fact.
    fn lines_to(&mut self, sum: &Sum<'a>, beside: Option<&Sum<'a>>) -> Option<Vec<Sum<'a>>> {
        let heap = self.scope.heap;
        let mut effort = self.effort;
        let found = lines_between(heap, self.facts.as_slice(), sum, beside, &mut effort);
        self.effort = effort;
        found
    }

    /// Tells those lines; whether there are some.
    fn reach(&mut self, sum: &Sum<'a>, beside: Option<&Sum<'a>>) -> bool {
        if let Some(number) = sum.as_number() {
            return number >= 0;
        }
        match self.lines_to(sum, beside) {
            Some(lines) => {
                self.tell_all(lines);
                true
            }
            None => false,
        }
    }

    /// Keeps what is asked and not shown.
    fn miss(&mut self, goal: &Sum<'a>) {
        let block = self.block;
        let steps = block.steps.as_slice();
        let passed = self.passed.min(steps.len());
        if let Some(sum) = sum_before(self.scope.heap, goal, &steps[..passed]) {
            self.scope.heap.push(&mut self.missed, sum);
        }
    }

    /// Tells how the facts show what is asked, or keeps it.
    fn ask(&mut self, goal: &Sum<'a>) {
        if !self.reach(goal, None) {
            self.miss(goal);
        }
    }

    /// Whether it is known that so many times an operand is at least a number.
    fn is_at_least(&mut self, times: i128, operand: &'a Operand, number: i128) -> bool {
        let mut sum = Sum::of_operand(self.scope.heap, operand, times);
        sum.add_number(0i128.saturating_sub(number));
        self.reach(&sum, None)
    }

    /// Whether it is known that a conversion changes no number.
    fn is_same(&mut self, conversion: Conversion, operand: &'a Operand) -> bool {
        match conversion {
            Conversion::SignExtend => true,
            Conversion::ZeroExtend => self.is_at_least(1, operand, 0),
            Conversion::Truncate => {
                let (low, high) = ends_of(Width::Bits32);
                self.is_at_least(1, operand, low)
                    && self.is_at_least(-1, operand, 0i128.saturating_sub(high))
            }
        }
    }

    fn learn_equal(&mut self, name: &'a str, operand: &'a Operand) {
        let value = Sum::of_operand(self.scope.heap, operand, 1);
        let equation = Equation::of(self.scope.heap, name, &value);
        self.learn(equation.most);
        self.learn(equation.least)
    }

    fn learn_conversion(&mut self, name: &'a str, conversion: Conversion, operand: &'a Operand) {
        if self.is_same(conversion, operand) {
            self.learn_equal(name, operand);
        }
        let (low, high) = match conversion {
            Conversion::ZeroExtend => (0, 4_294_967_295),
            _ => ends_of(Width::Bits32),
        };
        let own = Sum::of_register(self.scope.heap, name, 1);
        self.learn(own.raised(0i128.saturating_sub(low)));
        self.learn(own.below(high))
    }

    /// States what an instruction makes known of the register that it defines, where it is known that its operands are as that wants them.
    fn learn_register(&mut self, name: &'a str, instruction: &'a Instruction) {
        match instruction {
            Instruction::Convert {
                conversion,
                value,
                ..
            } => self.learn_conversion(name, *conversion, value),
            Instruction::Binary { operator, left, .. } => {
                if !is_of_signed_parts(*operator) || self.is_at_least(1, left, 0) {
                    for fact in facts_of(self.scope.heap, name, instruction) {
                        self.learn(fact);
                    }
                }
            }
            _ => {}
        }
    }

    /// States what an instruction makes known, and what the callee says of a call.
    fn learn_step(&mut self, instruction: &'a Instruction) {
        if let Some(call) = self.scope.call_of(instruction) {
            for inequality in call.callee.notes.guarantees.as_slice() {
                self.learn(call.said(inequality));
            }
        }
        if let Some(name) = register_of(instruction) {
            self.learn_register(name, instruction);
        }
    }

    /// Begins with the lines of the text before the instruction of this line, and tells how the facts show them.
    fn begin(&mut self, line: u32, shows: &'a [Inequality]) {
        self.line = line;
        self.stated = shows.len();
        for inequality in shows {
            let sum = Sum::of_inequality(self.scope.heap, inequality);
            self.ask(&sum);
            self.flush(inequality.line);
            self.learn(sum);
        }
    }

    /// Puts what is told before a line of the text.
    fn flush(&mut self, line: u32) {
        if self.told.is_empty() {
            return;
        }
        let heap = self.scope.heap;
        let mut lines = heap.text();
        for fact in &self.told {
            lines.push_str("  ;! shows ");
            fact.spell_inequality(&mut lines);
            lines.push_str("\n");
        }
        self.stated = self.stated.saturating_add(self.told.len());
        self.told.clear();
        let behind = line.saturating_sub(1);
        heap.push(&mut self.lines, Told { behind, lines });
    }

    /// Tells how the facts show that cells lie in a zone, and nothing where they do not. Whether they do.
    fn reach_zone(&mut self, cells: &Cells<'a>, zone: &'a Zone) -> bool {
        let facts = self.facts.len();
        let told = self.told.len();
        let is_covered = self.reach(&begin_in(cells, zone), None)
            && self.reach(&end_in(self.scope.heap, cells, zone), None);
        if !is_covered {
            self.facts.truncate(facts);
            self.told.truncate(told);
        }
        is_covered
    }

    /// Tells how the facts show that one of these zones has the cells, or keeps what would show that one has; whether they do.
    fn reach_among(&mut self, cells: &Cells<'a>, zones: &'a [Zone]) -> bool {
        for zone in zones {
            if cells.may_lie_in(zone) && self.reach_zone(cells, zone) {
                return true;
            }
        }
        for zone in zones {
            if cells.may_lie_in(zone) {
                self.ask(&begin_in(cells, zone));
                self.ask(&end_in(self.scope.heap, cells, zone));
            }
        }
        false
    }

    /// Tells how the facts show that a covering zone has the cells. A function's own cells need no cover where it touches them itself.
    fn reach_cover(&mut self, cells: &Cells<'a>) {
        if self.is_function && cells.is_own(self.scope.function) {
            return;
        }
        let covering = self.covering;
        for zones in &covering {
            if self.reach_among(cells, zones) {
                return;
            }
        }
    }

    /// Goes over a step: tells how the facts show what it asks, and that the cells that it touches are covered.
    pub fn pass(&mut self, step: &'a Step) {
        self.begin(step.line, step.shows.as_slice());
        if self.effort == 0 {
            return;
        }
        for goal in &self.scope.goals(&step.instruction) {
            self.ask(goal);
        }
        let steps = self.block.steps.as_slice();
        self.effort = self.effort.saturating_sub(steps.len());
        for cells in &self.scope.touched(steps, &step.instruction) {
            self.reach_cover(cells);
        }
        self.learn_step(&step.instruction);
        self.passed = self.passed.saturating_add(1);
        self.flush(step.line)
    }

    /// Whether they show a sum with what being taken says of an edge, as often as a register of the sum asks for.
    fn reach_with(&mut self, goal: &Sum<'a>, fact: &Sum<'a>) -> bool {
        for (name, coefficient) in &goal.terms {
            let times = times_for(*coefficient, fact.coefficient(name));
            if let Some(times) = times {
                let rest = goal.with(fact, 0i128.saturating_sub(times));
                if self.reach(&rest, Some(goal)) {
                    return true;
                }
            }
        }
        let rest = goal.with(fact, -1);
        self.reach(&rest, Some(goal))
    }

    /// Tells how the facts show a sum along an edge, with what being taken says of it, or without.
    fn reach_along(&mut self, known: &Known<'a>, edge: usize, goal: &Sum<'a>) {
        if self.reach(goal, None) {
            return;
        }
        for number in known.facts_by_taking(edge) {
            if let Some(fact) = known.facts.sums.get(*number) {
                if self.reach_with(goal, fact) {
                    return;
                }
            }
        }
        self.miss(goal)
    }

    /// Keeps what is left at the block's head, where two facts do not show that it is at least 0.
    fn ask_left(&mut self, sum: &Sum<'a>) {
        let is_shown = match self.lines_to(sum, None) {
            Some(lines) => lines.is_empty(),
            None => false,
        };
        if sum.as_number().is_none() && !is_shown {
            self.scope.heap.push(&mut self.missed, sum.copy());
        }
    }

    /// What is left behind an edge, where its target has a line for it.
    fn left_behind(&self, edge: Edge<'a>) -> Option<Need<'a>> {
        let heap = self.scope.heap;
        let Some(to) = block_at(self.scope.function, edge.to) else {
            return None;
        };
        let Some(left) = given(heap, to) else {
            return None;
        };
        Some(left.moved(heap, &self.block.label, to.phis.as_slice()))
    }

    /// Tells how the facts show that what is left is enough for what is left behind an edge.
    fn reach_left(&mut self, known: &Known<'a>, edge: usize, rest: &Need<'a>, next: &Need<'a>) {
        self.reach_along(known, edge, &rest.calls.with(&next.calls, -1));
        self.reach_along(known, edge, &rest.instructions.with(&next.instructions, -1))
    }

    /// Tells how the facts show that what is left is enough along each edge of the block; at a detach, for child and continuation together.
    fn reach_lefts(&mut self, known: &Known<'a>, uses: &Need<'a>) {
        let Some(mut rest) = given(self.scope.heap, self.block) else {
            return;
        };
        rest.add(uses, -1);
        let mut is_last = true;
        for (number, edge) in known.edges.iter().enumerate() {
            if edge.from == self.place {
                match self.left_behind(*edge) {
                    Some(next) if matches!(edge.way, Way::Detached | Way::Continued(_)) => {
                        rest.add(&next, -1);
                    }
                    Some(next) => {
                        is_last = false;
                        self.reach_left(known, number, &rest, &next);
                    }
                    None => {}
                }
            }
        }
        if is_last {
            self.ask(&rest.calls);
            self.ask(&rest.instructions)
        }
    }

    /// Tells how the facts show what a block's head asks along an edge, and that the zones of new children are covered.
    fn reach_edge(&mut self, known: &Known<'a>, number: usize, way: Way<'a>, to: &'a Block) {
        let heap = self.scope.heap;
        for inequality in to.notes.keeps.as_slice() {
            let asked = Sum::of_inequality(heap, inequality);
            let goal = moved(heap, &asked, &self.block.label, to.phis.as_slice());
            self.reach_along(known, number, &goal);
        }
        if matches!(way, Way::Detached) {
            for zone in to.notes.foot.as_slice() {
                self.reach_cover(&Cells::of_zone(heap, zone));
            }
        }
    }

    /// Goes over the end of the block: tells how the facts show what a return asks of its value, and what the edges ask.
    pub fn end(&mut self, known: &Known<'a>, ending: &'a Ending, uses: &Need<'a>) {
        let Scope { heap, function, .. } = self.scope;
        self.begin(ending.line, ending.shows.as_slice());
        if let Terminator::Return { value: Some(value) } = &ending.terminator {
            let result = Sum::of_operand(heap, value, 1);
            for inequality in function.notes.guarantees.as_slice() {
                let mut goal = Sum::of_inequality(heap, inequality);
                goal.put(".ret", &result);
                self.ask(&goal);
            }
        }
        for (number, edge) in known.edges.iter().enumerate() {
            if edge.from == self.place {
                if let Some(to) = block_at(function, edge.to) {
                    self.reach_edge(known, number, edge.way, to);
                }
            }
        }
        self.reach_lefts(known, uses);
        self.flush(ending.line)
    }
}
