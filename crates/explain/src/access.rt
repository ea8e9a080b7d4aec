//! Faults of zones, each with the zone and what stands beside it.

use crate::found::{Found, told};
use crate::passing::foot_of;
use crate::spot::{Spot, spot_where};
use crate::widen::touched_zone;
use crate::zone_text::{as_written, push_why_beside, push_why_not, push_zone};
use cfg::BlockEdges;
use explain_facts::{Finding, Known, Matched, Means, Scene, Source, Trying, fact_lines};
use footprints::{
    Place, PlacedZone, address_cell, cells_zone, conflict, end_use, is_allowed, is_clear,
    pointers_of, put_object, step_use,
};
use linear_shown::{FactBranches, FactCursor, Known as KnownFacts};
use lists::TextBuffer;
use program::{
    Address, Argument, Block, BlockId, Ending, Function, Instruction, Mode, Step, Terminator, Zone,
};
use ranges::{BlockFacts, Effort, Task, Unanswered, argument_moves, block_facts};
use std::alloc::Global;

/// The rule that what is touched conflicts with nothing that is pending.
const CONFLICT: u16 = 602;

/// The rule that what is pending is handed on along each edge.
const NOT_PENDING: u16 = 603;

/// The detached block of a task, if that is a child.
fn child_of<'a>(blocks: &'a [Block], task: Option<&Task>) -> Option<&'a Block> {
    let Some(Task::Child(detach)) = task else {
        return None;
    };
    let Some(block) = blocks.get(detach.0) else {
        return None;
    };
    match &block.ending {
        Some(ending) => match &ending.terminator {
            Terminator::Detach { body, .. } => blocks.get(body.0),
            _ => None,
        },
        None => None,
    }
}

impl Spot<'_, '_> {
    /// Why none of the zones covers this one.
    fn push_uncovered(&self, y: &PlacedZone<'_>, out: &mut TextBuffer) {
        let mut is_any = false;
        for zone in self.place.covering {
            is_any = push_why_not(self.trying, &as_written(zone), y, out) || is_any;
        }
        if !is_any {
            out.push_str("    no zone here is of that object\n");
        }
    }

    /// What is pending and conflicts with this zone.
    fn push_conflicts(&self, y: &PlacedZone<'_>, out: &mut TextBuffer) {
        let means = self.trying.known.means;
        for item in self.place.pending {
            let z = as_written(&item.zone);
            if means.is_so(conflict(means.alloc, self.place.facts, &z, y)) {
                push_why_beside(self.trying, &z, y, out);
            }
        }
    }

    /// What is wrong with a zone that is touched, by the rule of a fault, and a line that would cover it. What is touched is kept as far as it is within the
    /// bounds of forms.
    fn push_zone_notes(&self, y: &PlacedZone<'_>, found: &mut Found) {
        let known = self.trying.known;
        let means = known.means;
        let is_conflict = found.number == CONFLICT;
        let is_right = if is_conflict {
            is_clear(means.alloc, &self.place, y)
        } else {
            is_allowed(means.alloc, &self.place, y)
        };
        if means.is_so(is_right) {
            return;
        }
        let notes = &mut found.notes;
        notes.push_str("  touched: ");
        push_zone(known, y, notes);
        notes.push_str("\n");
        if is_conflict {
            self.push_conflicts(y, notes);
        } else {
            self.push_uncovered(y, notes);
        }
        if let Some(touched) = touched_zone(means, y) {
            if !is_conflict {
                self.push_cover_line(&touched, notes);
            }
            means.push(&mut found.touched.zones, touched);
        }
    }

    /// What is wrong with cells that are touched.
    fn push_cells_notes(&self, mode: Mode, address: Address, count: u64, found: &mut Found) {
        let known = self.trying.known;
        let Some(cell) = address_cell(self.block.steps.as_slice(), address) else {
            return;
        };
        match cells_zone(known.means.alloc, known.line, mode, cell, count) {
            Ok(zone) => self.push_zone_notes(&as_written(&zone), found),
            Err(_) => known.means.note(Unanswered::OutOfMemory),
        }
    }

    /// What is wrong with the zones of a callee.
    fn push_call_notes(&self, callee: &Function, arguments: &[Argument], found: &mut Found) {
        let means = self.trying.known.means;
        let moves = means.items(argument_moves(means.alloc, arguments));
        for zone in callee.zones.as_slice() {
            if let Some(object) = put_object(arguments, zone.object) {
                let y = PlacedZone {
                    object,
                    moves: moves.as_slice(),
                    zone,
                };
                self.push_zone_notes(&y, found);
            }
        }
    }

    /// What is wrong with what an instruction touches.
    fn push_step_notes(&self, instruction: &Instruction, found: &mut Found) {
        let (mode, address, count) = match instruction {
            Instruction::Load { address, .. } => (Mode::Reads, *address, 1),
            Instruction::Store { address, .. } => (Mode::Writes, *address, 1),
            Instruction::AtomicAdd { address, .. } => (Mode::Adds, *address, 1),
            Instruction::StoreZeros { cells, object } => {
                (Mode::Writes, Address::First(*object), *cells)
            }
            Instruction::Call {
                callee,
                arguments,
                ..
            } => {
                let functions = self.trying.known.scene.program.functions.as_slice();
                if let Some(callee) = functions.get(callee.0) {
                    self.push_call_notes(callee, arguments.as_slice(), found)
                }
                return;
            }
            _ => return,
        };
        self.push_cells_notes(mode, address, count, found);
    }

    /// Adds the fault of a step against this rule.
    fn push_step_fault(&self, number: u16, step: &Step, founds: &mut Vec<Found>) {
        let mut found = self.found(number);
        self.push_step_notes(&step.instruction, &mut found);
        self.trying.known.means.push(founds, found);
    }

    /// Adds the faults of a step, in the order of their rules.
    fn push_step(&self, step: &Step, founds: &mut Vec<Found>) {
        let means = self.trying.known.means;
        let functions = self.trying.known.scene.program.functions.as_slice();
        let steps = self.block.steps.as_slice();
        if !means.spend(steps.len()) {
            return;
        }
        let pointers = means.items(pointers_of(means.alloc, steps));
        let used = step_use(
            means.alloc,
            &self.place,
            functions,
            &pointers,
            step.line,
            &step.instruction,
        );
        let Some(used) = means.kept(used) else {
            return;
        };
        if !used.covered && used.number < CONFLICT {
            self.push_step_fault(used.number, step, founds);
        }
        if !used.clear {
            self.push_step_fault(CONFLICT, step, founds);
        }
        if !used.covered && used.number > CONFLICT {
            self.push_step_fault(used.number, step, founds);
        }
    }

    /// Adds the fault of the foot of a new child against this rule.
    fn push_foot_fault(&self, number: u16, foot: &[Zone], founds: &mut Vec<Found>) {
        let mut found = self.found(number);
        for zone in foot {
            self.push_zone_notes(&as_written(zone), &mut found);
        }
        self.trying.known.means.push(founds, found);
    }

    /// Adds the fault of edges whose targets do not say all that is still pending.
    fn push_edges(&self, ending: &Ending, table: &BlockFacts, founds: &mut Vec<Found>) {
        let means = self.trying.known.means;
        let mut found = self.found(NOT_PENDING);
        let mut facts = FactBranches::new(means.alloc, table.facts.as_slice(), means.effort);
        for edge in table.edges.as_slice() {
            self.push_edge(&mut facts, &ending.terminator, edge, &mut found);
        }
        if !found.touched.zones.is_empty() {
            means.push(founds, found);
        }
    }

    /// Adds the faults at the end of a block, in the order of their rules: of the foot of a new child, and of edges.
    fn push_end(&self, ending: &Ending, table: &BlockFacts, founds: &mut Vec<Found>) {
        let means = self.trying.known.means;
        let blocks = self.trying.known.scene.function.blocks.as_slice();
        let used = end_use(means.alloc, &self.place, blocks, &ending.terminator);
        let Some(used) = means.kept(used) else {
            return;
        };
        let foot = foot_of(blocks, &ending.terminator);
        if !used.clear {
            self.push_foot_fault(CONFLICT, foot, founds);
        }
        self.push_edges(ending, table, founds);
        if !used.covered {
            self.push_foot_fault(used.number, foot, founds);
        }
    }

    /// Adds the faults of the steps of the block, and of its end.
    fn push_faults(&self, table: &BlockFacts, founds: &mut Vec<Found>) {
        let means = self.trying.known.means;
        let mut cursor = FactCursor::new(means.alloc, table.facts.as_slice(), means.effort);
        for (place, step) in self.block.steps.as_slice().iter().enumerate() {
            let count = table.count_at(place);
            means.seek(&mut cursor, count);
            let facts = cursor.known();
            spot_where(*self, &facts, count, step.line).push_step(step, founds);
        }
        if let Some(ending) = &self.block.ending {
            let count = table.facts.len();
            means.seek(&mut cursor, count);
            let facts = cursor.known();
            spot_where(*self, &facts, count, ending.line).push_end(ending, table, founds);
        }
    }
}

/// The start of a block of a task, where nothing is known yet.
fn start_of<'s, 'a>(
    source: Source<'s>,
    known: Known<'a>,
    nothing: &'a KnownFacts<'a>,
    task: Option<&Task>,
    block: &'a Block,
) -> Spot<'s, 'a> {
    let function = known.scene.function;
    let child = child_of(function.blocks.as_slice(), task);
    let (word, task, covering) = match child {
        Some(child) => (";! foot ", child.line, child.foot.as_slice()),
        None => (";! ", function.line, function.zones.as_slice()),
    };
    Spot {
        source,
        trying: Trying::of(Some(source), known),
        place: Place {
            facts: &*nothing,
            covering,
            own: child.is_none(),
            pending: block.pending.as_slice(),
        },
        block: &*block,
        word,
        task,
    }
}

/// Adds the faults of a function, whose blocks are of these tasks.
fn push_function(
    means: &Means<'_>,
    source: Source<'_>,
    scene: &Scene<'_>,
    edges: &[BlockEdges],
    tasks: &[Task],
    founds: &mut Vec<Found>,
) {
    let alloc = means.alloc;
    let function = scene.function;
    let start = means.cursor(&[]);
    let nothing = start.known();
    for (index, block) in function.blocks.as_slice().iter().enumerate() {
        let made = block_facts(alloc, scene.program, function, index, block, means.effort);
        if let Some((table, _)) = means.kept(made) {
            let lines = fact_lines(means, function, index, block, &table);
            let known = Known {
                scene: &*scene,
                edges,
                block: BlockId(index),
                facts: &[],
                lines: lines.as_slice(),
                stated: 0,
                line: block.line,
                means: &*means,
            };
            let task = tasks.get(index);
            start_of(source, known, &nothing, task, block).push_faults(&table, founds);
        }
    }
}

/// All faults of zones of a text whose numbers are right, as far as the effort reaches.
pub fn zone_findings(
    alloc: Global,
    source: Source<'_>,
    matched: &Matched,
    effort: &Effort,
) -> Result<Vec<Finding>, Unanswered> {
    let means = Means::new(alloc, effort);
    let program = &matched.graph.program;
    let mut founds: Vec<Found> = Vec::new(alloc);
    for (index, table) in matched.regions.functions.as_slice().iter().enumerate() {
        if let Some(scene) = means.found(Scene::of(alloc, program, &matched.whole, index)) {
            let edges = matched.edges(index);
            let tasks = table.tasks.as_slice();
            push_function(&means, source, &scene, edges, tasks, &mut founds);
        }
    }
    told(&means, founds)
}
