//! Faults of numbers, each with what was to be shown.

use crate::finding::{Finding, Source, push_found};
use crate::gap::{facts_with, first_facts};
use crate::known::{Known, fact_lines};
use crate::lines::line_at;
use crate::means::Means;
use crate::missing::Missing;
use crate::scene::Scene;
use crate::silent::push_silent_compare;
use crate::trial::Matched;
use crate::tries::Trying;
use crate::unmet::{Unmet, all_unmet};
use lists::TextBuffer;
use program::{Block, BlockId, Instruction, Width};
use ranges::{BlockFacts, EdgeFacts, Effort, Sum, Unanswered};
use std::alloc::Global;

/// What asks it: an annotation, and where it stands on an edge the edge's target.
fn push_asked(
    text: &str,
    scene: &Scene<'_>,
    unmet: &Unmet,
    edge: Option<&EdgeFacts>,
    notes: &mut TextBuffer,
) {
    let Some(line) = unmet.asked else {
        return;
    };
    let text = line_at(text, line).unwrap_or("").trim();
    write!(notes, "  asked by line {line}: {text}");
    if let Some(edge) = edge {
        let label = scene.label(edge.to);
        write!(notes, ", on the edge to %{label}");
    }
    notes.push_str("\n");
}

/// What there is to choose, where it is not one sum alone, and each sum of which one is to be shown.
fn push_choices(trying: Trying<'_, '_>, choices: &[Sum], notes: &mut TextBuffer) {
    match choices.len() {
        0 => notes.push_str("  one operand must be a number from -1000000 to 1000000\n"),
        1 => {}
        _ => notes.push_str("  one of these is to be shown:\n"),
    }
    for sum in choices {
        trying.push_unshown(sum, notes);
    }
}

/// What an instruction asks for, in words: the range of an index, or of a result that fits its width.
fn push_range(scene: &Scene<'_>, instruction: &Instruction, notes: &mut TextBuffer) {
    match instruction {
        Instruction::ElementPointer { object, .. } => {
            let (sigil, name) = scene.object(*object);
            let cells = scene.cells(*object);
            let last = cells.saturating_sub(1);
            writeln!(
                notes,
                "  {sigil}{name} has {cells} cells: the index has to be from 0 to {last}"
            );
        }
        Instruction::Binary { width, .. } => {
            notes.push_str(match width {
                Width::Bits64 => {
                    "  the result has to be from -9223372036854775808 to 9223372036854775807, the range of an i64\n"
                }
                Width::Bits32 => {
                    "  the result has to be from -2147483648 to 2147483647, the range of an i32\n"
                }
            });
        }
        _ => {}
    }
}

/// What a line asks for, in words, where it is an index or a result that has to be in a range, and there is something to show.
fn push_asked_range(scene: &Scene<'_>, block: &Block, unmet: &Unmet, notes: &mut TextBuffer) {
    if matches!(unmet.number, 501 | 503) && !unmet.choices.is_empty() {
        for step in block.steps.as_slice() {
            if step.line == unmet.site.line {
                push_range(scene, &step.instruction, notes);
            }
        }
    }
}

/// A text with faults of numbers, and what is told of them.
#[derive(Clone, Copy)]
struct Telling<'s, 'a> {
    means: &'a Means<'a>,
    source: Source<'s>,
    matched: &'a Matched,
    unmet: &'a [Unmet],
}

impl Telling<'_, '_> {
    /// What there is to say of a place of a block, where this is known in the block; and whether it may follow from what is missing before.
    fn push_table_notes(
        self,
        scene: &Scene<'_>,
        block: &Block,
        table: &BlockFacts,
        unmet: &Unmet,
        missing: &mut Missing,
        notes: &mut TextBuffer,
    ) -> bool {
        let means = self.means;
        let site = unmet.site;
        let edge = match site.edge {
            Some(place) => table.edges.as_slice().get(place),
            None => None,
        };
        let learned = match edge {
            Some(edge) => edge.facts.as_slice(),
            None => &[],
        };
        let lines = fact_lines(means, scene.function, site.block, block, table);
        let facts = first_facts(table.facts.as_slice(), site.count);
        let facts = means.items(facts_with(means.alloc, facts, learned));
        let known = Known {
            scene: &*scene,
            edges: self.matched.edges(site.function),
            block: BlockId(site.block),
            facts: facts.as_slice(),
            lines: lines.as_slice(),
            stated: site.count,
            line: site.line,
            means,
        };
        let trying = Trying {
            source: Some(self.source),
            known,
            old: self.unmet,
        };
        push_asked(self.source.text, scene, unmet, edge, notes);
        push_choices(trying, unmet.choices.as_slice(), notes);
        if let Some(edge) = edge {
            push_silent_compare(block, edge.to, unmet, notes);
        }
        missing.take(known, unmet)
    }

    /// Adds what there is to say of a fault, as far as that is not said where there is more of the same line; and whether it may follow from what is
    /// missing before.
    fn push_notes(
        self,
        scene: &Scene<'_>,
        unmet: &Unmet,
        is_more: bool,
        missing: &mut Missing,
        notes: &mut TextBuffer,
    ) -> bool {
        let means = self.means;
        let index = unmet.site.block;
        let Some(block) = scene.function.blocks.as_slice().get(index) else {
            return false;
        };
        if !is_more {
            push_asked_range(scene, block, unmet, notes);
        }
        match means.table(scene.program, scene.function, index, block) {
            Some((table, _)) => self.push_table_notes(scene, block, &table, unmet, missing, notes),
            None => false,
        }
    }

    /// A fault with what there is to say of it; `is_more` where the last finding is of the same line and rule.
    fn finding_of(self, unmet: &Unmet, is_more: bool, missing: &mut Missing) -> Finding {
        let means = self.means;
        let matched = self.matched;
        let index = unmet.site.function;
        let scene = Scene::of(means.alloc, &matched.graph.program, &matched.whole, index);
        let mut notes = TextBuffer::new(means.alloc);
        let follows = match &means.found(scene) {
            Some(scene) => self.push_notes(scene, unmet, is_more, missing, &mut notes),
            None => false,
        };
        Finding {
            number: unmet.number,
            line: unmet.site.line,
            cause: None,
            follows,
            notes: means.text(notes),
        }
    }

    /// All faults of the text.
    fn findings(self) -> Vec<Finding> {
        let means = self.means;
        let mut findings: Vec<Finding> = Vec::new(means.alloc);
        let mut missing = Missing {
            function: 0,
            forms: Vec::new(means.alloc),
        };
        for unmet in self.unmet {
            let is_more = match findings.last() {
                Some(last) => last.is_of(unmet.number, unmet.site.line),
                None => false,
            };
            let found = self.finding_of(unmet, is_more, &mut missing);
            push_found(means, &mut findings, found);
        }
        findings
    }
}

/// All faults of numbers of a text, as far as the effort reaches.
pub fn number_findings(
    alloc: Global,
    source: Source<'_>,
    matched: &Matched,
    effort: &Effort,
) -> Result<Vec<Finding>, Unanswered> {
    let means = Means::new(alloc, effort);
    let all = all_unmet(&means, matched);
    let telling = Telling {
        means: &means,
        source,
        matched,
        unmet: all.as_slice(),
    };
    let findings = telling.findings();
    means.finish()?;
    Ok(findings)
}
