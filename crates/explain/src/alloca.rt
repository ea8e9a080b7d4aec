//! What is to be stored before the cells of an alloca are read.

use crate::trial::fault_of;
use explain_facts::{Finding, Matched, Means, Put, Scene, Source, match_text, with_line};
use footprints::address_cell;
use lists::TextBuffer;
use program::{Alloca, Argument, Block, Instruction, ObjectName, Step};
use ranges::Unanswered;
use std::alloc::Global;
use verifier::Effort;

/// A line of a text that reads cells without values, and what is told of it.
#[derive(Drop)]
struct Reading<'a> {
    means: Means<'a>,
    source: Source<'a>,
    line: u32,
    notes: TextBuffer,
}

/// A store of zeros to all cells of an alloca of this name.
fn store_line(alloc: Global, name: &str, cells: u64) -> TextBuffer {
    let mut line = TextBuffer::new(alloc);
    if cells == 1 {
        write!(line, "store i64 0, ptr %{name}");
    } else {
        write!(line, "store [{cells} x i64] zeroinitializer, ptr %{name}");
    }
    line
}

impl Reading<'_> {
    /// Whether the text with this line behind that one is refused no more by 402 at the reading line, which is then the next one.
    fn is_better(&self, after: u32, new: &str) -> bool {
        let means = &self.means;
        let put = Put::Before(after.saturating_add(1));
        let changed = means.made(with_line(means.alloc, self.source.text, put, new));
        match fault_of(means, self.source.state, changed.as_str()) {
            Some(Some((number, at))) => {
                number > 402 || (number == 402 && at > self.line.saturating_add(1))
            }
            Some(None) => true,
            None => false,
        }
    }

    /// Which alloca is read in the line, and what has to be stored to it and where: behind it, where the text with that is refused no more for what this
    /// line reads.
    fn push_alloca(&mut self, name: &str, alloca: &Alloca) {
        let line = self.line;
        let cells = alloca.cells;
        let made = alloca.line;
        writeln!(
            self.notes,
            "  read: %{name}, of {cells} cells, made in line {made}; each path from there to line {line} has to store it whole"
        );
        if cells > 1 {
            self.notes
                .push_str("    a store to one of several cells does not count\n");
        }
        let new = store_line(self.means.alloc, name, cells);
        let new = self.means.text(new);
        if self.is_better(made, new.as_str()) {
            writeln!(self.notes, "    try: {new}, after line {made}");
        }
    }

    /// What is told of an object, if it is an alloca.
    fn push_object(&mut self, scene: &Scene<'_>, object: ObjectName) {
        if let ObjectName::Alloca(id) = object {
            if let Some(alloca) = scene.function.allocas.as_slice().get(id.0) {
                self.push_alloca(scene.register(alloca.register), alloca);
            }
        }
    }

    /// What is told of the objects that are passed to a call.
    fn push_arguments(&mut self, scene: &Scene<'_>, arguments: &[Argument]) {
        for argument in arguments {
            if let Argument::Object(object) = argument {
                self.push_object(scene, *object);
            }
        }
    }

    fn push_step(&mut self, scene: &Scene<'_>, block: &Block, step: &Step) {
        match &step.instruction {
            Instruction::Load { address, .. } | Instruction::AtomicAdd { address, .. } => {
                if let Some(cell) = address_cell(block.steps.as_slice(), *address) {
                    self.push_object(scene, cell.object);
                }
            }
            Instruction::Call { arguments, .. } => {
                self.push_arguments(scene, arguments.as_slice())
            }
            _ => {}
        }
    }

    /// What is told of the line's step, if it stands in this block.
    fn push_block(&mut self, scene: &Scene<'_>, block: &Block) {
        for step in block.steps.as_slice() {
            if step.line == self.line {
                self.push_step(scene, block, step);
            }
        }
    }

    fn push_module(&mut self, matched: &Matched) {
        let program = &matched.graph.program;
        for index in 0..program.functions.len() {
            let scene = Scene::of(self.means.alloc, program, &matched.whole, index);
            if let Some(scene) = self.means.found(scene) {
                for block in scene.function.blocks.as_slice() {
                    self.push_block(&scene, block);
                }
            }
        }
    }
}

/// 402 of a line that reads cells without values, with what there is to say of it.
pub fn alloca_finding(
    alloc: Global,
    source: Source<'_>,
    line: u32,
    effort: &Effort,
) -> Result<Finding, Unanswered> {
    let mut reading = Reading {
        means: Means::new(alloc, effort),
        source,
        line,
        notes: TextBuffer::new(alloc),
    };
    let matched = match_text(alloc, source.state, source.text.as_bytes(), false);
    if let Some(matched) = reading.means.found(matched) {
        reading.push_module(&matched);
    }
    let Reading { means, notes, .. } = reading;
    let notes = means.text(notes);
    means.finish()?;
    Ok(Finding {
        number: 402,
        line,
        cause: None,
        follows: false,
        notes,
    })
}
