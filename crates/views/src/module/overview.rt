//! What `show` tells: what the verifier knows of a module, block for block.

use crate::module::form::{name_of, push_facts};
use crate::module::name::register_names;
use crate::module::open::{Blocks, open_regions};
use crate::module::range::{Range, range_of};
use crate::module::usage::{most_cells, usage_of};
use cfg::Graph;
use ir_annotation::{push_foot, push_left, push_pending};
use ir_reader::read;
use lists::TextBuffer;
use program::{Block, Function, Parameter, Program, RegisterId};
use ranges::{start_facts, stated};
use refusal::Refused;
use region_match::{Regions, Task, regions};
use std::alloc;
use std::alloc::AllocError;
use std::hash::RandomState;
use syntax::{BlockNotes, Left, Module, Pending, Zone};
use verifier::Verified;

/// A module that is shown: what it spells and what it means.
#[derive(Clone, Copy)]
struct Subject<'a> {
    alloc: alloc::Global,
    module: &'a Module,
    /// By function: the names of its registers.
    names: &'a [Vec<&'a str>],
    verified: &'a Verified,
    graph: &'a Graph,
    program: &'a Program,
    regions: &'a Regions,
}

/// A function of it.
#[derive(Clone, Copy)]
struct Part<'a> {
    subject: Subject<'a>,
    index: usize,
    spelled: &'a syntax::Function,
    function: &'a Function,
    names: &'a [&'a str],
    blocks: Blocks<'a>,
}

fn push_totals(out: &mut TextBuffer, subject: Subject<'_>) {
    let budget = subject.verified.budget();
    let depth = subject.verified.depth();
    let cells = most_cells(subject.program, depth);
    writeln!(
        out,
        "budget {budget}\ndepth {depth}\ncells of frames {cells} for each worker"
    );
}

fn push_globals(out: &mut TextBuffer, program: &Program) {
    for global in program.globals.as_slice() {
        let name = global.name.as_str();
        let cells = global.cells;
        writeln!(out, "global @{name} cells {cells}");
    }
}

/// The parameters of `main` with the numbers that they may be.
fn push_ranges(out: &mut TextBuffer, subject: Subject<'_>) -> Result<(), Refused> {
    let index = subject.program.main.0;
    let main = subject.program.functions.as_slice().get(index);
    if let (Some(main), Some(names)) = (main, subject.names.get(index)) {
        let facts = stated(subject.alloc, main.requirements.as_slice())?;
        for index in 0..main.parameters.len() {
            let register = RegisterId(index);
            let name = name_of(names.as_slice(), register);
            let Range { low, high } = range_of(register, facts.as_slice());
            writeln!(out, "argument %{name} from {low} to {high}");
        }
    }
    Ok(())
}

/// The label of a block.
fn label_of<'a>(spelled: &'a syntax::Function, block: usize) -> &'a str {
    match spelled.blocks.as_slice().get(block) {
        Some(block) => block.label.as_str(),
        None => "?",
    }
}

fn push_task(out: &mut TextBuffer, part: Part<'_>, block: usize) {
    match part.blocks.tasks.get(block) {
        Some(Task::Child(detach)) => {
            let label = label_of(part.spelled, detach.0);
            writeln!(out, "    task child of %{label}");
        }
        Some(Task::Body) => out.push_str("    task body\n"),
        Some(Task::Unreached) | None => out.push_str("    task none\n"),
    }
}

fn push_open(out: &mut TextBuffer, names: &[&str], open: &[RegisterId]) {
    for region in open {
        let name = name_of(names, *region);
        writeln!(out, "    open %{name}");
    }
}

/// What the text notes of a block.
enum Note<'a> {
    Pending(&'a Pending),
    Foot(&'a Zone),
    Left(&'a Left),
}

fn push_note(alloc: alloc::Global, out: &mut TextBuffer, note: Note<'_>) -> Result<(), AllocError> {
    let mut words = String::new(alloc);
    match note {
        Note::Pending(pending) => push_pending(&mut words, pending),
        Note::Foot(foot) => push_foot(&mut words, foot),
        Note::Left(left) => push_left(&mut words, left),
    }?;
    writeln!(out, "    {words}");
    Ok(())
}

/// What the block uses itself.
fn push_usage(out: &mut TextBuffer, part: Part<'_>, body: &Block) {
    let subject = part.subject;
    let usage = usage_of(subject.program, subject.verified.table(), part.index, body);
    let calls = usage.self_calls;
    let instructions = usage.instructions;
    writeln!(out, "    uses {calls} {instructions}");
}

/// The zones that are pending, and those of the block's own task.
fn push_zones(
    alloc: alloc::Global,
    out: &mut TextBuffer,
    notes: &BlockNotes,
) -> Result<(), AllocError> {
    for pending in notes.pending.as_slice() {
        push_note(alloc, out, Note::Pending(pending))?;
    }
    for foot in notes.foot.as_slice() {
        push_note(alloc, out, Note::Foot(foot))?;
    }
    Ok(())
}

fn push_block(
    out: &mut TextBuffer,
    part: Part<'_>,
    index: usize,
    block: &syntax::Block,
    body: &Block,
    open: &[RegisterId],
) -> Result<(), Refused> {
    let alloc = part.subject.alloc;
    let label = block.label.as_str();
    let line = block.line;
    writeln!(out, "  block %{label} line {line}");
    push_task(out, part, index);
    push_open(out, part.names, open);
    push_zones(alloc, out, &block.notes)?;
    let facts = start_facts(alloc, part.function, index, body)?;
    push_facts(alloc, out, part.names, facts.as_slice())?;
    push_note(alloc, out, Note::Left(&block.notes.left))?;
    push_usage(out, part, body);
    Ok(())
}

/// A function with what the phases know of it; `index` is its place in the module.
fn part_of<'a>(
    subject: Subject<'a>,
    index: usize,
    spelled: &'a syntax::Function,
    function: &'a Function,
) -> Option<Part<'a>> {
    let edges = subject.graph.functions.as_slice().get(index)?;
    let tasks = subject.regions.functions.as_slice().get(index)?;
    Some(Part {
        subject,
        index,
        spelled,
        function,
        names: subject.names.get(index)?.as_slice(),
        blocks: Blocks::new(
            function.blocks.as_slice(),
            edges.blocks.as_slice(),
            tasks.tasks.as_slice(),
        )?,
    })
}

fn push_function(
    out: &mut TextBuffer,
    subject: Subject<'_>,
    index: usize,
    spelled: &syntax::Function,
    function: &Function,
) -> Result<(), Refused> {
    let name = spelled.name.as_str();
    let line = spelled.line;
    writeln!(out, "function @{name} line {line}");
    let Some(part) = part_of(subject, index, spelled, function) else {
        return Ok(());
    };
    let open = open_regions(subject.alloc, part.blocks)?;
    for (index, block) in spelled.blocks.as_slice().iter().enumerate() {
        if let (Some(body), Some(open)) = (part.blocks.bodies.get(index), open.get(index)) {
            push_block(out, part, index, block, body, open.as_slice())?;
        }
    }
    Ok(())
}

fn overview_of(subject: Subject<'_>) -> Result<String, Refused> {
    let mut out = TextBuffer::new(subject.alloc);
    push_totals(&mut out, subject);
    push_globals(&mut out, subject.program);
    push_ranges(&mut out, subject)?;
    let functions = subject.program.functions.as_slice();
    for (index, spelled) in subject.module.functions.as_slice().iter().enumerate() {
        if let Some(function) = functions.get(index) {
            push_function(&mut out, subject, index, spelled, function)?;
        }
    }
    Ok(out.finish()?)
}

/// What the verifier knows of a module that it took from this text, a line for each fact. First the budget, the depth, the cells that
/// frames take at most, the globals and the ranges of `main`'s parameters; then for each block its task, the regions in which children may
/// still run, the zones that are pending and those of its own task, what is known at its start, what is left there and what it uses
/// itself.
///
/// # Errors
///
/// Memory was refused. A text that is not the module's may be refused as one.
pub fn show(
    alloc: alloc::Global,
    state: RandomState,
    text: &[u8],
    verified: &Verified,
) -> Result<String, Refused> {
    let module = read(alloc, state, text)?;
    let names = register_names(alloc, &module)?;
    let graph = verified.graph();
    let regions = regions(alloc, graph)?;
    overview_of(Subject {
        alloc,
        module: &module,
        names: names.as_slice(),
        verified,
        graph,
        program: verified.program(),
        regions: &regions,
    })
}
