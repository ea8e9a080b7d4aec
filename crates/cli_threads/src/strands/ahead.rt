//! What stands ahead of a frame: so many plain instructions, and what comes behind them.

use frame::block_at;
use lists::OutOfMemory;
use program::{Block, Function, Instruction, Program, Terminator};
use shared_run::CodePlace;
use std::alloc::Global;

/// What a frame does behind its plain instructions.
#[derive(Clone, Copy)]
pub(crate) enum Then {
    /// It goes on in another block.
    Enter,
    Call,
    Return,
    Detach,
    /// The region's number.
    Reattach(usize),
    Sync(usize),
    /// An array store.
    Zeros,
}

impl Then {
    /// Whether it makes a task, ends one, or waits for some.
    pub(crate) fn is_of_tasks(self) -> bool {
        matches!(self, Then::Detach | Then::Reattach(_) | Then::Sync(_))
    }
}

/// What a frame does next: so many plain instructions, and one more.
#[derive(Clone, Copy)]
pub(crate) struct Ahead {
    pub(crate) plain: u64,
    pub(crate) then: Then,
}

/// By function, block and place: how many plain instructions follow.
#[derive(Drop)]
pub(crate) struct Runs {
    functions: Vec<Vec<Vec<u64>>>,
}

/// What an instruction is that is not plain.
fn border(instruction: &Instruction) -> Option<Then> {
    match instruction {
        Instruction::Call { .. } => Some(Then::Call),
        Instruction::StoreZeros { .. } => Some(Then::Zeros),
        _ => None,
    }
}

fn ending(terminator: &Terminator) -> Then {
    match terminator {
        Terminator::Return { .. } => Then::Return,
        Terminator::Detach { .. } => Then::Detach,
        Terminator::Reattach { region, .. } => Then::Reattach(region.0),
        Terminator::Sync { region, .. } => Then::Sync(region.0),
        Terminator::Jump { .. } | Terminator::Branch { .. } | Terminator::Switch { .. } => {
            Then::Enter
        }
    }
}

/// How many plain instructions follow each place of the block, up to its end.
fn runs_in(alloc: Global, block: &Block) -> Result<Vec<u64>, OutOfMemory> {
    let steps = block.steps.as_slice();
    let mut runs = vec![in alloc; 0u64; steps.len()]?;
    let mut run = 0u64;
    for place in (0..steps.len()).rev() {
        run = match steps.get(place).and_then(|step| border(&step.instruction)) {
            Some(_) => 0,
            None => run.saturating_add(1),
        };
        if place < runs.len() {
            runs[place] = run;
        }
    }
    Ok(runs)
}

fn runs_of(alloc: Global, function: &Function) -> Result<Vec<Vec<u64>>, OutOfMemory> {
    let mut blocks = Vec::new(alloc);
    for block in function.blocks.as_slice() {
        blocks.push(runs_in(alloc, block)?)?;
    }
    Ok(blocks)
}

impl Runs {
    pub(crate) fn of(alloc: Global, program: &Program) -> Result<Runs, OutOfMemory> {
        let mut functions = Vec::new(alloc);
        for function in program.functions.as_slice() {
            functions.push(runs_of(alloc, function)?)?;
        }
        Ok(Runs { functions })
    }

    /// How many plain instructions follow the place.
    fn plain(&self, at: CodePlace) -> Option<u64> {
        let blocks = self.functions.as_slice().get(at.function.0)?;
        let places = blocks.as_slice().get(at.block.0)?;
        places.as_slice().get(at.index).copied()
    }

    /// What stands ahead of a frame in its block, where it goes on at this place.
    pub(crate) fn ahead(&self, program: &Program, at: CodePlace) -> Ahead {
        let plain = self.plain(at).unwrap_or(0);
        let then = match block_at(program, at.function, at.block) {
            Some(block) => behind(block, at.index.saturating_add(plain as usize)),
            None => Then::Enter,
        };
        Ahead { plain, then }
    }
}

/// What stands at this place of the block, which is not plain.
fn behind(block: &Block, place: usize) -> Then {
    match (block.steps.as_slice().get(place), &block.ending) {
        (Some(step), _) => border(&step.instruction).unwrap_or(Then::Enter),
        (None, Some(found)) => ending(&found.terminator),
        (None, None) => Then::Enter,
    }
}
