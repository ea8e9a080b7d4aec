//! What a block itself uses: self calls, and instructions with those of the functions it calls.

use cost_table::Table;
use program::{Block, Instruction, Program};

/// Self calls, and instructions with all that calls of other functions cost; the greatest number stands for more.
#[derive(Clone, Copy)]
pub(crate) struct Usage {
    pub self_calls: u64,
    pub instructions: u64,
}

/// What any call of the function costs at most.
fn whole_cost(program: &Program, table: &Table, function: usize) -> u64 {
    match program.functions.as_slice().get(function) {
        Some(callee) => table
            .cost(function, callee.measure.bound)
            .unwrap_or(u64::MAX),
        None => 0,
    }
}

/// What the block uses from its start to its end, its terminator counted.
pub(crate) fn usage_of(program: &Program, table: &Table, function: usize, block: &Block) -> Usage {
    let mut usage = Usage {
        self_calls: 0,
        instructions: 1,
    };
    for step in block.steps.as_slice() {
        usage.instructions = usage.instructions.saturating_add(1);
        match &step.instruction {
            Instruction::Call { callee, .. } if callee.0 == function => {
                usage.self_calls = usage.self_calls.saturating_add(1);
            }
            Instruction::Call { callee, .. } => {
                let cost = whole_cost(program, table, callee.0);
                usage.instructions = usage.instructions.saturating_add(cost);
            }
            _ => {}
        }
    }
    usage
}

/// The cells that the frames of a serial run take at most at once, and so those of each worker's share: those of the largest frame, in each
/// frame of the depth.
pub(crate) fn most_cells(program: &Program, depth: u64) -> u64 {
    let mut most = 0u64;
    for function in program.functions.as_slice() {
        let mut cells = 0u64;
        for alloca in function.allocas.as_slice() {
            cells = cells.saturating_add(alloca.cells);
        }
        most = most.max(cells);
    }
    most.saturating_mul(depth)
}
