//! The run before its first event: worker 0 runs `main`, the others are idle.

ghost use Rattle.std.specs.Prelude.{◌≡◌, ◌<◌, ◌≤◌, IfOk, None, Some, length, replicate, slice_get, slice_set};
ghost use Rattle.program.specs.declared.function.Function.{Function};
ghost use Rattle.schedule_workers.specs.Follows.{AreGiven};
ghost use Rattle.schedule_workers.specs.Roots.{HasBlock, IsRoot};
ghost use Rattle.schedule_workers.specs.Stalls.{StallsAgree, no_blocks};
ghost use Rattle.schedule_workers.specs.Starts.{Begins};

use crate::activation::Activation;
use crate::run::{Block, Run};
use cactus::Cactus;
use frame::{Role, Wait};
use frame_engine::{Flat, Frame, Place, first_registers, frame_cells, function_at};
use lists::OutOfMemory;
use program::{BlockId, FunctionId, Program};
use std::alloc::Global;

/// The block for the slot; slots before it have empty ones.
fn first_blocks(alloc: Global, slot: usize, block: Block) -> Result<Vec<Block>, OutOfMemory>
    ensures { IfOk result (λ blocks. HasBlock blocks.items slot block) }
{
    let Some(count) = slot.checked_add(1) else {
        return Err(OutOfMemory);
    };
    let empty = Block {
        start: block.start,
        cells: 0,
    };
    let mut blocks = vec![in alloc; empty; count]?;
    blocks[slot] = block;
    Ok(blocks)
}

/// Worker 0 runs the task with this top, the others are idle.
fn first_hands(
    alloc: Global,
    workers: usize,
    slot: usize,
) -> Result<Vec<Option<usize>>, OutOfMemory>
    requires { 0 < workers }
    ensures { IfOk result (λ hands. hands.items ≡ slice_set (replicate workers None) 0 (Some slot)) }
{
    let mut hands = vec![in alloc; None; workers]?;
    hands[0] = Some(slot);
    Ok(hands)
}

impl Activation {
    /// The frame of `main`, which has so many registers, with its allocas from here on; worker 0 begins it.
    fn root(
        alloc: Global,
        main: FunctionId,
        arguments: &[i64],
        registers: usize,
        start: usize,
    ) -> Result<Activation, OutOfMemory>
        requires room { length arguments.now ≤ registers }
        requires start { start < 9223372036854775808 }
        ensures { IfOk result (IsRoot main arguments.now registers start) }
    {
        let registers = first_registers(alloc, arguments, registers)?;
        let frame = Frame {
            function: main,
            place: Place {
                block: BlockId(0),
                index: 0,
            },
            registers,
            home: (start as u64).cast_signed(),
            made: 0,
            waits: Wait::Nothing,
            role: Role::Body,
            depth: 0,
        };
        Activation::new(alloc, frame, 0)
    }
}

impl Run {
    /// The state before the first event, over the numbers of the globals: worker 0 runs the root at the entry of `main`, the other
    /// workers are idle.
    ///
    /// # Errors
    ///
    /// Memory was refused.
    pub fn start(
        alloc: Global,
        program: &Program,
        arguments: &[i64],
        numbers: Vec<i64>,
        workers: usize,
        moves: usize,
    ) -> Result<Run, OutOfMemory>
        requires there { program.now.main.0 < length program.now.functions }
        requires room { (f : Function) → slice_get program.now.functions program.now.main.0 ≡ Some f → length arguments.now ≤ length f.registers }
        requires entry { (f : Function) → slice_get program.now.functions program.now.main.0 ≡ Some f → 0 < length f.blocks }
        requires workers { 0 < workers }
        ensures begins { IfOk result (Begins program.now arguments.now numbers.items) }
        ensures workers { IfOk result (λ k. length k.hands.items ≡ workers) }
        ensures moves { IfOk result (λ k. length k.moves.items ≡ moves) }
        ensures given { IfOk result (λ k. AreGiven k.cactus) }
        ensures stalls { IfOk result (λ k. StallsAgree no_blocks k.cactus) }
    {
        let main = function_at(program, program.main);
        let start = numbers.len();
        let Some(cells) = frame_cells(main.allocas.as_slice()) else {
            return Err(OutOfMemory);
        };
        let Some(end) = start.checked_add(cells) else {
            return Err(OutOfMemory);
        };
        let mut row = Flat { cells: numbers };
        row.grow(cells)?;
        let root = Activation::root(alloc, program.main, arguments, main.registers.len(), start)?;
        let mut cactus = Cactus::new(alloc);
        let slot = cactus.add_root(root)?;
        Ok(Run {
            alloc,
            cactus,
            cells: row,
            blocks: first_blocks(alloc, slot, Block { start, cells })?,
            lent: Block {
                start: end,
                cells: 0,
            },
            end,
            hands: first_hands(alloc, workers, slot)?,
            instructions: 0,
            peak: 1,
            result: None,
            moves: vec![in alloc; 0; moves]?,
        })
    }
}
