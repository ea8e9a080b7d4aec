//! The first frame of a serial run, with its arguments.

ghost use Rattle.std.specs.Prelude.{◌≡◌, ◌<◌, ◌≤◌, IfOk, Some, length, slice_get};
ghost use Rattle.program.specs.declared.function.Function.{Function};
ghost use Rattle.serial_stack.specs.Starts.{Begins};

use crate::stack::Stack;
use frame::{Role, Wait};
use frame_engine::{Flat, Frame, Place, first_registers, frame_cells, function_at};
use lists::OutOfMemory;
use program::{BlockId, Program};
use std::alloc::Global;

impl Stack {
    /// The first frame of a run, with its arguments, behind the numbers of the globals.
    pub fn begin(
        alloc: Global,
        program: &Program,
        arguments: &[i64],
        numbers: Vec<i64>,
        moves: usize,
    ) -> Result<Stack, OutOfMemory>
        requires there { program.now.main.0 < length program.now.functions }
        requires room { (f : Function) → slice_get program.now.functions program.now.main.0 ≡ Some f → length arguments.now ≤ length f.registers }
        requires entry { (f : Function) → slice_get program.now.functions program.now.main.0 ≡ Some f → 0 < length f.blocks }
        ensures begins { IfOk result (λ k. Begins program.now arguments.now numbers.items k) }
        ensures moves { IfOk result (λ k. length k.moves.items ≡ moves) }
    {
        let main = function_at(program, program.main);
        let Some(room) = frame_cells(main.allocas.as_slice()) else {
            return Err(OutOfMemory);
        };
        let home = numbers.len();
        let Some(end) = home.checked_add(room) else {
            return Err(OutOfMemory);
        };
        let mut cells = Flat { cells: numbers };
        cells.grow(room)?;
        let registers = first_registers(alloc, arguments, main.registers.len())?;
        let words = vec![in alloc; 0; moves]?;
        let top = Frame {
            function: program.main,
            place: Place {
                block: BlockId(0),
                index: 0,
            },
            registers,
            home: (home as u64).cast_signed(),
            made: 0,
            waits: Wait::Nothing,
            role: Role::Body,
            depth: 0,
        };
        Ok(Stack {
            alloc,
            top: Box::new(alloc, top)?,
            below: Vec::new(alloc),
            spare: Vec::new(alloc),
            cells,
            end,
            moves: words,
        })
    }
}
