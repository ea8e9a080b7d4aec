//! A function and a block by number, the cells of a frame's allocas, and the most phis of an edge.

ghost use Rattle.std.specs.Prelude.{◌≡◌, ◌<◌, ◌≤◌, IfNone, IfSome, Some, length, map, slice_get, sum};
ghost use Rattle.program.specs.declared.function.Alloca.{Alloca};
ghost use Rattle.frame_engine.specs.Fits.{HasMoves};

use lists::Seq;
use program::{Alloca, Block, BlockId, Function, FunctionId, Program};

/// The function, which is there.
#[inline(always)]
pub fn function_at(program: &Program, function: FunctionId) -> &Function
    requires { function.0 < length program.now.functions }
    ensures { slice_get program.now.functions function.0 ≡ Some result.now }
{
    &program.functions.as_slice()[function.0]
}

/// The block, which is there.
#[inline(always)]
pub fn block_at(blocks: &Seq<Block>, block: BlockId) -> &Block
    requires { block.0 < length blocks.now }
    ensures { slice_get blocks.now block.0 ≡ Some result.now }
{
    &blocks.as_slice()[block.0]
}

/// The cells of a function's allocas; none where 64 bits don't count them.
#[inline(always)]
pub fn frame_cells(allocas: &[Alloca]) -> Option<usize>
    ensures some { IfSome result (λ n. n ≡ sum (map (λ (a : Alloca). a.cells) allocas.now)) }
    ensures none { IfNone result (18446744073709551616 ≤ sum (map (λ (a : Alloca). a.cells) allocas.now)) }
{
    let mut cells: usize = 0;
    for alloca in allocas {
        match cells.checked_add(alloca.cells as usize) {
            Some(more) => cells = more,
            None => return None,
        }
    }
    Some(cells)
}

/// As many moves as any edge of the program makes at a time.
pub fn most_moves(program: &Program) -> usize
    ensures { HasMoves program.now result }
{
    let mut most = 0;
    for function in program.functions.as_slice() {
        most = most.max(function.registers.len());
    }
    most
}
