//! What a frame waits for and what it runs (activation record), and the block of a number.

ghost use Rattle.std.specs.Prelude.{◌≡◌, slice_get};
ghost use Rattle.std.specs.Option.{option_copied};
ghost use Rattle.semantics.specs.Frames as frames;

use semantics::{Block, BlockId, FunctionId, Program, RegisterId};

/// What a frame waits for.
#[derive(Clone, Copy, PartialEq, Eq)]
pub enum Wait {
    Nothing,
    /// The end of its children within the region.
    Region(RegisterId),
    /// The return of its child of this number; `register` takes the result.
    Call {
        child: u64,
        register: Option<RegisterId>,
    },
}

/// What a frame runs.
#[derive(Clone, Copy, PartialEq, Eq)]
pub enum Role {
    /// The body of a function, to its return.
    Body,
    /// A detached block, to a reattach within the region; its parent goes on at `continuation`.
    Child {
        region: RegisterId,
        continuation: BlockId,
    },
}

/// The item at the index, where there is one.
fn item_at<T>(items: &[T], index: usize) -> Option<&T>
    ensures { option_copied result ≡ slice_get items.now index }
{
    items.get(index)
}

/// The block of a function, where there is one.
pub fn block_at(program: &Program, function: FunctionId, block: BlockId) -> Option<&Block>
    ensures { option_copied result ≡ frames.block_at program.now function.0 block.0 }
{
    let found = item_at(program.functions.as_slice(), function.0)?;
    item_at(found.blocks.as_slice(), block.0)
}
