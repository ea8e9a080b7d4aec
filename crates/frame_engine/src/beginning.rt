//! A blank frame, and the registers that a function begins with.

ghost use Rattle.std.specs.Prelude.{◌≡◌, ◌≤◌, ◌-◌, ◌++◌, [], IfOk, length, pos, replicate};

use crate::activation::Frame;
use crate::turning::Place;
use frame::{Role, Wait};
use lists::OutOfMemory;
use program::{BlockId, FunctionId};
use std::alloc::Global;

/// A frame to be made something of.
pub fn blank(alloc: Global) -> Frame
    ensures { result.registers.items ≡ [] }
{
    Frame {
        function: FunctionId(0),
        place: Place {
            block: BlockId(0),
            index: 0,
        },
        registers: Vec::new(alloc),
        home: 0,
        made: 0,
        waits: Wait::Nothing,
        role: Role::Body,
        depth: 0,
    }
}

/// The arguments, and words for the other registers.
pub fn first_registers(
    alloc: Global,
    arguments: &[i64],
    registers: usize,
) -> Result<Vec<i64>, OutOfMemory>
    requires { length arguments.now ≤ registers }
    ensures { IfOk result (λ words. words.items ≡ arguments.now ++ replicate (registers - length arguments.now) (pos 0)) }
{
    let mut words = Vec::new(alloc);
    words.extend_from_slice(arguments)?;
    words.resize(registers, 0)?;
    Ok(words)
}
