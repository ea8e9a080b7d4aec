//! A run again, in lists of its own (clone).

ghost use Rattle.std.specs.Prelude.{IfOk};
ghost use Rattle.schedule_workers.specs.Copying.{IsCopy, IsFrameCopy};

use crate::activation::Activation;
use crate::run::Run;
use cactus::FrameData;
use frame_engine::{Flat, Frame, Place};
use lists::OutOfMemory;
use std::alloc::{AllocError, Global};

/// The frame again, with registers in this list, whatever it holds.
///
/// # Errors
///
/// Memory was refused.
pub fn frame_copy_in(mut registers: Vec<i64>, frame: &Frame) -> Result<Frame, AllocError>
    ensures { IfOk result (IsFrameCopy frame.now) }
{
    registers.clear();
    registers.extend_from_slice(frame.registers.as_slice())?;
    Ok(Frame {
        function: frame.function,
        place: Place {
            block: frame.place.block,
            index: frame.place.index,
        },
        registers,
        home: frame.home,
        made: frame.made,
        waits: frame.waits,
        role: frame.role,
        depth: frame.depth,
    })
}

/// The frame again, with registers of its own.
fn frame_copy(frame: &Frame) -> Result<Frame, AllocError>
    ensures { IfOk result (IsFrameCopy frame.now) }
{
    let registers = Vec::with_capacity(*frame.registers.allocator(), frame.registers.len())?;
    frame_copy_in(registers, frame)
}

impl Clone for Activation {
    ghost use Rattle.schedule_workers.specs.Copying.{IsActivationCopy};

    ghost is_clone = { IsActivationCopy };

    fn clone(&self) -> Result<Activation, AllocError> {
        Ok(Activation {
            frame: frame_copy(&self.frame)?,
            counts: self.counts.copy()?,
            callee: self.callee,
            runner: self.runner,
            stalled_in: self.stalled_in,
        })
    }
}

impl FrameData for Activation {
    fn allocator(&self) -> Global {
        self.counts.allocator()
    }
}

impl Run {
    /// A copy of the run.
    ///
    /// # Errors
    ///
    /// Memory was refused.
    pub fn copy(&self) -> Result<Run, OutOfMemory>
        ensures { IfOk result (IsCopy self.now) }
    {
        let alloc = self.alloc;
        Ok(Run {
            alloc,
            cactus: self.cactus.clone()?,
            cells: Flat {
                cells: Vec::from_slice(alloc, self.cells.cells.as_slice())?,
            },
            blocks: Vec::from_slice(alloc, self.blocks.as_slice())?,
            lent: self.lent,
            end: self.end,
            hands: Vec::from_slice(alloc, self.hands.as_slice())?,
            instructions: self.instructions,
            peak: self.peak,
            result: self.result,
            moves: Vec::from_slice(alloc, self.moves.as_slice())?,
        })
    }
}
