//! The cells of a slot's allocas: a block that is large enough, or a new one (frame allocation).

ghost use Rattle.std.specs.Prelude.{◌≡◌, ◌+◌, ◌++◌, ◌<◌, ℕ, IfOk, OnOk, length, max, replicate, vec_len};
ghost use Rattle.std.specs.Vec.{with_item};
ghost use Rattle.schedule_workers.specs.Rooms.{IsRoom, IsRoomier, empty_at};

use crate::run::{Block, Run};
use lists::OutOfMemory;

impl Run {
    /// Slots up to this one have blocks from here on.
    fn reach(&mut self, slot: usize) -> Result<(), OutOfMemory>
        ensures only { self.new ≡ record self.old { blocks = self.new.blocks } }
        ensures kept { (n : ℕ) × (self.new.blocks.items ≡ self.old.blocks.items ++ replicate n (empty_at self.old.end)) }
        ensures there { OnOk result (slot < length self.new.blocks.items) }
    {
        if slot < self.blocks.len() {
            return Ok(());
        }
        let Some(count) = slot.checked_add(1) else {
            return Err(OutOfMemory);
        };
        let empty = Block {
            start: self.end,
            cells: 0,
        };
        self.blocks.resize(count, empty)?;
        Ok(())
    }

    /// A block for so many cells in the slot: the one that it has, where that is large enough, else one at the end. The slot has it only
    /// once a frame goes on there.
    pub(crate) fn make_room(&mut self, slot: usize, cells: usize) -> Result<Block, OutOfMemory>
        ensures roomier { IsRoomier self.old self.new }
        ensures room { IfOk result (λ b. IsRoom self.new slot cells b) }
    {
        self.reach(slot)?;
        let own = self.blocks[slot];
        let block = if cells <= own.cells {
            own
        } else {
            Block {
                start: self.end,
                cells,
            }
        };
        let Some(end) = block.start.checked_add(block.cells) else {
            return Err(OutOfMemory);
        };
        let missing = end.max(self.end).saturating_sub(self.cells.cells.len());
        self.cells.grow(missing)?;
        Ok(block)
    }

    /// The slot has the block from here on.
    pub(crate) fn give(&mut self, slot: usize, block: Block)
        requires slot { slot < vec_len self.old.blocks }
        requires end { block.start + block.cells < 18446744073709551616 }
        ensures { self.new ≡ record self.old { blocks = with_item self.old.blocks slot block; end = max self.old.end (block.start + block.cells) } }
    {
        self.blocks[slot] = block;
        self.end = self.end.max(block.start + block.cells);
    }
}
