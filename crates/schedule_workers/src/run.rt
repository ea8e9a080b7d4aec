//! What a run of workers is made of: cactus, cells, blocks, hands, and its counts.

use crate::activation::Activation;
use cactus::Cactus;
use frame_engine::Flat;
use std::alloc::Global;

/// The cells that a slot's frames take for their allocas, one after the other.
#[derive(Clone, Copy)]
pub struct Block {
    pub start: usize,
    pub cells: usize,
}

/// A run by workers, between two events.
pub struct Run {
    pub alloc: Global,
    pub cactus: Cactus<Activation>,
    /// The globals, and after them the blocks.
    pub cells: Flat,
    /// By slot; of slots whose frames need none yet there may be none.
    pub blocks: Vec<Block>,
    /// Cells that are lent to workers for frames that they make apart from the run.
    pub lent: Block,
    /// Cells from here on belong to no block and are not lent.
    pub end: usize,
    /// By worker: the slot of the top frame of the task that it runs.
    pub hands: Vec<Option<usize>>,
    /// The number of instructions that were executed, terminators counted, phis not.
    pub instructions: u64,
    /// The most frames from the root to a frame that ever lived.
    pub peak: u64,
    /// What the root returned.
    pub result: Option<i64>,
    /// Room for the phi moves of an edge.
    pub moves: Vec<i64>,
}

/// Written out, so that no crate above proves it anew.
impl Drop for Run {
    fn drop(self) {
        let Run {
            alloc: _,
            cactus: _,
            cells: _,
            blocks: _,
            lent: _,
            end: _,
            hands: _,
            instructions: _,
            peak: _,
            result: _,
            moves: _,
        } = self;
    }
}
