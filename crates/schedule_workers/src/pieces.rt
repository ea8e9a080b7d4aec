//! The pieces of the cells that are lent, one for each worker, and what is free of them.

ghost use Rattle.std.specs.Prelude.{◌≡◌, ◌+◌, ◌-◌, ◌<◌, ◌≤◌, ◌⊎◌};
ghost use Rattle.schedule_workers.specs.declared.run.Block.{Block as Part};
ghost use Rattle.schedule_workers.specs.Lent.{IsPartFor};
ghost use Rattle.schedule_workers.specs.Pieces.{HoldsUsable, IsTaken, IsUsable, IsWithFrame};

use crate::lent::{home_place, own_end};
use crate::run::{Block, Run};
use frame::Role;
use frame_engine::Frame;
use program::Program;

/// From where to where living frames have allocas in a piece.
#[derive(Clone, Copy)]
pub struct Taken {
    from: usize,
    to: usize,
}

impl Taken {
    /// With the frame's allocas, if it has some between the start and the limit.
    fn with_frame(self, program: &Program, start: usize, limit: usize, frame: &Frame) -> Taken
        requires { start < limit }
        ensures { IsWithFrame program.now start limit frame.now self result }
    {
        let home = home_place(frame.home);
        if frame.role != Role::Body || limit <= home {
            return self;
        }
        match own_end(program, frame) {
            Some(end) if end <= home || end <= start => self,
            Some(end) => Taken {
                from: self.from.min(home),
                to: self.to.max(end),
            },
            None => Taken {
                from: self.from.min(home),
                to: self.to.max(limit),
            },
        }
    }

    /// The larger one of the parts before and behind, between the start and the limit.
    fn larger_end(self, start: usize, limit: usize) -> Block
        ensures front { self.from - start ≤ result.cells }
        ensures back { limit - self.to ≤ result.cells }
        ensures is { (result ≡ record { start = start; cells = self.from - start }) ⊎ ((result.start + result.cells ≡ limit) × (result.cells ≡ limit - self.to)) }
    {
        let front = self.from.saturating_sub(start);
        let back = limit.saturating_sub(self.to);
        if back < front {
            Block {
                start,
                cells: front,
            }
        } else {
            Block {
                start: limit - back,
                cells: back,
            }
        }
    }
}

impl Run {
    /// The worker's piece, as far as it is lent and in the row.
    fn piece_of(&self, worker: u8) -> Block
        ensures usable { 0 < result.cells → IsUsable self.now worker result }
        ensures whole { HoldsUsable self.now worker result }
    {
        let row = self.cells.cells.len();
        if row < self.end {
            return Block { start: 0, cells: 0 };
        }
        let share = self.lent.cells.checked_div(self.hands.len()).unwrap_or(0);
        let before = share.saturating_mul(worker as usize);
        let start = self.lent.start.saturating_add(before);
        let lent = self.lent.start.saturating_add(self.lent.cells);
        let limit = start.saturating_add(share).min(lent).min(row);
        Block {
            start,
            cells: limit.saturating_sub(start),
        }
    }

    /// From where to where living frames have allocas between the start and the limit.
    fn taken(&self, program: &Program, start: usize, limit: usize) -> Taken
        requires { start < limit }
        ensures { IsTaken program.now self.now start limit result }
    {
        let mut taken = Taken {
            from: limit,
            to: start,
        };
        if self.needs_no_allocas(program) {
            return taken;
        }
        for (_slot, node) in self.cactus.iter() {
            taken = taken.with_frame(program, start, limit, &node.frame.frame);
        }
        taken
    }

    /// What is free at an end of the worker's piece of the cells that are lent: it may be nothing.
    pub fn free_part(&self, program: &Program, worker: u8) -> Block
        ensures { IsPartFor program.now self.now worker result }
    {
        let piece = self.piece_of(worker);
        if piece.cells == 0 {
            return Block { start: 0, cells: 0 };
        }
        let limit = piece.start + piece.cells;
        self.taken(program, piece.start, limit)
            .larger_end(piece.start, limit)
    }
}
