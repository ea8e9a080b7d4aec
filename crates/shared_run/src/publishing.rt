//! What a board does with its workers' strands: gives them a base and pages, and publishes what they did.
ghost use Rattle.std.specs.Prelude.{OnOk};
ghost use Rattle.schedule_core.specs.Strands.{IsStrandOf};
ghost use Rattle.shared_run.specs.Strands.{AreReadyTickets, Fills, FillsAhead, IsSettled, IsUp, Loads, Publishes};

use crate::answers::{Loaded, Published};
use crate::bench::Bench;
use crate::board::Board;
use crate::seat::Seat;
use crate::ticket::Ticket;
use crate::worker_strand::{Standing, WorkerStrand};
use lists::OutOfMemory;

impl<L: Bench> Board<'_, L> {
    /// Gives a strand the frame that the seat's worker runs next.
    pub fn fetch_base(&self, seat: &Seat<L>, strand: &mut WorkerStrand<'_, L>) -> Loaded
        ensures { Loads self.now seat.now strand.new result }
    {
        match strand.load(self.machine(), seat.worker()) {
            Ok(true) => Loaded::Frame,
            Ok(false) => Loaded::Idle,
            Err(OutOfMemory) => Loaded::OutOfMemory,
        }
    }

    /// Gives a strand the page of the cell that it needs. The answer is whether it needs one, and there is such a cell.
    pub fn fetch_need(&self, strand: &mut WorkerStrand<'_, L>) -> bool
        ensures { Fills self.now strand.old strand.new result }
    {
        let Standing::Need { at } = strand.standing() else {
            return false;
        };
        match self.machine().page_at(at) {
            Some(page) => {
                strand.fill(at, page);
                true
            }
            None => false,
        }
    }

    /// Gives a strand that can go on the page of this address, which it may need soon. The answer is whether there is such a cell, and room for it.
    pub fn fetch_ahead(&self, strand: &mut WorkerStrand<'_, L>, at: i64) -> bool
        ensures { FillsAhead self.now at strand.old strand.new result }
    {
        let Some(page) = self.machine().page_at(at) else {
            return false;
        };
        strand.fill_ahead(at, page)
    }

    /// What a strand did outside of the board, as steps of the seat's worker. So it is where the worker runs the base that was loaded, and each
    /// cell that was read holds what was read. Where the strand stands at a border, the border's step is one of [`Board::step`]. The strand stands as before.
    #[tactic(auto, using(crate::proofs::Settling::publishes_settled, crate::proofs::Settling::stays_so))]
    pub fn publish(&mut self, seat: &mut Seat<L>, strand: &mut WorkerStrand<'_, L>) -> Published
        ensures publishes { Publishes strand.old self.old self.new seat.old seat.new result }
        ensures strand { IsSettled strand.old strand.new }
    {
        match strand.settle() {
            Ok(()) => self.put(seat, strand),
            Err(OutOfMemory) => Published::OutOfMemory,
        }
    }

    /// Puts what a strand did, whose frames are as the board takes them, on the board as steps of the seat's worker, where the strand fits there.
    fn put(&mut self, seat: &mut Seat<L>, strand: &WorkerStrand<'_, L>) -> Published
        requires made { IsUp strand.now.standing → IsStrandOf L.code strand.now.strand }
        ensures { Publishes strand.now self.old self.new seat.old seat.new result }
    {
        let Some(held) = strand.held() else {
            return Published::Stranger;
        };
        if let Err(OutOfMemory) = self.history.reserve() {
            return Published::OutOfMemory;
        }
        match self.machine.publish(seat.worker, held) {
            Ok(true) => {
                self.history.push_steps(seat.worker, held.done);
                self.book.add(&mut seat.share, held.done);
                Published::Done
            }
            Ok(false) => Published::Stranger,
            Err(OutOfMemory) => Published::OutOfMemory,
        }
    }

    /// Tickets of the ready tasks whose tops are among so many frames below the one that the seat's worker runs next, the outermost first.
    ///
    /// # Errors
    ///
    /// Memory was refused.
    pub fn ready_tickets(
        &self,
        seat: &Seat<L>,
        levels: usize,
        tickets: &mut Vec<Ticket>,
    ) -> Result<(), OutOfMemory>
        ensures { OnOk result (AreReadyTickets self.now seat.now levels tickets.new.items) }
    {
        tickets.clear();
        tickets.reserve(levels)?;
        self.machine().ready_below(seat.worker(), levels, tickets);
        Ok(())
    }
}
