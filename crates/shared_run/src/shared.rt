//! A board in a lock (mutex), and how the answer is taken when the run has ended.

ghost use Rattle.std.specs.Prelude.{◌≡◌, ◌≢◌, ◌<◌, Err, None, length, vec_len, sum_by, IfOk, IfErr};
ghost use Rattle.schedule_core.specs.Admission.{IsAdmitted};
ghost use Rattle.schedule_core.specs.store.Made.{IsMadeFor};
ghost use Rattle.shared_run.specs.Answer.{IsSerialAnswer, LeadTo};
ghost use Rattle.shared_run.specs.Launching.{start_of};
ghost use Rattle.shared_run.specs.Story.{AreSeats, state_of};

use crate::bench::Bench;
use crate::board::Board;
use crate::history::{History, Keeping};
use crate::launch::Launch;
use crate::seat::Seat;
use schedule_core::{Finished, RunFault};
use std::alloc::Global;
use std::marker::Model;
use std::sync::Mutex;
use std::sync::ledger::Blank;

/// A board in a lock. Contracts see the start, which is that of the ledger: no other board of this ledger
/// begins elsewhere.
pub struct Shared<'a, L: Bench> {
    pub board: Mutex<Board<'a, L>>,
}

/// Written out, so that no crate above proves it anew.
impl<L: Bench> Drop for Shared<'_, L> {
    fn drop(self) {
        let Shared { board: _ } = self;
    }
}

impl<'a, L: Bench> Model for Shared<'a, L> {
    ghost use Rattle.shared_run.specs.Story.{Origin, origin};

    ghost Value = { Origin };

    ghost view = { λ s. origin L.code L.arguments L.memory L.crew };
}

impl<'a, L: Bench> Shared<'a, L> {
    /// A board before the first event, and a seat for each worker: [`Board::new`].
    ///
    /// # Errors
    ///
    /// 801 where the arguments are not those of `main`, then 802 where there are not from 1 to 64 workers; both hand the memory
    /// back. 803 where memory is refused.
    pub fn new(
        alloc: Global,
        launch: Launch<'a>,
        keeping: Keeping,
        blank: Blank,
    ) -> Result<(Shared<'a, L>, Vec<Seat<L>>), RunFault>
        requires made { IsMadeFor launch.verified.now launch.memory }
        requires code { launch.verified.now ≡ L.code }
        requires arguments { launch.arguments.now ≡ L.arguments }
        requires memory { launch.memory ≡ L.memory }
        requires crew { launch.workers ≡ L.crew }
        requires name { blank.name ≡ L.name }
        requires parts { blank.parts ≡ L.parts }
        requires one_each { blank.parts ≡ launch.workers }
        ensures start { IfOk result (λ made. made.0 ≡ start_of launch.entry) }
        ensures seats { IfOk result (λ made. AreSeats launch.entry.workers made.1.items) }
        ensures admitted { IsAdmitted launch.entry.verified.now launch.entry.arguments.now launch.entry.memory launch.entry.workers result }
        ensures not_stopped { result ≢ Err RunFault.Stopped }
    {
        let (board, seats) = Board::new(alloc, launch, keeping, blank)?;
        Ok((
            Shared {
                board: Mutex::new(board),
            },
            seats,
        ))
    }

    /// The answer of the run that has ended, with its history: [`Board::finish`]. It takes all its seats and waits for nobody. Else, where
    /// the run of the board in the lock has not ended, all is given back, the board out of its lock.
    pub fn finish(
        self,
        seats: Vec<Seat<L>>,
    ) -> Result<(Finished, History), (Unended<'a, L>, Vec<Seat<L>>)>
        requires all { (vec_len seats ≡ L.parts) × (0 < L.parts) }
        ensures answer { IfOk result (λ done. IsSerialAnswer self.entry done.0) }
        ensures replays { IfOk result (λ done. LeadTo self.entry done.1.events done.0) }
        ensures shares { IfOk result (λ done. length done.1.events ≡ sum_by (λ seat. seat.share) seats.items) }
        ensures same { IfErr result (λ back. (back.0.start ≡ self.entry) × (back.1 ≡ seats)) }
        ensures refused { IfErr result (λ back. (state_of back.0).core.result ≡ None) }
    {
        let Shared { board } = self;
        match board.into_inner().answer(seats) {
            Ok(done) => Ok(done),
            Err((board, seats)) => Err((Unended { board }, seats)),
        }
    }
}

/// What was in a [`Shared`] whose run has not ended. Contracts see the board: no contract tells what stands in a lock.
#[derive(Drop)]
pub struct Unended<'a, L: Bench> {
    board: Board<'a, L>,
}

impl<'a, L: Bench> Model for Unended<'a, L> {
    ghost use Rattle.shared_run.specs.Story.{Story};

    ghost Value = { Story };

    ghost view = { λ u. u.board };
}

impl<'a, L: Bench> Unended<'a, L> {
    /// The board in a lock again.
    pub fn share(self) -> Shared<'a, L> {
        let Unended { board } = self;
        Shared {
            board: Mutex::new(board),
        }
    }
}
