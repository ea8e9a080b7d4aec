//! A worker's right to do events of its own at a board (capability).

ghost use Rattle.std.specs.Prelude.{◌≡◌, ◌<◌};

use crate::bench::Bench;
use std::marker::Model;
use std::sync::ledger::Share;

/// A worker's seat at a board: one part of the run's ledger. Contracts see the worker, and how many events the calls at this seat
/// appended.
#[derive(Drop)]
pub struct Seat<L: Bench> {
    pub(crate) worker: u8,
    pub(crate) share: Share<L>,
}

impl<L: Bench> Model for Seat<L> {
    ghost use Rattle.std.specs.Prelude.{◌≡◌, ◌<◌};
    ghost use Rattle.shared_run.specs.Story.{SeatView};

    ghost Value = { SeatView };

    ghost view = { λ s. record { worker = s.worker; share = s.share.amount } };

    ghost invariant = { λ s. (s.share.parts ≡ 1) × (s.worker < L.crew) };
}

impl<L: Bench> Seat<L> {
    /// The number of the worker, from 0.
    pub fn worker(&self) -> u8
        ensures value { result ≡ self.now.worker }
        ensures of_crew { result < L.crew }
    {
        self.worker
    }
}
