//! The ends of the deques that a worker has at hand: it offers tickets, takes its newest, and steals from others.

use crate::demand::Demand;
use crate::figures::Figures;
use deque_pool_tickets::{Hands, Taken, Thief};
use shared_run::Ticket;
use shared_run::turns::{Tasks, Told};

/// A worker's ends of the lists, for one meeting.
#[derive(Drop)]
pub(crate) struct Ends<'w> {
    pub(crate) demand: &'w Demand,
    pub(crate) hands: &'w mut Hands,
    pub(crate) thieves: &'w mut Vec<Thief>,
    pub(crate) figures: &'w mut Figures,
}

impl Tasks for Ends<'_> {
    fn offer(&mut self, _worker: u8, ticket: Ticket) {
        self.demand.offer();
        let _ = self.hands.offer(ticket);
    }

    fn withdraw(&mut self, _worker: u8, own: (usize, u64)) {
        self.demand.take_back();
        if let Some(ticket) = self.hands.take_newest()
            && (ticket.slot != own.0 || ticket.generation != own.1)
        {
            let _ = self.hands.offer(ticket);
        }
    }

    /// The worker's own newest, or else the oldest of another.
    fn next(&mut self, _worker: u8) -> Option<Ticket> {
        if let Some(own) = self.hands.take_newest() {
            return Some(own);
        }
        for thief in self.thieves.iter_mut() {
            if let Taken::Ticket(ticket) = thief.take_oldest() {
                return Some(ticket);
            }
        }
        None
    }

    fn note(&mut self, told: Told) {
        self.demand.note(told);
        self.figures.count(told);
    }
}
