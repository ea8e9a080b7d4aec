//! A worker's deque of tickets, with the rule that each step on it keeps: one history, whatever the threads do.
use crossbeam_deque::protocol::{Join, Lesson, Outcome, Protocol};
use shared_run::Ticket;
use std::collections::LinkedList;

/// A step on the list. No value of it is made.
pub enum Move {
    /// The owner puts a ticket at the back.
    Offer(Ticket),
    /// The owner takes the ticket at the back.
    Newest(Ticket),
    /// A thief takes the ticket at the front.
    Oldest(Ticket),
}

/// What a seat knows: whether it is the owner's, its own steps, and the list's history up to the last of them, each the latest first. No value of it is made.
pub struct View {
    /// It may still make steps.
    pub lives: bool,
    pub owns: bool,
    pub moves: LinkedList<Move>,
    /// Each step with the seat that made it.
    pub seen: LinkedList<(u64, Move)>,
    /// What a seat had seen that it took in.
    pub told: LinkedList<(u64, Move)>,
}

/// The list is what the steps of all seats lead to.
pub struct TicketList;

impl Protocol<Ticket, View> for TicketList {
    ghost use Rattle.std.specs.Prelude.{true, false, []};
    ghost use Rattle.deque_pool_tickets.specs.TicketList.{IsPlayed, view_of};

    ghost holds = { IsPlayed };

    ghost first = { view_of true [] [] };

    ghost guest = { view_of false [] [] };
}

pub struct Offers;

impl Outcome<Ticket, View> for Offers {
    ghost use Rattle.deque_pool_tickets.specs.TicketList.{WithOffers};

    ghost then = { WithOffers };
}

pub struct TakesNewest;

impl Outcome<Ticket, View> for TakesNewest {
    ghost use Rattle.deque_pool_tickets.specs.TicketList.{WithNewest, MayHaveFew};

    ghost then = { WithNewest };

    ghost empty = { λ v. MayHaveFew 0 v.moves v.seen };
}

pub struct TakesOldest;

impl Outcome<Ticket, View> for TakesOldest {
    ghost use Rattle.deque_pool_tickets.specs.TicketList.{WithOldest, MayHaveFew};

    ghost then = { WithOldest };

    ghost empty = { λ v. MayHaveFew 1 v.moves v.seen };
}

pub struct TakesIn;

impl Join<View> for TakesIn {
    ghost use Rattle.deque_pool_tickets.specs.TicketList.{both, spent};

    ghost both = { both };

    ghost spent = { spent };
}

pub struct Compares;

impl Lesson<Ticket, View> for Compares {
    ghost use Rattle.deque_pool_tickets.specs.TicketList.{AreOfOne};

    ghost fact = { λ v tickets. AreOfOne v.seen v.told };
}
