//! The two ends of a worker's deque: its owner offers and takes tickets, thieves steal the oldest (work stealing).

ghost use Rattle.std.specs.Prelude.{◌≡◌, All, vec_len, IfOk, IfErr, OnOk, IfSome, IfNone};
ghost use Rattle.deque_pool_tickets.specs.TicketList.{AreOfOne, MayHaveFew, Moved, fresh};
ghost use Rattle.deque_pool_tickets.specs.declared.ticket_list.Move.TheVariants.{Offer, Newest};
ghost use Rattle.deque_pool_tickets.specs.Takes.{Takes};

use crate::taken::Taken;
use crate::ticket_list::{Compares, Offers, TakesIn, TakesNewest, TakesOldest, TicketList, View};
use crossbeam_deque::{Pass, Steal, Stealer, Worker};
use lists::OutOfMemory;
use shared_run::Ticket;
use std::alloc::Global;
use std::marker::Model;

/// For how many tickets a list has room at first. A list that is full grows; where memory for that is refused the ticket is lost, and its task is found late.
const FIRST_ROOM: usize = 64;

/// The owner's end of a worker's list of tickets. Contracts see which list it is, the owner's steps on it, and the list's history up to the last of them.
#[derive(Drop)]
pub struct Hands {
    worker: Worker<Ticket, Global, View, TicketList>,
}

impl Model for Hands {
    ghost use Rattle.std.specs.Prelude.{◌≡◌, true};
    ghost use Rattle.deque_pool_tickets.specs.TicketList.{End};
    ghost use Rattle.crossbeam_deque.specs.Handles.{worker_view, worker_flavor, worker_deque};

    ghost Value = { End };

    ghost view = { λ h. record { list = (worker_deque h.worker).0; moves = (worker_view h.worker).moves; seen = (worker_view h.worker).seen } };

    ghost invariant = { λ h. ((worker_view h.worker).lives ≡ true) × ((worker_view h.worker).owns ≡ true) × (worker_flavor h.worker ≡ 1) };
}

/// A thief's end of another worker's list of tickets. Contracts see which list it is, this thief's steps on it, and the list's history up to the last of them.
#[derive(Drop)]
pub struct Thief {
    stealer: Stealer<Ticket, Global, View, TicketList>,
    pass: Pass<Ticket, View>,
}

impl Model for Thief {
    ghost use Rattle.std.specs.Prelude.{◌≡◌, true, false};
    ghost use Rattle.deque_pool_tickets.specs.TicketList.{End};
    ghost use Rattle.crossbeam_deque.specs.Handles.{view as pass_view, IsPassOf, stealer_deque, stealer_flavor};

    ghost Value = { End };

    ghost view = { λ t. record { list = (stealer_deque t.stealer).0; moves = (pass_view t.pass).moves; seen = (pass_view t.pass).seen } };

    ghost invariant = { λ t. ((pass_view t.pass).lives ≡ true) × ((pass_view t.pass).owns ≡ false) × (stealer_flavor t.stealer ≡ 1) × IsPassOf (stealer_deque t.stealer) t.pass };
}

impl Hands {
    /// An empty list: its owner's end, and the ends of so many thieves.
    pub fn new(alloc: Global, thieves: usize) -> Result<(Hands, Vec<Thief>), OutOfMemory>
        ensures hands { IfOk result (λ made. made.0 ≡ fresh made.0.list) }
        ensures count { IfOk result (λ made. vec_len made.1 ≡ thieves) }
        ensures thieves { IfOk result (λ made. All (λ thief. thief ≡ fresh made.0.list) made.1.items) }
    {
        let worker = Worker::<Ticket, Global, View, TicketList>::lifo_as(alloc, FIRST_ROOM)?;
        let hands = Hands { worker };
        let ends = hands.thieves(alloc, thieves)?;
        Ok((hands, ends))
    }

    fn thieves(&self, alloc: Global, count: usize) -> Result<Vec<Thief>, OutOfMemory>
        ensures count { IfOk result (λ thieves. vec_len thieves ≡ count) }
        ensures fresh { IfOk result (λ thieves. All (λ thief. thief ≡ fresh self.now.list) thieves.items) }
    {
        let mut thieves = Vec::with_capacity(alloc, count)?;
        for _made in 0..count {
            thieves.push(self.thief()?)?;
        }
        Ok(thieves)
    }

    fn thief(&self) -> Result<Thief, OutOfMemory>
        ensures { IfOk result (λ thief. thief ≡ fresh self.now.list) }
    {
        let stealer = self.worker.stealer()?;
        let pass = stealer.pass();
        Ok(Thief { stealer, pass })
    }

    /// Puts a ticket at the back. One that is refused, for memory or at the list's limit, is given back, and nothing
    /// changes.
    pub fn offer(&mut self, ticket: Ticket) -> Result<(), Ticket>
        ensures offered { OnOk result (Moved self.old self.new (Offer ticket)) }
        ensures refused { IfErr result (λ back. back ≡ ticket) }
        ensures same { IfErr result (λ back. self.new ≡ self.old) }
    {
        self.worker.push_as::<Offers>(ticket)
    }

    /// Takes the ticket at the back of the list, as the history then is. Where there is none nothing changes, so which history that was is not known.
    pub fn take_newest(&mut self) -> Option<Ticket>
        ensures taken { IfSome result (λ ticket. Moved self.old self.new (Newest ticket)) }
        ensures empty { IfNone result (MayHaveFew 0 self.old.moves self.old.seen) }
        ensures same { IfNone result (self.new ≡ self.old) }
    {
        self.worker.pop_as::<TakesNewest>()
    }

    /// Takes in the end of a thief, which makes no more steps. What the two have seen are beginnings of one history, as the list has no other.
    pub fn take_in(&mut self, thief: Thief)
        requires { thief.list ≡ self.old.list }
        ensures one { AreOfOne self.old.seen thief.seen }
        ensures same { self.new ≡ self.old }
    {
        let Thief { stealer, pass } = thief;
        drop(stealer);
        self.worker.absorb::<TakesIn>(pass);
        let _tickets = self.worker.len_as::<Compares>();
    }
}

impl Thief {
    /// Takes the ticket at the front of the list, as the history then is. Where there is none nothing changes, as in [`Hands::take_newest`].
    pub fn take_oldest(&mut self) -> Taken
        ensures { Takes self.old self.new result }
    {
        match self.stealer.steal_as::<TakesOldest>(&mut self.pass) {
            Steal::Success(ticket) => Taken::Ticket(ticket),
            Steal::Empty => Taken::Empty,
            Steal::Retry => Taken::Again,
        }
    }
}
