//! What a host brings: where workers leave tickets for one another, and what tells them that others wait.

use crate::ticket::Ticket;

/// Where a strand is put on the board.
#[derive(Clone, Copy)]
pub enum Reason {
    /// Next is what only the board can do.
    Border,
    /// The next cell is of one page more than it has.
    Full,
    /// It has done all that it may, or needs what is not there.
    Limit,
    /// Others wait for tasks.
    Asked,
}

/// What a worker did at the board.
#[derive(Clone, Copy)]
pub enum Told {
    /// It put a strand of so many instructions on the board.
    Publication { instructions: u64, reason: Reason },
    /// A border's step.
    Step,
    /// A strand was done for nothing.
    Stranger,
    /// It had no task, and took one that was ready.
    Steal,
    /// It has a task that was not ready.
    Begin,
    /// It has no task any more.
    Rest,
}

/// Where workers leave the tickets of ready tasks for one another, and what tells how many of them have no task. Nothing rests on it.
pub trait Tasks {
    /// A task is ready. One whose ticket is lost is still found at the board.
    fn offer(&mut self, worker: u8, ticket: Ticket);

    /// The worker goes on itself with the task of this ticket, which is its newest, unless a thief has taken it.
    fn withdraw(&mut self, worker: u8, own: (usize, u64));

    /// A ticket that is to be claimed.
    fn next(&mut self, worker: u8) -> Option<Ticket>;

    fn note(&mut self, told: Told);
}

/// Tells workers that go on outside of the board what is wanted of them. Nothing rests on it.
pub trait Hunger {
    /// Whether others wait for tasks.
    fn is_there(&self) -> bool;

    /// Whether they are to pause where they are. Who goes on later goes on there.
    fn is_over(&self) -> bool {
        false
    }
}
