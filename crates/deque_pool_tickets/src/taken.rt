//! What a thief's call on a deque gives: the oldest ticket, or none and why.

/// What a thief's call gave.
#[derive(Clone, Copy)]
pub enum Taken {
    /// The oldest ticket.
    Ticket(shared_run::Ticket),
    /// None: there was one ticket at most, which is left to the owner.
    Empty,
    /// None: another thread was at the list.
    Again,
}
