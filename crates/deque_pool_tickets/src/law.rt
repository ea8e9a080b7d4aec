//! The law that each ticket that is offered to a list is taken once or is still there.

ghost use Rattle.deque_pool_tickets.specs.TicketList.{EachAsOften};

/// In any order of steps that leads to a list, the tickets that were taken and the list together are those that were
/// offered, each as often.
pub fn each_as_often()
    ensures { EachAsOften }
{}
