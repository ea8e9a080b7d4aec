//! The name of a task that may be stolen: a slot with the use of it (entry of a deque).

/// Names a task that may be stolen: the use of a slot in which its lowest frame stood when it became ready. Slots are used
/// again, so the task may be gone, and another may stand there with another generation.
pub use schedule_core::Ticket;
