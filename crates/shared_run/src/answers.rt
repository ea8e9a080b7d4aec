//! What calls at a seat answer: to a step, a claim, a load, a publication, and a frame strand's fetch and commit.

use crate::ticket::Ticket;

/// What a step came to.
#[derive(Clone, Copy)]
pub enum Stepped {
    /// One step was done.
    Done {
        /// Where it was a detach: the ticket of the task whose top detached the child.
        ready: Option<Ticket>,
        /// Whether the worker runs no task now.
        idle: bool,
        /// Whether `main` has returned.
        ended: bool,
    },
    /// The worker runs no task.
    Idle,
    /// Memory was refused.
    OutOfMemory,
}

/// What a frame strand was given.
#[derive(Clone, Copy, PartialEq, Eq)]
pub enum Fetched {
    /// The frame that the seat's worker runs next.
    Frame,
    /// What stands at the address of the cell that it needs.
    Cell,
    /// Nothing: the worker runs no task.
    Idle,
    /// Nothing: no cell stands at that address any more, or the strand is neither blank nor in need.
    Stranger,
}

/// What a commit came to.
#[derive(Clone, Copy)]
pub enum Committed {
    /// The frame strand's instructions were done, and its border's where it stands at one.
    After {
        /// Where the last one was a detach: the ticket of the task whose top detached the child.
        ready: Option<Ticket>,
        /// Whether the worker runs no task now.
        idle: bool,
        /// Whether `main` has returned.
        ended: bool,
    },
    /// The worker runs no task, its frame or that frame's path is not the one that was loaded, or a cell that was read holds something else.
    Stranger,
    /// Memory was refused.
    OutOfMemory,
}

/// What a strand was given to begin with.
#[derive(Clone, Copy, PartialEq, Eq)]
pub enum Loaded {
    /// The frame that the seat's worker runs next.
    Frame,
    /// Nothing: the worker runs no task.
    Idle,
    /// Memory was refused.
    OutOfMemory,
}

/// What a publication came to.
#[derive(Clone, Copy, PartialEq, Eq)]
pub enum Published {
    /// The strand's instructions were done.
    Done,
    /// The strand holds no frame, the worker does not run its base as it was loaded, or a cell that was read holds something else.
    Stranger,
    /// Memory was refused.
    OutOfMemory,
}

/// What a claim came to.
#[derive(Clone, Copy)]
pub enum Claimed {
    /// The worker runs the task now.
    Taken,
    /// The worker is not idle, or there is no such ready task.
    Gone,
    /// Memory was refused.
    OutOfMemory,
}
