//! A worker at the board: it loads, fetches, publishes, steps and looks for tasks (`meet`, under the lock).

use crate::answers::{Claimed, Loaded, Published, Stepped};
use crate::bench::Bench;
use crate::board::Board;
use crate::seat::Seat;
use crate::turns::habits::{Habits, Want};
use crate::turns::heights::Heights;
use crate::turns::tasks::{Reason, Tasks, Told};
use crate::worker_strand::{Standing, WorkerStrand};

/// A strand that begins behind a border and comes to another within so many instructions, as those that end a frame do, is put on the board before the lock
/// is let go. The more it may do, the longer those wait who want the lock; the less, the more often the lock is taken again for next to nothing.
const SHORT: u64 = 16;

/// So many strands are put on the board under one lock, with the one before such short ones. 64 gained nothing (a port to plain Rust).
const MOST_STRANDS: u32 = 17;

/// Such a short strand may need the cells of so many pages, each of which is copied under the lock.
const SHORT_PAGES: u32 = 4;

/// So many tickets are tried in one search. The tasks of some are gone, as the board went on since they were offered; but others wait for the lock meanwhile.
const MOST_TICKETS: u32 = 64;

/// So often a search in vain looks at the board for a task without a ticket. There is one only where memory for a ticket was refused, and a look goes
/// through all frames under the lock.
const RARELY: u32 = 64;

/// What a worker is to do when it has met the board.
#[derive(Clone, Copy)]
pub enum Met {
    /// Go on outside: call `turn`.
    Work,
    /// There is no task for it now.
    Idle,
    /// `main` has returned.
    Ended,
    /// Memory was refused to a worker: the run cannot go on.
    OutOfMemory,
}

/// Loads the frame that the worker runs next, where it runs one.
fn load<L: Bench>(
    board: &Board<'_, L>,
    seat: &Seat<L>,
    strand: &mut WorkerStrand<'_, L>,
    habits: &mut Habits,
) -> Met {
    habits.heights = Heights::none_seen();
    habits.is_new = true;
    match board.fetch_base(seat, strand) {
        Loaded::Frame => Met::Work,
        Loaded::Idle => Met::Idle,
        Loaded::OutOfMemory => Met::OutOfMemory,
    }
}

/// A child of the worker has ended: it goes on with the parent, whose ticket this was, or another worker has taken that.
fn note_end<T: Tasks>(
    tasks: &mut T,
    me: u8,
    parent: Option<(usize, u64)>,
    idle: bool,
    habits: &mut Habits,
) {
    match parent {
        Some(own) if !idle => {
            tasks.withdraw(me, own);
            habits.pace.note_return();
        }
        _ => habits.pace.note_theft(),
    }
}

/// The border's step. A child that ends takes its parent on, where no other worker has.
fn step_over<L: Bench, T: Tasks>(
    board: &mut Board<'_, L>,
    tasks: &mut T,
    seat: &mut Seat<L>,
    strand: &WorkerStrand<'_, L>,
    habits: &mut Habits,
) -> Met {
    let me = seat.worker();
    let parent = board.machine().ready_parent(me);
    match board.step(seat) {
        Stepped::Done { ready, idle, ended } => {
            tasks.note(Told::Step);
            if let Some(ticket) = ready {
                tasks.offer(me, ticket);
                habits.offered = habits.offered.saturating_add(1);
            }
            if strand.is_at_reattach() {
                note_end(tasks, me, parent, idle, habits);
            }
            if idle {
                tasks.note(Told::Rest);
            }
            match (ended, idle) {
                (true, _) => Met::Ended,
                (false, true) => Met::Idle,
                (false, false) => Met::Work,
            }
        }
        Stepped::Idle => Met::Work,
        Stepped::OutOfMemory => Met::OutOfMemory,
    }
}

/// Publishes the worker's strand, with the border's step where it stands at one, and offers the tasks that it leaves ready. The worker goes on too
/// where the strand was done for nothing.
fn publish<L: Bench, T: Tasks>(
    board: &mut Board<'_, L>,
    tasks: &mut T,
    seat: &mut Seat<L>,
    strand: &mut WorkerStrand<'_, L>,
    habits: &mut Habits,
    reason: Reason,
) -> Met {
    let (me, instructions) = (seat.worker(), strand.done());
    habits.tickets.clear();
    if instructions > 0 {
        match board.publish(seat, strand) {
            Published::Done => {
                // A task without a ticket is still found at the board.
                let _ = board.ready_tickets(seat, strand.frames_below(), &mut habits.tickets);
            }
            Published::Stranger => {
                tasks.note(Told::Stranger);
                return Met::Work;
            }
            Published::OutOfMemory => return Met::OutOfMemory,
        }
    }
    tasks.note(Told::Publication {
        instructions,
        reason,
    });
    let tasks_left = habits.tickets.len();
    habits.pace.note(instructions, reason, tasks_left);
    habits.offered = habits.offered.saturating_add(tasks_left);
    for ticket in habits.tickets.as_slice() {
        tasks.offer(me, *ticket);
    }
    match reason {
        Reason::Border => step_over(board, tasks, seat, strand, habits),
        _ => Met::Work,
    }
}

/// Goes on for a few instructions under the board's lock; whether they come to a border.
fn comes_to_border<L: Bench>(board: &Board<'_, L>, strand: &mut WorkerStrand<'_, L>) -> bool {
    for _page in 0..SHORT_PAGES {
        match strand.advance(SHORT) {
            Standing::Border => return true,
            Standing::Need { .. } => {
                if !board.fetch_need(strand) {
                    return false;
                }
            }
            _ => return false,
        }
    }
    false
}

/// Publishes the strand and loads the frame that comes next. Frames that end soon after one another are done at once.
fn publish_all<L: Bench, T: Tasks>(
    board: &mut Board<'_, L>,
    tasks: &mut T,
    seat: &mut Seat<L>,
    strand: &mut WorkerStrand<'_, L>,
    habits: &mut Habits,
    reason: Reason,
) -> Met {
    let most = match reason {
        Reason::Border => MOST_STRANDS,
        _ => 1,
    };
    let mut met = Met::Work;
    for nth in 0..most {
        if nth > 0 && !comes_to_border(board, strand) {
            break;
        }
        met = publish(board, tasks, seat, strand, habits, reason);
        strand.clear();
        if let Met::Work = met {
            let _loaded = load(board, seat, strand, habits);
        }
    }
    met
}

/// Looks for a task, by the tickets of those that were offered and rarely without one, and loads it.
fn search<L: Bench, T: Tasks>(
    board: &mut Board<'_, L>,
    tasks: &mut T,
    seat: &mut Seat<L>,
    strand: &mut WorkerStrand<'_, L>,
    habits: &mut Habits,
) -> Met {
    for _try in 0..MOST_TICKETS {
        let (claimed, is_last) = match tasks.next(seat.worker()) {
            Some(ticket) => (board.claim(seat, ticket), false),
            None => {
                habits.vain = habits.vain.saturating_add(1);
                if habits.vain % RARELY != 0 {
                    return Met::Idle;
                }
                (board.claim_first(seat), true)
            }
        };
        match claimed {
            Claimed::Taken => {
                tasks.note(Told::Steal);
                habits.pace.note_task();
                habits.vain = 0;
                strand.clear();
                let _loaded = load(board, seat, strand, habits);
                return Met::Work;
            }
            Claimed::Gone if is_last => return Met::Idle,
            Claimed::Gone => {}
            Claimed::OutOfMemory => return Met::OutOfMemory,
        }
    }
    Met::Idle
}

/// Does what is wanted.
fn serve<L: Bench, T: Tasks>(
    board: &mut Board<'_, L>,
    tasks: &mut T,
    seat: &mut Seat<L>,
    strand: &mut WorkerStrand<'_, L>,
    habits: &mut Habits,
) -> Met {
    match habits.want {
        Want::Nothing => Met::Work,
        Want::Leave => Met::OutOfMemory,
        Want::Task => Met::Idle,
        Want::Base => load(board, seat, strand, habits),
        Want::Begin => {
            let met = load(board, seat, strand, habits);
            if let Met::Work = met {
                tasks.note(Told::Begin);
            }
            met
        }
        Want::Page { at } => {
            let ahead = habits.trail.note(strand, at);
            if board.fetch_need(strand) {
                ahead.fetch(board, strand);
                Met::Work
            } else {
                publish_all(board, tasks, seat, strand, habits, Reason::Limit)
            }
        }
        Want::Publish { reason } => publish_all(board, tasks, seat, strand, habits, reason),
    }
}

/// Does at the board what the worker wants of it; where that leaves it without a task it looks for one. The second answer is how many tasks were offered to
/// others.
pub fn meet<L: Bench, T: Tasks>(
    board: &mut Board<'_, L>,
    tasks: &mut T,
    seat: &mut Seat<L>,
    strand: &mut WorkerStrand<'_, L>,
    habits: &mut Habits,
) -> (Met, usize) {
    if board.end() {
        return (Met::Ended, 0);
    }
    habits.offered = 0;
    let mut met = serve(board, tasks, seat, strand, habits);
    if let Met::Idle = met {
        habits.want = Want::Task;
        met = search(board, tasks, seat, strand, habits);
    }
    if let Met::Work = met {
        habits.want = Want::Nothing;
    }
    (met, habits.offered)
}
