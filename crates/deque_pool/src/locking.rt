//! How a worker comes by the board's lock: it tries for a while, and then sleeps (spin, then block).

use shared_run::{Bench, Board, Shared};
use std::hint::spin_loop;
use std::sync::{MutexGuard, Wait};

/// How often the lock is tried before the worker sleeps until it is free: for some thirty microseconds, where a publication holds it for one on average (0.4 to
/// 1.1 in a port to plain Rust).
const TRIES: u32 = 24;

/// The longest pause between two tries, in turns of a loop that does nothing. Shorter ones take the lock's word from its holder's processor more often, after
/// longer ones a free lock is found later.
const LONGEST_PAUSE: u32 = 32;

/// Lets some time go by.
pub(crate) fn pause(turns: u32) {
    for _turn in 0..turns {
        spin_loop();
    }
}

/// The board in its lock. Each call holds the lock for some microseconds at most. To sleep and be woken takes longer, and while one worker sleeps so do all
/// that come after it: so the lock is tried for a while before.
pub(crate) fn locked<'b, 'a, L: Bench, R: Wait>(
    rt: &R,
    shared: &'b Shared<'a, L>,
) -> MutexGuard<'b, Board<'a, L>> {
    let mut turns = 1;
    for _try in 0..TRIES {
        if let Some(board) = shared.board.try_lock() {
            return board;
        }
        pause(turns);
        turns = turns.saturating_mul(2).min(LONGEST_PAUSE);
    }
    shared.board.lock(rt)
}
