//! How many workers look for a task and how many tasks are ready, and the bell that wakes sleepers (idle counting).

use shared_run::turns::{Hunger, Told};
use std::sync::Wait;
use std::sync::atomic::{AtomicU64, Ordering};
use std::time::Duration;

/// What workers tell one another: how many of them have no task, how many tasks are ready, and a bell for those that sleep meanwhile. These are hints on
/// which nothing rests.
#[derive(Drop)]
pub(crate) struct Demand {
    /// Each less than none is counted down from 2^64.
    idle: AtomicU64,
    ready: AtomicU64,
    /// How often the bell was rung.
    rings: AtomicU64,
    sleepers: AtomicU64,
}

impl Demand {
    /// So many workers have no task, and no task is ready.
    pub(crate) fn of(workers: usize) -> Demand {
        Demand {
            idle: AtomicU64::new(workers as u64),
            ready: AtomicU64::new(0),
            rings: AtomicU64::new(0),
            sleepers: AtomicU64::new(0),
        }
    }

    /// Whether a task is ready.
    pub(crate) fn is_met(&self) -> bool {
        0 < self.ready.load(Ordering::SeqCst).cast_signed()
    }

    /// Notes which worker has a task.
    pub(crate) fn note(&self, told: Told) {
        if let Told::Steal = told {
            self.take_back();
        }
        let _before = match told {
            Told::Rest => self.idle.fetch_add(1, Ordering::SeqCst),
            Told::Begin | Told::Steal => self.idle.fetch_sub(1, Ordering::SeqCst),
            Told::Publication { .. } | Told::Step | Told::Stranger => 0,
        };
    }

    /// One task more is ready.
    pub(crate) fn offer(&self) {
        let _before = self.ready.fetch_add(1, Ordering::SeqCst);
    }

    /// A task that was ready is a worker's now.
    pub(crate) fn take_back(&self) {
        let _before = self.ready.fetch_sub(1, Ordering::SeqCst);
    }

    /// How often the bell was rung up to now.
    pub(crate) fn rings(&self) -> u64 {
        self.rings.load(Ordering::SeqCst)
    }

    /// Wakes so many of those that sleep.
    pub(crate) fn ring(&self, count: usize) {
        let _before = self.rings.fetch_add(1, Ordering::SeqCst);
        let sleepers = self.sleepers.load(Ordering::SeqCst);
        for _ in 0..sleepers.min(count as u64) {
            self.rings.wake_one();
        }
    }

    /// Wakes all that sleep.
    pub(crate) fn ring_for_all(&self) {
        let _before = self.rings.fetch_add(1, Ordering::SeqCst);
        self.rings.wake_all();
    }

    /// Sleeps until the bell is rung or the time is up; not at all where it was rung more often than was heard.
    pub(crate) fn sleep<R: Wait>(&self, rt: &R, heard: u64, time: Duration) {
        let _others = self.sleepers.fetch_add(1, Ordering::SeqCst);
        self.rings
            .park_timeout(rt, (heard % 0x1_0000_0000) as u32, time);
        let _all = self.sleepers.fetch_sub(1, Ordering::SeqCst);
    }
}

impl Hunger for Demand {
    /// More workers have no task than tasks are ready.
    fn is_there(&self) -> bool {
        let idle = self.idle.load(Ordering::SeqCst).cast_signed();
        self.ready.load(Ordering::SeqCst).cast_signed() < idle
    }
}
