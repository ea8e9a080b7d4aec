//! The gates of the cases: they hold two workers until both are inside, stop a run, are never asked, or count.

use deque_pool::{Gate, Go};
use lists::OutOfMemory;
use std::alloc::Global;
use std::sync::atomic::{AtomicBool, AtomicU64, Ordering};
use std::thread;

/// How often a thread looks for what another is to do, each time letting it go first.
const TURNS: u32 = 10_000_000;

/// Says that one is there, and waits until the other is; whether it came.
fn meet(one: &AtomicBool, other: &AtomicBool) -> bool {
    one.store(true, Ordering::SeqCst);
    for _turn in 0..TURNS {
        if other.load(Ordering::SeqCst) {
            return true;
        }
        thread::yield_now();
    }
    false
}

/// Holds worker 0 before its strand 1, and worker 1 before its strand 0, until the other is held there too.
#[derive(Drop)]
pub struct Meeting {
    first: AtomicBool,
    second: AtomicBool,
    /// One of them waited in vain, as one thread does that does the strands of both in turn.
    missed: AtomicBool,
}

impl Meeting {
    pub fn new() -> Meeting {
        Meeting {
            first: AtomicBool::new(false),
            second: AtomicBool::new(false),
            missed: AtomicBool::new(false),
        }
    }

    /// Whether both came, each while the other waited.
    pub fn is_met(&self) -> bool {
        self.first.load(Ordering::SeqCst)
            && self.second.load(Ordering::SeqCst)
            && !self.missed.load(Ordering::SeqCst)
    }
}

impl Gate for Meeting {
    fn pass(&self, worker: u8, strand: u64) -> Go {
        let met = match (worker, strand) {
            (0, 1) => meet(&self.first, &self.second),
            (1, 0) => meet(&self.second, &self.first),
            _ => true,
        };
        if !met {
            self.missed.store(true, Ordering::SeqCst);
        }
        Go::On
    }
}

/// Stops a run before this strand of a worker, and counts the strands before which it is asked. They are to be worker 0's, each once, in their order.
#[derive(Drop)]
pub struct Stop {
    at: u64,
    asked: AtomicU64,
    is_wrong: AtomicBool,
}

impl Stop {
    pub fn at(strand: u64) -> Stop {
        Stop {
            at: strand,
            asked: AtomicU64::new(0),
            is_wrong: AtomicBool::new(false),
        }
    }

    /// Whether it was asked before so many strands, as it is to be.
    pub fn was_asked(&self, strands: u64) -> bool {
        self.asked.load(Ordering::SeqCst) == strands && !self.is_wrong.load(Ordering::SeqCst)
    }
}

impl Gate for Stop {
    fn pass(&self, worker: u8, strand: u64) -> Go {
        let before = self.asked.fetch_add(1, Ordering::SeqCst);
        if worker != 0 || strand != before {
            self.is_wrong.store(true, Ordering::SeqCst);
        }
        if strand < self.at { Go::On } else { Go::Stop }
    }
}

/// Would stop a run before its first strand, but is not to be called.
pub struct Asleep;

impl Gate for Asleep {
    fn pass(&self, _worker: u8, _strand: u64) -> Go {
        Go::Stop
    }

    fn watches(&self) -> bool {
        false
    }
}

/// Counts how often each worker passes it.
#[derive(Drop)]
pub struct Tally {
    passes: Vec<AtomicU64>,
}

impl Gate for Tally {
    fn pass(&self, worker: u8, _strand: u64) -> Go {
        if let Some(passes) = self.passes.get(worker as usize) {
            let _before = passes.fetch_add(1, Ordering::SeqCst);
        }
        Go::On
    }
}

impl Tally {
    pub fn new(alloc: Global, workers: usize) -> Result<Tally, OutOfMemory> {
        let mut passes = Vec::new(alloc);
        for _worker in 0..workers {
            passes.push(AtomicU64::new(0))?;
        }
        Ok(Tally { passes })
    }

    /// How often the worker passed it.
    pub fn of(&self, worker: u8) -> u64 {
        match self.passes.get(worker as usize) {
            Some(passes) => passes.load(Ordering::SeqCst),
            None => 0,
        }
    }
}
