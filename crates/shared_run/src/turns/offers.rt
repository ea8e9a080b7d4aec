//! The tickets that the workers of a run have offered, beside a host's board, and whether others wait.

use crate::ticket::Ticket;
use crate::turns::tasks::{Tasks, Told};
use lists::OutOfMemory;
use std::alloc::Global;
use std::collections::VecDeque;
use std::sync::Arc;
use std::sync::atomic::{AtomicU64, Ordering};

/// The tickets of ready tasks that the workers of a run have offered, each worker's own, and how many of them have no task. It stands beside the board, under
/// its lock; only whether others wait is told without. These are hints on which nothing rests.
#[derive(Drop)]
pub struct Offers {
    lists: Vec<VecDeque<Ticket>>,
    idle: i64,
    ready: i64,
    /// 1 where more workers have no task than tasks are ready.
    wanted: Arc<AtomicU64>,
    /// Memory was refused to a worker.
    pub starved: bool,
}

impl Offers {
    /// Of so many workers that have no task.
    ///
    /// # Errors
    ///
    /// Memory was refused.
    pub fn new(alloc: Global, workers: usize) -> Result<Offers, OutOfMemory> {
        let mut lists = Vec::with_capacity(alloc, workers)?;
        for _worker in 0..workers {
            lists.push(VecDeque::new(alloc))?;
        }
        Ok(Offers {
            lists,
            idle: workers as i64,
            ready: 0,
            wanted: Arc::new(alloc, AtomicU64::new(0))?,
            starved: false,
        })
    }

    /// What tells whether others wait, for a worker.
    ///
    /// # Errors
    ///
    /// There are as many as can be counted.
    pub fn share(&self) -> Result<Arc<AtomicU64>, OutOfMemory> {
        match Arc::try_clone(&self.wanted) {
            Ok(wanted) => Ok(wanted),
            Err(_) => Err(OutOfMemory),
        }
    }

    /// Tells those who go on outside whether others wait.
    pub fn tell(&self) {
        let wanted = if self.ready < self.idle { 1 } else { 0 };
        self.wanted.store(wanted, Ordering::SeqCst);
    }
}

impl Tasks for Offers {
    fn offer(&mut self, worker: u8, ticket: Ticket) {
        self.ready = self.ready.saturating_add(1);
        if let Some(list) = self.lists.get_mut(usize::from(worker)) {
            let _ = list.push_back(ticket);
        }
    }

    fn withdraw(&mut self, worker: u8, own: (usize, u64)) {
        self.ready = self.ready.saturating_sub(1);
        if let Some(list) = self.lists.get_mut(usize::from(worker))
            && let Some(ticket) = list.pop_back()
            && (ticket.slot != own.0 || ticket.generation != own.1)
        {
            let _ = list.push_back(ticket);
        }
    }

    fn next(&mut self, worker: u8) -> Option<Ticket> {
        let me = usize::from(worker);
        if let Some(own) = self.lists.get_mut(me)
            && let Some(ticket) = own.pop_back()
        {
            return Some(ticket);
        }
        let count = self.lists.len();
        for step in 1..count {
            if let Some(list) = self.lists.get_mut((me % count + step) % count)
                && let Some(ticket) = list.pop_front()
            {
                return Some(ticket);
            }
        }
        None
    }

    fn note(&mut self, told: Told) {
        if let Told::Steal = told {
            self.ready = self.ready.saturating_sub(1);
        }
        match told {
            Told::Rest => self.idle = self.idle.saturating_add(1),
            Told::Begin | Told::Steal => self.idle = self.idle.saturating_sub(1),
            Told::Publication { .. } | Told::Step | Told::Stranger => {}
        }
    }
}
