//! A worker with its seat, its strand, its deque of tickets and its ends of the others'; all workers of a run.
ghost use Rattle.std.specs.Prelude.{◌≡◌, vec_len, vec_capacity, ◌≤◌, IfOk};
ghost use Rattle.shared_run.specs.serial_machine.Decoding.{IsCodeOf};

use crate::figures::Figures;
use crate::outlook::Quit;
use deque_pool_tickets::{Hands, Thief};
use lists::OutOfMemory;
use shared_run::turns::Habits;
use shared_run::{Bench, Decoded, Seat, Verified, WorkerStrand};
use std::alloc::Global;
use std::sync::Mutex;

/// A worker: its seat, its strand, its list of tickets, and its ends of the others' lists, from the next worker on; what it has done, and why it left.
#[derive(Drop)]
pub(crate) struct Worker<'p, L: Bench> {
    pub(crate) seat: Seat<L>,
    pub(crate) strand: WorkerStrand<'p, L>,
    pub(crate) hands: Hands,
    pub(crate) thieves: Vec<Thief>,
    pub(crate) habits: Habits,
    pub(crate) figures: Figures,
    pub(crate) left: Quit,
}

/// A worker for each seat, each in a lock for its thread, and in the opposite order, so that worker 0 is the last. They have done what `figures` say.
pub(crate) fn crew_of<'p, L: Bench>(
    alloc: Global,
    mut seats: Vec<Seat<L>>,
    figures: &[Figures],
    verified: &'p Verified,
    code: &'p Decoded,
) -> Result<Vec<Mutex<Worker<'p, L>>>, OutOfMemory>
    requires code { verified.now ≡ L.code }
    requires decoded { IsCodeOf verified.now code.now }
    ensures { IfOk result (λ crew. vec_len crew ≡ vec_len seats) }
{
    let count = seats.len();
    let (mut own, mut ends) = all_hands(alloc, count)?;
    let mut crew = Vec::with_capacity(alloc, count)?;
    while let Some(seat) = seats.pop() {
        let Some(hands) = own.pop() else {
            return Err(OutOfMemory);
        };
        let strand = WorkerStrand::new(alloc, verified, code)?;
        let me = seats.len();
        let thieves = thieves_from(alloc, &mut ends, me)?;
        let figures = figures.get(me).copied().unwrap_or(Figures::none());
        crew.push(Mutex::new(Worker {
            seat,
            strand,
            hands,
            thieves,
            habits: Habits::new(alloc),
            figures,
            left: Quit::Over,
        }))?;
    }
    Ok(crew)
}

/// The tickets of so many workers, and for each the ends for the others.
fn all_hands(alloc: Global, count: usize) -> Result<(Vec<Hands>, Vec<Vec<Thief>>), OutOfMemory> {
    let mut own = Vec::with_capacity(alloc, count)?;
    let mut ends = Vec::with_capacity(alloc, count)?;
    for _ in 0..count {
        let (hands, thieves) = Hands::new(alloc, count.saturating_sub(1))?;
        own.push(hands)?;
        ends.push(thieves)?;
    }
    Ok((own, ends))
}

/// An end of the tickets of each worker but `me`, from the next worker on.
fn thieves_from(
    alloc: Global,
    ends: &mut Vec<Vec<Thief>>,
    me: usize,
) -> Result<Vec<Thief>, OutOfMemory> {
    let count = ends.len();
    let mut thieves = Vec::with_capacity(alloc, count)?;
    for step in 1..count {
        let Some(end) = ends.get_mut((me % count + step) % count) else {
            continue;
        };
        if let Some(thief) = end.pop() {
            thieves.push(thief)?;
        }
    }
    Ok(thieves)
}

/// The seats of all workers, in `room`, and why each of them left, in `left`, which are empty; what they have done by now goes into `figures`.
pub(crate) fn disband<L: Bench>(
    mut crew: Vec<Mutex<Worker<'_, L>>>,
    mut room: Vec<Seat<L>>,
    mut left: Vec<Quit>,
    figures: &mut [Figures],
) -> (Vec<Seat<L>>, Vec<Quit>)
    requires room { (vec_len room ≡ 0) × (vec_len crew ≤ vec_capacity room) }
    requires left { (vec_len left ≡ 0) × (vec_len crew ≤ vec_capacity left) }
    ensures seats { vec_len result.0 ≡ vec_len crew.entry }
    ensures left { vec_len result.1 ≡ vec_len crew.entry }
{
    while let Some(worker) = crew.pop() {
        let worker = worker.into_inner();
        left.push_reserved(worker.left);
        if let Some(own) = figures.get_mut(usize::from(worker.seat.worker())) {
            *own = worker.figures;
        }
        room.push_reserved(worker.seat);
    }
    (room, left)
}
