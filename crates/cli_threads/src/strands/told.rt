//! What is told of a recorded run: tallies of workers, rounds, and its picture.

ghost use Rattle.std.specs.Prelude.{◌≡◌, ◌<◌};
ghost use Rattle.shared_run.specs.store.Made.{IsMadeFor};

use crate::strands::walk::told_along;
use deque_pool::Launch;
use lists::OutOfMemory;
use shared_run::{Bench, Board, Entry, Keeping, RunFault};
use std::alloc::Global;
use std::marker::Brand;
use std::sync::ledger::Blank;
use views::{Rounds, Scene, Tally};

/// What is told of a run.
#[derive(Drop)]
pub struct Told {
    /// By worker.
    pub tallies: Vec<Tally>,
    /// The last round.
    pub rounds: u64,
    /// Where a picture is wanted: what it shows.
    pub scene: Option<Scene>,
}

/// The last round of a run of so many workers.
pub(crate) fn last_round(rounds: &Rounds, workers: usize) -> u64 {
    let mut last = 0;
    for worker in 0..workers {
        last = rounds.last_of(worker).max(last);
    }
    last
}

/// Tells of a run that was recorded by these entries, from its start on. Where a scene is wanted, each task is told by itself.
///
/// # Errors
///
/// 801 where the arguments are not those of `main`, then 802 where there are not from 1 to 64 workers; both hand the memory back.
/// 803 where memory is refused, or the entries are not those of a run from this start.
pub fn run_again(
    alloc: Global,
    launch: Launch<'_>,
    entries: &[Entry],
    has_scene: bool,
) -> Result<Told, RunFault>
    requires { IsMadeFor launch.verified.now launch.memory }
{
    let blank = Blank::new(launch.workers as u64);
    run_by::<Brand>(alloc, launch, entries, has_scene, blank)
}

/// Does the recorded run once more on a board of the ledger that `blank` begins, and tells of it.
fn run_by<L: Bench>(
    alloc: Global,
    launch: Launch<'_>,
    entries: &[Entry],
    has_scene: bool,
    blank: Blank,
) -> Result<Told, RunFault>
    requires made { IsMadeFor launch.verified.now launch.memory }
    requires code { launch.verified.now ≡ L.code }
    requires arguments { launch.arguments.now ≡ L.arguments }
    requires memory { launch.memory ≡ L.memory }
    requires crew { launch.workers ≡ L.crew }
    requires name { blank.name ≡ L.name }
    requires parts { blank.parts ≡ L.parts }
    requires one_each { blank.parts ≡ launch.workers }
{
    let verified = launch.verified;
    let (board, seats) = Board::<L>::new(alloc, launch, Keeping::Nothing, blank)?;
    match told_along(alloc, verified, board, seats, entries, has_scene) {
        Ok(told) => Ok(told),
        Err(OutOfMemory) => Err(RunFault::OutOfMemory),
    }
}

/// Before the first event.
pub(crate) fn nothing_told(
    alloc: Global,
    workers: usize,
    has_scene: bool,
) -> Result<Told, OutOfMemory> {
    let mut scene = None;
    if has_scene {
        scene = Some(Scene::new(alloc, workers)?);
    }
    Ok(Told {
        tallies: vec![in alloc; Tally::NONE; workers]?,
        rounds: 0,
        scene,
    })
}
