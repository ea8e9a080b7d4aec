//! Runs at boards from start to end, whose calls a seed draws, and what each comes to.
ghost use Rattle.std.specs.Prelude.{◌≡◌, ◌<◌, vec_len, IfOk};
ghost use Rattle.shared_run.specs.store.Made.{IsMadeFor};
ghost use Rattle.shared_run.specs.store.Named.{HasGlobalCells};

use crate::boards::calls::{Player, players_of};
use crate::endings::{Ending, is_so, leads_to};
use crate::report::Report;
use lists::OutOfMemory;
use serial_machine::serial_run;
use shared_run::{
    Bench, Board, Decoded, Finished, History, Keeping, Launch, Memory, Seat, Shared, Start,
    Verified, replay,
};
use std::alloc::Global;
use std::marker::Brand;
use std::ops::Range;
use std::sync::ledger::Blank;

/// The most calls that a seed draws.
const MOST_CALLS: u32 = 40_000;

/// A run of a module: what it begins with, on how many workers, and what it comes to.
#[derive(Drop)]
struct Run<'a> {
    alloc: Global,
    verified: &'a Verified,
    arguments: &'a [i64],
    memory: &'a Memory,
    wanted: Ending,
    workers: usize,
    seed: u64,
    ghost made: { IsMadeFor verified.now memory.now },
    ghost cells: { HasGlobalCells verified.now memory.now },
}

/// The memory of a module in which the first cell of `a` holds a number.
fn memory_of(alloc: Global, verified: &Verified, cell: i64) -> Result<Memory, OutOfMemory>
    ensures made { IfOk result (λ memory. IsMadeFor verified.now memory) }
    ensures cells { IfOk result (λ memory. HasGlobalCells verified.now memory) }
{
    let mut memory = Memory::zeroed(alloc, verified)?;
    let _set = memory.set_global("a", 0, cell);
    Ok(memory)
}

/// The next number of a sequence: the high bits of a linear congruence with Knuth's factor for 64 bits.
fn drawn(state: &mut u64) -> u64 {
    *state = state
        .wrapping_mul(6_364_136_223_846_793_005)
        .wrapping_add(1_442_695_040_888_963_407);
    *state >> 33
}

/// Makes the calls that the seed draws, to the end of the run.
fn play<L: Bench>(
    run: &Run<'_>,
    board: &mut Board<'_, L>,
    seats: &mut [Seat<L>],
    players: &mut [Player<'_, L>],
    report: &mut Report,
) {
    let mut tickets = Vec::new(run.alloc);
    let mut state = run.seed;
    for _call in 0..MOST_CALLS {
        if board.end() {
            return;
        }
        let number = drawn(&mut state);
        let worker = (number / 16 % 4) as usize;
        if let (Some(seat), Some(own)) = (seats.get_mut(worker), players.get_mut(worker)) {
            let refused = own.call(board, seat, &mut tickets, number % 16, number / 64);
            if !refused.is_empty() {
                report.refused = refused;
            }
        }
    }
}

/// The end of a board without a lock, which another start does not get.
fn alone<'a, L: Bench>(
    run: &Run<'a>,
    board: Board<'a, L>,
    seats: Vec<Seat<L>>,
) -> Result<Option<(Finished, History)>, OutOfMemory>
    requires code { run.now.verified.now ≡ L.code }
    requires all { vec_len seats ≡ L.parts }
    requires some { 0 < L.parts }
{
    let more = run.workers.saturating_add(1);
    let other = Start::new(run.alloc, run.verified, run.arguments, run.memory, more)?;
    let own = Start::new(
        run.alloc,
        run.verified,
        run.arguments,
        run.memory,
        run.workers,
    )?;
    match board.finish(&other, seats) {
        Ok(_) => Ok(None),
        Err((board, seats)) => Ok(board.finish(&own, seats).ok()),
    }
}

/// What the run that has this ledger comes to, if it ends: half of the seeds at a board in a lock, the others at one without.
fn played<'a, L: Bench>(
    run: &Run<'a>,
    memory: Memory,
    blank: Blank,
    report: &mut Report,
) -> Result<Option<(Finished, History)>, OutOfMemory>
    requires made { IsMadeFor run.now.verified.now memory }
    requires code { run.now.verified.now ≡ L.code }
    requires arguments { run.now.arguments.now ≡ L.arguments }
    requires memory { memory ≡ L.memory }
    requires crew { run.now.workers ≡ L.crew }
    requires name { blank.name ≡ L.name }
    requires parts { blank.parts ≡ L.parts }
    requires one_each { blank.parts ≡ run.now.workers }
{
    let (alloc, workers) = (run.alloc, run.workers);
    let code = Decoded::of(alloc, run.verified)?;
    let mut players = players_of(alloc, run.verified, &code, workers)?;
    let players = players.as_mut_slice();
    let launch = Launch {
        verified: run.verified,
        arguments: run.arguments,
        memory,
        workers,
    };
    if run.seed / 4 % 2 == run.seed % 2 {
        let Ok((mut shared, mut seats)) = Shared::<L>::new(alloc, launch, Keeping::Events, blank)
        else {
            return Err(OutOfMemory);
        };
        let board = shared.board.get_mut();
        play(run, board, seats.as_mut_slice(), players, report);
        return Ok(shared.finish(seats).ok());
    }
    let Ok((mut board, mut seats)) = Board::<L>::new(alloc, launch, Keeping::Events, blank) else {
        return Err(OutOfMemory);
    };
    play(run, &mut board, seats.as_mut_slice(), players, report);
    alone(run, board, seats)
}

/// Whether this is what is wanted, the serial run's answer, and that of a replay of its events.
fn is_right(run: &Run<'_>, done: &Finished, history: &History) -> Result<bool, OutOfMemory> {
    let (alloc, verified, arguments) = (run.alloc, run.verified, run.arguments);
    let events = history.events(alloc)?;
    let serial = serial_run(alloc, verified, arguments, run.memory.copy()?);
    let machine = replay(
        alloc,
        verified,
        arguments,
        run.memory.copy()?,
        run.workers,
        events.as_slice(),
    );
    let (Ok(serial), Ok(machine)) = (serial, machine) else {
        return Err(OutOfMemory);
    };
    Ok(
        is_so(done, run.wanted)
            && is_so(&serial, run.wanted)
            && done.memory.same(&serial.memory)
            && leads_to(machine, done),
    )
}

/// Whether the run comes to what it is to.
fn comes_right(run: &Run<'_>, report: &mut Report) -> Result<bool, OutOfMemory> {
    let memory = run.memory.copy()?;
    let blank = Blank::new(run.workers as u64);
    match played::<Brand>(run, memory, blank, report)? {
        Some((done, history)) => is_right(run, &done, &history),
        None => Ok(false),
    }
}

/// Whether the runs of these seeds come to what they are to, on 1 to 4 workers.
fn come_right(
    run: &mut Run<'_>,
    seeds: &Range<u64>,
    report: &mut Report,
) -> Result<bool, OutOfMemory> {
    for seed in seeds.start..seeds.end {
        run.seed = seed;
        run.workers = (seed % 4) as usize + 1;
        if !comes_right(&*run, report)? {
            return Ok(false);
        }
    }
    Ok(true)
}

/// Whether the runs of the module by these seeds come to what is wanted. It begins with the number of the first cell of `a`, and the arguments.
pub fn are_right(
    alloc: Global,
    verified: &Verified,
    begin: (i64, &[i64]),
    wanted: Ending,
    seeds: &Range<u64>,
    report: &mut Report,
) -> Result<bool, OutOfMemory> {
    let memory = memory_of(alloc, verified, begin.0)?;
    let mut run = Run {
        alloc,
        verified,
        arguments: begin.1,
        memory: &memory,
        wanted,
        workers: 1,
        seed: 0,
    };
    come_right(&mut run, seeds, report)
}
