//! The calls by which a host runs a module that is kept on threads that it brings, under a lock that it brings.

ghost use Rattle.std.specs.Prelude.{◌≡◌, ◌≢◌, ◌⊎◌, None, Some, length, sum};
ghost use Rattle.kernel_calls.specs.Boards.{AnswersSerially, AreOfOne, Begins, BeginsAt, HasEnded, HasOtherCellsOfRun, IsFinishHeldStatus, IsFinishStatus};
ghost use Rattle.kernel_calls.specs.Boards.{IsBegunStatus, IsMadeStatus, IsMeetStatus, IsMetStatus, IsOpenStatus, IsSetStatus, IsTurnStatus};
ghost use Rattle.kernel_calls.specs.Boards.{IsGranted, IsOfRun, IsSpent};
ghost use Rattle.kernel_calls.specs.Boards.{GoesOn, MayGoOn, OfRun, StandsHeld, StaysHeld, idle, work};
ghost use Rattle.kernel_calls.specs.Replayed.{bad_workers, not_ended};
ghost use Rattle.kernel_calls.specs.Runs.{machine_of};
ghost use Rattle.kernel_calls.specs.Told.{bad_arguments, done, other_cells, out_of_fuel, out_of_memory, sizes_in, stopped};
ghost use Rattle.kernel_calls.specs.Held.{HasOtherCellsHeld, IsShareStatus, LacksHeld, closed};
ghost use Rattle.schedule_core.specs.Admission.{IsNumberOfWorkers};
ghost use Rattle.store.specs.Requirements.{unmet_in};
ghost use Rattle.kernel_calls.specs.hosted.Hosted.{IsTold};
ghost use Rattle.kernel_calls.specs.declared.hosted.met.Met.TheVariants as told;

use crate::block::{RunBlock, WorkerBlock};
use crate::board_handle::{BoardHandle, WorkerHandle};
use crate::cells::count_cells;
use crate::handle::Handle;
use crate::hosted::{Met, Stop};
use crate::requests::BoardRequest;
use crate::serial::{filled, not_begun, shown};
use crate::shared::Shared;
use crate::stop::StopHandle;
use crate::told::{
    CLOSED, DONE, FOREIGN, IDLE, NOT_ENDED, OTHER_CELLS, OUT_OF_FUEL, OUT_OF_MEMORY, Outcome,
    STOPPED, WORK, plain_outcome,
};
use core::mem::replace_with;
use std::alloc::Global;

/// A run of a module over a row of its globals' numbers, and the outcome that says whether there is one.
#[tactic(auto, using(crate::proofs::Standing::begins_here, crate::proofs::Faults::lacks_what_is_told, crate::proofs::Faults::has_other_workers))]
fn begun(
    alloc: Global,
    kernel: &Shared,
    request: &BoardRequest<'_>,
    cells: &[i64],
    stop: Stop,
) -> (Outcome, BoardHandle)
    ensures begins { result.0.status ≡ done → Begins kernel.now request.now.arguments.now cells.now request.now.workers request.now.fuel result.1.run.state }
    ensures nothing { result.0.status ≢ done → result.1.run.state ≡ None }
    ensures arguments { result.0.status ≡ bad_arguments → unmet_in kernel.now request.now.arguments.now ≡ Some result.0.requirement }
    ensures workers { result.0.status ≡ bad_workers → ¬ IsNumberOfWorkers request.now.workers }
    ensures cells { result.0.status ≡ other_cells → length cells.now ≢ sum (sizes_in kernel.now) }
    ensures statuses { IsBegunStatus result.0.status }
{
    let none = BoardHandle::closed(alloc);
    let memory = match filled(alloc, kernel.verified(), cells) {
        Ok(memory) => memory,
        Err(status) => return (plain_outcome(status), none),
    };
    let Some(own) = kernel.another() else {
        return (plain_outcome(OUT_OF_MEMORY), none);
    };
    match RunBlock::begin(alloc, own, memory, request, stop) {
        Ok(run) => match Box::new(alloc, run) {
            Ok(block) => (plain_outcome(DONE), BoardHandle::kept(block)),
            Err(_) => (plain_outcome(OUT_OF_MEMORY), none),
        },
        Err(fault) => (not_begun(fault), none),
    }
}

/// Begins a run of the module that is held on so many workers, from the numbers of its globals, with so much fuel. What the board held is given back.
pub fn open_board(
    alloc: Global,
    handle: &mut Handle,
    stop: &mut StopHandle,
    request: &BoardRequest<'_>,
    cells: &[i64],
    board: &mut BoardHandle,
) -> Outcome
    ensures begins { result.status ≡ done →
        BeginsAt handle.old.kernel.program request.now.arguments.now cells.now request.now.workers request.now.fuel board.new.run.state }
    ensures nothing { result.status ≢ done → board.new.run.state ≡ None }
    ensures arguments { result.status ≡ bad_arguments → LacksHeld handle.old.kernel.program request.now.arguments.now result.requirement }
    ensures workers { result.status ≡ bad_workers → ¬ IsNumberOfWorkers request.now.workers }
    ensures cells { result.status ≡ other_cells → HasOtherCellsHeld handle.old.kernel.program cells.now }
    ensures closed { result.status ≡ closed → handle.old.kernel.program ≡ None }
    ensures statuses { IsOpenStatus result.status }
    ensures same { handle.new.kernel.program ≡ handle.old.kernel.program }
    ensures stop { stop.new.stop.kept ≡ stop.old.stop.kept }
{
    *board = BoardHandle::closed(alloc);
    let Some(heard) = stop.heard(alloc) else {
        return plain_outcome(OUT_OF_MEMORY);
    };
    match handle.take(alloc) {
        Some(block) => {
            let (outcome, made) = begun(alloc, block.as_ref(), request, cells, heard);
            handle.keep(block);
            *board = made;
            outcome
        }
        None => plain_outcome(CLOSED),
    }
}

/// A worker of the run, in a handle, and the status.
fn hired(alloc: Global, run: &RunBlock, number: u8) -> (u32, WorkerHandle)
    ensures worker { result.0 ≡ done → result.1.worker.program ≡ Some run.now.start.program }
    ensures nothing { result.0 ≢ done → result.1.worker.program ≡ None }
    ensures statuses { IsMadeStatus result.0 }
{
    match run.worker(alloc, number) {
        Ok(worker) => match Box::new(alloc, worker) {
            Ok(made) => (DONE, WorkerHandle::kept(made)),
            Err(_) => (OUT_OF_MEMORY, WorkerHandle::closed(alloc)),
        },
        Err(_) => (OUT_OF_MEMORY, WorkerHandle::closed(alloc)),
    }
}

/// Makes the run's worker of this number, from 0. What the worker held is given back.
pub fn open_worker(
    alloc: Global,
    board: &mut BoardHandle,
    number: u8,
    worker: &mut WorkerHandle,
) -> u32
    ensures worker { result ≡ done → IsOfRun board.old.run.state worker.new.worker.program }
    ensures nothing { result ≢ done → worker.new.worker.program ≡ None }
    ensures closed { result ≡ closed → board.old.run.state ≡ None }
    ensures same { board.new.run.state ≡ board.old.run.state }
    ensures statuses { IsShareStatus result }
{
    match board.take(alloc) {
        Some(block) => {
            let (status, made) = hired(alloc, block.as_ref(), number);
            board.keep(block);
            *worker = made;
            status
        }
        None => {
            *worker = WorkerHandle::closed(alloc);
            CLOSED
        }
    }
}

/// The status of a meeting.
fn status_of(met: Met) -> u32
    ensures work { result ≡ work → met ≡ told.Work }
    ensures idle { result ≡ idle → met ≡ told.Idle }
    ensures ended { result ≡ done → met ≡ told.Ended }
    ensures spent { result ≡ out_of_fuel → met ≡ told.OutOfFuel }
    ensures stopped { result ≡ stopped → met ≡ told.Stopped }
    ensures statuses { IsMetStatus result }
{
    match met {
        Met::Work => WORK,
        Met::Idle => IDLE,
        Met::Ended => DONE,
        Met::OutOfMemory => OUT_OF_MEMORY,
        Met::OutOfFuel => OUT_OF_FUEL,
        Met::Stopped => STOPPED,
    }
}

/// The worker meets the board, and stays where it is.
fn meet_within(
    worker: WorkerBlock,
    with: (Global, RunBlock),
) -> (WorkerBlock, (RunBlock, (Met, usize)))
    requires { worker ≡ with.1.start.program }
    ensures worker { result.0 ≡ worker }
    ensures goes { GoesOn with.1 result.1.0 }
    ensures told { IsTold (machine_of result.1.0) with.1.fuel result.1.1.0 }
    ensures stopped { result.1.1.0 ≡ told.Stopped → result.1.0 ≡ with.1 }
{
    let (alloc, run) = with;
    let (run, worker, met) = run.meet(alloc, worker);
    (worker, (run, met))
}

/// The board stays where it is too.
fn meet_beside(
    run: RunBlock,
    with: (Global, Box<WorkerBlock>),
) -> (RunBlock, (Box<WorkerBlock>, (Met, usize)))
    requires { with.1.value ≡ run.start.program }
    ensures worker { result.1.0.value ≡ with.1.value }
    ensures goes { GoesOn run result.0 }
    ensures told { IsTold (machine_of result.0) run.fuel result.1.1.0 }
    ensures stopped { result.1.1.0 ≡ told.Stopped → result.0 ≡ run }
{
    let (alloc, mut worker) = with;
    let (run, met) = replace_with(worker.as_mut(), (alloc, run), meet_within);
    (run, (worker, met))
}

/// The worker of a handle meets the board of another, which needs no memory for either; and the status.
#[tactic(auto, using(crate::proofs::Standing::works, crate::proofs::Standing::idles, crate::proofs::Standing::spent, crate::proofs::Standing::ended))]
fn met_in(
    alloc: Global,
    run: Box<RunBlock>,
    worker: Box<WorkerBlock>,
) -> (u32, usize, BoardHandle, WorkerHandle)
    requires { worker.value ≡ run.value.start.program }
    ensures worker { result.3.worker.program ≡ Some worker.value }
    ensures goes { OfRun result.2.run.state (GoesOn run.value) }
    ensures work { result.0 ≡ work → OfRun result.2.run.state MayGoOn }
    ensures idle { result.0 ≡ idle → OfRun result.2.run.state MayGoOn }
    ensures ended { result.0 ≡ done → OfRun result.2.run.state HasEnded }
    ensures spent { result.0 ≡ out_of_fuel → OfRun result.2.run.state IsSpent }
    ensures stopped { result.0 ≡ stopped → result.2.run.state ≡ Some run.value }
    ensures statuses { IsMetStatus result.0 }
{
    if !run.as_ref().has_module_of(worker.as_ref()) {
        return (
            FOREIGN,
            0,
            BoardHandle::kept(run),
            WorkerHandle::kept(worker),
        );
    }
    let mut run = run;
    let (worker, (met, offered)) = replace_with(run.as_mut(), (alloc, worker), meet_beside);
    (
        status_of(met),
        offered,
        BoardHandle::kept(run),
        WorkerHandle::kept(worker),
    )
}

/// Does at the board what the worker wants, which is one of this run; the host holds its lock. How many tasks others may take now is written.
#[tactic(auto, using(crate::proofs::Standing::stays_some, crate::proofs::Standing::stays_none, crate::proofs::Standing::stays_same))]
pub fn meet_board(
    alloc: Global,
    board: &mut BoardHandle,
    worker: &mut WorkerHandle,
    offered: &mut usize,
) -> u32
    requires { AreOfOne board.old.run.state worker.old.worker.program }
    ensures run { StaysHeld board.old.run.state board.new.run.state }
    ensures worker { worker.new.worker.program ≡ worker.old.worker.program }
    ensures work { result ≡ work → OfRun board.new.run.state MayGoOn }
    ensures idle { result ≡ idle → OfRun board.new.run.state MayGoOn }
    ensures ended { result ≡ done → OfRun board.new.run.state HasEnded }
    ensures spent { result ≡ out_of_fuel → OfRun board.new.run.state IsSpent }
    ensures stopped { result ≡ stopped → board.new.run.state ≡ board.old.run.state }
    ensures closed { result ≡ closed → (board.old.run.state ≡ None) ⊎ (worker.old.worker.program ≡ None) }
    ensures statuses { IsMeetStatus result }
{
    *offered = 0;
    let held = board.take(alloc);
    let own = worker.take(alloc);
    match (held, own) {
        (Some(run), Some(own)) => {
            let (status, count, run, own) = met_in(alloc, run, own);
            *offered = count;
            *board = run;
            *worker = own;
            status
        }
        (Some(run), None) => {
            board.keep(run);
            CLOSED
        }
        (None, Some(own)) => {
            worker.keep(own);
            CLOSED
        }
        (None, None) => CLOSED,
    }
}

/// The worker goes on, and stays where it is; and whether the run's stop is set.
fn turned(worker: WorkerBlock, _with: ()) -> (WorkerBlock, bool)
    ensures { result.0 ≡ worker }
{
    let worker = worker.turn();
    let is_stopped = worker.is_stopped();
    (worker, is_stopped)
}

/// The worker goes on outside of the board, which another worker may meet at the same time.
pub fn turn_worker(alloc: Global, worker: &mut WorkerHandle) -> u32
    ensures same { worker.new.worker.program ≡ worker.old.worker.program }
    ensures closed { result ≡ closed → worker.old.worker.program ≡ None }
    ensures held { worker.old.worker.program ≡ None → result ≡ closed }
    ensures statuses { IsTurnStatus result }
{
    let Some(own) = worker.take(alloc) else {
        return CLOSED;
    };
    let mut own = own;
    let is_stopped = replace_with(own.as_mut(), (), turned);
    worker.keep(own);
    if is_stopped { STOPPED } else { DONE }
}

/// Grants the run more fuel, at most 2^64 - 1 in all.
pub fn grant_fuel(alloc: Global, board: &mut BoardHandle, more: u64) -> u32
    ensures granted { result ≡ done → IsGranted more board.old.run.state board.new.run.state }
    ensures closed { result ≡ closed → board.old.run.state ≡ None }
    ensures nothing { result ≡ closed → board.new.run.state ≡ None }
    ensures statuses { IsSetStatus result }
{
    let Some(run) = board.take(alloc) else {
        return CLOSED;
    };
    let mut run = run;
    run.as_mut().grant(more);
    board.keep(run);
    DONE
}

/// The answer of a run that has ended, or the run again.
#[tactic(auto, using(crate::proofs::Standing::stands_in, crate::proofs::Standing::answers_here))]
fn finished(alloc: Global, run: Box<RunBlock>, cells: &mut [i64]) -> (Outcome, BoardHandle)
    ensures answer { result.0.status ≡ done → AnswersSerially (Some run.value) cells.new result.0 }
    ensures stands { result.0.status ≡ not_ended → StandsHeld (Some run.value) result.0 }
    ensures other { result.0.status ≡ other_cells → HasOtherCellsOfRun (Some run.value) cells.old }
    ensures kept { result.0.status ≢ done → cells.new ≡ cells.old }
    ensures same { (result.0.status ≡ not_ended) ⊎ (result.0.status ≡ other_cells) → result.1.run.state ≡ Some run.value }
    ensures nothing { result.0.status ≡ done → result.1.run.state ≡ None }
    ensures lost { result.0.status ≡ out_of_memory → result.1.run.state ≡ None }
    ensures statuses { IsFinishStatus result.0.status }
{
    let mut run = run;
    let progress = replace_with(run.as_mut(), alloc, RunBlock::look);
    if !progress.ended {
        let outcome = Outcome {
            instructions: progress.instructions,
            peak: progress.peak,
            ..plain_outcome(NOT_ENDED)
        };
        return (outcome, BoardHandle::kept(run));
    }
    if count_cells(run.as_ref().program()) != cells.len() as u64 {
        return (plain_outcome(OTHER_CELLS), BoardHandle::kept(run));
    }
    match Box::into_inner(run).finish(alloc) {
        Ok(finished) => (shown(&finished, cells), BoardHandle::closed(alloc)),
        Err(_) => (plain_outcome(OUT_OF_MEMORY), BoardHandle::closed(alloc)),
    }
}

/// The answer of a run that has ended, whose board holds nothing then; or how far it has come.
#[tactic(auto, using(crate::proofs::Standing::answers_held, crate::proofs::Standing::stands_held, crate::proofs::Standing::other_held))]
pub fn finish_board(alloc: Global, board: &mut BoardHandle, cells: &mut [i64]) -> Outcome
    ensures answer { result.status ≡ done → AnswersSerially board.old.run.state cells.new result }
    ensures stands { result.status ≡ not_ended → StandsHeld board.old.run.state result }
    ensures other { result.status ≡ other_cells → HasOtherCellsOfRun board.old.run.state cells.old }
    ensures kept { result.status ≢ done → cells.new ≡ cells.old }
    ensures same { (result.status ≡ not_ended) ⊎ (result.status ≡ other_cells) → board.new.run.state ≡ board.old.run.state }
    ensures nothing { result.status ≡ done → board.new.run.state ≡ None }
    ensures lost { result.status ≡ out_of_memory → board.new.run.state ≡ None }
    ensures closed { result.status ≡ closed → board.old.run.state ≡ None }
    ensures statuses { IsFinishHeldStatus result.status }
{
    match board.take(alloc) {
        Some(run) => {
            let (outcome, back) = finished(alloc, run, cells);
            *board = back;
            outcome
        }
        None => plain_outcome(CLOSED),
    }
}

/// Gives back what the board holds.
pub fn close_board(alloc: Global, board: &mut BoardHandle)
    ensures { board.new.run.state ≡ None }
{
    *board = BoardHandle::closed(alloc);
}

/// Gives back what the worker holds.
pub fn close_worker(alloc: Global, worker: &mut WorkerHandle)
    ensures { worker.new.worker.program ≡ None }
{
    *worker = WorkerHandle::closed(alloc);
}
