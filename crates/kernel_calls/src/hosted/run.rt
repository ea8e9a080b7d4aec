//! A run on the host's threads: it begins, meets each worker, and gives its events and its answer.

ghost use Rattle.std.specs.Prelude.{◌≡◌, ◌≢◌, ◌<◌, [], Err, IfErr, IfNone, IfOk, IfSome, IsSome, None, OnErr, length};
ghost use Rattle.kernel_calls.specs.hosted.Hosted.{IsProgress, IsTold, RunsFrom, WorksFor, start_of};
ghost use Rattle.kernel_calls.specs.declared.hosted.met.Met.TheVariants.{Stopped};
ghost use Rattle.schedule_core.specs.Admission.{IsAdmitted};
ghost use Rattle.schedule_core.specs.store.Made.{IsMadeFor};
ghost use Rattle.serial_machine.specs.Decoding.{IsCodeOf};
ghost use Rattle.shared_run.specs.Answer.{IsSerialAnswer, LeadTo};
ghost use Rattle.shared_run.specs.Resting.{IsAtRest, StaysPut};
ghost use Rattle.shared_run.specs.Story.{origin, reached};

use crate::hosted::met::{Met, Progress, progress_of, told};
use crate::hosted::stop::Stop;
use crate::hosted::worker::{Ears, HostedWorker};
use crate::requests::BoardRequest;
use lists::OutOfMemory;
use serial_machine::Decoded;
use shared_run::turns::{Habits, Met as Served, Offers, meet};
use shared_run::{
    Bench, Board, BoardRest, Event, Finished, Keeping, Launch, Memory, RunFault, StrandRest,
    Verified,
};
use std::alloc::Global;
use std::marker::Brand;
use std::sync::ledger::Blank;

/// A run between two calls of its host.
#[derive(Drop)]
pub struct HostedRun {
    pub(crate) board: BoardRest,
    pub(crate) offers: Offers,
    /// The run is not to go on once it has done so many instructions.
    pub(crate) fuel: u64,
    pub(crate) stop: Stop,
}

/// A board before the first event.
fn board_as<L: Bench>(
    alloc: Global,
    launch: Launch<'_>,
    blank: Blank,
) -> Result<BoardRest, RunFault>
    requires made { IsMadeFor launch.verified.now launch.memory }
    requires code { launch.verified.now ≡ L.code }
    requires arguments { launch.arguments.now ≡ L.arguments }
    requires memory { launch.memory ≡ L.memory }
    requires crew { launch.workers ≡ L.crew }
    requires name { blank.name ≡ L.name }
    requires parts { blank.parts ≡ L.parts }
    requires one_each { blank.parts ≡ launch.workers }
    ensures rests { IfOk result (IsAtRest (origin L.code L.arguments L.memory L.crew)) }
    ensures new { IfOk result (λ made. made.history.events ≡ []) }
    ensures admitted { IsAdmitted launch.entry.verified.now launch.entry.arguments.now launch.entry.memory launch.entry.workers result }
    ensures not_stopped { result ≢ Err RunFault.Stopped }
{
    let (board, _seats) = Board::<L>::new(alloc, launch, Keeping::Events, blank)?;
    Ok(board.rest())
}

/// Tells those who go on outside whether others wait. Where memory was refused to a worker the run cannot go on for any.
fn note(offers: &mut Offers, served: Served) -> Served {
    if let Served::OutOfMemory = served {
        offers.starved = true;
    }
    offers.tell();
    if offers.starved {
        Served::OutOfMemory
    } else {
        served
    }
}

/// How far a run has come.
fn look_as<L: Bench>(
    alloc: Global,
    verified: &Verified,
    blank: Blank,
    board: BoardRest,
) -> (BoardRest, Progress)
    requires code { verified.now ≡ L.code }
    requires name { blank.name ≡ L.name }
    requires parts { blank.parts ≡ L.parts }
    requires one { blank.parts ≡ 1 }
    requires board { IsAtRest (origin L.code L.arguments L.memory L.crew) board }
    ensures board { IsAtRest (origin L.code L.arguments L.memory L.crew) result.0 }
    ensures same { result.0.history.events ≡ board.history.events }
    ensures progress { IsProgress (reached (origin L.code L.arguments L.memory L.crew) result.0.history.events) result.1 }
{
    let (board, _seat) = board.wake::<L>(alloc, verified, blank, 0);
    let ended = board.end();
    let instructions = board.machine().instructions();
    let peak = board.machine().peak();
    let progress = progress_of(ended, instructions, peak);
    (board.rest(), progress)
}

/// The events of a run one by one, unless there are more than so many.
fn events_as<L: Bench>(
    alloc: Global,
    verified: &Verified,
    blank: Blank,
    board: BoardRest,
    most: u64,
) -> (BoardRest, Result<Option<Vec<Event>>, OutOfMemory>)
    requires code { verified.now ≡ L.code }
    requires name { blank.name ≡ L.name }
    requires parts { blank.parts ≡ L.parts }
    requires one { blank.parts ≡ 1 }
    requires board { IsAtRest (origin L.code L.arguments L.memory L.crew) board }
    ensures board { IsAtRest (origin L.code L.arguments L.memory L.crew) result.0 }
    ensures same { result.0.history.events ≡ board.history.events }
    ensures events { IfOk result.1 (λ found. IfSome found (λ events. events.items ≡ board.history.events)) }
    ensures long { IfOk result.1 (λ found. IfNone found (most < length board.history.events)) }
{
    let (board, _seat) = board.wake::<L>(alloc, verified, blank, 0);
    let history = board.history();
    let events = if most < history.total() {
        Ok(None)
    } else {
        match history.events(alloc) {
            Ok(events) => Ok(Some(events)),
            Err(refused) => Err(refused),
        }
    };
    (board.rest(), events)
}

/// The answer of a run that has ended.
fn finish_as<L: Bench>(
    alloc: Global,
    verified: &Verified,
    blank: Blank,
    board: BoardRest,
) -> Result<Finished, BoardRest>
    requires code { verified.now ≡ L.code }
    requires name { blank.name ≡ L.name }
    requires parts { blank.parts ≡ L.parts }
    requires one { blank.parts ≡ 1 }
    requires board { IsAtRest (origin L.code L.arguments L.memory L.crew) board }
    ensures answer { IfOk result (IsSerialAnswer (origin L.code L.arguments L.memory L.crew)) }
    ensures replays { IfOk result (LeadTo (origin L.code L.arguments L.memory L.crew) board.history.events) }
    ensures rests { IfErr result (IsAtRest (origin L.code L.arguments L.memory L.crew)) }
    ensures same { IfErr result (λ back. back.history.events ≡ board.history.events) }
    ensures refused { OnErr result ((reached (origin L.code L.arguments L.memory L.crew) board.history.events).core.result ≡ None) }
{
    match board.finish::<L>(alloc, verified, blank) {
        Ok((finished, _history)) => Ok(finished),
        Err(board) => Err(board),
    }
}

impl HostedRun {
    /// A run of a module, from memory that was made for it, before its first event, with so much fuel.
    ///
    /// # Errors
    ///
    /// 801 where the arguments are not those of `main`, then 802 where there are not from 1 to 64 workers; both hand the memory back. 803 where memory is
    /// refused.
    pub fn begin(
        alloc: Global,
        verified: &Verified,
        memory: Memory,
        request: &BoardRequest<'_>,
        stop: Stop,
    ) -> Result<HostedRun, RunFault>
        requires made { IsMadeFor verified.now memory }
        ensures runs { IfOk result (RunsFrom (origin verified.now request.now.arguments.now memory request.now.workers)) }
        ensures new { IfOk result (λ run. run.board.history.events ≡ []) }
        ensures fuel { IfOk result (λ run. run.fuel ≡ request.now.fuel) }
        ensures admitted { IsAdmitted verified.now request.now.arguments.now memory request.now.workers result }
        ensures not_stopped { result ≢ Err RunFault.Stopped }
    {
        let BoardRequest {
            arguments,
            workers,
            fuel,
        } = *request;
        let blank = Blank::new(workers as u64);
        let launch = Launch {
            verified,
            arguments,
            memory,
            workers,
        };
        let board = board_as::<Brand>(alloc, launch, blank)?;
        match Offers::new(alloc, workers) {
            Ok(offers) => Ok(HostedRun {
                board,
                offers,
                fuel,
                stop,
            }),
            Err(OutOfMemory) => Err(RunFault::OutOfMemory),
        }
    }

    /// A worker of this number, from 0.
    ///
    /// # Errors
    ///
    /// Memory was refused.
    pub fn worker(
        &self,
        alloc: Global,
        verified: &Verified,
        number: u8,
    ) -> Result<HostedWorker, OutOfMemory>
        requires { RunsFrom (start_of verified.now self.now) self.now }
        ensures works { IfOk result (WorksFor verified.now) }
        ensures number { IfOk result (λ worker. worker.number ≡ number) }
    {
        let ears = self.ears()?;
        Ok(HostedWorker {
            number,
            strand: StrandRest::new(alloc, verified)?,
            habits: Habits::new(alloc),
            ears,
        })
    }

    /// What a worker hears of others.
    fn ears(&self) -> Result<Ears, OutOfMemory> {
        let stop = self.stop.share()?;
        Ok(Ears {
            wanted: self.offers.share()?,
            stop,
        })
    }

    /// A worker meets the board: what it wants is done there, unless the stop is set or the fuel is spent. It is told what to do next, and how many tasks it
    /// has offered to others. Without a seat it is told that there is no task.
    pub fn meet(
        self,
        alloc: Global,
        verified: &Verified,
        code: &Decoded,
        worker: HostedWorker,
    ) -> (HostedRun, HostedWorker, (Met, usize))
        requires decoded { IsCodeOf verified.now code.now }
        requires runs { RunsFrom (start_of verified.now self) self }
        requires works { WorksFor verified.now worker }
        ensures runs { RunsFrom (start_of verified.now self) result.0 }
        ensures works { WorksFor verified.now result.1 }
        ensures number { result.1.number ≡ worker.number }
        ensures fuel { result.0.fuel ≡ self.fuel }
        ensures told { IsTold (reached (start_of verified.now self) result.0.board.history.events) self.fuel result.2.0 }
        ensures stopped { result.2.0 ≡ Stopped → result.0.board.history.events ≡ self.board.history.events }
        ensures stop { result.2.0 ≡ Stopped → IsSome self.stop.word }
    {
        if self.stop.is_set() {
            return (self, worker, (Met::Stopped, 0));
        }
        self.meet_as::<Brand>(alloc, verified, code, Blank::new(1), worker)
    }

    /// A worker meets the board, where there is fuel.
    #[tactic(auto, using(crate::proofs::hosted::Standing::stands, crate::proofs::hosted::Standing::told_here, crate::proofs::hosted::Standing::ended_here))]
    fn meet_as<L: Bench>(
        self,
        alloc: Global,
        verified: &Verified,
        code: &Decoded,
        blank: Blank,
        worker: HostedWorker,
    ) -> (HostedRun, HostedWorker, (Met, usize))
        requires code { verified.now ≡ L.code }
        requires name { blank.name ≡ L.name }
        requires parts { blank.parts ≡ L.parts }
        requires one { blank.parts ≡ 1 }
        requires board { IsAtRest (origin L.code L.arguments L.memory L.crew) self.board }
        requires decoded { IsCodeOf verified.now code.now }
        requires strand { StaysPut verified.now worker.strand }
        ensures board { IsAtRest (origin L.code L.arguments L.memory L.crew) result.0.board }
        ensures fuel { result.0.fuel ≡ self.fuel }
        ensures strand { StaysPut L.code result.1.strand }
        ensures number { result.1.number ≡ worker.number }
        ensures told { IsTold (reached (origin L.code L.arguments L.memory L.crew) result.0.board.history.events) self.fuel result.2.0 }
        ensures not_stopped { result.2.0 ≢ Stopped }
    {
        let HostedRun {
            board,
            mut offers,
            fuel,
            stop,
        } = self;
        let (number, strand, mut habits, ears) = worker.parts();
        let has_seat = usize::from(number) < board.workers();
        let own = if has_seat { number } else { 0 };
        let (mut board, mut seat) = board.wake::<L>(alloc, verified, blank, own);
        let mut strand = strand.wake::<L>(verified, code);
        let done = board.machine().instructions();
        let (served, offered) = match told(board.end(), done, fuel, Served::Work) {
            Met::Work if has_seat => meet(
                &mut board,
                &mut offers,
                &mut seat,
                &mut strand,
                &mut habits,
            ),
            _ => (Served::Idle, 0),
        };
        let served = note(&mut offers, served);
        let ended = board.end();
        let instructions = board.machine().instructions();
        let met = told(ended, instructions, fuel, served);
        let run = HostedRun {
            board: board.rest(),
            offers,
            fuel,
            stop,
        };
        let worker = HostedWorker {
            number,
            strand: strand.rest(),
            habits,
            ears,
        };
        (run, worker, (met, offered))
    }

    /// How far the run has come.
    pub fn look(self, alloc: Global, verified: &Verified) -> (HostedRun, Progress)
        requires { RunsFrom (start_of verified.now self) self }
        ensures runs { RunsFrom (start_of verified.now self) result.0 }
        ensures fuel { result.0.fuel ≡ self.fuel }
        ensures same { result.0.board.history.events ≡ self.board.history.events }
        ensures progress { IsProgress (reached (start_of verified.now self) result.0.board.history.events) result.1 }
    {
        let HostedRun {
            board,
            offers,
            fuel,
            stop,
        } = self;
        let (board, progress) = look_as::<Brand>(alloc, verified, Blank::new(1), board);
        let run = HostedRun {
            board,
            offers,
            fuel,
            stop,
        };
        (run, progress)
    }

    /// The events one by one, unless there are more than so many.
    ///
    /// # Errors
    ///
    /// Memory was refused: it is taken for each event.
    pub fn events(
        self,
        alloc: Global,
        verified: &Verified,
        most: u64,
    ) -> (HostedRun, Result<Option<Vec<Event>>, OutOfMemory>)
        requires { RunsFrom (start_of verified.now self) self }
        ensures runs { RunsFrom (start_of verified.now self) result.0 }
        ensures fuel { result.0.fuel ≡ self.fuel }
        ensures same { result.0.board.history.events ≡ self.board.history.events }
        ensures events { IfOk result.1 (λ found. IfSome found (λ events. events.items ≡ self.board.history.events)) }
        ensures long { IfOk result.1 (λ found. IfNone found (most < length self.board.history.events)) }
    {
        let HostedRun {
            board,
            offers,
            fuel,
            stop,
        } = self;
        let (board, events) = events_as::<Brand>(alloc, verified, Blank::new(1), board, most);
        let run = HostedRun {
            board,
            offers,
            fuel,
            stop,
        };
        (run, events)
    }

    /// The answer of a run that has ended; else, where it has not, the run again.
    pub fn finish(self, alloc: Global, verified: &Verified) -> Result<Finished, HostedRun>
        requires { RunsFrom (start_of verified.now self) self }
        ensures answer { IfOk result (IsSerialAnswer (start_of verified.now self)) }
        ensures replays { IfOk result (LeadTo (start_of verified.now self) self.board.history.events) }
        ensures runs { IfErr result (RunsFrom (start_of verified.now self)) }
        ensures fuel { IfErr result (λ run. run.fuel ≡ self.fuel) }
        ensures same { IfErr result (λ run. run.board.history.events ≡ self.board.history.events) }
        ensures refused { OnErr result ((reached (start_of verified.now self) self.board.history.events).core.result ≡ None) }
    {
        let HostedRun {
            board,
            offers,
            fuel,
            stop,
        } = self;
        match finish_as::<Brand>(alloc, verified, Blank::new(1), board) {
            Ok(finished) => Ok(finished),
            Err(board) => Err(HostedRun {
                board,
                offers,
                fuel,
                stop,
            }),
        }
    }
}
