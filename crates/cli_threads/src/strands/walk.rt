//! A recorded run, done once more by its events at a board, with strands for steps in a row (replay).

ghost use Rattle.std.specs.Prelude.{◌≡◌};

use crate::strands::ahead::{Ahead, Runs, Then};
use crate::strands::levels::Levels;
use crate::strands::told::{Told, last_round, nothing_told};
use cli_runs::{Event, after_step, place_if};
use frame::Path;
use lists::OutOfMemory;
use program::Program;
use shared_run::{
    Bench, Board, Claimed, Decoded, Entry, Loaded, Published, Seat, Standing, Stepped, Ticket,
    Verified, WorkerStrand,
};
use std::alloc::Global;
use views::{Act, Moment, Outcome, Rounds, Tally, act_at};

/// A run under way: its board, and the stack of the worker whose steps are done now.
#[derive(Drop)]
struct Walk<'a, 'p, L: Bench> {
    alloc: Global,
    program: &'a Program,
    runs: Runs,
    board: Board<'a, L>,
    seats: Vec<Seat<L>>,
    strand: WorkerStrand<'p, L>,
    levels: Levels,
    rounds: Rounds,
    told: Told,
}

/// What is told of a run whose board has not begun, by these entries.
pub(crate) fn told_along<L: Bench>(
    alloc: Global,
    verified: &Verified,
    board: Board<'_, L>,
    seats: Vec<Seat<L>>,
    entries: &[Entry],
    has_scene: bool,
) -> Result<Told, OutOfMemory>
    requires { verified.now ≡ L.code }
{
    let (program, workers) = (verified.program(), seats.len());
    let code = Decoded::of(alloc, verified)?;
    if let Ok(strand) = WorkerStrand::new(alloc, verified, &code)
        && let Ok(runs) = Runs::of(alloc, program)
        && let Ok(rounds) = Rounds::new(alloc, workers)
        && let Ok(told) = nothing_told(alloc, workers, has_scene)
    {
        let mut walk = Walk {
            alloc,
            program,
            runs,
            board,
            seats,
            strand,
            levels: Levels::new(alloc),
            rounds,
            told,
        };
        walk.go_along(entries)?;
        if !walk.levels.is_refused() && !walk.rounds.is_refused() {
            walk.told.rounds = last_round(&walk.rounds, workers);
            return Ok(walk.told);
        }
    }
    Err(OutOfMemory)
}

impl<L: Bench> Walk<'_, '_, L> {
    /// Does what the entries say.
    fn go_along(&mut self, entries: &[Entry]) -> Result<(), OutOfMemory> {
        for entry in entries {
            match entry {
                Entry::Steps { worker, count } => self.steps(*worker, *count)?,
                Entry::Steal { worker, path } => self.steal(*worker, path)?,
            }
        }
        Ok(())
    }

    /// So many steps of the worker.
    fn steps(&mut self, worker: u8, count: u64) -> Result<(), OutOfMemory> {
        let mut left = count;
        for _part in 0..u64::MAX {
            if left == 0 {
                break;
            }
            left = left.saturating_sub(self.some_steps(worker, left)?);
        }
        self.publish(worker)
    }

    /// One or more of so many steps, or what has to be done before them: how many were done.
    fn some_steps(&mut self, worker: u8, most: u64) -> Result<u64, OutOfMemory> {
        if self.strand.standing() == Standing::Blank {
            self.load(worker)?;
        }
        let Some(top) = self.strand.top() else {
            return Err(OutOfMemory);
        };
        let ahead = self.runs.ahead(self.program, top.at);
        let is_told = self.told.scene.is_some() && ahead.then.is_of_tasks();
        if is_told && ahead.plain == 0 {
            return self.step_at_board(worker);
        }
        let count = if is_told {
            ahead.plain
        } else {
            ahead.plain.saturating_add(1)
        };
        let before = self.strand.done();
        let standing = self.strand.advance(count.min(most));
        if standing == Standing::Spoilt {
            return Err(OutOfMemory);
        }
        let done = self.strand.done().saturating_sub(before);
        if done > 0 {
            self.pass(worker, ahead, top.made, done);
            return Ok(done);
        }
        self.make_way(worker, standing)
    }

    /// The stack goes no further: gives it the page that it needs, or puts it on the board, with the step that only the board does. The answer is
    /// how many steps were done.
    fn make_way(&mut self, worker: u8, standing: Standing) -> Result<u64, OutOfMemory> {
        match standing {
            Standing::Need { .. } if self.board.fetch_need(&mut self.strand) => Ok(0),
            Standing::Going | Standing::Full if self.strand.done() > 0 => {
                self.publish(worker)?;
                Ok(0)
            }
            _ => self.step_at_board(worker),
        }
    }

    /// Loads the frame that the worker runs next.
    fn load(&mut self, worker: u8) -> Result<(), OutOfMemory> {
        let Some(seat) = self.seats.as_slice().get(usize::from(worker)) else {
            return Err(OutOfMemory);
        };
        let loaded = self.board.fetch_base(seat, &mut self.strand);
        match (loaded, self.board.machine().task_of(worker)) {
            (Loaded::Frame, Some(base)) => {
                self.levels.begin(base.path, base.top_path);
                Ok(())
            }
            _ => Err(OutOfMemory),
        }
    }

    /// The stack did so many instructions of those ahead. Its top frame had made so many others before.
    fn pass(&mut self, worker: u8, ahead: Ahead, number: u64, done: u64) {
        self.count(
            worker,
            Tally {
                instructions: done,
                steals: 0,
            },
        );
        let of = usize::from(worker);
        if done > ahead.plain
            && let Then::Sync(region) = ahead.then
        {
            let _before = self.rounds.steps(of, ahead.plain);
            self.sync(of, region);
            return;
        }
        let round = self.rounds.steps(of, done);
        if let Some(scene) = &mut self.told.scene {
            scene.add_steps(of, done, round);
        }
        if done <= ahead.plain {
            return;
        }
        match ahead.then {
            Then::Call => self.levels.enter(number, None),
            Then::Detach => self.levels.enter(number, Some(round)),
            Then::Return => self.levels.leave(),
            Then::Reattach(region) => {
                self.levels.leave();
                self.levels.end_child(region, round);
            }
            Then::Enter | Then::Zeros | Then::Sync(_) => {}
        }
    }

    /// The stack's top frame passed a sync.
    fn sync(&mut self, worker: usize, region: usize) {
        if let Some(base) = self.levels.base() {
            self.rounds.sync(worker, region, base);
        } else {
            let _round = self.rounds.steps(worker, 1);
        }
        self.levels.sync(region);
    }

    /// The worker did so much more.
    fn count(&mut self, worker: u8, more: Tally) {
        let tallies = self.told.tallies.as_mut_slice();
        if let Some(tally) = tallies.get_mut(usize::from(worker)) {
            *tally = tally.plus(more);
        }
    }

    /// Puts the stack on the board. Nobody else did anything since it was loaded, so it fits.
    fn publish(&mut self, worker: u8) -> Result<(), OutOfMemory> {
        if self.strand.done() > 0 && self.strand.standing() != Standing::Blank {
            let Some(seat) = self.seats.as_mut_slice().get_mut(usize::from(worker)) else {
                return Err(OutOfMemory);
            };
            match self.board.publish(seat, &mut self.strand) {
                Published::Done => {}
                Published::Stranger | Published::OutOfMemory => return Err(OutOfMemory),
            }
            self.levels.note(usize::from(worker), &mut self.rounds);
        }
        self.strand.clear();
        Ok(())
    }

    /// One step that only the board does, behind those of the stack.
    fn step_at_board(&mut self, worker: u8) -> Result<u64, OutOfMemory> {
        self.publish(worker)?;
        let view = self.board.machine().task_of(worker);
        let act = match view {
            Some(view) => act_at(self.program, view.top),
            None => Act::Plain,
        };
        let Some(place) = place_if(self.alloc, view)? else {
            return Err(OutOfMemory);
        };
        let Some(seat) = self.seats.as_mut_slice().get_mut(usize::from(worker)) else {
            return Err(OutOfMemory);
        };
        match self.board.step(seat) {
            Stepped::Done { .. } => {}
            Stepped::Idle | Stepped::OutOfMemory => return Err(OutOfMemory),
        }
        let outcome = after_step(self.alloc, self.board.machine(), worker, &place)?;
        let done = Tally {
            instructions: 1,
            steals: 0,
        };
        self.count(worker, done);
        let moment = Moment {
            place: Some(place),
            act,
            outcome,
            change: None,
        };
        self.tell(&Event::Step(worker), &moment);
        Ok(1)
    }

    /// The worker takes the task of this path.
    fn steal(&mut self, worker: u8, path: &Path) -> Result<(), OutOfMemory> {
        let machine = self.board.machine();
        let place = place_if(self.alloc, machine.task(path))?;
        let Some((slot, generation)) = machine.spot(path) else {
            return Err(OutOfMemory);
        };
        let Some(seat) = self.seats.as_mut_slice().get_mut(usize::from(worker)) else {
            return Err(OutOfMemory);
        };
        match self.board.claim(seat, Ticket { slot, generation }) {
            Claimed::Taken => {}
            Claimed::Gone | Claimed::OutOfMemory => return Err(OutOfMemory),
        }
        let done = Tally {
            instructions: 0,
            steals: 1,
        };
        self.count(worker, done);
        let event = Event::Steal(worker, path.copy(self.alloc)?);
        let moment = Moment {
            place,
            act: Act::Plain,
            outcome: Outcome::GoesOn,
            change: None,
        };
        self.tell(&event, &moment);
        Ok(())
    }

    /// An event that the board did.
    fn tell(&mut self, event: &Event, moment: &Moment) {
        let timing = self.rounds.next(event, moment);
        if let Some(scene) = &mut self.told.scene {
            scene.add(event, moment, timing);
        }
    }
}
