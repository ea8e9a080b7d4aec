//! A run of one worker alone, strand by strand: it begins, does one strand, and says how far it has come.

ghost use Rattle.std.specs.Prelude.{◌≡◌, ◌≢◌, ◌+◌, ◌<◌, ◌≤◌, Err, IfErr, IfNone, IfOk, IfSome, None};
ghost use Rattle.store.specs.Requirements.{unmet_in};
ghost use Rattle.store.specs.Made.{IsMadeFor};
ghost use Rattle.store.specs.Named.{HasGlobalCells};
ghost use Rattle.store.specs.verifier.Accepted.{IsAccepted};
ghost use Rattle.store.specs.verifier.Budgets.{budget_of};
ghost use Rattle.serial_machine.specs.SerialPromise.{EndsWithinBudget, TakesMore};
ghost use Rattle.lone_run.specs.UnderWay.{GetsOn, IsRefusal, IsRunOf, IsUnderWay};

use crate::counted::CountedCells;
use crate::counts::Counts;
use crate::steps::{advance, is_at_border};
use code_tables::{Tables, decode};
use frame_engine::{Flat, Places, most_moves};
use lists::OutOfMemory;
use program::Program;
use serial_stack::Stack;
use std::alloc::Global;
use store::{Finished, Memory, RunFault, Verified, unmet_requirement};

/// The most instructions of a strand, as on the board: so a gate that stops the run is asked as often.
const MOST: u64 = 65_536;

/// A run of one worker alone, between two strands.
pub struct LoneRun<'v> {
    program: &'v Program,
    arguments: &'v [i64],
    /// What it began with. The answer takes it.
    memory: Memory,
    places: Places,
    /// The codes of its functions.
    tables: Tables,
    stack: Stack,
    /// What the strand has read and written. Its row of cells is empty: while plain instructions are done, the stack's stands there.
    counted: CountedCells,
    /// The instructions that were done, phis not counted.
    done: u64,
    /// The most frames that lived at a time.
    peak: u64,
}

/// Written out, so that no crate above proves it anew.
impl Drop for LoneRun<'_> {
    fn drop(self) {
        let LoneRun {
            program: _,
            arguments: _,
            memory: _,
            places: _,
            tables: _,
            stack: _,
            counted: _,
            done: _,
            peak: _,
        } = self;
    }
}

impl<'v> LoneRun<'v> {
    /// The run of arguments that the program takes, before its first strand.
    fn of_taken(
        alloc: Global,
        program: &'v Program,
        arguments: &'v [i64],
        memory: Memory,
    ) -> Result<LoneRun<'v>, OutOfMemory>
        requires accepted { IsAccepted program.now }
        requires few { budget_of program.now < 18446744073709551616 }
        requires taken { unmet_in program.now arguments.now ≡ None }
        requires made { IsMadeFor program.now memory }
        requires cells { HasGlobalCells program.now memory }
        ensures begins { IfOk result (IsRunOf program.now arguments.now memory) }
        ensures none { IfOk result (λ run. run.done ≡ 0) }
    {
        let places = Places::of_program(alloc, program)?;
        let tables = decode(alloc, program, &places)?;
        let row = memory.row()?;
        let stack = Stack::begin(alloc, program, arguments, row, most_moves(program))?;
        let cells = Vec::new(alloc);
        let counts = Counts::new(alloc);
        Ok(LoneRun {
            program,
            arguments,
            memory,
            places,
            tables,
            stack,
            counted: CountedCells {
                flat: Flat { cells },
                counts,
            },
            done: 0,
            peak: 1,
        })
    }

    /// The run before its first strand.
    ///
    /// # Errors
    ///
    /// 801 where the arguments are not those of `main`; the memory is handed back. 803 where memory is refused.
    pub fn begin(
        alloc: Global,
        verified: &'v Verified,
        arguments: &'v [i64],
        memory: Memory,
    ) -> Result<LoneRun<'v>, RunFault>
        requires made { IsMadeFor verified.now memory }
        requires cells { HasGlobalCells verified.now memory }
        ensures begins { IfOk result (IsRunOf verified.now arguments.now memory) }
        ensures none { IfOk result (λ run. run.done ≡ 0) }
        ensures refused { IfErr result (IsRefusal verified.now arguments.now memory) }
        ensures not_stopped { result ≢ Err RunFault.Stopped }
    {
        let program = verified.program();
        // A number of 64 bits.
        let _budget = verified.budget();
        if let Some(requirement) = unmet_requirement(program, arguments) {
            return Err(RunFault::BadArguments {
                requirement,
                memory,
            });
        }
        match LoneRun::of_taken(alloc, program, arguments, memory) {
            Ok(run) => Ok(run),
            Err(OutOfMemory) => Err(RunFault::OutOfMemory),
        }
    }

    /// The instructions that were done, phis not counted. While the run is under way it has more to do.
    pub fn done(&self) -> u64
        ensures done { result ≡ self.now.done }
        ensures more { IsUnderWay self.now → TakesMore self.now.program.now self.now.arguments.now self.now.memory result }
    {
        self.done
    }

    /// Does one strand: up to a border and over it, or to 65,536 instructions, or to a cell past 256. What the run comes to, where it has ended: that
    /// takes no memory, and the run has none of its own any more. Else at least one instruction was done.
    ///
    /// # Errors
    ///
    /// Memory was refused: the run cannot go on.
    pub fn strand(&mut self) -> Result<Option<Finished>, OutOfMemory>
        requires { IsUnderWay self.old }
        ensures ends { IfOk result (λ end. IfSome end (EndsWithinBudget self.old.program.now self.old.arguments.now self.old.memory)) }
        ensures goes { IfOk result (λ end. IfNone end (IsRunOf self.old.program.now self.old.arguments.now self.old.memory self.new)) }
        ensures gets_on { IfOk result (λ end. IfNone end (GetsOn self.old self.new)) }
        ensures few { IfOk result (λ end. IfNone end (self.new.done ≤ self.old.done + 65537)) }
        ensures last { IfOk result (λ end. IfSome end (λ finished. finished.instructions ≤ self.old.done + 65537)) }
    {
        let program = self.program;
        let cells = self.stack.cells.cells.len();
        self.counted.counts.begin(cells)?;
        let limit = self.done.saturating_add(MOST);
        let pause = advance(
            &mut self.stack,
            &mut self.counted,
            program,
            &self.places,
            &self.tables,
            &mut self.done,
            limit,
        );
        if !is_at_border(pause, program, &self.places, &self.stack) {
            return Ok(None);
        }
        self.done += 1;
        match self.stack.border(program, &self.places)? {
            Some(result) => {
                let mut memory = self.memory.take();
                memory.set_row(self.stack.cells.cells.as_slice());
                Ok(Some(Finished {
                    result,
                    memory,
                    instructions: self.done,
                    peak: self.peak,
                }))
            }
            None => {
                self.peak = self.peak.max(self.stack.below.len() as u64 + 1);
                Ok(None)
            }
        }
    }
}
