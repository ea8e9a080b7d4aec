//! What a host is told: verdicts, outcomes and statuses (error codes). The header has the same structs and statuses.

ghost use Rattle.std.specs.Prelude.{◌≡◌};

/// The module is accepted, or the run has ended.
pub const DONE: u32 = 0;

/// The module breaks a rule.
pub const REFUSED: u32 = 1;

/// The row has not as many cells as the module's globals.
pub const OTHER_CELLS: u32 = 2;

/// The effort that was granted is spent.
pub const OUT_OF_EFFORT: u32 = 3;

/// The handle holds nothing.
pub const CLOSED: u32 = 4;

/// The run does more instructions than the fuel allows, or on threads has done as many.
pub const OUT_OF_FUEL: u32 = 5;

/// The run has not ended.
pub const NOT_ENDED: u32 = 6;

/// No rule has this number.
pub const NO_RULE: u32 = 7;

/// There is none of this name or number.
pub const NOT_FOUND: u32 = 8;

/// The worker is of another module.
pub const FOREIGN: u32 = 9;

/// The worker has a task: `tapirvm_turn` is next.
pub const WORK: u32 = 10;

/// There is no task for the worker now.
pub const IDLE: u32 = 11;

/// The arguments are not those of `main`.
pub const BAD_ARGUMENTS: u32 = 801;

/// There are not from 1 to 64 workers.
pub const BAD_WORKERS: u32 = 802;

/// Memory was refused.
pub const OUT_OF_MEMORY: u32 = 803;

/// The stop is set.
pub const STOPPED: u32 = 804;

/// A line of the schedule is none.
pub const BAD_SCHEDULE: u32 = 901;

/// With a line the schedule has too many bytes or events.
pub const LONG_SCHEDULE: u32 = 902;

/// What is said of a module.
#[repr(C)]
#[derive(Clone, Copy)]
pub struct Verdict {
    pub status: u32,
    /// The rule that is broken, where it is refused.
    pub rule: u16,
    /// The line that breaks it.
    pub line: u32,
    /// The most instructions of a run, where it is accepted.
    pub budget: u64,
    /// The most frames of a serial run that stand on one another.
    pub depth: u64,
    /// How many cells its globals have, all together.
    pub cells: u64,
}

/// What a run comes to.
#[repr(C)]
#[derive(Clone, Copy)]
pub struct Outcome {
    pub status: u32,
    /// The rule that is broken, where the module is refused.
    pub rule: u16,
    /// The line that breaks it, or the first bad line of a schedule.
    pub line: u32,
    /// Where the arguments are not those of `main`: 0 for their number, else the first `requires` that they do not meet, from 1.
    pub requirement: u64,
    /// What `main` returned, where the run has ended.
    pub result: i64,
    pub instructions: u64,
    /// The most frames from the root to a frame that lived.
    pub peak: u64,
}

/// A verdict with no numbers.
pub fn plain_verdict(status: u32) -> Verdict
    ensures { result.status ≡ status }
{
    Verdict {
        status,
        rule: 0,
        line: 0,
        budget: 0,
        depth: 0,
        cells: 0,
    }
}

/// An outcome with no numbers.
pub fn plain_outcome(status: u32) -> Outcome
    ensures { result.status ≡ status }
{
    Outcome {
        status,
        rule: 0,
        line: 0,
        requirement: 0,
        result: 0,
        instructions: 0,
        peak: 0,
    }
}
