//! What a worker is told when it has met the board, and how far a run has come.

ghost use Rattle.std.specs.Prelude.{◌≢◌};
ghost use Rattle.kernel_calls.specs.hosted.Hosted.{IsProgressBy, IsToldBy};
ghost use Rattle.kernel_calls.specs.declared.hosted.met.Met.TheVariants.{Stopped};

use shared_run::turns::Met as Served;

/// What a worker is told when it has met the board.
#[derive(Clone, Copy)]
pub enum Met {
    /// To go on outside.
    Work,
    /// There is no task for it now.
    Idle,
    /// `main` has returned.
    Ended,
    /// Memory was refused to a worker: the run cannot go on.
    OutOfMemory,
    /// The run has done as many instructions as its fuel allows.
    OutOfFuel,
    /// The run's stop is set.
    Stopped,
}

/// How far a run has come.
#[derive(Clone, Copy)]
pub struct Progress {
    pub instructions: u64,
    pub peak: u64,
    pub ended: bool,
}

/// How far a run has come that has ended or not, with these counts.
pub(crate) fn progress_of(ended: bool, instructions: u64, peak: u64) -> Progress
    ensures { IsProgressBy ended instructions peak result }
{
    Progress {
        instructions,
        peak,
        ended,
    }
}

/// What a worker is told of a run that has ended or not and has done so many instructions, behind what was done for it.
pub(crate) fn told(ended: bool, instructions: u64, fuel: u64, served: Served) -> Met
    ensures told { IsToldBy ended instructions fuel result }
    ensures not_stopped { result ≢ Stopped }
{
    if ended {
        return Met::Ended;
    }
    if fuel <= instructions {
        return Met::OutOfFuel;
    }
    match served {
        Served::Work => Met::Work,
        Served::Idle | Served::Ended => Met::Idle,
        Served::OutOfMemory => Met::OutOfMemory,
    }
}
