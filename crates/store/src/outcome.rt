//! What a run that has ended comes to (result, memory, instructions, peak), and why one does not begin or end.

use crate::memory::Memory;

/// What a run that has ended comes to.
#[derive(Drop)]
pub struct Finished {
    /// What `main` returned.
    pub result: i64,
    /// The globals at the end.
    pub memory: Memory,
    /// The instructions that were executed, terminators counted, phis not.
    pub instructions: u64,
    /// The most frames from the root to a frame that ever lived: of a serial run the most that lived at a time.
    pub peak: u64,
}

/// Why a run does not begin, or does not end.
#[derive(Drop)]
pub enum RunFault {
    /// 801: 0 for a wrong number of arguments, else the first `requires` of `main` that they do not meet, counted from
    /// 1. The memory is as it was handed in.
    BadArguments { requirement: usize, memory: Memory },
    /// 802: not from 1 to 64 workers. The memory is as it was handed in.
    BadWorkers { memory: Memory },
    /// 803: memory was refused.
    OutOfMemory,
    /// 804: a run on threads was stopped by its gate.
    Stopped,
}
