//! What a run that has ended comes to, compared with what is expected.

use shared_run::{Finished, Machine};

/// What a run comes to: its result, its instructions, and the most frames that lived at a time.
pub type Ending = (i64, u64, u64);

pub fn is_so(done: &Finished, wanted: Ending) -> bool {
    done.result == wanted.0 && done.instructions == wanted.1 && done.peak == wanted.2
}

/// Whether the machine of a replay has come to this answer.
pub fn leads_to(machine: Machine<'_>, done: &Finished) -> bool {
    machine.result() == Some(done.result)
        && machine.instructions() == done.instructions
        && machine.peak() == done.peak
        && machine.into_memory().same(&done.memory)
}
