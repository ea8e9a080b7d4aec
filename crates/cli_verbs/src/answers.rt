//! Who answers a question where there are no threads, and one about runs (dispatch of verbs).

use crate::modules::{Judgement, judged};
use cli_debug::answer_commands;
use cli_jobs::{Halt, Job, status_of};
use cli_runs::{run_drawn, run_replay, run_serial};
use cli_words::{Beside, Question, Status, Verb};
use std::io;
use std::io::{Read, Write};

/// Answers a question about runs of a module that the verifier took. A run on workers is drawn: by the seed 0 where the request names none.
pub fn answer_verified<R: Read, W: Write>(
    job: &Job<'_>,
    input: &mut R,
    output: &mut W,
    beside: &mut Beside,
) -> Result<Status, Halt> {
    match job.request.verb {
        Verb::Debug => answer_commands(job, input, output, beside),
        Verb::Replay => run_replay(job, output, beside),
        Verb::Run => run_drawn(job, output, beside),
        _ => run_serial(job, output, beside),
    }
}

/// Answers a question.
pub(crate) fn answer<R: Read, W: Write>(
    question: Question<'_>,
    input: &mut R,
    output: &mut W,
    beside: &mut Beside,
) -> io::Result<Status> {
    match judged(question, output, beside)? {
        Judgement::Answered(status) => Ok(status),
        Judgement::Accepted(accepted) => {
            let job = Job::of(question, accepted.text.as_slice(), &accepted.verified);
            let run = answer_verified(&job, input, output, beside);
            status_of(&job, run, output, beside)
        }
    }
}
