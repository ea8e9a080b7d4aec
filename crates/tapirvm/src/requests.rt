//! From a question to its answer: runs on threads here, all else by the crates below (dispatch of verbs).

use cli_jobs::{Job, status_of};
use cli_threads::{microseconds_since, run_on_workers};
use cli_verbs::{Judgement, answer_verified, judged};
use cli_words::{Beside, Question, Status, Verb, ended};
use std::io;
use std::io::{Read, Write};
use std::sync::Wait;
use std::thread::Threads;
use std::time::{Clock, Instant};

/// Runs a module that the verifier took, and notes what that took. A run on workers is one that no seed draws.
fn run_timed<T: Threads + Wait + Clock + Sync, R: Read, W: Write>(
    rt: &T,
    job: &Job<'_>,
    input: &mut R,
    output: &mut W,
    beside: &mut Beside,
) -> io::Result<Status> {
    let begun = Instant::now(rt)?;
    let run = match job.request.verb {
        Verb::Run if job.request.telling.seed.is_none() => run_on_workers(rt, job, output, beside),
        _ => answer_verified(job, input, output, beside),
    };
    let status = status_of(job, run, output, beside)?;
    beside.times.running = microseconds_since(rt, begun)?;
    Ok(status)
}

/// Answers a question by the status, and notes what verifying and running took.
fn answer<T: Threads + Wait + Clock + Sync, R: Read, W: Write>(
    rt: &T,
    question: Question<'_>,
    input: &mut R,
    output: &mut W,
    beside: &mut Beside,
) -> io::Result<Status> {
    let begun = Instant::now(rt)?;
    match judged(question, output, beside)? {
        Judgement::Answered(status) => Ok(status),
        Judgement::Accepted(accepted) => {
            beside.times.verifying = microseconds_since(rt, begun)?;
            let job = Job::of(question, accepted.text.as_slice(), &accepted.verified);
            run_timed(rt, &job, input, output, beside)
        }
    }
}

/// Does what is asked and answers the status. What is told beside the output is added to `beside`.
pub fn act<T: Threads + Wait + Clock + Sync, R: Read, W: Write>(
    rt: &T,
    question: Question<'_>,
    input: &mut R,
    output: &mut W,
    beside: &mut Beside,
) -> u8 {
    let answered = answer(rt, question, input, output, beside);
    ended(answered, output, beside) as u8
}
