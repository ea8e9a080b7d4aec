//! Cases of what the program does not print. `cases_machine WORD..` answers the cases of each word: `boards` are runs at boards whose calls seeds draw,
//! `refused` a few of these, and `threads` runs on threads. The program prints a line for each case and fails if an answer is not the expected one, which is
//! worked out by hand, or is what a replay or the serial run comes to. The last line names the call at a board that was refused memory last.
//!
//! Beside the cases: `modules` (their files), `endings` (what runs come to), `report` (what is printed).
#![tactic(auto)]

mod boards;
mod endings;
mod modules;
mod report;
mod threads;

use crate::report::Report;
use std::hash::RandomState;
use std::io::Write;
use std::process::ExitCode;
use std::rt::{Env, Files};
use std::sync::Wait;
use std::thread::Threads;
use std::time::Clock;
use std::{env, io};

/// Answers the cases of a word.
fn answer_word<R: AllocGlobal + Files + Threads + Wait + Clock + Sync>(
    rt: &R,
    state: RandomState,
    word: &str,
    report: &mut Report,
) -> io::Result<()> {
    match word {
        "threads" => threads::answer(rt, state, report),
        // By these seeds each call at a board asks for memory. (In most runs no task beside the root is claimed, whose path is copied.)
        "refused" => boards::answer(rt, state, boards::FEW, &(13..17), report),
        _ => boards::answer(rt, state, boards::ALL, &(0..240), report),
    }
}

/// Answers the cases that the program's words name.
fn answer<R: AllocGlobal + Env + Files + Threads + Wait + Clock + Sync>(
    rt: &R,
    state: RandomState,
    report: &mut Report,
) -> io::Result<ExitCode> {
    for word in env::args(rt)?.skip(1) {
        answer_word(rt, state, word.as_str(), report)?;
    }
    Ok(report.finish())
}

fn main(rt: HostRuntime) -> io::Result<ExitCode> {
    let state = RandomState::new(&rt)?;
    let mut report = Report::new(rt.alloc());
    let status = answer(&rt, state, &mut report);
    let refused = report.refused;
    let lines = report.into_text();
    if let Ok(lines) = &lines {
        io::writer(&rt).write_all(lines.as_bytes())?;
    }
    println!(rt; "refused memory: {refused}")?;
    lines?;
    status
}
