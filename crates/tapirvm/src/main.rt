//! The program `tapirvm`: reads a module, verifies it and runs it.
//!
//! [`run`](host::run) is all that the program does: it reads words and files, obeys, and answers the status. Below it, `words` of `cli_words` makes a request
//! of a command line, and [`act`](requests::act) answers a `Question`, a request over the bytes of files: a run on workers, each on a thread of its own, by
//! `cli_threads`, and all else by `cli_verbs`, which leaves any other run to `cli_runs` and `cli_debug`.
#![tactic(auto)]

mod files;
mod host;
mod requests;
mod times;

use host::Terminals;
use std::io::IsTerminal;
use std::process::ExitCode;

fn main(rt: HostRuntime) -> ExitCode {
    let terminals = Terminals {
        input: rt.stdin().is_terminal(),
        output: rt.stdout().is_terminal(),
        errors: rt.stderr().is_terminal(),
    };
    ExitCode::from(host::run(&rt, terminals))
}
