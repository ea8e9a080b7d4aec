//! The program `tapirvm` for a page: the one export that its WebAssembly module has. What it calls stands in `cli_verbs`.
#![tactic(auto)]

use cli_verbs::{Seed, Texts, answer_line};
use std::alloc::Global;

/// Answers a command line, the program's own name first and a word in each line. It writes as many bytes of the answer as there is room for, and says how
/// many there are. Returns 0, and 1 where memory is refused.
///
/// `low` and `high` are numbers that whoever wrote the texts does not know.
#[unsafe(no_mangle)]
pub extern "C" fn play_answer(
    alloc: Global,
    line: &[u8],
    module: &[u8],
    schedule: &[u8],
    input: &[u8],
    low: u64,
    high: u64,
    out: &mut [u8],
    needed: &mut usize,
) -> u32 {
    let texts = Texts {
        module,
        schedule,
        input,
    };
    answer_line(alloc, line, texts, &Seed { low, high }, out, needed)
}
