//! Reasons in words: of a status, of a rule, and of a refusal (`explain`), written where C has room.

ghost use Rattle.std.specs.Prelude.{◌≡◌, ◌≢◌, ◌⊎◌, IsSome, List, Option, ℕ, IfOk};
ghost use Rattle.explain.specs.Verdict.{IsVerdictOn};
ghost use Rattle.kernel_calls.specs.Told.{BreaksRule, HasProgram, done, out_of_effort, out_of_memory, refused, unbounded};
ghost use Rattle.kernel_calls.specs.Words.{HasNone, HasWords, IsExplainStatus, IsExplained, IsRuleStatus, StandsIn, not_found};

use crate::seed::{Seed, effort_of};
use crate::told::{
    BAD_ARGUMENTS, BAD_SCHEDULE, BAD_WORKERS, CLOSED, DONE, FOREIGN, IDLE, LONG_SCHEDULE, NO_RULE,
    NOT_ENDED, NOT_FOUND, OTHER_CELLS, OUT_OF_EFFORT, OUT_OF_FUEL, OUT_OF_MEMORY, REFUSED, STOPPED,
    WORK,
};
use explain::{Explanation, explain, told};
use lists::OutOfMemory;
use rule_words::rule_text;
use std::alloc::Global;
use std::hash::RandomState;

/// Writes as many of the bytes as there is room for, and how many there are.
pub fn put(words: &[u8], out: &mut [u8], needed: &mut usize)
    ensures { StandsIn out.old words.now out.new needed.new }
{
    let count = words.len().min(out.len());
    out[..count].copy_from_slice(&words[..count]);
    *needed = words.len();
}

/// What a status means.
fn sentence(status: u32) -> Option<&'static str> {
    Some(match status {
        DONE => "The module is accepted, the run has ended, or what was asked for is there.",
        REFUSED => "The module breaks a rule.",
        OTHER_CELLS => "There are not as many cells as the globals of the module have.",
        OUT_OF_EFFORT => "There is no verdict within the effort.",
        CLOSED => "The handle holds nothing.",
        OUT_OF_FUEL => "The run does more instructions than its fuel allows.",
        NOT_ENDED => "The run has not ended.",
        NO_RULE => "No rule has this number.",
        NOT_FOUND => "There is none of this name or number.",
        FOREIGN => "The worker is not one of this board.",
        WORK => "The worker has a task: a turn is next.",
        IDLE => "There is no task for the worker now.",
        BAD_ARGUMENTS => "The arguments are not those of @main.",
        BAD_WORKERS => "There are not from 1 to 64 workers.",
        OUT_OF_MEMORY => "The allocator gave no memory.",
        STOPPED => "The run was told to stop.",
        BAD_SCHEDULE => "A line of the schedule is none.",
        LONG_SCHEDULE => "The schedule has over 1,048,576 bytes or events.",
        _ => return None,
    })
}

/// Writes what a status means.
pub fn write_words(status: u32, out: &mut [u8], needed: &mut usize) -> u32
    ensures words { result ≡ done → HasWords out.old out.new needed.new }
    ensures none { result ≢ done → HasNone out.old out.new needed.new }
    ensures statuses { (result ≡ done) ⊎ (result ≡ not_found) }
{
    *needed = 0;
    match sentence(status) {
        Some(words) => {
            put(words.as_bytes(), out, needed);
            DONE
        }
        None => NOT_FOUND,
    }
}

/// Writes a rule with an example and how to mend it.
pub fn write_rule(alloc: Global, number: u16, out: &mut [u8], needed: &mut usize) -> u32
    ensures words { result ≡ done → HasWords out.old out.new needed.new }
    ensures none { result ≢ done → HasNone out.old out.new needed.new }
    ensures statuses { IsRuleStatus result }
{
    *needed = 0;
    match rule_text(alloc, number) {
        Ok(Some(words)) => {
            put(words.as_bytes(), out, needed);
            DONE
        }
        Ok(None) => NO_RULE,
        Err(OutOfMemory) => OUT_OF_MEMORY,
    }
}

/// The status of an explanation.
fn status_of(explanation: &Explanation) -> u32
    ensures accepted { (text : List ℕ) (effort : Option ℕ) → IsVerdictOn text effort explanation.now → result ≡ done → HasProgram text }
    ensures refused { (text : List ℕ) (effort : Option ℕ) → IsVerdictOn text effort explanation.now → result ≡ refused → BreaksRule text }
    ensures effort { (text : List ℕ) (effort : Option ℕ) → IsVerdictOn text effort explanation.now → result ≡ out_of_effort → IsSome effort }
    ensures statuses { IsExplained result }
    ensures given { result ≢ out_of_memory }
{
    match explanation {
        Explanation::Accepted { .. } => DONE,
        Explanation::Refused { .. } => REFUSED,
        Explanation::Undecided => OUT_OF_EFFORT,
    }
}

/// Why a module is refused, or what it could do without, as far as the effort reaches; and the status.
#[tactic(auto, using(crate::proofs::Bounded::bounded_is))]
fn reasons(
    alloc: Global,
    text: &[u8],
    seed: &Seed,
    effort: u64,
) -> Result<(String, u32), OutOfMemory>
    ensures accepted { IfOk result (λ found. found.1 ≡ done → HasProgram text.now) }
    ensures refused { IfOk result (λ found. found.1 ≡ refused → BreaksRule text.now) }
    ensures effort { IfOk result (λ found. found.1 ≡ out_of_effort → effort ≢ unbounded) }
    ensures statuses { IfOk result (λ found. IsExplained found.1) }
    ensures given { IfOk result (λ found. found.1 ≢ out_of_memory) }
{
    let state = RandomState::new(seed).or(Err(OutOfMemory))?;
    let explanation = explain(alloc, state, text, &effort_of(effort))?;
    let words = told(alloc, text, &explanation)?;
    Ok((words, status_of(&explanation)))
}

/// Writes why a module is refused, or what it could do without, as far as the effort reaches.
pub fn write_explanation(
    alloc: Global,
    text: &[u8],
    seed: &Seed,
    effort: u64,
    out: &mut [u8],
    needed: &mut usize,
) -> u32
    ensures accepted { result ≡ done → HasProgram text.now }
    ensures refused { result ≡ refused → BreaksRule text.now }
    ensures effort { result ≡ out_of_effort → effort ≢ unbounded }
    ensures words { result ≢ out_of_memory → HasWords out.old out.new needed.new }
    ensures none { result ≡ out_of_memory → HasNone out.old out.new needed.new }
    ensures statuses { IsExplainStatus result }
{
    *needed = 0;
    match reasons(alloc, text, seed, effort) {
        Ok((words, status)) => {
            put(words.as_bytes(), out, needed);
            status
        }
        Err(OutOfMemory) => OUT_OF_MEMORY,
    }
}
