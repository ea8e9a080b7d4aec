//! One line of a schedule's text.

ghost use Rattle.std.specs.Prelude.{◌≡◌, ◌≢◌, ◌≤◌, ◌++◌, ◌∷◌, [], ℕ, List, All, length, IfSome, IfNone, IfOk, true};
ghost use Rattle.std.specs.List.{prefix_len, list_all};
ghost use Rattle.frame.specs.declared.path.Path as path;
ghost use Rattle.schedule_text.specs.declared.line.Line as line_type;
ghost use Rattle.schedule_text.specs.ScheduleText.{IsSpelled, IsStepping, IsStealing, IsTaskName, AreChildren};
ghost use Rattle.schedule_text.specs.Reading.{cap, capped, is_not, CutAt, IsFirstChild, AreStealWords};

use crate::numeral::{number_of, number_to};
use frame::Path;
use lists::{OutOfMemory, Seq};
use std::alloc::Global;

/// A line of a schedule's text.
#[derive(Drop)]
pub enum Line {
    /// The worker executes so many instructions, one after another.
    Steps { worker: u8, count: u64 },
    /// The worker takes the task of this name.
    Steals { worker: u8, task: Path },
}

/// The greatest number of a worker.
const LAST_WORKER: u64 = 63;

/// The greatest number in a path.
const LAST_CHILD: u64 = 1_000_000_000_000;

fn length_before(byte: u8, bytes: &[u8]) -> usize
    ensures value { result ≡ prefix_len (is_not byte) bytes.now }
    ensures within { result ≤ length bytes.now }
{
    bytes.iter().take_while(|b| **b != byte).count()
}

/// What stands before the first such byte, and what follows it.
pub fn cut_at(byte: u8, bytes: &[u8]) -> Option<(&[u8], &[u8])>
    ensures cut { IfSome result (λ r. CutAt byte bytes.now r.0.now r.1.now) }
    ensures none { IfNone result ((front rest : List ℕ) → bytes.now ≡ front ++ byte ∷ rest → ⊥) }
{
    let len = length_before(byte, bytes);
    if len < bytes.len() {
        Some((&bytes[..len], &bytes[len + 1..]))
    } else {
        None
    }
}

/// What follows the beginning, where the text has it.
fn behind<'a>(beginning: &[u8], text: &'a [u8]) -> Option<&'a [u8]>
    ensures some { IfSome result (λ rest. text.now ≡ beginning.now ++ rest.now) }
    ensures none { IfNone result ((rest : List ℕ) → text.now ≡ beginning.now ++ rest → ⊥) }
{
    text.strip_prefix(beginning)
}

/// The worker and the number of its steps.
fn read_steps(line: &[u8]) -> Option<(u8, u64)>
    ensures some { IfSome result (λ r. (n : ℕ) × IsStepping line.now r.0 n × (r.1 ≡ cap n)) }
    ensures none { IfNone result ((worker n : ℕ) → IsStepping line.now worker n → ⊥) }
{
    let words = behind(b"step ", line)?;
    let (worker, count) = cut_at(b' ', words)?;
    let worker = number_to(LAST_WORKER, worker)?;
    let count = number_of(count)?;
    if count == 0 {
        return None;
    }
    Some((worker as u8, count))
}

/// What stands before the first such byte or the end, and the rest.
fn split_before(byte: u8, bytes: &[u8]) -> (&[u8], &[u8])
    ensures whole { bytes.now ≡ result.0.now ++ result.1.now }
    ensures none_before { list_all (is_not byte) result.0.now ≡ true }
    ensures at { prefix_len (is_not byte) result.1.now ≡ 0 }
{
    bytes.split_at(length_before(byte, bytes))
}

/// The number behind the first dot, and what follows it.
fn next_child(text: &[u8]) -> Option<(u64, &[u8])>
    ensures some { IfSome result (λ r. IsFirstChild text.now r.0 r.1.now) }
    ensures none { IfNone result ((k : ℕ) (numbers : List ℕ) → AreChildren text.now (k ∷ numbers) → ⊥) }
{
    let children = behind(b".", text)?;
    let (digits, rest) = split_before(b'.', children);
    let number = number_to(LAST_CHILD, digits)?;
    Some((number, rest))
}

/// The path whose numbers stand behind `root`.
fn read_path(alloc: Global, text: &[u8]) -> Result<Option<Path>, OutOfMemory>
    ensures some { IfOk result (λ found. IfSome found (λ p. AreChildren text.now p.numbers)) }
    ensures none { IfOk result (λ found. IfNone found ((numbers : List ℕ) → AreChildren text.now numbers → ⊥)) }
{
    let mut numbers = Vec::new(alloc);
    let mut rest = text;
    while !rest.is_empty() {
        match next_child(rest) {
            None => return Ok(None),
            Some((number, after)) => {
                numbers.push(number)?;
                rest = after;
            }
        }
    }
    Ok(Some(Path {
        numbers: Seq::from_vec(numbers),
    }))
}

/// The worker, and what stands behind `root`.
fn steal_words(line: &[u8]) -> Option<(u8, &[u8])>
    ensures some { IfSome result (λ r. AreStealWords line.now r.0 r.1.now) }
    ensures none { IfNone result ((worker : ℕ) (task : path.Path) → IsStealing line.now worker task → ⊥) }
{
    let words = behind(b"steal ", line)?;
    let (worker, task) = cut_at(b' ', words)?;
    let worker = number_to(LAST_WORKER, worker)?;
    let children = behind(b"root", task)?;
    Some((worker as u8, children))
}

fn read_steal(alloc: Global, line: &[u8]) -> Result<Option<(u8, Path)>, OutOfMemory>
    ensures some { IfOk result (λ found. IfSome found (λ r. IsStealing line.now r.0 r.1)) }
    ensures none { IfOk result (λ found. IfNone found ((worker : ℕ) (task : path.Path) → IsStealing line.now worker task → ⊥)) }
{
    match steal_words(line) {
        None => Ok(None),
        Some((worker, children)) => {
            let task = read_path(alloc, children)?;
            match task {
                None => Ok(None),
                Some(task) => Ok(Some((worker, task))),
            }
        }
    }
}

/// The line that is spelled; the greatest `u64` stands for each greater number of steps.
pub fn read_line(alloc: Global, line: &[u8]) -> Result<Option<Line>, OutOfMemory>
    ensures some { IfOk result (λ found. IfSome found (λ l. (m : line_type.Line) × IsSpelled line.now m × (l ≡ capped m))) }
    ensures none { IfOk result (λ found. IfNone found ((m : line_type.Line) → IsSpelled line.now m → ⊥)) }
{
    match read_steps(line) {
        Some((worker, count)) => Ok(Some(Line::Steps { worker, count })),
        None => {
            let steal = read_steal(alloc, line)?;
            match steal {
                Some((worker, task)) => Ok(Some(Line::Steals { worker, task })),
                None => Ok(None),
            }
        }
    }
}

/// The path that a task's name spells: `root`, and behind a dot each number on the way down, at most 1,000,000,000,000.
pub fn read_task(alloc: Global, name: &[u8]) -> Result<Option<Path>, OutOfMemory>
    ensures some { IfOk result (λ found. IfSome found (IsTaskName name.now)) }
    ensures none { IfOk result (λ found. IfNone found ((task : path.Path) → IsTaskName name.now task → ⊥)) }
{
    match behind(b"root", name) {
        None => Ok(None),
        Some(children) => read_path(alloc, children),
    }
}
