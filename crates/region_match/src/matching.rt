//! The rules 301, 302, 303 and 305: what ends a block, and `pending` lines, fit the detach and its region.

ghost use Rattle.std.specs.Prelude.{◌≡◌, ◌↔◌, ◌⊎◌, ℕ, length, IsTrue};
ghost use Rattle.std.specs.Option.{option_copied};
ghost use Rattle.program.specs.declared.instruction.Instruction.TheVariants.{StartRegion};
ghost use Rattle.program.specs.linear.declared.form.RegisterId.{RegisterId};
ghost use Rattle.program.specs.declared.identifier.BlockId.{BlockId};
ghost use Rattle.region_match.specs.Rules.{IsDetach, ending_at, Starts};
ghost use Rattle.refusal.specs.Earliest.{IsEarliest};
ghost use Rattle.region_match.specs.ByLabel.{IsStartedBy, IsStrayBy, IsElsewhereBy, IsForeignBy, IsEndingWrongBy, IsEndingBrokenBy, IsPendingBrokenBy};

use crate::clash::is_same;
use crate::task::Task;
use program::{Block, BlockId, Ending, Instruction, Pending, RegisterId, Step, Terminator};
use refusal::{Broken, lower, rule};

/// The terminator of the block of a number.
pub fn ending_of(bodies: &[Block], block: usize) -> Option<&Terminator>
    ensures { option_copied result ≡ ending_at bodies.now block }
{
    match bodies.get(block) {
        Some(body) => match &body.ending {
            Some(ending) => Some(&ending.terminator),
            None => None,
        },
        None => None,
    }
}

/// Whether an instruction starts a region.
fn is_start(instruction: &Instruction, region: RegisterId) -> bool
    ensures { IsTrue result ↔ (instruction.now ≡ StartRegion region) }
{
    match instruction {
        Instruction::StartRegion { register } => register.0 == region.0,
        _ => false,
    }
}

/// Whether a step of the list starts a region.
fn is_start_among(steps: &[Step], region: RegisterId) -> bool
    ensures { IsTrue result ↔ Starts region steps.now }
{
    for step in steps {
        if is_start(&step.instruction, region) {
            return true;
        }
    }
    false
}

/// Whether a block of this label starts a region.
fn is_started(bodies: &[Block], tasks: &[Task], region: RegisterId, task: Task) -> bool
    requires { length tasks.now ≡ length bodies.now }
    ensures { IsTrue result ↔ IsStartedBy bodies.now tasks.now region task }
{
    for (b, body) in bodies.iter().enumerate() {
        if is_same(tasks[b], task) && is_start_among(body.steps.as_slice(), region) {
            return true;
        }
    }
    false
}

/// 303: the task of a use did not start its region.
fn use_fault(
    bodies: &[Block],
    tasks: &[Task],
    task: Task,
    region: RegisterId,
    line: u32,
) -> Option<Broken>
    requires { length tasks.now ≡ length bodies.now }
    ensures { IsEarliest (λ broken. (broken.number ≡ 303) × (broken.line ≡ line) × IsForeignBy bodies.now tasks.now task region) result }
{
    if task.is_reached() && !is_started(bodies, tasks, region, task) {
        Some(Broken {
            line,
            number: rule::FOREIGN_REGION,
        })
    } else {
        None
    }
}

/// Whether a block ends with a detach within a region.
fn is_detach_within(bodies: &[Block], block: BlockId, region: RegisterId) -> bool
    ensures { IsTrue result ↔ ((continuation : BlockId) × IsDetach (ending_at bodies.now block.0) region continuation) }
{
    match ending_of(bodies, block.0) {
        Some(Terminator::Detach { region: its, .. }) => its.0 == region.0,
        _ => false,
    }
}

/// Whether a block ends with a detach with this continuation.
fn is_detach_before(bodies: &[Block], block: BlockId, continuation: BlockId) -> bool
    ensures { IsTrue result ↔ ((region : RegisterId) × IsDetach (ending_at bodies.now block.0) region continuation) }
{
    match ending_of(bodies, block.0) {
        Some(
            Terminator::Detach {
                continuation: its,
                ..
            },
        ) => its.0 == continuation.0,
        _ => false,
    }
}

/// 301, 302: a reattach that is not its detach's.
fn reattach_fault(
    bodies: &[Block],
    task: Task,
    region: RegisterId,
    continuation: BlockId,
    line: u32,
) -> Option<Broken>
    ensures { IsEarliest (λ broken. (broken.line ≡ line)
        × (((broken.number ≡ 301) × IsStrayBy bodies.now task region) ⊎ ((broken.number ≡ 302) × IsElsewhereBy bodies.now task continuation))) result }
{
    match task {
        Task::Unreached => None,
        Task::Body => Some(Broken {
            line,
            number: rule::STRAY_REATTACH,
        }),
        Task::Child(detach) => {
            if !is_detach_within(bodies, detach, region) {
                Some(Broken {
                    line,
                    number: rule::STRAY_REATTACH,
                })
            } else if !is_detach_before(bodies, detach, continuation) {
                Some(Broken {
                    line,
                    number: rule::OTHER_CONTINUATION,
                })
            } else {
                None
            }
        }
    }
}

/// 301, 302, 303, 305: what the terminator of a block of this label breaks by itself.
pub fn ending_fault(
    bodies: &[Block],
    tasks: &[Task],
    task: Task,
    ending: &Option<Ending>,
) -> Option<Broken>
    requires { length tasks.now ≡ length bodies.now }
    ensures { IsEarliest (IsEndingBrokenBy bodies.now tasks.now task ending.now) result }
{
    let Some(ending) = ending else {
        return None;
    };
    let line = ending.line;
    match &ending.terminator {
        Terminator::Return { .. } => {
            if let Task::Child(_) = task {
                Some(Broken {
                    line,
                    number: rule::RETURN_IN_TASK,
                })
            } else {
                None
            }
        }
        Terminator::Detach { region, .. } => use_fault(bodies, tasks, task, *region, line),
        Terminator::Sync { region, .. } => use_fault(bodies, tasks, task, *region, line),
        Terminator::Reattach {
            region,
            continuation,
        } => reattach_fault(bodies, task, *region, *continuation, line),
        Terminator::Jump { .. } | Terminator::Branch { .. } | Terminator::Switch { .. } => None,
    }
}

/// 303: a `pending` line of a block of this label that names a region of another task.
pub fn pending_fault(
    bodies: &[Block],
    tasks: &[Task],
    task: Task,
    pending: &[Pending],
) -> Option<Broken>
    requires { length tasks.now ≡ length bodies.now }
    ensures { IsEarliest (IsPendingBrokenBy bodies.now tasks.now task pending.now) result }
{
    let mut named: Option<Broken> = None;
    for item in pending {
        let broken = use_fault(bodies, tasks, task, item.region, item.zone.line);
        named = lower(named, broken);
    }
    named
}
