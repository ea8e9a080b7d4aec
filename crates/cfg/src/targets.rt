//! The successors of a block: the one place that goes over the targets of a terminator.

ghost use Rattle.std.specs.Prelude.{◌≡◌, ◌++◌, ◌∷◌, [], map, OnOk, IfOk};
ghost use Rattle.cfg.specs.Edges.{case_successor, successor, successors};
ghost use Rattle.cfg.specs.declared.structure.Guard.TheVariants.{Tested};
ghost use Rattle.cfg.specs.declared.structure.Way.TheVariants.{Branch};

use crate::structure::{Guard, Successor, Way};
use program::{BlockId, Case, Operand, RegisterId, Terminator};
use std::alloc::{AllocError, Global};

/// Adds a successor.
fn push_successor(
    list: &mut Vec<Successor>,
    way: Way,
    to: BlockId,
    guard: Guard,
) -> Result<(), AllocError>
    ensures { OnOk result (list.new.items ≡ list.old.items ++ successor way to guard ∷ []) }
{
    list.push(Successor { to, way, guard })?;
    Ok(())
}

/// Adds the successor of a branch that is taken where its condition holds, or where it does not.
fn push_side(
    list: &mut Vec<Successor>,
    condition: RegisterId,
    holds: bool,
    to: BlockId,
) -> Result<(), AllocError>
    ensures { OnOk result (list.new.items ≡ list.old.items ++ successor Branch to (Tested condition holds) ∷ []) }
{
    push_successor(list, Way::Branch, to, Guard::Tested { condition, holds })
}

/// Adds the successors of the cases of a switch.
fn push_cases(list: &mut Vec<Successor>, value: Operand, cases: &[Case]) -> Result<(), AllocError>
    ensures { OnOk result (list.new.items ≡ list.old.items ++ map (case_successor value) cases.now) }
{
    for case in cases {
        let number = case.number;
        push_successor(
            list,
            Way::Branch,
            case.target,
            Guard::Matched { value, number },
        )?;
    }
    Ok(())
}

/// Adds the successors of a terminator in its order.
fn push_successors(list: &mut Vec<Successor>, terminator: &Terminator) -> Result<(), AllocError>
    ensures { OnOk result (list.new.items ≡ list.old.items ++ successors terminator.now) }
{
    match terminator {
        Terminator::Jump { target } => push_successor(list, Way::Branch, *target, Guard::Silent),
        Terminator::Branch {
            condition,
            when_true,
            when_false,
        } => {
            push_side(list, *condition, true, *when_true)?;
            push_side(list, *condition, false, *when_false)
        }
        Terminator::Switch {
            value,
            default,
            cases,
            ..
        } => {
            push_successor(list, Way::Branch, *default, Guard::Silent)?;
            push_cases(list, *value, cases.as_slice())
        }
        Terminator::Detach {
            body,
            continuation,
            ..
        } => {
            push_successor(list, Way::Detached, *body, Guard::Silent)?;
            push_successor(list, Way::Continued, *continuation, Guard::Silent)
        }
        Terminator::Sync { region, target } => {
            push_successor(list, Way::Synced(*region), *target, Guard::Silent)
        }
        Terminator::Return { .. } | Terminator::Reattach { .. } => Ok(()),
    }
}

/// Where a terminator leads, in its order.
pub fn successors(alloc: Global, terminator: &Terminator) -> Result<Vec<Successor>, AllocError>
    ensures { IfOk result (λ list. list.items ≡ successors terminator.now) }
{
    let mut list = Vec::new(alloc);
    push_successors(&mut list, terminator)?;
    Ok(list)
}
