//! Does a plain terminator: which block a branch or a switch leads to.

ghost use Rattle.std.specs.Prelude.{◌≡◌, ◌<◌, ℕ, IfSome, IfNone, List, Some, length, slice_get};
ghost use Rattle.std.specs.Prelude.{find};
ghost use Rattle.std.specs.Ordering.{int_eq};
ghost use Rattle.std.specs.Option.{option_copied};
ghost use Rattle.semantics.specs.Paths.{Path};
ghost use Rattle.semantics.specs.Frames as frames;
ghost use Rattle.semantics.specs.Effect.{Plain, case_for, jumps, terminator_action, with_phis};
ghost use Rattle.program.specs.declared.function.Program.{Program};
ghost use Rattle.program.specs.declared.function.Block.{Block};
ghost use Rattle.frame_engine.specs.Names.{Sizes, sizes};
ghost use Rattle.frame_engine.specs.Fits.{EdgeFits, EndingFits, HasTest};
ghost use Rattle.frame_engine.specs.Border.{IsBorderEnding};
ghost use Rattle.frame_engine.specs.Shows.{Layout, ShowsRegisters, TrapFree};

use crate::entering::enter;
use crate::words::{register, word};
use lists::Seq;
use program::{Block, BlockId, Case, Terminator};

/// The case of a switch for the number.
#[inline(always)]
fn case_of(cases: &[Case], number: i64) -> Option<&Case>
    ensures { option_copied result ≡ find (λ c. int_eq number c.number) cases.now }
{
    cases.iter().find(|case| number == case.number)
}

/// Where a switch goes.
#[inline(always)]
fn chosen(default: BlockId, cases: &[Case], number: i64) -> BlockId
    ensures { result.0 ≡ case_for number default.0 cases.now }
{
    match case_of(cases, number) {
        Some(case) => case.target,
        None => default,
    }
}

/// The block that a plain ending leads to.
#[inline(always)]
fn next_block(regs: &[i64], terminator: &Terminator) -> Option<BlockId>
    requires { HasTest (sizes (length regs.now) 0 0) terminator.now }
    ensures goes { (prog : Program) (l : Layout) (p : Path) (f : frames.Frame) → ShowsRegisters l f.registers regs.now
        → TrapFree (terminator_action prog p f terminator.now)
        → IfSome result (λ t. terminator_action prog p f terminator.now ≡ Plain (jumps prog f t.0)) }
    ensures border { IfNone result (IsBorderEnding terminator.now) }
    ensures edge { (n : Sizes) (moves from : ℕ) (blocks : List Block) → EndingFits n moves from blocks terminator.now
        → IfSome result (λ t. EdgeFits n moves from blocks t.0) }
{
    match terminator {
        Terminator::Jump { target } => Some(*target),
        Terminator::Branch {
            condition,
            when_true,
            when_false,
        } => {
            if register(regs, *condition) != 0 {
                Some(*when_true)
            } else {
                Some(*when_false)
            }
        }
        Terminator::Switch {
            value,
            default,
            cases,
            ..
        } => Some(chosen(*default, cases.as_slice(), word(regs, *value))),
        Terminator::Return { .. }
        | Terminator::Detach { .. }
        | Terminator::Reattach { .. }
        | Terminator::Sync { .. } => None,
    }
}

/// Goes along the edge of a plain ending and says to which block.
#[inline(always)]
pub fn leave(
    regs: &mut [i64],
    moves: &mut [i64],
    blocks: &Seq<Block>,
    from: BlockId,
    terminator: &Terminator,
) -> Option<BlockId>
    requires { EndingFits (sizes (length regs.old) 0 0) (length moves.old) from.0 blocks.now terminator.now }
    ensures length { length regs.new ≡ length regs.old }
    ensures moves { length moves.new ≡ length moves.old }
    ensures there { IfSome result (λ t. t.0 < length blocks.now) }
    ensures goes { (prog : Program) (l : Layout) (p : Path) (f : frames.Frame) → ShowsRegisters l f.registers regs.old
        → TrapFree (terminator_action prog p f terminator.now)
        → IfSome result (λ t. terminator_action prog p f terminator.now ≡ Plain (jumps prog f t.0)) }
    ensures entered { IfSome result (λ t. (l : Layout) (r s : frames.Registers) (b : Block) → slice_get blocks.now t.0 ≡ Some b
        → ShowsRegisters l r regs.old → with_phis r from.0 b.phis r ≡ Some s → ShowsRegisters l s regs.new) }
    ensures border { IfNone result (IsBorderEnding terminator.now) }
    ensures unchanged { IfNone result (regs.new ≡ regs.old) }
{
    match next_block(regs, terminator) {
        Some(target) => {
            enter(regs, moves, blocks, from, target);
            Some(target)
        }
        None => None,
    }
}
