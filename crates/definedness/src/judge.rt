//! Goes through a block's uses and definitions in order, and names the first use of what is not defined.

ghost use Rattle.std.specs.Prelude.{◌≡◌, ◌<◌, ◌↔◌, ◌++◌, ℕ, true, false, length, take, Contains, IfOk, slice_index_or};
ghost use Rattle.refusal.specs.Earliest.{IsEarliest};
ghost use Rattle.definedness.specs.Judging.{IsNeedBrokenBy, MarksGiven};
ghost use Rattle.definedness.specs.Needs.{gives, IsNeedBroken, IsBlockBroken, IsTableBroken};
ghost use Rattle.definedness.specs.Marks.{mark_at};

use crate::act::{Act, BlockActs};
use crate::table::{Row, is_marked};
use cfg::no_marks;
use refusal::{Broken, lower};
use std::alloc::{AllocError, Global};

/// What is named of one act, where `here` marks what is defined before it in the block.
fn act_fault(rows: &[Row], here: &[bool], block: usize, rule: u16, act: &Act) -> Option<Broken>
    requires { length here.now ≡ length rows.now }
    ensures { IsEarliest (IsNeedBrokenBy rows.now here.now block rule act.now) result }
{
    match act {
        Act::Needs { number, line } => {
            if *number < here.len() && !here[*number] && is_marked(rows, *number, block) {
                Some(Broken {
                    line: *line,
                    number: rule,
                })
            } else {
                None
            }
        }
        Act::Gives { .. } => None,
    }
}

/// Marks what an act defines.
fn mark_given(act: &Act, here: &mut Vec<bool>)
    ensures { MarksGiven act.now here.old.items here.new.items }
{
    if let Act::Gives { number } = act {
        if *number < here.len() {
            here[*number] = true;
        }
    }
}

/// What is named of a block.
fn block_fault(
    alloc: Global,
    rows: &[Row],
    block: usize,
    rule: u16,
    acts: &[Act],
) -> Result<Option<Broken>, AllocError>
    ensures { IfOk result (IsEarliest (IsBlockBroken (λ n. mark_at rows.now n block ≡ true) rule acts.now)) }
{
    let mut here = no_marks(alloc, rows.len())?;
    let mut named: Option<Broken> = None;
    for act in acts {
        let broken = act_fault(rows, &here, block, rule, act);
        named = lower(named, broken);
        mark_given(act, &mut here);
    }
    Ok(named)
}

/// What is named of the needs of a function: a block's row has a mark for what it lacks at its start.
pub fn table_fault(
    alloc: Global,
    rows: &[Row],
    rule: u16,
    table: &[BlockActs],
) -> Result<Option<Broken>, AllocError>
    ensures { IfOk result (IsEarliest (IsTableBroken (λ n b. mark_at rows.now n b ≡ true) rule table.now)) }
{
    let mut named: Option<Broken> = None;
    for (index, block) in table.iter().enumerate() {
        let broken = block_fault(alloc, rows, index, rule, block.acts.as_slice())?;
        named = lower(named, broken);
    }
    Ok(named)
}
