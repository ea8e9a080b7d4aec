//! Marks by number and block: what each block defines, and the greatest number that is needed.

ghost use Rattle.std.specs.Prelude.{◌≡◌, ◌<◌, ◌≤◌, ◌↔◌, ℕ, suc, true, false, length, map, All, Contains, IsTrue, IfOk, slice_index_or};
ghost use Rattle.definedness.specs.Needs.{gives, given_of, numbers_at};
ghost use Rattle.definedness.specs.Marks.{mark_at, IsNeedBelow, AreNeedsBelow};

use crate::act::{Act, BlockActs};
use lists::Seq;
use std::alloc::{AllocError, Global};

/// What a block defines, by its numbers.
#[derive(Drop)]
pub struct Given {
    pub numbers: Seq<usize>,
}

/// A mark for each block.
pub struct Row {
    pub marks: Seq<bool>,
}

/// Written out, so that no crate above proves it anew.
impl Drop for Row {
    fn drop(self) {
        let Row { marks: _ } = self;
    }
}

/// The mark of a number at a block; none past the table.
pub fn is_marked(rows: &[Row], number: usize, block: usize) -> bool
    ensures { result ≡ mark_at rows.now number block }
{
    match rows.get(number) {
        Some(row) => match row.marks.as_slice().get(block) {
            Some(mark) => *mark,
            None => false,
        },
        None => false,
    }
}

/// The numbers that a block defines.
fn definitions(alloc: Global, acts: &[Act]) -> Result<Vec<usize>, AllocError>
    ensures { IfOk result (λ numbers. numbers.items ≡ gives acts.now) }
{
    acts.iter()
        .filter_map(|act| act.definition())
        .collect(alloc)
}

/// What each block defines.
pub fn all_given(alloc: Global, table: &[BlockActs]) -> Result<Vec<Given>, AllocError>
    ensures { IfOk result (λ all. all.items ≡ map given_of table.now) }
{
    let mut all: Vec<Given> = Vec::with_capacity(alloc, table.len())?;
    for block in table {
        let numbers = definitions(alloc, block.acts.as_slice())?;
        all.push(Given {
            numbers: Seq::from_vec(numbers),
        })?;
    }
    Ok(all)
}

/// Whether a number is among others.
fn is_among(numbers: &[usize], number: usize) -> bool
    ensures { IsTrue result ↔ Contains numbers.now number }
{
    numbers.contains(&number)
}

/// Marks the blocks that define a number.
pub fn giving(alloc: Global, all: &[Given], number: usize) -> Result<Vec<bool>, AllocError>
    ensures size { IfOk result (λ marks. length marks.items ≡ length all.now) }
    ensures exact { IfOk result (λ marks. (b : ℕ) → (slice_index_or marks.items b false ≡ true) ↔ Contains (numbers_at all.now b) number) }
{
    let mut marks: Vec<bool> = Vec::with_capacity(alloc, all.len())?;
    for block in all {
        marks.push(is_among(block.numbers.as_slice(), number))?;
    }
    Ok(marks)
}

/// The greater of a least number and what an act needs.
fn needed(act: &Act, least: usize) -> usize
    ensures least { least ≤ result }
    ensures need { IsNeedBelow (suc result) act.now }
{
    match act {
        Act::Needs { number, .. } => least.max(*number),
        Act::Gives { .. } => least,
    }
}

/// The greatest of a least number and what acts need.
fn most_needed(acts: &[Act], least: usize) -> usize
    ensures least { least ≤ result }
    ensures needs { All (IsNeedBelow (suc result)) acts.now }
{
    let mut greatest = least;
    for act in acts {
        greatest = needed(act, greatest);
    }
    greatest
}

/// A number that no needed one is above.
pub fn greatest_needed(table: &[BlockActs]) -> usize
    ensures { AreNeedsBelow (suc result) table.now }
{
    let mut greatest = 0;
    for block in table {
        greatest = most_needed(block.acts.as_slice(), greatest);
    }
    greatest
}
