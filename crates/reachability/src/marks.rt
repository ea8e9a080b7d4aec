//! Marks for the nodes of a graph, none set or one (bit sets as lists of booleans).

ghost use Rattle.std.specs.Prelude.{◌≡◌, ◌<◌, ◌↔◌, ℕ, length, true, false, IfOk, slice_index_or};

use std::alloc::{AllocError, Global};

/// A mark for each node, none set.
pub fn no_marks(alloc: Global, count: usize) -> Result<Vec<bool>, AllocError>
    ensures size { IfOk result (λ marks. length marks.items ≡ count) }
    ensures none { IfOk result (λ marks. (n : ℕ) → slice_index_or marks.items n false ≡ false) }
{
    let mut marks = Vec::with_capacity(alloc, count)?;
    for _node in 0..count {
        marks.push(false)?;
    }
    Ok(marks)
}

/// A mark for each node, set at one alone.
pub fn one_mark(alloc: Global, count: usize, node: usize) -> Result<Vec<bool>, AllocError>
    ensures size { IfOk result (λ marks. length marks.items ≡ count) }
    ensures one { IfOk result (λ marks. (n : ℕ) → (slice_index_or marks.items n false ≡ true) ↔ ((n ≡ node) × (n < count))) }
{
    let mut marks = no_marks(alloc, count)?;
    if node < count {
        marks[node] = true;
    }
    Ok(marks)
}
