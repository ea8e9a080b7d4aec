//! The name of a frame: the numbers of the calls and detaches that lead to it; copied, compared, put in order.

ghost use Rattle.std.specs.Prelude.{◌≡◌, ◌↔◌, ◌++◌, ◌∷◌, [], IfOk, IsTrue};
ghost use Rattle.std.specs.Cmp.Lexicographic.{slice_cmp};
ghost use Rattle.std.specs.Ordering.{nat_cmp};

use lists::{OutOfMemory, Seq};
use std::alloc::Global;
use std::cmp::Ordering;

/// The name of a frame: the root's is empty, and the k-th call or detach of a frame, counted together from 0, makes the
/// child with k at the end.
pub struct Path {
    pub numbers: Seq<u64>,
}

/// Written out, so that no crate above proves it anew.
impl Drop for Path {
    fn drop(self) {
        let Path { numbers: _ } = self;
    }
}

impl Path {
    /// The path of the root frame.
    pub fn root(alloc: Global) -> Path
        ensures { result.numbers ≡ [] }
    {
        Path {
            numbers: Seq::new(alloc),
        }
    }

    /// The path of the frame's child of this number.
    pub fn child(&self, alloc: Global, number: u64) -> Result<Path, OutOfMemory>
        ensures { IfOk result (λ p. p.numbers ≡ self.now.numbers ++ (number ∷ [])) }
    {
        let mut numbers = Vec::with_capacity(alloc, self.numbers.len().saturating_add(1))?;
        numbers.extend_from_slice(self.numbers.as_slice())?;
        numbers.push(number)?;
        Ok(Path {
            numbers: Seq::from_vec(numbers),
        })
    }

    /// A copy of the path.
    pub fn copy(&self, alloc: Global) -> Result<Path, OutOfMemory>
        ensures { IfOk result (λ p. p.numbers ≡ self.now.numbers) }
    {
        let numbers = Vec::from_slice(alloc, self.numbers.as_slice())?;
        Ok(Path {
            numbers: Seq::from_vec(numbers),
        })
    }

    /// Whether both name one frame.
    pub fn is_same(&self, other: &Path) -> bool
        ensures { IsTrue result ↔ (self.now.numbers ≡ other.now.numbers) }
    {
        self.numbers.as_slice() == other.numbers.as_slice()
    }

    /// The order by numbers, a beginning first.
    pub fn compare(&self, other: &Path) -> Ordering
        ensures { result ≡ slice_cmp nat_cmp self.now.numbers other.now.numbers }
    {
        self.numbers.as_slice().cmp(&other.numbers.as_slice())
    }
}
