//! Whether a fault is known on a line before others: what is broken on these is not named then, and need not be sought.

ghost use Rattle.std.specs.Prelude.{◌≡◌, All, IsTrue};
ghost use Rattle.program.specs.declared.annotation.Inequality.{Inequality};
ghost use Rattle.ranges.specs.Walks.{StandsBefore};

use program::Step;
use refusal::Broken;

/// Whether a fault is known on a line before this one.
pub fn stands_before(named: Option<Broken>, line: u32) -> bool
    ensures { IsTrue result → StandsBefore named line }
{
    match named {
        Some(first) => first.line < line,
        None => false,
    }
}

/// Whether a fault is known on a line before that of a step and those of its `shows`.
pub fn stands_before_step(named: Option<Broken>, step: &Step) -> bool
    ensures own { IsTrue result → StandsBefore named step.now.line }
    ensures shows { IsTrue result → All (λ (q : Inequality). StandsBefore named q.line) step.now.shows }
{
    let shows = step.shows.as_slice();
    for inequality in shows {
        if !stands_before(named, inequality.line) {
            return false;
        }
    }
    stands_before(named, step.line)
}
