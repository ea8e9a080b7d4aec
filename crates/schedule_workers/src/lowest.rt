//! From the top frame of a task down to its lowest one.

ghost use Rattle.std.specs.Prelude.{IsSome, IfSome};
ghost use Rattle.cactus.specs.Frames.{Lives};
ghost use Rattle.cactus.specs.ByPath.{IsTree};
ghost use Rattle.schedule_workers.specs.Lowest.{IsLowestBelow};

use crate::run::Run;

impl Run {
    /// The slot of the lowest frame of the task whose top is in the slot: each parent's path is shorter.
    pub fn lowest_below(&self, top: usize) -> Option<usize>
        ensures lowest { IfSome result (IsLowestBelow self.now.cactus top) }
        ensures found { IsTree self.now.cactus → Lives self.now.cactus top → IsSome result }
    {
        let most = self.cactus.node(top)?.path.numbers.len();
        let mut lowest = top;
        for _ in 0..most {
            let node = self.cactus.node(lowest)?;
            if Run::is_lowest(node) {
                return Some(lowest);
            }
            lowest = node.parent?;
        }
        let last = self.cactus.node(lowest)?;
        if Run::is_lowest(last) {
            Some(lowest)
        } else {
            None
        }
    }
}
