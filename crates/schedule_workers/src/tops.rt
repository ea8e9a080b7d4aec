//! The top frame of the task of a path.

ghost use Rattle.std.specs.Prelude.{◌≡◌, ◌↔◌, IsTrue};
ghost use Rattle.schedule_workers.specs.Tasks.{FindsTop, IsLowest, top_within};

use crate::activation::Activation;
use crate::run::Run;
use cactus::Node;
use frame::{Path, Role};

impl Run {
    /// Whether a path is that of a task: the root's, or a detached child's.
    pub(crate) fn is_lowest(node: &Node<Activation>) -> bool
        ensures { IsTrue result ↔ IsLowest node.now }
    {
        node.parent.is_none() || node.frame.frame.role != Role::Body
    }

    /// The slot of the top of the task whose lowest frame is in the slot: no task has more frames than the peak.
    fn top_above(&self, lowest: usize) -> Option<usize>
        ensures { result ≡ top_within self.now.cactus self.now.peak lowest }
    {
        let mut top = lowest;
        for _ in 0..self.peak {
            match self.cactus.node(top)?.frame.callee {
                Some(callee) => top = callee,
                None => return Some(top),
            }
        }
        match self.cactus.node(top)?.frame.callee {
            Some(_) => None,
            None => Some(top),
        }
    }

    /// The slot of the top of the task of the path.
    pub fn top_of(&self, path: &Path) -> Option<usize>
        ensures { FindsTop self.now.cactus self.now.peak path.now result }
    {
        let (lowest, generation) = self.cactus.spot(path)?;
        let node = self.cactus.get(lowest, generation)?;
        if Run::is_lowest(node) {
            self.top_above(lowest)
        } else {
            None
        }
    }
}
