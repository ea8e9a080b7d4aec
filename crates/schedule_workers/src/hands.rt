//! The frame that a worker runs next: the top of its task.

ghost use Rattle.std.specs.Prelude.{◌≡◌, ◌<◌, OnSome, vec_len};
ghost use Rattle.std.specs.Vec.{with_item};
ghost use Rattle.schedule_workers.specs.Scheduling.{hand_of};

use crate::run::Run;

impl Run {
    /// The slot of the top frame of the worker's task.
    pub fn hand(&self, worker: u8) -> Option<usize>
        ensures slot { result ≡ hand_of self.now.hands.items worker }
        ensures worker { OnSome result (worker < vec_len self.now.hands) }
    {
        self.hands
            .as_slice()
            .get(worker as usize)
            .copied()
            .flatten()
    }

    /// The worker runs the task with this top from here on, or is idle.
    pub fn set_hand(&mut self, worker: u8, hand: Option<usize>)
        requires { worker < vec_len self.old.hands }
        ensures { self.new ≡ record self.old { hands = with_item self.old.hands worker hand } }
    {
        self.hands[worker as usize] = hand;
    }
}
