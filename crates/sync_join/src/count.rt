//! The count of a frame's living children within a sync region, and who goes on at a reattach (join counter).

ghost use Rattle.std.specs.Prelude.{◌≡◌, ◌≢◌, ◌↔◌, ◌+◌, ◌<◌, ◌^◌};

/// How the task of a parent stands when a child of the parent reattaches.
#[derive(Clone, Copy)]
pub enum Parent {
    /// A worker runs the task, or a call of the parent has not returned.
    Busy,
    /// The parent may go on; `newest` is the number of its newest child.
    Ready { newest: u64 },
    /// The parent stands at a sync of the region.
    Stalled { region: usize },
}

/// What the worker of a child does after its reattach.
#[derive(Clone, Copy)]
pub enum Outcome {
    /// It goes on with the parent, which no thief took.
    ResumeReady,
    /// It goes on with the parent behind its sync: this was the last child that the sync waited for.
    ResumeStalled,
    /// It is idle.
    Leave,
}

/// What a sync does.
#[derive(Clone, Copy)]
pub enum Passage {
    Pass,
    Stall,
}

/// The number of children that a frame detached within one region and that still live.
#[derive(Clone, Copy)]
pub struct RegionCount {
    pub living: u64,
}

impl RegionCount {
    /// No child lives.
    pub const NONE: RegionCount = RegionCount { living: 0 };

    /// A detach within the region made a child.
    pub fn opened(&mut self)
        requires { self.old.living + 1 < 2 ^ 64 }
        ensures { self.new.living ≡ self.old.living + 1 }
    {
        self.living += 1;
    }

    /// The child of this number, one of the counted, reattaches within the region; the answer is what its worker does.
    pub fn closed(&mut self, region: usize, child: u64, parent: Parent) -> Outcome
        requires { 0 < self.old.living }
        ensures counted { self.new.living + 1 ≡ self.old.living }
        ensures ready { (result ≡ Outcome.ResumeReady) ↔ (parent ≡ Parent.Ready child) }
        ensures stalled { (result ≡ Outcome.ResumeStalled)
            ↔ ((parent ≡ Parent.Stalled region) × (self.new.living ≡ 0)) }
    {
        self.living -= 1;
        match parent {
            Parent::Ready { newest } if newest == child => Outcome::ResumeReady,
            Parent::Stalled { region: awaited } if awaited == region && self.living == 0 => {
                Outcome::ResumeStalled
            }
            _ => Outcome::Leave,
        }
    }

    /// The frame stands at a sync of the region.
    pub fn at_sync(&self) -> Passage
        ensures { (result ≡ Passage.Pass) ↔ (self.now.living ≡ 0) }
    {
        if self.living == 0 {
            Passage::Pass
        } else {
            Passage::Stall
        }
    }
}
