//! What a host holds to stop runs, and the calls that set it.

ghost use Rattle.std.specs.Prelude.{◌≡◌, ◌≢◌, IfSome, IsSome, None, Some, is_some, false};
ghost use Rattle.kernel_calls.specs.Told.{done};
ghost use Rattle.kernel_calls.specs.Held.{IsShareStatus, closed};
ghost use Rattle.kernel_calls.specs.Boards.{IsMadeStatus, IsSetStatus};

use crate::hosted::Stop;
use crate::loose::Loose;
use crate::stop_at::StopAt;
use crate::told::{CLOSED, DONE, OUT_OF_MEMORY};
use std::alloc::Global;
use std::marker::Model;
use std::mem::replace;

/// A stop with one of its owners. Contracts see nothing of it.
#[derive(Drop)]
pub struct StopBlock {
    stop: Stop,
}

impl Model for StopBlock {
    ghost use Rattle.std.specs.Prelude.{⊤};

    ghost Value = { ⊤ };

    ghost view = { λ s. tt };
}

/// A stop, or nothing. All zeroes are nothing.
#[repr(C)]
pub struct StopHandle {
    pub live: bool,
    pub stop: StopAt,
    pub ghost told: { live ≡ is_some stop.kept },
}

impl StopHandle {
    /// Nothing.
    pub fn closed(alloc: Global) -> StopHandle
        ensures { result.stop.kept ≡ None }
    {
        StopHandle {
            live: false,
            stop: StopAt::none(alloc),
        }
    }

    /// Keeps a stop.
    fn kept(block: Box<StopBlock>) -> StopHandle
        ensures { result.stop.kept ≡ Some block.value }
    {
        StopHandle {
            live: true,
            stop: StopAt::held(Loose::of(block)),
        }
    }

    /// Gives the stop back that is kept.
    fn taken(self) -> Option<Box<StopBlock>>
        ensures kept { IfSome result (λ block. self.stop.kept ≡ Some block.value) }
        ensures closed { result ≡ None → self.stop.kept ≡ None }
    {
        let StopHandle { live, stop } = self;
        if live {
            Some(stop.freed().into_box())
        } else {
            stop.gone();
            None
        }
    }

    /// Takes the stop out: the handle holds nothing then.
    fn take(&mut self, alloc: Global) -> Option<Box<StopBlock>>
        ensures kept { IfSome result (λ block. self.old.stop.kept ≡ Some block.value) }
        ensures closed { result ≡ None → self.old.stop.kept ≡ None }
        ensures left { self.new.stop.kept ≡ None }
    {
        replace(self, StopHandle::closed(alloc)).taken()
    }

    /// Keeps a stop in place of what it held.
    fn keep(&mut self, block: Box<StopBlock>)
        ensures { self.new.stop.kept ≡ Some block.value }
    {
        *self = StopHandle::kept(block);
    }

    /// The stop for a run. A handle that holds nothing stops nothing.
    pub fn heard(&mut self, alloc: Global) -> Option<Stop>
        ensures heard { IfSome result (λ stop. IsSome stop.word → IsSome self.old.stop.kept) }
        ensures same { self.new.stop.kept ≡ self.old.stop.kept }
    {
        let Some(block) = self.take(alloc) else {
            return Some(Stop::never());
        };
        let heard = block.as_ref().stop.share().ok();
        self.keep(block);
        heard
    }
}

impl Drop for StopHandle {
    fn drop(self) {
        drop(self.taken());
    }
}

/// A handle on the stop, and the status.
fn boxed(alloc: Global, stop: Stop) -> (u32, StopHandle)
    ensures kept { result.0 ≡ done → result.1.stop.kept ≡ Some tt }
    ensures nothing { result.0 ≢ done → result.1.stop.kept ≡ None }
    ensures statuses { IsMadeStatus result.0 }
{
    match Box::new(alloc, StopBlock { stop }) {
        Ok(block) => (DONE, StopHandle::kept(block)),
        Err(_) => (OUT_OF_MEMORY, StopHandle::closed(alloc)),
    }
}

/// Makes a stop that is not set. What the handle held is given back.
pub fn open_stop(alloc: Global, stop: &mut StopHandle) -> u32
    ensures kept { result ≡ done → stop.new.stop.kept ≡ Some tt }
    ensures nothing { result ≢ done → stop.new.stop.kept ≡ None }
    ensures statuses { IsMadeStatus result }
{
    let (status, made) = match Stop::new(alloc) {
        Ok(made) => boxed(alloc, made),
        Err(_) => (OUT_OF_MEMORY, StopHandle::closed(alloc)),
    };
    *stop = made;
    status
}

/// Another handle on the same stop. What the other one held is given back.
pub fn share_stop(alloc: Global, stop: &mut StopHandle, other: &mut StopHandle) -> u32
    ensures same { stop.new.stop.kept ≡ stop.old.stop.kept }
    ensures kept { result ≡ done → other.new.stop.kept ≡ Some tt }
    ensures nothing { result ≢ done → other.new.stop.kept ≡ None }
    ensures closed { result ≡ closed → stop.old.stop.kept ≡ None }
    ensures held { stop.old.stop.kept ≡ None → result ≡ closed }
    ensures statuses { IsShareStatus result }
{
    let Some(block) = stop.take(alloc) else {
        *other = StopHandle::closed(alloc);
        return CLOSED;
    };
    let (status, made) = match block.as_ref().stop.share() {
        Ok(shared) => boxed(alloc, shared),
        Err(_) => (OUT_OF_MEMORY, StopHandle::closed(alloc)),
    };
    stop.keep(block);
    *other = made;
    status
}

/// Sets the stop, or clears it.
fn set(alloc: Global, stop: &mut StopHandle, is_set: bool) -> u32
    ensures same { stop.new.stop.kept ≡ stop.old.stop.kept }
    ensures closed { result ≡ closed → stop.old.stop.kept ≡ None }
    ensures held { stop.old.stop.kept ≡ None → result ≡ closed }
    ensures statuses { IsSetStatus result }
{
    let Some(block) = stop.take(alloc) else {
        return CLOSED;
    };
    block.as_ref().stop.set(is_set);
    stop.keep(block);
    DONE
}

/// Sets the stop: who looks at it next stops.
pub fn set_stop(alloc: Global, stop: &mut StopHandle) -> u32
    ensures same { stop.new.stop.kept ≡ stop.old.stop.kept }
    ensures closed { result ≡ closed → stop.old.stop.kept ≡ None }
    ensures held { stop.old.stop.kept ≡ None → result ≡ closed }
    ensures statuses { IsSetStatus result }
{
    set(alloc, stop, true)
}

/// Clears the stop: who is told to go on goes on.
pub fn clear_stop(alloc: Global, stop: &mut StopHandle) -> u32
    ensures same { stop.new.stop.kept ≡ stop.old.stop.kept }
    ensures closed { result ≡ closed → stop.old.stop.kept ≡ None }
    ensures held { stop.old.stop.kept ≡ None → result ≡ closed }
    ensures statuses { IsSetStatus result }
{
    set(alloc, stop, false)
}

/// Whether the stop is set.
pub fn is_stop_set(alloc: Global, stop: &mut StopHandle) -> bool
    ensures same { stop.new.stop.kept ≡ stop.old.stop.kept }
    ensures closed { stop.old.stop.kept ≡ None → result ≡ false }
{
    let Some(block) = stop.take(alloc) else {
        return false;
    };
    let is_set = block.as_ref().stop.is_set();
    stop.keep(block);
    is_set
}

/// Gives back what the handle holds.
pub fn close_stop(alloc: Global, stop: &mut StopHandle)
    ensures { stop.new.stop.kept ≡ None }
{
    *stop = StopHandle::closed(alloc);
}
