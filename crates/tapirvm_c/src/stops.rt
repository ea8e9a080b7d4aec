//! The calls by which a host stops runs.

ghost use Rattle.std.specs.Prelude.{◌≡◌, ◌≢◌, None, Some, false};
ghost use Rattle.kernel_calls.specs.Boards.{IsMadeStatus, IsSetStatus};
ghost use Rattle.kernel_calls.specs.Held.{IsShareStatus, closed};
ghost use Rattle.kernel_calls.specs.Told.{done};

use kernel_calls::StopHandle;
use std::alloc::Global;

/// Makes a stop that is not set. What the handle held is given back.
#[unsafe(no_mangle)]
pub extern "C" fn tapirvm_stop_open(alloc: Global, stop: &mut StopHandle) -> u32
    ensures kept { result ≡ done → stop.new.stop.kept ≡ Some tt }
    ensures nothing { result ≢ done → stop.new.stop.kept ≡ None }
    ensures statuses { IsMadeStatus result }
{
    kernel_calls::open_stop(alloc, stop)
}

/// Another handle on the same stop. What the other one held is given back.
#[unsafe(no_mangle)]
pub extern "C" fn tapirvm_stop_share(
    alloc: Global,
    stop: &mut StopHandle,
    other: &mut StopHandle,
) -> u32
    ensures same { stop.new.stop.kept ≡ stop.old.stop.kept }
    ensures kept { result ≡ done → other.new.stop.kept ≡ Some tt }
    ensures nothing { result ≢ done → other.new.stop.kept ≡ None }
    ensures closed { result ≡ closed → stop.old.stop.kept ≡ None }
    ensures held { stop.old.stop.kept ≡ None → result ≡ closed }
    ensures statuses { IsShareStatus result }
{
    kernel_calls::share_stop(alloc, stop, other)
}

/// Sets the stop: who looks at it next stops.
#[unsafe(no_mangle)]
pub extern "C" fn tapirvm_stop_set(alloc: Global, stop: &mut StopHandle) -> u32
    ensures same { stop.new.stop.kept ≡ stop.old.stop.kept }
    ensures closed { result ≡ closed → stop.old.stop.kept ≡ None }
    ensures held { stop.old.stop.kept ≡ None → result ≡ closed }
    ensures statuses { IsSetStatus result }
{
    kernel_calls::set_stop(alloc, stop)
}

/// Clears the stop: who is told to go on goes on.
#[unsafe(no_mangle)]
pub extern "C" fn tapirvm_stop_clear(alloc: Global, stop: &mut StopHandle) -> u32
    ensures same { stop.new.stop.kept ≡ stop.old.stop.kept }
    ensures closed { result ≡ closed → stop.old.stop.kept ≡ None }
    ensures held { stop.old.stop.kept ≡ None → result ≡ closed }
    ensures statuses { IsSetStatus result }
{
    kernel_calls::clear_stop(alloc, stop)
}

/// Whether the stop is set.
#[unsafe(no_mangle)]
pub extern "C" fn tapirvm_stop_is_set(alloc: Global, stop: &mut StopHandle) -> bool
    ensures same { stop.new.stop.kept ≡ stop.old.stop.kept }
    ensures closed { stop.old.stop.kept ≡ None → result ≡ false }
{
    kernel_calls::is_stop_set(alloc, stop)
}

/// Gives back what the handle holds.
#[unsafe(no_mangle)]
pub extern "C" fn tapirvm_stop_close(alloc: Global, stop: &mut StopHandle)
    ensures { stop.new.stop.kept ≡ None }
{
    kernel_calls::close_stop(alloc, stop);
}
