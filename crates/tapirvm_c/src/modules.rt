//! The calls by which a host judges a module, once and for all or anew.

ghost use Rattle.std.specs.Prelude.{◌≡◌, ◌≢◌, None};
ghost use Rattle.kernel_calls.specs.Held.{IsShareStatus, Opens, closed};
ghost use Rattle.kernel_calls.specs.Told.{Accepts, IsVerdictStatus, Refuses, done, out_of_effort, refused, unbounded};

use kernel_calls::{Handle, Seed, Verdict};
use std::alloc::Global;

/// Verifies a module within some effort.
#[unsafe(no_mangle)]
pub extern "C" fn tapirvm_verify(
    alloc: Global,
    text: &[u8],
    seed_low: u64,
    seed_high: u64,
    effort: u64,
    verdict: &mut Verdict,
)
    ensures accepted { verdict.new.status ≡ done → Accepts text.now verdict.new }
    ensures refused { verdict.new.status ≡ refused → Refuses text.now verdict.new.rule verdict.new.line }
    ensures effort { verdict.new.status ≡ out_of_effort → effort ≢ unbounded }
    ensures statuses { IsVerdictStatus verdict.new.status }
{
    let seed = Seed {
        low: seed_low,
        high: seed_high,
    };
    *verdict = kernel_calls::verify(alloc, text, &seed, effort);
}

/// Verifies a module within some effort and keeps it. What the handle held is given back.
#[unsafe(no_mangle)]
pub extern "C" fn tapirvm_open(
    alloc: Global,
    text: &[u8],
    seed_low: u64,
    seed_high: u64,
    effort: u64,
    verdict: &mut Verdict,
    handle: &mut Handle,
)
    ensures accepted { verdict.new.status ≡ done → Opens text.now verdict.new handle.new.kernel.program }
    ensures refused { verdict.new.status ≡ refused → Refuses text.now verdict.new.rule verdict.new.line }
    ensures effort { verdict.new.status ≡ out_of_effort → effort ≢ unbounded }
    ensures closed { verdict.new.status ≢ done → handle.new.kernel.program ≡ None }
    ensures statuses { IsVerdictStatus verdict.new.status }
{
    let seed = Seed {
        low: seed_low,
        high: seed_high,
    };
    *verdict = kernel_calls::open_module(alloc, text, &seed, effort, handle);
}

/// Keeps in another handle what this one keeps, so that both can run it at the same time. What the other one held is given back.
#[unsafe(no_mangle)]
pub extern "C" fn tapirvm_share(alloc: Global, handle: &mut Handle, other: &mut Handle) -> u32
    ensures same { handle.new.kernel.program ≡ handle.old.kernel.program }
    ensures shared { result ≡ done → other.new.kernel.program ≡ handle.old.kernel.program }
    ensures nothing { result ≢ done → other.new.kernel.program ≡ None }
    ensures closed { result ≡ closed → handle.old.kernel.program ≡ None }
    ensures held { handle.old.kernel.program ≡ None → result ≡ closed }
    ensures statuses { IsShareStatus result }
{
    kernel_calls::share_module(alloc, handle, other)
}

/// Gives back what the handle holds.
#[unsafe(no_mangle)]
pub extern "C" fn tapirvm_close(alloc: Global, handle: &mut Handle)
    ensures { handle.new.kernel.program ≡ None }
{
    kernel_calls::close_module(alloc, handle);
}
