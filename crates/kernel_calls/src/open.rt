//! The calls by which a host judges a module once and keeps it.

ghost use Rattle.std.specs.Prelude.{◌≡◌, ◌≢◌, IfSome, None, Some};
ghost use Rattle.kernel_calls.specs.Told.{IsVerdictStatus, Refuses, done, out_of_effort, refused, unbounded};
ghost use Rattle.kernel_calls.specs.Held.{IsShareStatus, Opens, closed};

use crate::handle::Handle;
use crate::judge::{acceptance, rejection};
use crate::names::argument_names;
use crate::prepared::Prepared;
use crate::seed::{Seed, verify_seeded};
use crate::shared::Shared;
use crate::told::{CLOSED, DONE, OUT_OF_MEMORY, Verdict, plain_verdict};
use std::alloc::Global;
use verifier::Verified;

/// A module on the heap, decoded, with the names of its arguments and its mark, unless memory is refused.
fn stored(alloc: Global, text: &[u8], seed: &Seed, kernel: Verified) -> Option<Box<Shared>>
    ensures { IfSome result (λ block. block.value ≡ kernel) }
{
    let names = argument_names(alloc, seed, text)?;
    let prepared = Prepared::of(alloc, kernel, names, seed.mark_of(text))?;
    Box::new(alloc, Shared::new(alloc, prepared)?).ok()
}

/// The verdict on a text, and the module where it is accepted.
#[tactic(auto, using(crate::proofs::Bounded::bounded_is))]
fn opened(alloc: Global, text: &[u8], seed: &Seed, effort: u64) -> (Verdict, Handle)
    ensures accepted { result.0.status ≡ done → Opens text.now result.0 result.1.kernel.program }
    ensures refused { result.0.status ≡ refused → Refuses text.now result.0.rule result.0.line }
    ensures effort { result.0.status ≡ out_of_effort → effort ≢ unbounded }
    ensures closed { result.0.status ≢ done → result.1.kernel.program ≡ None }
    ensures statuses { IsVerdictStatus result.0.status }
{
    match verify_seeded(alloc, seed, text, effort) {
        Ok(kernel) => {
            let verdict = acceptance(&kernel);
            match stored(alloc, text, seed, kernel) {
                Some(block) => (verdict, Handle::kept(block)),
                None => (plain_verdict(OUT_OF_MEMORY), Handle::closed(alloc)),
            }
        }
        Err(why) => (rejection(why), Handle::closed(alloc)),
    }
}

/// Verifies a module within some effort and keeps it. What the handle held is given back.
pub fn open_module(
    alloc: Global,
    text: &[u8],
    seed: &Seed,
    effort: u64,
    handle: &mut Handle,
) -> Verdict
    ensures accepted { result.status ≡ done → Opens text.now result handle.new.kernel.program }
    ensures refused { result.status ≡ refused → Refuses text.now result.rule result.line }
    ensures effort { result.status ≡ out_of_effort → effort ≢ unbounded }
    ensures closed { result.status ≢ done → handle.new.kernel.program ≡ None }
    ensures statuses { IsVerdictStatus result.status }
{
    let (verdict, made) = opened(alloc, text, seed, effort);
    *handle = made;
    verdict
}

/// One more hold on a module, where memory is given and there are not as many as can be counted.
fn another(alloc: Global, shared: &Shared) -> Option<Box<Shared>>
    ensures { IfSome result (λ block. block.value ≡ shared.now) }
{
    Box::new(alloc, shared.another()?).ok()
}

/// Keeps in another handle what this one keeps, so that both can run it at the same time. What the other one held is given back.
pub fn share_module(alloc: Global, handle: &mut Handle, other: &mut Handle) -> u32
    ensures same { handle.new.kernel.program ≡ handle.old.kernel.program }
    ensures shared { result ≡ done → other.new.kernel.program ≡ handle.old.kernel.program }
    ensures nothing { result ≢ done → other.new.kernel.program ≡ None }
    ensures closed { result ≡ closed → handle.old.kernel.program ≡ None }
    ensures held { handle.old.kernel.program ≡ None → result ≡ closed }
    ensures statuses { IsShareStatus result }
{
    let Some(block) = handle.take(alloc) else {
        *other = Handle::closed(alloc);
        return CLOSED;
    };
    let (status, made) = match another(alloc, block.as_ref()) {
        Some(made) => (DONE, Handle::kept(made)),
        None => (OUT_OF_MEMORY, Handle::closed(alloc)),
    };
    handle.keep(block);
    *other = made;
    status
}

/// Gives back what the handle holds.
pub fn close_module(alloc: Global, handle: &mut Handle)
    ensures { handle.new.kernel.program ≡ None }
{
    *handle = Handle::closed(alloc);
}
