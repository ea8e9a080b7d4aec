//! The verdict on a text, and the call that answers it alone.

ghost use Rattle.std.specs.Prelude.{◌≡◌, ◌≢◌, ◌⊎◌, IsSome, List, Option, ℕ};
ghost use Rattle.refusal.specs.declared.refused.Refused.TheVariants.{Fault};
ghost use Rattle.kernel_calls.specs.Told.{Accepts, IsRejection, IsVerdictStatus, Refuses, cells_in, done, out_of_effort, out_of_memory, refused, unbounded};
ghost use Rattle.verifier.specs.Accepted.{IsUnverified};
ghost use Rattle.verifier.specs.Budgets.{IsDepthOf, budget_of};

use crate::cells::count_cells;
use crate::seed::{Seed, verify_seeded};
use crate::told::{DONE, OUT_OF_EFFORT, OUT_OF_MEMORY, REFUSED, Verdict, plain_verdict};
use std::alloc::Global;
use verifier::{Refused, Unverified, Verified};

/// The verdict on a module that is accepted.
pub fn acceptance(kernel: &Verified) -> Verdict
    ensures status { result.status ≡ done }
    ensures budget { result.budget ≡ budget_of kernel.now }
    ensures depth { IsDepthOf kernel.now result.depth }
    ensures cells { result.cells ≡ cells_in kernel.now }
{
    Verdict {
        status: DONE,
        rule: 0,
        line: 0,
        budget: kernel.budget(),
        depth: kernel.depth(),
        cells: count_cells(kernel.program()),
    }
}

/// The verdict on a text that is refused.
fn refusal(why: Refused) -> Verdict
    ensures fault { result.status ≡ refused → why ≡ Fault result.rule result.line }
    ensures statuses { (result.status ≡ refused) ⊎ (result.status ≡ out_of_memory) }
{
    match why {
        Refused::Fault { number, line } => Verdict {
            rule: number,
            line,
            ..plain_verdict(REFUSED)
        },
        Refused::Memory => plain_verdict(OUT_OF_MEMORY),
    }
}

/// The verdict on a text that is not accepted.
pub fn rejection(why: Unverified) -> Verdict
    ensures refused { (text : List ℕ) (effort : Option ℕ) → IsUnverified text effort why → result.status ≡ refused →
        Refuses text result.rule result.line }
    ensures effort { (text : List ℕ) (effort : Option ℕ) → IsUnverified text effort why → result.status ≡ out_of_effort → IsSome effort }
    ensures statuses { IsRejection result.status }
{
    match why {
        Unverified::Refused(refused) => refusal(refused),
        Unverified::OutOfEffort { .. } => plain_verdict(OUT_OF_EFFORT),
    }
}

/// Verifies a module within some effort.
#[tactic(auto, using(crate::proofs::Bounded::bounded_is))]
pub fn verify(alloc: Global, text: &[u8], seed: &Seed, effort: u64) -> Verdict
    ensures accepted { result.status ≡ done → Accepts text.now result }
    ensures refused { result.status ≡ refused → Refuses text.now result.rule result.line }
    ensures effort { result.status ≡ out_of_effort → effort ≢ unbounded }
    ensures statuses { IsVerdictStatus result.status }
{
    match verify_seeded(alloc, seed, text, effort) {
        Ok(kernel) => acceptance(&kernel),
        Err(why) => rejection(why),
    }
}
