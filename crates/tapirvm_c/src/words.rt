//! The exports for reasons in words: of a status, of a rule, and of a refusal.

ghost use Rattle.std.specs.Prelude.{◌≡◌, ◌≢◌, ◌⊎◌};
ghost use Rattle.kernel_calls.specs.Told.{BreaksRule, HasProgram, done, out_of_effort, out_of_memory, refused, unbounded};
ghost use Rattle.kernel_calls.specs.Words.{HasNone, HasWords, IsExplainStatus, IsRuleStatus, not_found};

use kernel_calls::Seed;
use std::alloc::Global;

/// Writes what a status means.
#[unsafe(no_mangle)]
pub extern "C" fn tapirvm_words(status: u32, out: &mut [u8], needed: &mut usize) -> u32
    ensures words { result ≡ done → HasWords out.old out.new needed.new }
    ensures none { result ≢ done → HasNone out.old out.new needed.new }
    ensures statuses { (result ≡ done) ⊎ (result ≡ not_found) }
{
    kernel_calls::write_words(status, out, needed)
}

/// Writes a rule with an example and how to mend it.
#[unsafe(no_mangle)]
pub extern "C" fn tapirvm_rule(
    alloc: Global,
    number: u16,
    out: &mut [u8],
    needed: &mut usize,
) -> u32
    ensures words { result ≡ done → HasWords out.old out.new needed.new }
    ensures none { result ≢ done → HasNone out.old out.new needed.new }
    ensures statuses { IsRuleStatus result }
{
    kernel_calls::write_rule(alloc, number, out, needed)
}

/// Writes why a module is refused, or what it could do without, as far as the effort reaches.
#[unsafe(no_mangle)]
pub extern "C" fn tapirvm_explain(
    alloc: Global,
    text: &[u8],
    seed_low: u64,
    seed_high: u64,
    effort: u64,
    out: &mut [u8],
    needed: &mut usize,
) -> u32
    ensures accepted { result ≡ done → HasProgram text.now }
    ensures refused { result ≡ refused → BreaksRule text.now }
    ensures effort { result ≡ out_of_effort → effort ≢ unbounded }
    ensures words { result ≢ out_of_memory → HasWords out.old out.new needed.new }
    ensures none { result ≡ out_of_memory → HasNone out.old out.new needed.new }
    ensures statuses { IsExplainStatus result }
{
    let seed = Seed {
        low: seed_low,
        high: seed_high,
    };
    kernel_calls::write_explanation(alloc, text, &seed, effort, out, needed)
}
