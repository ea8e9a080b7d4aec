//! Masks of 64 bits: set bits, both of two masks, the next set bit, and runs of them (bit sets).

ghost use Rattle.std.specs.Prelude.{◌≡◌, ◌≢◌, ◌<◌, ◌≤◌, ◌||◌, ℕ, true, false, IfNone, IfSome};
ghost use Rattle.strand_pages.specs.Bits.{is_set};

/// Whether the place's bit is set.
#[inline(always)]
pub(crate) fn is_set(mask: u64, place: usize) -> bool
    requires { place < 64 }
    ensures { result ≡ is_set mask place }
{
    (mask >> place) & 1 == 1
}

/// The mask with the place's bit set.
#[inline(always)]
pub(crate) fn with_bit(mask: u64, place: usize) -> u64
    requires { place < 64 }
    ensures set { is_set result place ≡ true }
    ensures others { (k : ℕ) → k ≢ place → is_set result k ≡ is_set mask k }
{
    mask | (1 << place)
}

/// The bits of both.
#[inline(always)]
pub(crate) fn either(left: u64, right: u64) -> u64
    ensures { (k : ℕ) → is_set result k ≡ (is_set left k || is_set right k) }
{
    left | right
}

/// The first place from this one on whose bit is set.
pub(crate) fn next(mask: u64, from: usize) -> Option<usize>
    requires { from ≤ 64 }
    ensures later { IfSome result (λ place. from ≤ place) }
    ensures within { IfSome result (λ place. place < 64) }
    ensures set { IfSome result (λ place. is_set mask place ≡ true) }
    ensures passed { IfSome result (λ place. (k : ℕ) → from ≤ k → k < place → is_set mask k ≡ false) }
    ensures none { IfNone result ((k : ℕ) → from ≤ k → k < 64 → is_set mask k ≡ false) }
{
    if from >= 64 {
        return None;
    }
    let rest = mask >> from;
    if rest == 0 {
        return None;
    }
    Some(from + rest.trailing_zeros() as usize)
}

/// The place behind the run of set bits that goes on from this one.
#[inline(always)]
pub(crate) fn run_end(mask: u64, place: usize) -> usize
    requires within { place < 64 }
    requires begins { is_set mask place ≡ true }
    ensures later { place < result }
    ensures within { result ≤ 64 }
    ensures set { (k : ℕ) → place ≤ k → k < result → is_set mask k ≡ true }
{
    match next(!mask, place + 1) {
        Some(end) => end,
        None => 64,
    }
}
