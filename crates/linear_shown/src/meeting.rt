//! Where the keys of two entries, with their factors, come to a total: the first one goes up its list, and the second one down its own.

ghost use Rattle.std.specs.Prelude.{◌≡◌, ◌<◌, ◌≤◌, ◌+◌, ◌-◌, ◌*◌, ◌/◌, ◌^◌, false, ◌↔◌, ℕ, All, IsTrue, IfSome, IfNone, length, slice_index_or, pos, ◌≤ℤ◌, ◌+ℤ◌, ◌*ℤ◌, unsigned_abs};
ghost use Rattle.std.specs.List.Sorted.{IsNonDecreasingBy};
ghost use Rattle.linear_shown.specs.Index.{AreInOrder, Balance, Meet, Serve};
ghost use Rattle.linear_shown.specs.declared.index.Entry.{Entry};

use crate::index::Entry;
use crate::show::is_at_most;

/// What two keys are to come to, the first one and the second one so many times.
#[derive(Clone, Copy)]
pub struct Sought {
    pub first: u32,
    pub second: u32,
    pub total: u128,
}

/// Two lists by rising keys, in which the two keys are sought, and what is wanted of the constants, the first one a times and the second one b times.
#[derive(Clone, Copy)]
pub struct Pass<'a> {
    pub firsts: &'a [Entry],
    pub seconds: &'a [Entry],
    pub sought: Sought,
    pub a: u32,
    pub b: u32,
    pub most: i128,
}

/// What a times the key of the first fact and b times that of the second one come to, where they make up a form of this key.
pub fn total_of(key: u128, a: u32, b: u32) -> u128
    requires key { key < 2 ^ 101 }
    requires a { a ≤ 2 ^ 24 }
    requires b { b ≤ 2 ^ 24 }
    requires some { 0 < b }
    ensures { result + 2 ^ 100 ≡ (a + b) * 2 ^ 100 + key }
{
    let shares = u128::from(a) + u128::from(b - 1);
    shares * 1_267_650_600_228_229_401_496_703_205_376 + key
}

/// A factor that both have: one of them where it divides the other, or 1.
fn shared_factor(a: u32, b: u32) -> u32
    requires some { 0 < b }
    ensures some { 0 < result }
    ensures first { result * (a / result) ≡ a }
    ensures second { result * (b / result) ≡ b }
{
    if a % b == 0 {
        b
    } else if a > 0 && b % a == 0 {
        a
    } else {
        1
    }
}

/// What is sought where a times one fact and b times another one make up a form of this key. A factor that both have is left out; none where the
/// total cannot be divided by it.
pub fn sought_of(key: u128, a: u32, b: u32) -> Option<Sought>
    requires key { key < 2 ^ 101 }
    requires a { a ≤ 2 ^ 24 }
    requires b { b ≤ 2 ^ 24 }
    requires some { 0 < b }
    ensures total { IfSome result (λ s. (x y : ℕ) → Balance key a b x y → s.first * x + s.second * y ≡ s.total) }
    ensures first { IfSome result (λ s. s.first ≤ 2 ^ 24) }
    ensures second { IfSome result (λ s. s.second ≤ 2 ^ 24) }
    ensures some { IfSome result (λ s. 0 < s.second) }
    ensures none { IfNone result ((x y : ℕ) → Balance key a b x y → ⊥) }
{
    let total = total_of(key, a, b);
    let shared = shared_factor(a, b);
    if total % u128::from(shared) != 0 {
        return None;
    }
    Some(Sought {
        first: a / shared,
        second: b / shared,
        total: total / u128::from(shared),
    })
}

/// A key times a factor.
pub fn times(b: u32, key: u128) -> u128
    requires b { b ≤ 2 ^ 24 }
    requires key { key < 2 ^ 101 }
    ensures value { result ≡ b * key }
    ensures small { result < 2 ^ 125 }
{
    if b == 1 { key } else { u128::from(b) * key }
}

/// Whether an entry is there, and a times its key is too small beside this.
#[inline(always)]
fn is_low(entries: &[Entry], place: usize, a: u32, beside: u128, total: u128) -> bool
    requires order { AreInOrder entries.now }
    requires a { a ≤ 2 ^ 24 }
    requires beside { beside < 2 ^ 125 }
    ensures there { IsTrue result → place < length entries.now }
    ensures low { (d : Entry) → IsTrue result → a * (slice_index_or entries.now place d).key + beside < total }
    ensures high { (d : Entry) → result ≡ false → place < length entries.now → total ≤ a * (slice_index_or entries.now place d).key + beside }
{
    place < entries.len() && times(a, entries[place].key) + beside < total
}

/// The first entry from a place on with which a times its key is not too small beside this. Steps double, and halve where they would go too far.
#[inline(never)]
fn risen_far(entries: &[Entry], from: usize, a: u32, beside: u128, total: u128) -> usize
    requires order { AreInOrder entries.now }
    requires from { from ≤ length entries.now }
    requires a { a ≤ 2 ^ 24 }
    requires beside { beside < 2 ^ 125 }
    ensures from { from ≤ result }
    ensures within { result ≤ length entries.now }
    ensures below { (k : ℕ) (d : Entry) → from ≤ k → k < result → a * (slice_index_or entries.now k d).key + beside < total }
    ensures reached { (d : Entry) → result < length entries.now → total ≤ a * (slice_index_or entries.now result d).key + beside }
{
    let mut place = from;
    let mut step: usize = 1;
    while step > 0 {
        if step <= entries.len() - place && is_low(entries, place + step - 1, a, beside, total) {
            place += step;
            step *= 2;
        } else {
            step /= 2;
        }
    }
    place
}

/// The first entry from a place on with which a times its key reaches the total. Mostly it is one of the first two, which are looked at where this is
/// called.
#[inline(always)]
pub fn risen(entries: &[Entry], from: usize, a: u32, beside: u128, total: u128) -> usize
    requires order { AreInOrder entries.now }
    requires from { from ≤ length entries.now }
    requires a { a ≤ 2 ^ 24 }
    requires beside { beside < 2 ^ 125 }
    ensures from { from ≤ result }
    ensures within { result ≤ length entries.now }
    ensures below { (k : ℕ) (d : Entry) → from ≤ k → k < result → a * (slice_index_or entries.now k d).key + beside < total }
    ensures reached { (d : Entry) → result < length entries.now → total ≤ a * (slice_index_or entries.now result d).key + beside }
{
    if !is_low(entries, from, a, beside, total) {
        return from;
    }
    if !is_low(entries, from + 1, a, beside, total) {
        return from + 1;
    }
    risen_far(entries, from + 2, a, beside, total)
}

/// How many of the first entries are left where b times each key at the end is too great beside this. Steps double, and halve where they would go too
/// far.
#[inline(never)]
fn fallen_far(entries: &[Entry], upto: usize, b: u32, beside: u128, total: u128) -> usize
    requires order { AreInOrder entries.now }
    requires upto { upto ≤ length entries.now }
    requires b { b ≤ 2 ^ 24 }
    requires beside { beside < 2 ^ 125 }
    ensures within { result ≤ upto }
    ensures above { (k : ℕ) (d : Entry) → result ≤ k → k < upto → total < b * (slice_index_or entries.now k d).key + beside }
{
    let mut count = upto;
    let mut step: usize = 1;
    while step > 0 {
        if step <= count && total < times(b, entries[count - step].key) + beside {
            count -= step;
            step *= 2;
        } else {
            step /= 2;
        }
    }
    count
}

/// How many entries are left when those at the end are gone with which b times the key is past the total. Mostly all are, as the last one, which is
/// looked at where this is called, is not too great.
#[inline(always)]
pub fn fallen(entries: &[Entry], upto: usize, b: u32, beside: u128, total: u128) -> usize
    requires order { AreInOrder entries.now }
    requires upto { upto ≤ length entries.now }
    requires b { b ≤ 2 ^ 24 }
    requires beside { beside < 2 ^ 125 }
    ensures within { result ≤ upto }
    ensures above { (k : ℕ) (d : Entry) → result ≤ k → k < upto → total < b * (slice_index_or entries.now k d).key + beside }
{
    if 0 < upto && total < times(b, entries[upto - 1].key) + beside {
        fallen_far(entries, upto - 1, b, beside, total)
    } else {
        upto
    }
}

/// How many second ones are left after two that came to the total: not the last one, where the next first one has a greater key.
pub fn left_after(firsts: &[Entry], a: u32, at: usize, upto: usize) -> usize
    requires sorted { IsNonDecreasingBy (λ (e : Entry). e.key) firsts.now }
    requires at { at < length firsts.now }
    requires some { 0 < upto }
    ensures within { result ≤ upto }
    ensures all { upto ≤ result + 1 }
    ensures passed { (k : ℕ) (d : Entry) → result < upto → at < k → k < length firsts.now
        → a * (slice_index_or firsts.now at d).key < a * (slice_index_or firsts.now k d).key }
{
    let next = at + 1;
    if a > 0 && next < firsts.len() && firsts[at].key < firsts[next].key {
        upto - 1
    } else {
        upto
    }
}

/// Whether no entry before the last one of the first entries has its key.
fn is_alone(entries: &[Entry], count: usize) -> bool
    requires sorted { IsNonDecreasingBy (λ (e : Entry). e.key) entries.now }
    requires count { count ≤ length entries.now }
    requires some { 0 < count }
    ensures { (k : ℕ) (d : Entry) → IsTrue result → k < count - 1 → (slice_index_or entries.now k d).key < (slice_index_or entries.now (count - 1) d).key }
{
    count < 2 || entries[count - 2].key < entries[count - 1].key
}

/// Whether the constants of two entries serve, the first one a times and the second one b times.
fn is_enough(pass: &Pass<'_>, one: &Entry, a: u32, other: &Entry, b: u32) -> bool
    requires a { a ≤ 2 ^ 24 }
    requires b { b ≤ 2 ^ 24 }
    requires one { unsigned_abs one.now.constant < 2 ^ 100 }
    requires other { unsigned_abs other.now.constant < 2 ^ 100 }
    ensures { IsTrue result ↔ (((pos a *ℤ one.now.constant) +ℤ (pos b *ℤ other.now.constant)) ≤ℤ pass.now.most) }
{
    is_at_most(a, one.constant, b, other.constant, pass.most)
}

/// Whether the next first one has a greater key, and the second one before this a lesser one.
fn is_single(pass: &Pass<'_>, first: usize, count: usize) -> bool
    requires first { first + 1 < length pass.now.firsts.now }
    requires some { 1 < count }
    requires count { count ≤ length pass.now.seconds.now }
    ensures first { (d : Entry) → IsTrue result → (slice_index_or pass.now.firsts.now first d).key < (slice_index_or pass.now.firsts.now (first + 1) d).key }
    ensures second { (d : Entry) → IsTrue result → (slice_index_or pass.now.seconds.now (count - 2) d).key < (slice_index_or pass.now.seconds.now (count - 1) d).key }
{
    pass.firsts[first].key < pass.firsts[first + 1].key
        && pass.seconds[count - 2].key < pass.seconds[count - 1].key
}

/// What `skipped` answers where a factor that both have is left out: no key is multiplied. Here a search of many facts stays longest.
fn skipped_alike(pass: &Pass<'_>, at: usize, upto: usize) -> (usize, usize)
    requires firsts { AreInOrder pass.now.firsts.now }
    requires seconds { AreInOrder pass.now.seconds.now }
    requires first { pass.now.sought.first ≡ 1 }
    requires second { pass.now.sought.second ≡ 1 }
    requires same { pass.now.a ≡ pass.now.b }
    requires a { pass.now.a ≤ 2 ^ 24 }
    requires b { pass.now.b ≤ 2 ^ 24 }
    requires at { at ≤ length pass.now.firsts.now }
    requires upto { upto ≤ length pass.now.seconds.now }
    ensures at { at ≤ result.0 }
    ensures inside { result.0 ≤ length pass.now.firsts.now }
    ensures within { result.1 ≤ upto }
    ensures passed { (i k : ℕ) → at ≤ i → i < length pass.now.firsts.now → k < upto
        → Meet pass.now.firsts.now pass.now.seconds.now pass.now.sought.first pass.now.sought.second pass.now.sought.total i k
        → Serve pass.now.firsts.now pass.now.seconds.now pass.now.a pass.now.b pass.now.most i k → (result.0 ≤ i) × (k < result.1) }
{
    let total = pass.sought.total;
    let mut first = at;
    let mut count = upto;
    while first + 1 < pass.firsts.len() && 1 < count {
        let one = &pass.firsts[first];
        let other = &pass.seconds[count - 1];
        if one.key + other.key != total {
            return (first, count);
        }
        if is_enough(pass, one, pass.a, other, pass.a) {
            return (first, count);
        }
        if !is_single(pass, first, count) {
            return (first, count);
        }
        first += 1;
        count -= 1;
    }
    (first, count)
}

/// What is left where the next two, again and again, come to the total and do not serve. With factors that differ that hardly happens.
fn skipped(pass: &Pass<'_>, at: usize, upto: usize) -> (usize, usize)
    requires firsts { AreInOrder pass.now.firsts.now }
    requires seconds { AreInOrder pass.now.seconds.now }
    requires first { pass.now.sought.first ≤ 2 ^ 24 }
    requires second { pass.now.sought.second ≤ 2 ^ 24 }
    requires some { 0 < pass.now.sought.second }
    requires a { pass.now.a ≤ 2 ^ 24 }
    requires b { pass.now.b ≤ 2 ^ 24 }
    requires at { at ≤ length pass.now.firsts.now }
    requires upto { upto ≤ length pass.now.seconds.now }
    ensures at { at ≤ result.0 }
    ensures inside { result.0 ≤ length pass.now.firsts.now }
    ensures within { result.1 ≤ upto }
    ensures passed { (i k : ℕ) → at ≤ i → i < length pass.now.firsts.now → k < upto
        → Meet pass.now.firsts.now pass.now.seconds.now pass.now.sought.first pass.now.sought.second pass.now.sought.total i k
        → Serve pass.now.firsts.now pass.now.seconds.now pass.now.a pass.now.b pass.now.most i k → (result.0 ≤ i) × (k < result.1) }
{
    let Sought { first, second, .. } = pass.sought;
    if pass.a == pass.b && first == 1 && second == 1 {
        skipped_alike(pass, at, upto)
    } else {
        (at, upto)
    }
}

/// The next two, the first one from a place on and the second one before another, whose keys come to the total, and whose constants serve, or which are
/// not alone of their key.
pub fn next_two(pass: &Pass<'_>, at: usize, upto: usize) -> (usize, usize)
    requires firsts { AreInOrder pass.now.firsts.now }
    requires seconds { AreInOrder pass.now.seconds.now }
    requires first { pass.now.sought.first ≤ 2 ^ 24 }
    requires second { pass.now.sought.second ≤ 2 ^ 24 }
    requires some { 0 < pass.now.sought.second }
    requires a { pass.now.a ≤ 2 ^ 24 }
    requires b { pass.now.b ≤ 2 ^ 24 }
    requires at { at ≤ length pass.now.firsts.now }
    requires upto { upto ≤ length pass.now.seconds.now }
    ensures at { at ≤ result.0 }
    ensures within { result.1 ≤ upto }
    ensures met { result.0 < length pass.now.firsts.now → 0 < result.1
        → Meet pass.now.firsts.now pass.now.seconds.now pass.now.sought.first pass.now.sought.second pass.now.sought.total result.0 (result.1 - 1) }
    ensures passed { (i k : ℕ) → at ≤ i → i < length pass.now.firsts.now → k < upto
        → Meet pass.now.firsts.now pass.now.seconds.now pass.now.sought.first pass.now.sought.second pass.now.sought.total i k
        → Serve pass.now.firsts.now pass.now.seconds.now pass.now.a pass.now.b pass.now.most i k → (result.0 ≤ i) × (k < result.1) }
{
    let Sought {
        first: a,
        second: b,
        total,
    } = pass.sought;
    let mut first = at;
    let mut count = upto;
    // What the loop preserves is answered by lemmas: the search for it took the prover 11 s, and they take 3.
    while first < pass.firsts.len() && 0 < count {
        let other = &pass.seconds[count - 1];
        let of_second = times(b, other.key);
        first = risen(pass.firsts, first, a, of_second, total);
        if first >= pass.firsts.len() {
            return (first, count);
        }
        let one = &pass.firsts[first];
        let of_first = times(a, one.key);
        if total < of_first + of_second {
            count = fallen(pass.seconds, count - 1, b, of_first, total);
        } else if is_enough(pass, one, pass.a, other, pass.b) {
            return (first, count);
        } else if !is_alone(pass.seconds, count) {
            return (first, count);
        } else {
            count = left_after(pass.firsts, a, first, count);
            (first, count) = skipped(pass, first + 1, count);
        }
    }
    (first, count)
}
