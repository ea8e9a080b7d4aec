//! The search for what shows a form, by an index: two factors, and then both facts along the lists of the index.

ghost use Rattle.std.specs.Prelude.{◌≡◌, ◌<◌, ◌≤◌, ◌+◌, ◌-◌, ◌*◌, ◌^◌, ◌↔◌, ◌++◌, ℕ, suc, false, All, Contains, IsTrue, IfSome, length};
ghost use Rattle.std.specs.Prelude.{slice_index, slice_index_or};
ghost use Rattle.linear.specs.Forms.{AreSmall};
ghost use Rattle.linear_shown.specs.Search.{factors};
ghost use Rattle.linear_shown.specs.Index.{place_at, IsKeyOf, IsEntry, AreEntries, AreLayers, IsMadeUp, IsMadeUpWith, IsMadeUpBetween, IsMadeUpByB, AreNotB, Balance};
ghost use Rattle.linear_shown.specs.Shown.{IsSum, IsShown};
ghost use Rattle.linear_shown.specs.declared.index.Entry.{Entry};

use crate::hint::{Hint, Pair, comes_to, hint_of, lower_half, remember, remember_pair};
use crate::index::{Entry, Layers, no_fact, side_of_place};
use crate::meeting::{Pass, left_after, next_two, sought_of, total_of};
use crate::show::{agree, factor, is_at_most};
use crate::weight::bound_key;
use linear::{Fact, Form, Term, side_of};

/// A form with its key, and the facts with their index.
#[derive(Clone, Copy)]
pub struct Search<'a> {
    pub facts: &'a [Fact],
    pub layers: Layers<'a>,
    pub form: &'a Form,
    pub key: u128,
}

/// Whether the form is a times what stands at one place and b times what stands at another, and a constant that is not below 0.
fn is_sum_at(search: &Search<'_>, first: usize, a: u32, second: usize, b: u32) -> bool
    requires first { first ≤ length search.now.facts.now }
    requires second { second ≤ length search.now.facts.now }
    requires a { a ≤ 2 ^ 24 }
    requires b { b ≤ 2 ^ 24 }
    ensures { IsTrue result ↔ IsSum search.now.form.now a (place_at search.now.facts.now first) b (place_at search.now.facts.now second) }
{
    let e = side_of(search.form);
    let f = side_of_place(search.facts, first);
    let g = side_of_place(search.facts, second);
    if !is_at_most(a, f.constant, b, g.constant, e.constant) {
        return false;
    }
    agree(e.terms, a, f.terms, b, g.terms)
}

/// Whether the form is such a sum of two entries, whose constants are looked at first.
fn is_sum(search: &Search<'_>, first: Entry, a: u32, second: Entry, b: u32) -> bool
    requires first { IsEntry search.now.facts.now first }
    requires second { IsEntry search.now.facts.now second }
    requires a { a ≤ 2 ^ 24 }
    requires b { b ≤ 2 ^ 24 }
    ensures { IsTrue result
        ↔ IsSum search.now.form.now a (place_at search.now.facts.now first.place) b (place_at search.now.facts.now second.place) }
{
    if !is_at_most(
        a,
        first.constant,
        b,
        second.constant,
        side_of(search.form).constant,
    ) {
        return false;
    }
    is_sum_at(search, first.place, a, second.place, b)
}

/// Remembers two facts that make the form up.
fn remember_two(search: &Search<'_>, first: Entry, a: u32, second: Entry, b: u32) {
    remember(
        search.layers.hints,
        Hint {
            key: search.key,
            first: first.place,
            a,
            second: second.place,
            b,
        },
    );
    remember_pair(
        search.layers.pairs,
        Pair {
            first: first.place,
            first_key: lower_half(first.key),
            second: second.place,
            second_key: lower_half(second.key),
        },
    );
}

/// Whether the first entry makes the form up with one of those of the second list whose key is that of the last before a place, and which stand before
/// it, too.
fn is_made_up(search: &Search<'_>, pass: &Pass<'_>, first: usize, upto: usize) -> bool
    requires firsts { AreEntries search.now.facts.now pass.now.firsts.now }
    requires seconds { AreEntries search.now.facts.now pass.now.seconds.now }
    requires first { first < length pass.now.firsts.now }
    requires some { 0 < upto }
    requires upto { upto ≤ length pass.now.seconds.now }
    requires a { pass.now.a ≤ 2 ^ 24 }
    requires b { pass.now.b ≤ 2 ^ 24 }
    ensures made { IsTrue result → IsMadeUpBetween search.now.facts.now search.now.form.now pass.now.firsts.now pass.now.seconds.now pass.now.a pass.now.b }
    ensures none { (d : Entry) (k : ℕ) → result ≡ false → k < upto
        → (slice_index_or pass.now.seconds.now k d).key ≡ (slice_index_or pass.now.seconds.now (upto - 1) d).key
        → IsSum search.now.form.now pass.now.a (place_at search.now.facts.now (slice_index_or pass.now.firsts.now first d).place)
        pass.now.b (place_at search.now.facts.now (slice_index_or pass.now.seconds.now k d).place) → ⊥ }
{
    let fact = pass.firsts[first];
    let last = pass.seconds[upto - 1];
    if is_sum(search, fact, pass.a, last, pass.b) {
        remember_two(search, fact, pass.a, last, pass.b);
        return true;
    }
    let mut count = upto - 1;
    while count > 0 {
        let second = pass.seconds[count - 1];
        if second.key != last.key {
            return false;
        }
        if is_sum(search, fact, pass.a, second, pass.b) {
            remember_two(search, fact, pass.a, second, pass.b);
            return true;
        }
        count -= 1;
    }
    false
}

/// Whether an entry of the first list and one of the second make the form up. As the key of the first one rises, that of the second one falls.
fn made_up_along(search: &Search<'_>, pass: &Pass<'_>) -> bool
    requires firsts { AreEntries search.now.facts.now pass.now.firsts.now }
    requires seconds { AreEntries search.now.facts.now pass.now.seconds.now }
    requires key { IsKeyOf search.now.form.now.terms search.now.key }
    requires a { pass.now.a ≤ 2 ^ 24 }
    requires b { pass.now.b ≤ 2 ^ 24 }
    requires most { pass.now.most ≡ search.now.form.now.constant }
    requires first { pass.now.sought.first ≤ 2 ^ 24 }
    requires second { pass.now.sought.second ≤ 2 ^ 24 }
    requires some { 0 < pass.now.sought.second }
    requires total { (x y : ℕ) → Balance search.now.key pass.now.a pass.now.b x y → pass.now.sought.first * x + pass.now.sought.second * y ≡ pass.now.sought.total }
    ensures { IsTrue result ↔ IsMadeUpBetween search.now.facts.now search.now.form.now pass.now.firsts.now pass.now.seconds.now pass.now.a pass.now.b }
{
    let mut at = 0;
    let mut upto = pass.seconds.len();
    while at < pass.firsts.len() && 0 < upto {
        let (first, count) = next_two(pass, at, upto);
        search.layers.effort.spend_between(at, first);
        search.layers.effort.spend_between(count, upto);
        if pass.firsts.len() <= first || count == 0 {
            return false;
        }
        if is_made_up(search, pass, first, count) {
            return true;
        }
        upto = left_after(pass.firsts, pass.sought.first, first, count);
        at = first + 1;
    }
    false
}

/// Whether a times a fact of one list and b times one of another make the form up.
fn made_up_between(search: &Search<'_>, firsts: &[Entry], seconds: &[Entry], a: u32, b: u32) -> bool
    requires firsts { AreEntries search.now.facts.now firsts.now }
    requires seconds { AreEntries search.now.facts.now seconds.now }
    requires key { IsKeyOf search.now.form.now.terms search.now.key }
    requires a { a ≤ 2 ^ 24 }
    requires b { b ≤ 2 ^ 24 }
    requires some { 0 < b }
    ensures { IsTrue result ↔ IsMadeUpBetween search.now.facts.now search.now.form.now firsts.now seconds.now a b }
{
    if firsts.is_empty() || seconds.is_empty() {
        return false;
    }
    match sought_of(search.key, a, b) {
        Some(sought) => made_up_along(
            search,
            &Pass {
                firsts,
                seconds,
                sought,
                a,
                b,
                most: side_of(search.form).constant,
            },
        ),
        None => false,
    }
}

/// Whether two facts of a list, each a times, make the form up. The key of one of them is no greater than half of what both come to.
fn made_up_twice(search: &Search<'_>, entries: &[Entry], a: u32) -> bool
    requires entries { AreEntries search.now.facts.now entries.now }
    requires key { IsKeyOf search.now.form.now.terms search.now.key }
    requires a { a ≤ 2 ^ 24 }
    requires some { 0 < a }
    ensures { IsTrue result ↔ IsMadeUpBetween search.now.facts.now search.now.form.now entries.now entries.now a a }
{
    let middle = total_of(search.key, a, a) / (u128::from(a) * 2);
    let upto = entries.partition_point(|entry| entry.key <= middle);
    let from = entries.partition_point(|entry| entry.key < middle);
    made_up_between(search, &entries[..upto], &entries[from..], a, a)
}

/// Whether a times a fact of a list and b times another one of it make the form up.
fn made_up_within(search: &Search<'_>, entries: &[Entry], a: u32, b: u32) -> bool
    requires entries { AreEntries search.now.facts.now entries.now }
    requires key { IsKeyOf search.now.form.now.terms search.now.key }
    requires a { a ≤ 2 ^ 24 }
    requires b { b ≤ 2 ^ 24 }
    requires some { 0 < b }
    ensures { IsTrue result ↔ IsMadeUpBetween search.now.facts.now search.now.form.now entries.now entries.now a b }
{
    if a == b {
        made_up_twice(search, entries, b)
    } else {
        made_up_between(search, entries, entries, a, b)
    }
}

/// Whether a times a fact and b times another one make the form up. One of each list does so in either order where the factors are the same.
fn made_up_with(search: &Search<'_>, a: u32, b: u32) -> bool
    requires index { AreLayers search.now.facts.now (suc (length search.now.facts.now)) search.now.layers.settled.now search.now.layers.recent.now }
    requires key { IsKeyOf search.now.form.now.terms search.now.key }
    requires a { a ≤ 2 ^ 24 }
    requires b { b ≤ 2 ^ 24 }
    requires some { 0 < b }
    ensures { IsTrue result ↔ IsMadeUpWith search.now.facts.now search.now.form.now (search.now.layers.settled.now ++ search.now.layers.recent.now) a b }
{
    let Layers {
        settled,
        recent,
        ..
    } = search.layers;
    if made_up_within(search, settled, a, b) {
        return true;
    }
    if made_up_within(search, recent, a, b) {
        return true;
    }
    if made_up_between(search, settled, recent, a, b) {
        return true;
    }
    if a == b {
        return false;
    }
    made_up_between(search, recent, settled, a, b)
}

/// The key of a fact of which b times makes up a form of this key; none where no key is that.
fn wanted(key: u128, b: u32) -> Option<u128>
    requires key { key < 2 ^ 101 }
    requires b { b ≤ 2 ^ 24 }
    requires some { 0 < b }
    ensures some { IfSome result (λ wanted. b * wanted + 2 ^ 100 ≡ b * 2 ^ 100 + key) }
{
    let whole = u128::from(b - 1) * 1_267_650_600_228_229_401_496_703_205_376 + key;
    let quotient = whole / u128::from(b);
    if u128::from(b) * quotient == whole {
        Some(quotient)
    } else {
        None
    }
}

/// Whether b times one of the entries of this key makes the form up.
fn is_made_up_in(search: &Search<'_>, entries: &[Entry], key: u128, b: u32) -> bool
    requires entries { AreEntries search.now.facts.now entries.now }
    requires b { b ≤ 2 ^ 24 }
    ensures { IsTrue result → IsMadeUp search.now.facts.now search.now.form.now (place_at search.now.facts.now 0) 1 b }
{
    let from = entries.partition_point(|e| e.key < key);
    for k in from..entries.len() {
        let entry = entries[k];
        if entry.key != key {
            return false;
        }
        if is_sum(search, no_fact(search.facts), 1, entry, b) {
            return true;
        }
    }
    false
}

/// Whether b times a fact makes the form up.
fn is_made_up_alone(search: &Search<'_>, b: u32) -> bool
    requires index { AreLayers search.now.facts.now (suc (length search.now.facts.now)) search.now.layers.settled.now search.now.layers.recent.now }
    requires key { IsKeyOf search.now.form.now.terms search.now.key }
    requires b { b ≤ 2 ^ 24 }
    ensures { IsTrue result → IsMadeUp search.now.facts.now search.now.form.now (place_at search.now.facts.now 0) 1 b }
{
    if b == 0 {
        return false;
    }
    match wanted(search.key, b) {
        Some(key) => {
            is_made_up_in(search, search.layers.settled, key, b)
                || is_made_up_in(search, search.layers.recent, key, b)
        }
        None => false,
    }
}

/// Whether one fact makes the form up.
pub fn made_up_alone(search: &Search<'_>) -> bool
    requires index { AreLayers search.now.facts.now (suc (length search.now.facts.now)) search.now.layers.settled.now search.now.layers.recent.now }
    requires key { IsKeyOf search.now.form.now.terms search.now.key }
    ensures { IsTrue result → IsShown search.now.facts.now search.now.form.now }
{
    let terms = side_of(search.form).terms;
    let count = terms.len() + 1;
    for index in 0..count {
        if is_made_up_alone(search, factor(terms, index)) {
            return true;
        }
    }
    false
}

/// Whether the factor stands at an earlier place, too.
fn is_repeated(terms: &[Term], index: usize) -> bool
    requires index { index ≤ length terms.now }
    requires small { AreSmall terms.now }
    ensures { IsTrue result → (k : ℕ) × (k < index) × (slice_index (factors terms.now) k ≡ slice_index (factors terms.now) index) }
{
    let own = factor(terms, index);
    for k in 0..index {
        if factor(terms, k) == own {
            return true;
        }
    }
    false
}

/// Whether the facts make the form up with this first factor, where none of the second factors before a place does so. A second factor 0, which a
/// register that cancels has, is passed over: the fact would count for nothing, as the absent one does with the factor 1.
fn made_up_by_b(search: &Search<'_>, a: u32, from: usize) -> bool
    requires index { AreLayers search.now.facts.now (suc (length search.now.facts.now)) search.now.layers.settled.now search.now.layers.recent.now }
    requires key { IsKeyOf search.now.form.now.terms search.now.key }
    requires a { a ≤ 2 ^ 24 }
    requires from { AreNotB search.now.facts.now search.now.form.now (search.now.layers.settled.now ++ search.now.layers.recent.now) a from }
    ensures { IsTrue result ↔ IsMadeUpByB search.now.facts.now search.now.form.now (search.now.layers.settled.now ++ search.now.layers.recent.now) a }
{
    let terms = side_of(search.form).terms;
    let count = terms.len() + 1;
    for index in from..count {
        let b = factor(terms, index);
        if b == 0 {
            continue;
        }
        if is_repeated(terms, index) {
            continue;
        }
        if made_up_with(search, a, b) {
            return true;
        }
    }
    false
}

/// Whether a number is one of the factors.
fn is_factor(terms: &[Term], number: u32) -> bool
    requires { AreSmall terms.now }
    ensures found { IsTrue result → Contains (factors terms.now) number }
    ensures small { IsTrue result → number ≤ 2 ^ 24 }
{
    let count = terms.len() + 1;
    for index in 0..count {
        if factor(terms, index) == number {
            return true;
        }
    }
    false
}

/// Whether two facts that are remembered make the form up.
pub fn made_up_by_hint(search: &Search<'_>) -> bool
    ensures { IsTrue result → IsShown search.now.facts.now search.now.form.now }
{
    match hint_of(search.layers.hints, search.key) {
        Some(hint) => made_up_by(search, hint),
        None => false,
    }
}

/// Whether the two facts of a hint are there, and make the form up, with factors that are the form's.
fn made_up_by(search: &Search<'_>, hint: Hint) -> bool
    ensures { IsTrue result → IsShown search.now.facts.now search.now.form.now }
{
    if hint.first > search.facts.len() {
        return false;
    }
    if hint.second > search.facts.len() {
        return false;
    }
    let terms = side_of(search.form).terms;
    if !is_factor(terms, hint.a) {
        return false;
    }
    if !is_factor(terms, hint.b) {
        return false;
    }
    is_sum_at(search, hint.first, hint.a, hint.second, hint.b)
}

/// Whether two facts that served lately make the form up with these factors. Those that do stand before the others then.
fn made_up_by_pair(search: &Search<'_>, a: u32, b: u32) -> bool
    ensures { IsTrue result → IsShown search.now.facts.now search.now.form.now }
{
    let key = lower_half(search.key);
    let pairs = search.layers.pairs;
    for k in 0..pairs.len() {
        let Some(pair) = pairs[k].get() else {
            return false;
        };
        if !comes_to(pair, a, b, key) {
            continue;
        }
        let hint = Hint {
            key: search.key,
            first: pair.first,
            a,
            second: pair.second,
            b,
        };
        if made_up_by(search, hint) {
            remember_pair(&pairs[..k + 1], pair);
            return true;
        }
    }
    false
}

/// Whether two facts that served lately make the form up with this first factor. With a second one that is 0 the first fact would do so alone.
fn made_up_by_pairs_with(search: &Search<'_>, a: u32) -> bool
    ensures { IsTrue result → IsShown search.now.facts.now search.now.form.now }
{
    let terms = side_of(search.form).terms;
    let count = terms.len() + 1;
    for index in 0..count {
        let b = factor(terms, index);
        if b == 0 || is_repeated(terms, index) {
            continue;
        }
        if made_up_by_pair(search, a, b) {
            return true;
        }
    }
    false
}

/// Whether two facts that served lately make the form up, with each two factors in both orders.
pub fn made_up_by_pairs(search: &Search<'_>) -> bool
    ensures { IsTrue result → IsShown search.now.facts.now search.now.form.now }
{
    if search.layers.pairs.is_empty() {
        return false;
    }
    let terms = side_of(search.form).terms;
    let count = terms.len() + 1;
    for index in 0..count {
        let a = factor(terms, index);
        if a == 0 || is_repeated(terms, index) {
            continue;
        }
        if made_up_by_pairs_with(search, a) {
            return true;
        }
    }
    false
}

/// The first entry of this key, or that of an absent fact.
fn entry_of_key(search: &Search<'_>, entries: &[Entry], key: u128) -> Entry
    requires entries { AreEntries search.now.facts.now entries.now }
    ensures { IsEntry search.now.facts.now result }
{
    let from = entries.partition_point(|e| e.key < key);
    match entries.get(from) {
        Some(entry) if entry.key == key => *entry,
        Some(_) | None => no_fact(search.facts),
    }
}

/// A fact that bounds the register of a term alone, the stronger one of two, or an absent one.
fn bound_of(search: &Search<'_>, term: &Term) -> Entry
    requires index { AreLayers search.now.facts.now (suc (length search.now.facts.now)) search.now.layers.settled.now search.now.layers.recent.now }
    ensures { IsEntry search.now.facts.now result }
{
    let key = bound_key(term);
    let settled = entry_of_key(search, search.layers.settled, key);
    let recent = entry_of_key(search, search.layers.recent, key);
    if recent.place == 0 || (settled.place > 0 && settled.constant < recent.constant) {
        settled
    } else {
        recent
    }
}

/// Whether the form has two terms, and for each of their registers a fact that bounds it alone makes the form up: they show most such forms.
pub fn made_up_by_bounds(search: &Search<'_>) -> bool
    requires index { AreLayers search.now.facts.now (suc (length search.now.facts.now)) search.now.layers.settled.now search.now.layers.recent.now }
    ensures { IsTrue result → IsShown search.now.facts.now search.now.form.now }
{
    let terms = side_of(search.form).terms;
    if terms.len() != 2 {
        return false;
    }
    let first = bound_of(search, &terms[0]);
    let second = bound_of(search, &terms[1]);
    is_sum(search, first, factor(terms, 1), second, factor(terms, 2))
}

/// Whether the facts make the form up. Two factors make it up in either order, or in none: each pair is tried once.
pub fn made_up(search: &Search<'_>) -> bool
    requires index { AreLayers search.now.facts.now (suc (length search.now.facts.now)) search.now.layers.settled.now search.now.layers.recent.now }
    requires key { IsKeyOf search.now.form.now.terms search.now.key }
    ensures { IsTrue result ↔ IsShown search.now.facts.now search.now.form.now }
{
    let terms = side_of(search.form).terms;
    let count = terms.len() + 1;
    for index in 0..count {
        if is_repeated(terms, index) {
            continue;
        }
        if made_up_by_b(search, factor(terms, index), index) {
            return true;
        }
    }
    false
}
