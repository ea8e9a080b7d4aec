//! Facts by the values of their terms, so that one is looked up (index for search). Of facts with the same coefficients
//! the strongest alone decides.

ghost use Rattle.std.specs.Prelude.{◌≡◌, ◌<◌, ◌≤◌, ◌+◌, ◌*◌, ◌^◌, ◌↔◌, ◌++◌, [], ℕ, suc, All, Contains, IsTrue, IfSome, IfNone, IfOk, OnOk, length};
ghost use Rattle.std.specs.Prelude.{unsigned_abs, ◌≤ℤ◌, false, true, slice_index_or};
ghost use Rattle.std.specs.List.Sorted.{IsNonDecreasingBy};
ghost use Rattle.linear.specs.Forms.{AreSmall, IsRising};
ghost use Rattle.linear.specs.Terms.{coefficient_of};
ghost use Rattle.linear_shown.specs.Index.{place_at, IsKeyOf, IsEntry, IsBegun, IsContradiction, AreEntries, AreLayers, IsJoined};
ghost use Rattle.linear_shown.specs.declared.index.Entry.{Entry};

use crate::effort::Effort;
use crate::hint::{Hint, Pair, make_hints, make_pairs};
use crate::merge::{enter_many, merge_into};
use crate::show::{agree, is_at_most};
use crate::weight::key_of;
use linear::{Fact, Side, side_of};
use std::alloc::{AllocError, Global};
use std::cell::Cell;
use std::mem;

/// Up to so many facts are tried two by two, without an index.
pub const FEW: usize = 4;

/// So many facts and more are entered at once: the entries are copied then, and not moved anew for each.
const MANY: usize = 8;

/// So many entries, and one for each sixteen that have settled, may be recent.
const LATE: usize = 64;

/// A fact by its place: 0 stands for an absent one, 1 for the first. Its constant stands here, too, so that most facts that do not serve are passed
/// over without a look at them.
#[derive(Clone, Copy)]
pub struct Entry {
    pub key: u128,
    pub constant: i128,
    pub place: usize,
}

/// Entries in two lists, lent with what is remembered of earlier questions, and the effort that is granted to the next ones.
#[derive(Clone, Copy)]
pub struct Layers<'a> {
    pub settled: &'a [Entry],
    pub recent: &'a [Entry],
    pub hints: &'a [Cell<Hint>],
    pub pairs: &'a [Cell<Option<Pair>>],
    pub effort: &'a Effort,
}

/// What stands at a place.
pub fn side_of_place(facts: &[Fact], place: usize) -> Side<'_>
    requires { place ≤ length facts.now }
    ensures terms { result.terms.now ≡ (place_at facts.now place).terms }
    ensures constant { result.constant ≡ (place_at facts.now place).constant }
    ensures rising { IsRising result.terms.now }
    ensures small { AreSmall result.terms.now }
    ensures small_constant { unsigned_abs result.constant < 2 ^ 100 }
{
    if place == 0 {
        return Side {
            terms: &[],
            constant: 0,
        };
    }
    side_of(&facts[place - 1].form)
}

/// The entry of what stands at a place; none where its value is past the range of keys.
pub fn entry_at(facts: &[Fact], place: usize) -> Option<Entry>
    requires { place ≤ length facts.now }
    ensures entry { IfSome result (IsEntry facts.now) }
    ensures place { IfSome result (λ entry. entry.place ≡ place) }
{
    let side = side_of_place(facts, place);
    match key_of(side.terms) {
        Some(key) => Some(Entry {
            key,
            constant: side.constant,
            place,
        }),
        None => None,
    }
}

/// The entry of an absent fact.
pub fn no_fact(facts: &[Fact]) -> Entry
    ensures entry { IsEntry facts.now result }
    ensures place { result.place ≡ 0 }
{
    Entry {
        key: 1_267_650_600_228_229_401_496_703_205_376,
        constant: 0,
        place: 0,
    }
}

/// Whether two places have the same coefficients.
fn has_same_terms(facts: &[Fact], one: usize, other: usize) -> bool
    requires one { one ≤ length facts.now }
    requires other { other ≤ length facts.now }
    ensures { IsTrue result ↔ ((r : ℕ) → coefficient_of (place_at facts.now one).terms r ≡ coefficient_of (place_at facts.now other).terms r) }
{
    let one = side_of_place(facts, one);
    let other = side_of_place(facts, other);
    agree(one.terms, 1, other.terms, 0, &[])
}

/// Where, from a place of the entries on, one of the same key has the coefficients of another.
fn found_same(facts: &[Fact], entries: &[Entry], from: usize, entry: Entry) -> Option<usize>
    requires entry { IsEntry facts.now entry }
    requires entries { All (IsEntry facts.now) entries.now }
    ensures within { IfSome result (λ k. k < length entries.now) }
    ensures same { IfSome result (λ k. (d : Entry)
        → ((slice_index_or entries.now k d).key ≡ entry.key)
        × ((r : ℕ) → coefficient_of (place_at facts.now (slice_index_or entries.now k d).place).terms r
        ≡ coefficient_of (place_at facts.now entry.place).terms r)) }
{
    for k in from..entries.len() {
        let other = entries[k];
        if other.key != entry.key {
            return None;
        }
        if has_same_terms(facts, other.place, entry.place) {
            return Some(k);
        }
    }
    None
}

/// Whether what stands at one place says more than what stands at another.
fn is_below(facts: &[Fact], one: usize, other: usize) -> bool
    requires one { one ≤ length facts.now }
    requires other { other ≤ length facts.now }
    ensures less { IsTrue result → (place_at facts.now one).constant ≤ℤ (place_at facts.now other).constant }
    ensures more { result ≡ false → (place_at facts.now other).constant ≤ℤ (place_at facts.now one).constant }
{
    side_of_place(facts, one).constant < side_of_place(facts, other).constant
}

/// Adds an entry, unless one with the same coefficients is as strong; a weaker one gives way.
pub fn enter(facts: &[Fact], entries: &mut Vec<Entry>, entry: Entry) -> Result<(), AllocError>
    requires entry { IsEntry facts.now entry }
    requires entries { AreEntries facts.now entries.old.items }
    ensures { OnOk result (IsJoined facts.now entries.old.items entries.new.items entry) }
{
    let from = entries.partition_point(|other| other.key < entry.key);
    match found_same(facts, entries.as_slice(), from, entry) {
        Some(k) => {
            if is_below(facts, entry.place, entries[k].place) {
                entries[k] = entry;
            }
        }
        None => entries.insert(from, entry)?,
    }
    Ok(())
}

/// Whether two places contradict each other: their terms cancel, and their constants come to less than 0.
fn is_contradiction(facts: &[Fact], one: usize, other: usize) -> bool
    requires one { one ≤ length facts.now }
    requires other { other ≤ length facts.now }
    ensures { IsTrue result ↔ IsContradiction (place_at facts.now one) (place_at facts.now other) }
{
    let f = side_of_place(facts, one);
    let g = side_of_place(facts, other);
    is_at_most(1, f.constant, 1, g.constant, -1) && agree(&[], 1, f.terms, 1, g.terms)
}

/// Whether one of the entries from a place on that have this key contradicts what stands at a place.
fn contradicted_from(
    facts: &[Fact],
    entries: &[Entry],
    from: usize,
    key: u128,
    place: usize,
) -> bool
    requires place { place ≤ length facts.now }
    requires own { All (IsEntry facts.now) entries.now }
    requires sorted { IsNonDecreasingBy (λ (e : Entry). e.key) entries.now }
    requires above { (k : ℕ) (d : Entry) → from ≤ k → k < length entries.now → key ≤ (slice_index_or entries.now k d).key }
    ensures { (k : ℕ) (d : Entry) → result ≡ false → from ≤ k → k < length entries.now → (slice_index_or entries.now k d).key ≡ key
        → IsContradiction (place_at facts.now place) (place_at facts.now (slice_index_or entries.now k d).place) → ⊥ }
{
    for k in from..entries.len() {
        let other = entries[k];
        if other.key != key {
            return false;
        }
        if is_contradiction(facts, place, other.place) {
            return true;
        }
    }
    false
}

/// Whether one of the entries contradicts what stands at another's place.
pub fn contradicts(facts: &[Fact], entries: &[Entry], entry: Entry) -> bool
    requires entry { IsEntry facts.now entry }
    requires own { All (IsEntry facts.now) entries.now }
    requires sorted { IsNonDecreasingBy (λ (e : Entry). e.key) entries.now }
    ensures { (d : Entry) → result ≡ false → Contains entries.now d → IsContradiction (place_at facts.now entry.place) (place_at facts.now d.place) → ⊥ }
{
    let wanted = 2_535_301_200_456_458_802_993_406_410_752 - entry.key;
    let from = entries.partition_point(|other| other.key < wanted);
    contradicted_from(facts, entries, from, wanted, entry.place)
}

/// Whether an entry of the two lists contradicts what stands at another's place.
fn one_of_both_contradicts(
    facts: &[Fact],
    settled: &[Entry],
    recent: &[Entry],
    entry: Entry,
) -> bool
    requires entry { IsEntry facts.now entry }
    requires settled { AreEntries facts.now settled.now }
    requires recent { AreEntries facts.now recent.now }
    ensures { (d : Entry) → result ≡ false → Contains (settled.now ++ recent.now) d
        → IsContradiction (place_at facts.now entry.place) (place_at facts.now d.place) → ⊥ }
{
    contradicts(facts, settled, entry) || contradicts(facts, recent, entry)
}

/// Enters the next place, and answers whether those that are entered are still known to be consistent.
fn enter_next(
    facts: &[Fact],
    settled: &[Entry],
    recent: &mut Vec<Entry>,
    entry: Entry,
    is_consistent: bool,
) -> Result<bool, AllocError>
    requires entry { IsEntry facts.now entry }
    requires begun { IsBegun facts.now entry.place settled.now recent.old.items is_consistent }
    ensures { IfOk result (λ b. IsBegun facts.now (suc entry.place) settled.now recent.new.items b) }
{
    enter(facts, recent, entry)?;
    Ok(is_consistent && !one_of_both_contradicts(facts, settled, recent.as_slice(), entry))
}

/// How many places have entries, and whether they are known to be consistent: no two of them contradict each other.
#[derive(Clone, Copy)]
pub struct Entered {
    pub count: usize,
    pub is_consistent: bool,
}

/// The strongest facts by their keys. The newest stand in a list of their own until they are many, so that where one joins few are moved.
pub struct Index {
    pub settled: Vec<Entry>,
    pub recent: Vec<Entry>,
    /// Where a list is merged with other entries.
    pub room: Vec<Entry>,
    pub entered: Entered,
    pub hints: Vec<Cell<Hint>>,
    pub pairs: Vec<Cell<Option<Pair>>>,
}

/// Written out, so that no crate above proves it anew.
impl Drop for Index {
    fn drop(self) {
        let Index {
            settled: _,
            recent: _,
            room: _,
            entered: _,
            hints: _,
            pairs: _,
        } = self;
    }
}

/// Before anything is entered.
fn nothing_entered() -> Entered
    ensures count { result.count ≡ 0 }
    ensures consistent { result.is_consistent ≡ true }
{
    Entered {
        count: 0,
        is_consistent: true,
    }
}

impl Index {
    /// Before anything is entered.
    pub fn new(alloc: Global) -> Index
        ensures settled { result.settled.items ≡ [] }
        ensures recent { result.recent.items ≡ [] }
        ensures count { result.entered.count ≡ 0 }
        ensures consistent { result.entered.is_consistent ≡ true }
    {
        Index {
            settled: Vec::new(alloc),
            recent: Vec::new(alloc),
            room: Vec::new(alloc),
            entered: nothing_entered(),
            hints: Vec::new(alloc),
            pairs: Vec::new(alloc),
        }
    }

    /// Takes everything out, and keeps the memory.
    pub fn clear(&mut self)
        ensures settled { self.new.settled.items ≡ [] }
        ensures recent { self.new.recent.items ≡ [] }
        ensures count { self.new.entered.count ≡ 0 }
        ensures consistent { self.new.entered.is_consistent ≡ true }
    {
        self.settled.clear();
        self.recent.clear();
        self.entered = nothing_entered();
    }

    /// The two lists, lent, where so much effort is granted.
    pub fn layers<'a>(&'a self, effort: &'a Effort) -> Layers<'a>
        ensures settled { result.settled.now ≡ self.now.settled.items }
        ensures recent { result.recent.now ≡ self.now.recent.items }
    {
        Layers {
            settled: self.settled.as_slice(),
            recent: self.recent.as_slice(),
            hints: self.hints.as_slice(),
            pairs: self.pairs.as_slice(),
            effort,
        }
    }
}

/// Enters the facts from a place on one by one, and answers up to where: one past the range of keys stops it.
pub fn enter_each(
    facts: &[Fact],
    settled: &[Entry],
    recent: &mut Vec<Entry>,
    from: Entered,
) -> Result<Entered, AllocError>
    requires { IsBegun facts.now from.count settled.now recent.old.items from.is_consistent }
    ensures { IfOk result (λ r. IsBegun facts.now r.count settled.now recent.new.items r.is_consistent) }
{
    let count = facts.len() + 1;
    let mut is_consistent = from.is_consistent;
    for place in from.count..count {
        match entry_at(facts, place) {
            Some(entry) => {
                is_consistent = enter_next(facts, settled, recent, entry, is_consistent)?;
            }
            None => {
                return Ok(Entered {
                    count: place,
                    is_consistent,
                });
            }
        }
    }
    Ok(Entered {
        count,
        is_consistent,
    })
}

/// Enters the facts from a place on among the recent ones, many of them at once, and answers up to where: one past the range of keys stops it. What stands
/// in the room does not matter, its memory is used.
fn enter_recent(
    facts: &[Fact],
    settled: &[Entry],
    recent: &mut Vec<Entry>,
    room: &mut Vec<Entry>,
    from: Entered,
) -> Result<Entered, AllocError>
    requires { IsBegun facts.now from.count settled.now recent.old.items from.is_consistent }
    ensures { IfOk result (λ r. IsBegun facts.now r.count settled.now recent.new.items r.is_consistent) }
{
    if from.count.saturating_add(MANY) <= facts.len() {
        if let Some(entered) = enter_many(facts, settled, recent, room, from)? {
            return Ok(entered);
        }
    }
    enter_each(facts, settled, recent, from)
}

/// Where the recent ones are many, they settle.
fn settle(facts: &[Fact], index: &mut Index) -> Result<(), AllocError>
    requires { IsBegun facts.now index.old.entered.count index.old.settled.items index.old.recent.items index.old.entered.is_consistent }
    ensures begun { OnOk result (IsBegun facts.now index.new.entered.count index.new.settled.items index.new.recent.items index.new.entered.is_consistent) }
    ensures entered { OnOk result (index.new.entered ≡ index.old.entered) }
{
    if index.recent.len() <= (index.settled.len() / 64).saturating_add(LATE) {
        return Ok(());
    }
    if index.settled.is_empty() {
        mem::swap(&mut index.settled, &mut index.recent);
        return Ok(());
    }
    merge_into(
        facts,
        &mut index.settled,
        index.recent.as_slice(),
        &mut index.room,
    )?;
    index.recent.clear();
    Ok(())
}

/// Enters the facts that are not in the index yet, up to one past the range of keys.
pub fn enter_from(facts: &[Fact], index: &mut Index) -> Result<(), AllocError>
    requires { IsBegun facts.now index.old.entered.count index.old.settled.items index.old.recent.items index.old.entered.is_consistent }
    ensures { OnOk result (IsBegun facts.now index.new.entered.count index.new.settled.items index.new.recent.items index.new.entered.is_consistent) }
{
    index.entered = enter_recent(
        facts,
        index.settled.as_slice(),
        &mut index.recent,
        &mut index.room,
        index.entered,
    )?;
    if facts.len() > LATE {
        make_hints(&mut index.hints)?;
        make_pairs(&mut index.pairs)?;
    }
    settle(facts, index)
}

/// Brings an index of facts up to date, where these are many. Refused, it is empty, and may be brought up again.
pub fn index_many(facts: &[Fact], index: &mut Index) -> Result<(), AllocError>
    requires { IsBegun facts.now index.old.entered.count index.old.settled.items index.old.recent.items index.old.entered.is_consistent }
    ensures { IsBegun facts.now index.new.entered.count index.new.settled.items index.new.recent.items index.new.entered.is_consistent }
{
    if facts.len() <= FEW {
        return Ok(());
    }
    match enter_from(facts, index) {
        Ok(()) => Ok(()),
        Err(refused) => {
            index.clear();
            Err(refused)
        }
    }
}

/// The strongest facts by their keys; none where one is past the range of keys.
pub fn index_of(alloc: Global, facts: &[Fact]) -> Result<Option<Index>, AllocError>
    ensures { IfOk result (λ index. IfSome index (λ i. AreLayers facts.now (suc (length facts.now)) i.settled.items i.recent.items)) }
{
    let mut index = Index::new(alloc);
    enter_from(facts, &mut index)?;
    if index.entered.count > facts.len() {
        Ok(Some(index))
    } else {
        Ok(None)
    }
}
