//! The entries of many facts at once: they are sorted, and merged with those that stand.

ghost use Rattle.std.specs.Prelude.{◌≡◌, ◌≤◌, ◌++◌, suc, false, [], All, Contains, IfSome, IfNone, IfOk, OnOk, length};
ghost use Rattle.std.specs.List.Sorted.{IsNonDecreasingBy};
ghost use Rattle.linear_shown.specs.Index.{place_at, IsEntry, IsIndexed, IsBegun, IsContradiction, AreEntries, HasPlaces};
ghost use Rattle.linear_shown.specs.declared.index.Entry.{Entry};

use crate::index::{Entered, Entry, contradicts, enter, entry_at};
use linear::Fact;
use std::alloc::{AllocError, Global};
use std::mem;

/// The entries of all places from one on, by rising keys; none where a value is past the range of keys.
fn entries_from(
    alloc: Global,
    facts: &[Fact],
    from: usize,
) -> Result<Option<Vec<Entry>>, AllocError>
    ensures { IfOk result (λ found. IfSome found (λ entries. HasPlaces facts.now from (suc (length facts.now)) entries.items)) }
{
    let mut entries: Vec<Entry> = Vec::new(alloc);
    for place in from..facts.len() + 1 {
        match entry_at(facts, place) {
            Some(entry) => entries.push(entry)?,
            None => return Ok(None),
        }
    }
    entries.sort_unstable_by_key(|entry| entry.key);
    Ok(Some(entries))
}

/// Makes a list of entries with fresh ones among them, of which those with rising keys are entered soonest.
fn merge(
    facts: &[Fact],
    entries: &[Entry],
    fresh: &[Entry],
    all: &mut Vec<Entry>,
) -> Result<(), AllocError>
    requires entries { AreEntries facts.now entries.now }
    requires fresh { All (IsEntry facts.now) fresh.now }
    requires empty { all.old.items ≡ [] }
    ensures entries { OnOk result (AreEntries facts.now all.new.items) }
    ensures kept { OnOk result ((e : Entry) → Contains entries.now e → IsIndexed facts.now all.new.items e.place) }
    ensures entered { OnOk result (All (λ (e : Entry). IsIndexed facts.now all.new.items e.place) fresh.now) }
{
    all.reserve(entries.len().saturating_add(fresh.len()))?;
    let mut rest = entries;
    for entry in fresh {
        let upto = rest.partition_point(|other| other.key <= entry.key);
        let (before, after) = rest.split_at(upto);
        all.extend_from_slice(before)?;
        enter(facts, all, *entry)?;
        rest = after;
    }
    all.extend_from_slice(rest)?;
    Ok(())
}

/// Whether what stands at the place of a fresh entry contradicts one of the entries.
fn one_contradicts(facts: &[Fact], entries: &[Entry], fresh: &[Entry]) -> bool
    requires entries { AreEntries facts.now entries.now }
    requires fresh { All (IsEntry facts.now) fresh.now }
    ensures { (e d : Entry) → result ≡ false → Contains fresh.now e → Contains entries.now d
        → IsContradiction (place_at facts.now e.place) (place_at facts.now d.place) → ⊥ }
{
    for entry in fresh {
        if contradicts(facts, entries, *entry) {
            return true;
        }
    }
    false
}

/// Whether what stands at the place of a fresh entry contradicts an entry of the two lists.
fn one_contradicts_both(
    facts: &[Fact],
    settled: &[Entry],
    recent: &[Entry],
    fresh: &[Entry],
) -> bool
    requires settled { AreEntries facts.now settled.now }
    requires recent { AreEntries facts.now recent.now }
    requires fresh { All (IsEntry facts.now) fresh.now }
    ensures { (e d : Entry) → result ≡ false → Contains fresh.now e → Contains (settled.now ++ recent.now) d
        → IsContradiction (place_at facts.now e.place) (place_at facts.now d.place) → ⊥ }
{
    one_contradicts(facts, settled, fresh) || one_contradicts(facts, recent, fresh)
}

/// Merges fresh entries into a list. The room keeps its memory from one time to the next.
pub fn merge_into(
    facts: &[Fact],
    entries: &mut Vec<Entry>,
    fresh: &[Entry],
    room: &mut Vec<Entry>,
) -> Result<(), AllocError>
    requires entries { AreEntries facts.now entries.old.items }
    requires fresh { All (IsEntry facts.now) fresh.now }
    ensures entries { OnOk result (AreEntries facts.now entries.new.items) }
    ensures kept { OnOk result ((e : Entry) → Contains entries.old.items e → IsIndexed facts.now entries.new.items e.place) }
    ensures entered { OnOk result (All (λ (e : Entry). IsIndexed facts.now entries.new.items e.place) fresh.now) }
{
    room.clear();
    merge(facts, entries.as_slice(), fresh, room)?;
    mem::swap(entries, room);
    Ok(())
}

/// Enters all facts from a place on among the recent ones; nothing where one is past the range of keys.
pub fn enter_many(
    facts: &[Fact],
    settled: &[Entry],
    recent: &mut Vec<Entry>,
    room: &mut Vec<Entry>,
    from: Entered,
) -> Result<Option<Entered>, AllocError>
    requires { IsBegun facts.now from.count settled.now recent.old.items from.is_consistent }
    ensures some { IfOk result (λ entered. IfSome entered (λ r. IsBegun facts.now r.count settled.now recent.new.items r.is_consistent)) }
    ensures none { IfOk result (λ entered. IfNone entered (recent.new ≡ recent.old)) }
{
    let alloc = *recent.allocator();
    match entries_from(alloc, facts, from.count)? {
        Some(fresh) => {
            merge_into(facts, recent, fresh.as_slice(), room)?;
            let is_consistent = from.is_consistent
                && !one_contradicts_both(facts, settled, recent.as_slice(), fresh.as_slice());
            Ok(Some(Entered {
                count: facts.len() + 1,
                is_consistent,
            }))
        }
        None => Ok(None),
    }
}
