//! An index of addresses, to find a cell among those that were read or written (hash table with chains).

ghost use Rattle.std.specs.Prelude.{◌≡◌, ◌≢◌, ◌<◌, ◌++◌, ◌∷◌, ℕ, [], IfNone, IfOk, IfSome, Some, length, replicate, slice_get, vec_capacity, vec_len};
ghost use Rattle.frame_strand.specs.Chains.{slot};
ghost use Rattle.frame_strand.specs.Indexing.{IsChained};

use lists::OutOfMemory;
use std::alloc::Global;
use std::marker::Model;

/// The most addresses in an index: more make strands longer that touch many cells, and each copy of a frame larger, whose room is made at once.
pub const PLACES: usize = 256;

/// The number of chains of an index, four for each address, so that they are short. To empty all of them for each strand took 17 of a hundred of the machine
/// instructions of `fib` on one worker: only those that were used are emptied.
const SLOTS: usize = 1_024;

/// An address, and how many addresses there are up to the one before it in its chain; 0 where it is the first.
#[derive(Clone, Copy)]
pub struct IndexEntry {
    at: i64,
    earlier: u16,
}

/// Addresses, each at its place, and chains of them to find one.
#[derive(Drop)]
pub struct Index {
    /// How many addresses there are up to the latest of each chain; 0 where it is empty.
    heads: Vec<u16>,
    entries: Vec<IndexEntry>,
}

impl Model for Index {
    ghost use Rattle.std.specs.Prelude.{List, ℤ};

    ghost Value = { List ℤ };

    ghost use Rattle.frame_strand.specs.Indexing.{IsIndex, listed};

    ghost view = { listed };

    ghost invariant = { IsIndex };
}

/// The chain of an address: neighbours are in different ones.
fn slot(at: &i64) -> usize
    ensures is { result ≡ slot at.now }
    ensures within { result < 1024 }
{
    (at.cast_unsigned() % SLOTS as u64) as usize
}

fn head_at(heads: &[u16], slot: usize) -> u16
    requires { slot < length heads.now }
    ensures { slice_get heads.now slot ≡ Some result }
{
    heads[slot]
}

fn entry_at(entries: &[IndexEntry], place: usize) -> IndexEntry
    requires { place < length entries.now }
    ensures { slice_get entries.now place ≡ Some result }
{
    entries[place]
}

/// Takes the addresses out of their chains, from the latest on: each chain is led to as it was before its address was put there. Most strands
/// have few addresses, and there are many chains.
fn unchain(heads: &mut Vec<u16>, entries: &mut Vec<IndexEntry>)
    requires { IsChained heads.old.items entries.old.items }
    ensures chained { IsChained heads.new.items [] }
    ensures empty { entries.new.items ≡ [] }
    ensures room { vec_capacity entries.new ≡ vec_capacity entries.old }
{
    while let Some(entry) = entries.pop() {
        let slot = slot(&entry.at);
        heads[slot] = entry.earlier;
    }
}

/// All chains are empty.
fn empty(heads: &mut Vec<u16>)
    ensures items { heads.new.items ≡ replicate (vec_len heads.old) 0 }
    ensures length { vec_len heads.new ≡ vec_len heads.old }
{
    heads.fill(0);
}

impl Index {
    /// An index without addresses, with room for 256.
    pub fn new(alloc: Global) -> Result<Index, OutOfMemory>
        ensures { IfOk result (λ made. made ≡ []) }
    {
        let mut heads = Vec::with_capacity(alloc, SLOTS)?;
        heads.resize(SLOTS, 0)?;
        empty(&mut heads);
        let entries = Vec::with_capacity(alloc, PLACES)?;
        Ok(Index { heads, entries })
    }

    /// A place of the address.
    pub fn find(&self, at: &i64) -> Option<usize>
        ensures found { IfSome result (λ place. slice_get self.now place ≡ Some at.now) }
        ensures absent { IfNone result ((place : ℕ) → slice_get self.now place ≢ Some at.now) }
    {
        let mut next = head_at(self.heads.as_slice(), slot(at));
        while next > 0 {
            let place = next as usize - 1;
            let entry = entry_at(self.entries.as_slice(), place);
            if entry.at == *at {
                return Some(place);
            }
            next = entry.earlier;
        }
        None
    }

    /// Puts an address after the others.
    pub fn push(&mut self, at: &i64)
        requires { length self.old < 256 }
        ensures { self.new ≡ self.old ++ at.now ∷ [] }
    {
        let slot = slot(at);
        let earlier = head_at(self.heads.as_slice(), slot);
        self.entries.push_reserved(IndexEntry { at: *at, earlier });
        self.heads[slot] = self.entries.len() as u16;
    }

    /// Leaves no address.
    pub fn clear(&mut self)
        ensures { self.new ≡ [] }
    {
        unchain(&mut self.heads, &mut self.entries);
    }
}
