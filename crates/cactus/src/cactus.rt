//! The living frames in slots that are used again, and how frames are made, found and removed (a slab of frames).

ghost use Rattle.std.specs.Prelude.{count_by, is_some, option_and_then, IsSomeAnd, IfSome, IfNone, length, ◌≡◌, ◌+◌, ◌<◌, ◌^◌, ◌++◌, ◌∷◌, [], Some, None};
ghost use Rattle.std.specs.Prelude.{IsSome, IfOk, OnOk, OnErr, option_copied};
ghost use Rattle.std.specs.Option.{option_copied_mut, option_map};
ghost use Rattle.std.specs.Borrow.{sem};
ghost use Rattle.slab.specs.Slab.{entries_from};
ghost use Rattle.cactus.specs.Frames.{node_at, node_of_use, HasPath, HasNoPath, frame_at, Lives, IsAdded, AddsChild, IsRemoved};
ghost use Rattle.cactus.specs.ByPath.{named, IsTree, Binds, GrowsMap, ShrinksMap};
ghost use Rattle.cactus.specs.Chain.{AddsChain, GrowsChain};
ghost use Rattle.cactus.specs.declared.node.Node.{Node as ShownNode};

use crate::node::{FrameData, Link, Node};
use frame::Path;
use lists::{OutOfMemory, Seq};
use slab::{Iter, Slab};
use std::alloc::{AllocError, Global};
use std::marker::Model;

/// The path of a frame's child of this number.
fn child_path(alloc: Global, path: &Path, number: u64) -> Result<Path, OutOfMemory>
    ensures { IfOk result (λ child. child.numbers ≡ path.now.numbers ++ number ∷ []) }
{
    let mut numbers = Vec::with_capacity(alloc, path.numbers.len().saturating_add(1))?;
    numbers.extend_from_slice(path.numbers.as_slice())?;
    numbers.push(number)?;
    Ok(Path {
        numbers: Seq::from_vec(numbers),
    })
}

/// So many frames that are gone are kept at most, so that others take their lists: that took a stencil's publication from 4,010 machine instructions to 3,680.
/// More would hold what a stack took that was once deep.
const MOST_SPARE: usize = 256;

/// The living frames of a run, each with data of type `F`.
#[derive(Drop)]
pub struct Cactus<F> {
    alloc: Global,
    nodes: Slab<Node<F>>,
    made: u64,
    /// Frames that are gone; contracts see none of them.
    spare: Vec<Node<F>>,
}

impl<F> Model for Cactus<F> {
    ghost use Rattle.std.specs.Option.{option_copied_mut};
    ghost use Rattle.std.specs.Borrow.{sem};
    ghost use Rattle.cactus.specs.Frames.{Frames};

    ghost Value = { Frames F };

    ghost view = { λ c. record { nodes = c.nodes.slots; made = c.made } };
}

impl<F: Drop> Cactus<F> {
    ghost use Rattle.cactus.specs.Lending.{lends_frame};

    /// No frame; it takes no memory.
    pub fn new(alloc: Global) -> Cactus<F>
        ensures none { result.nodes ≡ [] }
        ensures made { result.made ≡ 0 }
        ensures tree { IsTree result }
    {
        Cactus {
            alloc,
            nodes: Slab::new(alloc),
            made: 0,
            spare: Vec::new(alloc),
        }
    }

    /// The number of living frames.
    pub fn live_frames(&self) -> u64
        ensures { result ≡ count_by is_some self.now.nodes }
    {
        self.nodes.len() as u64
    }

    /// The slots where frames stand, by rising slot.
    pub fn iter(&self) -> Iter<'_, Node<F>>
        ensures { result ≡ entries_from 0 self.now.nodes }
    {
        self.nodes.iter()
    }

    /// What stands in a slot; none where no frame does.
    pub fn node(&self, slot: usize) -> Option<&Node<F>>
        ensures { option_copied result ≡ node_at self.now slot }
    {
        self.nodes.get(slot)
    }

    /// What stands in a slot since this use of it; none where another use or none stands there.
    pub fn get(&self, slot: usize, generation: u64) -> Option<&Node<F>>
        ensures { option_copied result ≡ node_of_use self.now slot generation }
    {
        match self.nodes.get(slot) {
            Some(node) if node.generation == generation => Some(node),
            _ => None,
        }
    }

    /// The path of the frame of this use of a slot.
    pub fn path_at(&self, slot: usize, generation: u64) -> Option<&Path>
        ensures { option_copied result
            ≡ option_map (λ node. node.path) (node_of_use self.now slot generation) }
    {
        match self.get(slot, generation) {
            Some(node) => Some(&node.path),
            None => None,
        }
    }

    /// The slot and the generation of the frame of this path.
    pub fn spot(&self, path: &Path) -> Option<(usize, u64)>
        ensures found { IfSome result (λ spot. HasPath self.now spot.0 spot.1 path.now) }
        ensures absent { IfNone result (HasNoPath self.now path.now) }
        ensures map { IsTree self.now → option_and_then (λ spot. node_of_use self.now spot.0 spot.1) result ≡ named self.now path.now.numbers }
    {
        for (slot, node) in self.nodes.iter() {
            if node.has_path(path) {
                return Some((slot, node.generation));
            }
        }
        None
    }

    /// A slot's frame for writing; none where no frame stands there.
    pub fn frame_mut(&mut self, slot: usize) -> Option<&mut F>
        ensures* writes_back { sem 𝓛 (lends_frame F.row self.entry slot result) }
        ensures value { option_copied_mut result ≡ frame_at self.old slot }
    {
        match self.nodes.get_mut(slot) {
            Some(node) => Some(&mut node.frame),
            None => None,
        }
    }

    /// Puts a frame into a slot, with a new generation.
    fn put(&mut self, path: Path, parent: Option<usize>, frame: F) -> Result<usize, OutOfMemory>
        requires { self.old.made + 1 < 2 ^ 64 }
        ensures ok { IfOk result (IsAdded self.old self.new path parent frame) }
        ensures err { OnErr result (self.new ≡ self.old) }
    {
        let slot = self.nodes.vacant_key();
        self.put_in(slot, path, parent, frame)?;
        Ok(slot)
    }

    /// Puts a frame into the slot, which is the next one, with a new generation.
    fn put_in(
        &mut self,
        slot: usize,
        path: Path,
        parent: Option<usize>,
        frame: F,
    ) -> Result<(), OutOfMemory>
        requires { self.old.made + 1 < 2 ^ 64 }
        ensures ok { OnOk result (IsAdded self.old self.new path parent frame slot) }
        ensures err { OnErr result (self.new ≡ self.old) }
    {
        if self.nodes.vacant_key() != slot {
            return Err(OutOfMemory);
        }
        let generation = self.made;
        self.nodes.insert(Node {
            generation,
            path,
            parent,
            frame,
        })?;
        self.made += 1;
        Ok(())
    }

    /// Makes the root; the answer is its slot. Where memory is refused nothing changes.
    pub fn add_root(&mut self, frame: F) -> Result<usize, OutOfMemory>
        requires { self.old.made + 1 < 2 ^ 63 }
        ensures ok { IfOk result (λ slot. IsAdded self.old self.new (record { numbers = [] }) None frame slot) }
        ensures map { IfOk result (λ slot. IsTree self.old → named self.old [] ≡ None
            → IsSomeAnd (node_at self.new slot) (λ node. Binds self.old self.new [] (Some node))) }
        ensures err { OnErr result (self.new ≡ self.old) }
    {
        let path = Path {
            numbers: Seq::new(self.alloc),
        };
        self.put(path, None, frame)
    }

    /// Makes the detached child of this number of a living frame; the answer is the child's slot. Where memory is
    /// refused nothing changes.
    pub fn add_child(&mut self, parent: usize, number: u64, frame: F) -> Result<usize, OutOfMemory>
        requires lives { Lives self.old parent }
        requires room { self.old.made + 1 < 2 ^ 63 }
        ensures ok { IfOk result (λ slot. AddsChild self.old self.new parent number frame slot) }
        ensures map { OnOk result (GrowsMap self.old self.new parent number frame) }
        ensures err { OnErr result (self.new ≡ self.old) }
    {
        let path = child_path(self.alloc, &self.nodes[parent].path, number)?;
        self.put(path, Some(parent), frame)
    }

    /// Makes the frame of the call of this number of a living frame; the answer is its slot. Where memory is refused
    /// nothing changes.
    pub fn push_call(&mut self, caller: usize, number: u64, frame: F) -> Result<usize, OutOfMemory>
        requires lives { Lives self.old caller }
        requires room { self.old.made + 1 < 2 ^ 63 }
        ensures ok { IfOk result (λ slot. AddsChild self.old self.new caller number frame slot) }
        ensures map { OnOk result (GrowsMap self.old self.new caller number frame) }
        ensures err { OnErr result (self.new ≡ self.old) }
    {
        self.add_child(caller, number, frame)
    }

    /// Makes the frames one on top of the other, the first on top of the one in the slot; the answer is their slots. All room is taken first:
    /// where memory is refused nothing changes.
    pub fn add_chain(
        &mut self,
        parent: usize,
        links: Vec<Link<F>>,
    ) -> Result<Vec<usize>, OutOfMemory>
        requires room { self.old.made + length links.items < 2 ^ 63 }
        ensures ok { IfOk result (λ slots. AddsChain self.old self.new parent links.items slots.items) }
        ensures map { OnOk result (GrowsChain self.old self.new parent links.items) }
        ensures err { OnErr result (self.new ≡ self.old) }
    {
        let mut slots = Vec::with_capacity(self.alloc, links.len())?;
        self.nodes.reserve(links.len())?;
        let mut top = parent;
        for link in links {
            top = self.nodes.insert_reserved(Node {
                generation: self.made,
                path: link.path,
                parent: Some(top),
                frame: link.frame,
            });
            self.made += 1;
            slots.push_reserved(top);
        }
        Ok(slots)
    }

    /// The slot that the next frame takes.
    pub fn next_slot(&self) -> usize
        ensures { node_at self.now result ≡ None }
    {
        self.nodes.vacant_key()
    }

    /// Makes the frame of the call of this number of a living frame in the slot that `next_slot` tells: so room for the
    /// slot can be taken before the frame is made. Where memory is refused, or the slot is another, nothing changes.
    pub fn push_call_in(
        &mut self,
        slot: usize,
        caller: usize,
        number: u64,
        frame: F,
    ) -> Result<(), OutOfMemory>
        requires lives { Lives self.old caller }
        requires room { self.old.made + 1 < 2 ^ 63 }
        ensures ok { OnOk result (AddsChild self.old self.new caller number frame slot) }
        ensures map { OnOk result (GrowsMap self.old self.new caller number frame) }
        ensures err { OnErr result (self.new ≡ self.old) }
    {
        let path = child_path(self.alloc, &self.nodes[caller].path, number)?;
        self.put_in(slot, path, Some(caller), frame)
    }

    /// Takes a frame away that has returned.
    pub fn pop_call(&mut self, slot: usize) -> Node<F>
        requires { Lives self.old slot }
        ensures value { node_at self.old slot ≡ Some result }
        ensures rest { IsRemoved self.old self.new slot }
        ensures map { ShrinksMap self.old self.new slot result }
    {
        self.remove(slot)
    }

    /// Takes the frame of a child away that has reattached.
    pub fn remove(&mut self, slot: usize) -> Node<F>
        requires { Lives self.old slot }
        ensures value { node_at self.old slot ≡ Some result }
        ensures rest { IsRemoved self.old self.new slot }
        ensures map { ShrinksMap self.old self.new slot result }
    {
        self.nodes.remove(slot)
    }

    /// Takes the frame in the slot away, and keeps it as [`Cactus::keep`] does.
    pub fn discard(&mut self, slot: usize)
        requires { Lives self.old slot }
        ensures rest { IsRemoved self.old self.new slot }
        ensures map { (node : ShownNode F) → node_at self.old slot ≡ Some node → ShrinksMap self.old self.new slot node }
    {
        let node = self.remove(slot);
        self.keep(node);
    }

    /// Keeps a frame that is gone, so that another takes its lists. Where there is no room for it, it is let go.
    pub fn keep(&mut self, node: Node<F>)
        ensures { self.new ≡ self.old }
    {
        if self.spare.len() < MOST_SPARE && self.spare.reserve(1).is_ok() {
            self.spare.push_reserved(node);
        }
    }

    /// A frame that is gone, where one was kept: what is in its lists says nothing.
    pub fn reuse(&mut self) -> Option<Node<F>>
        ensures { self.new ≡ self.old }
    {
        self.spare.pop()
    }
}

impl<F: FrameData> Clone for Cactus<F> {
    ghost use Rattle.cactus.specs.Copies.{AreCopies};

    ghost is_clone = { AreCopies F.is_clone };

    fn clone(&self) -> Result<Cactus<F>, AllocError> {
        Ok(Cactus {
            alloc: self.alloc,
            nodes: self.nodes.clone()?,
            made: self.made,
            spare: Vec::new(self.alloc),
        })
    }
}
