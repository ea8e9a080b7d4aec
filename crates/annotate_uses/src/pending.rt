//! Zones that children may still touch where a block begins, handed on along edges (data flow of pending effects).

use crate::cells::{Cells, is_same_object};
use crate::hull::Hull;
use annotate_facts::{Edge, Heap, Place, Way, block_at, dominators_of, names_own};
use syntax::{Block, Function, Zone};

/// A zone that is pending of a region.
#[derive(Clone, Copy)]
pub struct Handed<'a> {
    pub region: &'a str,
    pub zone: &'a Zone,
}

impl<'a> Handed<'a> {
    /// Whether both are of one region and zone.
    fn is_same(self, heap: &'a Heap, other: Handed<'a>) -> bool {
        let one = Cells::of_zone(heap, self.zone);
        let two = Cells::of_zone(heap, other.zone);
        self.region == other.region
            && one.mode == two.mode
            && is_same_object(one.object, two.object)
            && matches!(one.low.apart_from(&two.low), Some(0))
            && matches!(one.high.apart_from(&two.high), Some(0))
    }

    /// Whether a block says itself what is pending of the region's object.
    fn is_said(self, block: &Block) -> bool {
        for pending in block.notes.pending.as_slice() {
            if pending.region.as_str() == self.region
                && is_same_object(&pending.zone.object, &self.zone.object)
            {
                return true;
            }
        }
        false
    }

    /// Whether a block says that itself, or a register of the zone has no value at this place.
    fn is_kept_out(self, place: Place<'_, 'a>, block: &Block) -> bool {
        let cells = Cells::of_zone(place.heap, self.zone);
        self.is_said(block) || !place.has_values(&cells.low) || !place.has_values(&cells.high)
    }

    /// Whether a register of the zone is another one at a block.
    fn is_renamed(self, heap: &'a Heap, block: &Block) -> bool {
        let cells = Cells::of_zone(heap, self.zone);
        names_own(block, &cells.low) || names_own(block, &cells.high)
    }
}

/// Whether what is pending of a region goes on along an edge.
fn goes_on(way: Way<'_>, region: &str) -> bool {
    match way {
        Way::Branch | Way::WhenTrue(_) | Way::WhenFalse(_) | Way::Continued(_) => true,
        Way::Detached => false,
        Way::Synced(synced) => synced != region,
    }
}

/// What is handed on to each block beside what it says itself.
#[derive(Drop)]
struct Waiting<'a> {
    heap: &'a Heap,
    function: &'a Function,
    edges: &'a [Edge<'a>],
    /// For each block one that is on all ways to it.
    above: Vec<usize>,
    handed: Vec<Vec<Handed<'a>>>,
}

impl<'a> Waiting<'a> {
    /// Where a block begins.
    fn place(&self, block: usize) -> Place<'_, 'a> {
        Place {
            heap: self.heap,
            function: self.function,
            above: self.above.as_slice(),
            block,
        }
    }

    /// Hands a zone on to a block; whether that is new.
    fn put(&mut self, to: usize, next: Handed<'a>) -> bool {
        let Some(block) = block_at(self.function, to) else {
            return false;
        };
        if to >= self.handed.len()
            || next.is_kept_out(self.place(to), block)
            || next.is_renamed(self.heap, block)
            || is_put(self.heap, self.handed[to].as_slice(), next)
        {
            return false;
        }
        self.heap.push(&mut self.handed[to], next);
        true
    }

    /// Adds the feet of the children that a block detaches.
    fn push_feet(&self, along: &mut Vec<Handed<'a>>, from: usize, region: &'a str) {
        for edge in self.edges {
            if edge.from == from && matches!(edge.way, Way::Detached) {
                if let Some(child) = block_at(self.function, edge.to) {
                    for zone in child.notes.foot.as_slice() {
                        self.heap.push(along, Handed { region, zone });
                    }
                }
            }
        }
    }

    /// The zones that are pending at the end of a block, of which some go on along an edge.
    fn pending_at(&self, from: usize) -> Vec<Handed<'a>> {
        let mut all = self.heap.list();
        if let Some(block) = block_at(self.function, from) {
            for pending in block.notes.pending.as_slice() {
                let region = pending.region.as_str();
                let zone = &pending.zone;
                self.heap.push(&mut all, Handed { region, zone });
            }
        }
        if let Some(handed) = self.handed.get(from) {
            self.heap.kept(all.extend_from_slice(handed.as_slice()));
        }
        all
    }

    /// Hands on what goes along an edge; whether something was new.
    fn hand_on(&mut self, edge: Edge<'a>) -> bool {
        let mut along = self.pending_at(edge.from);
        if let Way::Continued(region) = edge.way {
            self.push_feet(&mut along, edge.from, region);
        }
        let mut is_new = false;
        for next in &along {
            if goes_on(edge.way, next.region) && self.put(edge.to, *next) {
                is_new = true;
            }
        }
        is_new
    }

    /// Goes along all edges, round after round, until nothing is new.
    fn hand_down(&mut self) {
        let edges = self.edges;
        for _round in 0..self.handed.len() {
            let mut is_new = false;
            for edge in edges {
                is_new = self.hand_on(*edge) || is_new;
            }
            if !is_new {
                return;
            }
        }
    }

    /// Puts what may be pending at the head of a loop to it, if it does not say itself what is pending.
    fn guess(&mut self, hull: &'a Hull<'a>) {
        let to = hull.block;
        let next = Handed {
            region: hull.region,
            zone: &hull.zone,
        };
        if let Some(block) = block_at(self.function, to) {
            if to < self.handed.len() && !next.is_kept_out(self.place(to), block) {
                self.heap.push(&mut self.handed[to], next);
            }
        }
    }
}

fn is_put<'a>(heap: &'a Heap, handed: &[Handed<'a>], next: Handed<'a>) -> bool {
    for other in handed {
        if other.is_same(heap, next) {
            return true;
        }
    }
    false
}

/// What is handed on to each block along the edges of a function, again and again until nothing is new.
pub fn handed_of<'a>(
    heap: &'a Heap,
    function: &'a Function,
    edges: &'a [Edge<'a>],
    hulls: &'a [Hull<'a>],
) -> Vec<Vec<Handed<'a>>> {
    let mut waiting = Waiting {
        heap,
        function,
        edges,
        above: dominators_of(heap, edges, function.blocks.len()),
        handed: heap.list(),
    };
    for _block in function.blocks.as_slice() {
        heap.push(&mut waiting.handed, heap.list());
    }
    for hull in hulls {
        waiting.guess(hull);
    }
    waiting.hand_down();
    waiting.handed
}
