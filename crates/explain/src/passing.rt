//! What is still pending on an edge, and lines that would say so at its target (missing `pending` lines).

use crate::found::Found;
use crate::spot::{Spot, spot_where};
use crate::widen::{both, lowest, touched_zone, with_ends, zone_at_target};
use crate::zone_text::{as_written, placed, push_why_not, push_zone};
use explain_facts::{Means, coefficient};
use footprints::{covers, hands_on, is_empty, passes_on};
use linear::Form;
use linear_shown::FactBranches;
use lists::{ListBuffer, TextBuffer};
use program::{Block, Function, Pending, RegisterId, Terminator, Zone, same_object};
use ranges::{EdgeFacts, Way};

/// A zone that children of a region may still touch.
#[derive(Clone, Copy)]
struct Owed<'a> {
    region: RegisterId,
    zone: &'a Zone,
}

/// An edge from a place, with what is known on it, what is owed to its target and what is pending there.
#[derive(Clone, Copy)]
struct Passing<'s, 'a> {
    spot: Spot<'s, 'a>,
    edge: &'a EdgeFacts,
    owed: &'a [Owed<'a>],
    pending: &'a [Pending],
}

/// The foot of the child of a detach.
pub fn foot_of<'a>(blocks: &'a [Block], terminator: &Terminator) -> &'a [Zone] {
    match terminator {
        Terminator::Detach { body, .. } => match blocks.get(body.0) {
            Some(block) => block.foot.as_slice(),
            None => &[],
        },
        _ => &[],
    }
}

/// Whether a form changes from round to round of a loop: it names a phi, as that of a loop's counter.
fn is_counted(function: &Function, form: &Form) -> bool {
    for block in function.blocks.as_slice() {
        for phi in block.phis.as_slice() {
            if coefficient(form, phi.register) != 0 {
                return true;
            }
        }
    }
    false
}

/// Whether a zone that waits is of one region, object and mode with this one, so that one may have the cells of both.
fn is_alike(region: RegisterId, zone: &Zone, owed: Owed<'_>) -> bool {
    region == owed.region
        && same_object(zone.object, owed.zone.object)
        && zone.mode == owed.zone.mode
}

fn copied(means: &Means<'_>, zone: &Zone) -> Zone {
    Zone {
        line: zone.line,
        mode: zone.mode,
        object: zone.object,
        low: means.copy(&zone.low),
        high: means.copy(&zone.high),
    }
}

impl Passing<'_, '_> {
    /// Why the zones of its object that are pending at the target do not cover this one; false where there are none.
    fn push_waiting(&self, owed: Owed<'_>, out: &mut TextBuffer) -> bool {
        let y = as_written(owed.zone);
        let mut is_any = false;
        for item in self.pending {
            if item.region == owed.region {
                let z = placed(&item.zone, self.edge.moves.as_slice());
                is_any = push_why_not(self.spot.trying, &z, &y, out) || is_any;
            }
        }
        is_any
    }

    /// Why a zone that may still be touched is not pending at the target.
    fn push_unpassed(&self, owed: Owed<'_>, out: &mut TextBuffer) {
        let scene = self.spot.trying.known.scene;
        let label = scene.label(self.edge.to);
        write!(out, "  still pending on the edge to %{label}: ");
        push_zone(self.spot.trying.known, &as_written(owed.zone), out);
        out.push_str("\n");
        if !self.push_waiting(owed, out) {
            let name = scene.register(owed.region);
            writeln!(
                out,
                "    %{label} has no `pending %{name}` line of that object"
            );
        }
        self.push_pending_line(owed, out);
    }

    /// The least zone that has this one and all that is owed like it, where it is known which ends that has.
    fn whole(&self, owed: Owed<'_>) -> Option<Zone> {
        let known = self.spot.trying.known;
        let mut whole = copied(known.means, owed.zone);
        for other in self.owed {
            if is_alike(other.region, other.zone, owed) {
                let Some(both) = both(known, &whole, other.zone) else {
                    return None;
                };
                whole = both;
            }
        }
        Some(whole)
    }

    /// A zone with a number as its low end: what all rounds of a loop have had before.
    fn from_start(&self, zone: &Zone) -> Option<Zone> {
        let known = self.spot.trying.known;
        if !is_counted(known.scene.function, &zone.low) {
            return None;
        }
        let low = lowest(known, &zone.low);
        let high = known.means.copy(&zone.high);
        with_ends(zone, zone.object, low, Some(high))
    }

    /// Whether a zone at the target, with what phis take put in, has all that is owed like this.
    fn has_owed(&self, zone: &Zone, owed: Owed<'_>) -> bool {
        let means = self.spot.trying.known.means;
        let facts = self.spot.place.facts;
        let z = placed(zone, self.edge.moves.as_slice());
        for other in self.owed {
            if is_alike(other.region, other.zone, owed)
                && !means.is_so(covers(means.alloc, facts, &z, &as_written(other.zone)))
            {
                return false;
            }
        }
        true
    }

    /// The line of its region and object that the target has.
    fn line_there(&self, owed: Owed<'_>) -> Option<&Zone> {
        for item in self.pending {
            if is_alike(item.region, &item.zone, owed) {
                return Some(&item.zone);
            }
        }
        None
    }

    /// A line at the target that says a zone, if it has what is owed and the text can have it; false where not.
    fn push_line_of(&self, zone: &Zone, owed: Owed<'_>, out: &mut TextBuffer) -> bool {
        let known = self.spot.trying.known;
        let moves = self.edge.moves.as_slice();
        let Some(there) = zone_at_target(known, moves, zone) else {
            return false;
        };
        if !self.has_owed(&there, owed) {
            return false;
        }
        let name = known.scene.register(owed.region);
        let mut line = TextBuffer::new(known.means.alloc);
        write!(line, ";! pending %{name} ");
        let old = self.line_there(owed);
        let after = known.scene.label_line(self.edge.to);
        self.spot
            .push_zone_line(line, old, moves, zone, &there, after, out)
    }

    /// A line at the target that says what is owed: in a loop that of all rounds before.
    fn push_pending_line(&self, owed: Owed<'_>, out: &mut TextBuffer) {
        let Some(whole) = self.whole(owed) else {
            return;
        };
        let is_told = match self.from_start(&whole) {
            Some(from_start) => self.push_line_of(&from_start, owed, out),
            None => false,
        };
        if !is_told {
            self.push_line_of(&whole, owed, out);
        }
    }

    /// Whether a zone is empty, or one that is pending at the target covers it.
    fn is_passed(&self, owed: Owed<'_>) -> bool {
        let means = self.spot.trying.known.means;
        let facts = self.spot.place.facts;
        let y = as_written(owed.zone);
        if means.is_so(is_empty(means.alloc, facts, &y)) {
            return true;
        }
        for item in self.pending {
            let z = placed(&item.zone, self.edge.moves.as_slice());
            if item.region == owed.region && means.is_so(covers(means.alloc, facts, &z, &y)) {
                return true;
            }
        }
        false
    }

    /// Says of each zone that is owed and not pending at the target why, and adds it to what is touched.
    fn push_notes(&self, found: &mut Found) {
        let means = self.spot.trying.known.means;
        for owed in self.owed {
            if !self.is_passed(*owed) {
                self.push_unpassed(*owed, &mut found.notes);
                means.push(&mut found.touched.zones, copied(means, owed.zone));
            }
        }
    }
}

impl Spot<'_, '_> {
    /// What has to be pending at the target of an edge: what is pending before it and goes on, and what the new child of a detach may touch.
    fn owed_on(&self, terminator: &Terminator, way: Way) -> Vec<Owed<'_>> {
        let known = self.trying.known;
        let mut owed: ListBuffer<Owed<'_>> = ListBuffer::new(known.means.alloc);
        for item in self.place.pending {
            if hands_on(way, item.region) {
                owed.push(Owed {
                    region: item.region,
                    zone: &item.zone,
                });
            }
        }
        if let (Way::Continued, Terminator::Detach { region, .. }) = (way, terminator) {
            for zone in foot_of(known.scene.function.blocks.as_slice(), terminator) {
                owed.push(Owed {
                    region: *region,
                    zone,
                });
            }
        }
        known.means.list(owed)
    }

    /// Adds to the fault of edges what the target of one does not say of what is still pending.
    pub fn push_edge(
        &self,
        facts: &mut FactBranches<'_>,
        terminator: &Terminator,
        edge: &EdgeFacts,
        found: &mut Found,
    ) {
        let known = self.trying.known;
        let means = known.means;
        let pending = self.place.pending;
        let blocks = known.scene.function.blocks.as_slice();
        if means.is_so(passes_on(means.alloc, blocks, facts, pending, terminator, edge)) {
            return;
        }
        let owed = self.owed_on(terminator, edge.way);
        let there = facts.known();
        let passing = Passing {
            spot: spot_where(*self, &there, known.stated, known.line),
            edge,
            owed: owed.as_slice(),
            pending: match blocks.get(edge.to.0) {
                Some(block) => block.pending.as_slice(),
                None => &[],
            },
        };
        passing.push_notes(found);
    }
}
