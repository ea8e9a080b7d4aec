//! How zones are spelled where they are judged, and why one covers another not.

use explain_facts::{Known, Means, Trying, is_against, lack_of, line_at, plural, push_form};
use footprints::{PlacedZone, mode_covers};
use ir_annotation::mode_text;
use linear::Form;
use lists::TextBuffer;
use program::{Mode, Zone, same_object};
use ranges::{Move, Sum};

/// A zone where it is placed.
pub fn placed<'a>(zone: &'a Zone, moves: &'a [Move]) -> PlacedZone<'a> {
    PlacedZone {
        object: zone.object,
        moves,
        zone,
    }
}

/// A zone in its own function.
pub fn as_written(zone: &Zone) -> PlacedZone<'_> {
    placed(zone, &[])
}

/// A form with what phis or arguments put in for its registers.
pub fn placed_form(means: &Means<'_>, moves: &[Move], form: &Form) -> Option<Form> {
    means.form(&means.placed(moves, form))
}

fn push_placed_form(known: Known<'_>, moves: &[Move], form: &Form, out: &mut TextBuffer) {
    out.push_str(" ");
    match placed_form(known.means, moves, form) {
        Some(form) => push_form(known.scene, &form, out),
        None => out.push_str("?"),
    }
}

/// `writes @a 0 %i+1`, with what phis or arguments put in.
pub fn push_zone(known: Known<'_>, y: &PlacedZone<'_>, out: &mut TextBuffer) {
    let (sigil, name) = known.scene.object(y.object);
    let mode = mode_text(y.zone.mode);
    write!(out, "{mode} {sigil}{name}");
    push_placed_form(known, y.moves, &y.zone.low, out);
    push_placed_form(known, y.moves, &y.zone.high, out);
}

/// The annotation's line as the text has it.
fn push_candidate(text: &str, line: u32, out: &mut TextBuffer) {
    let words = line_at(text, line).unwrap_or("").trim();
    writeln!(out, "    line {line}, {words}");
}

/// By how many cells a zone is short of where it would do, where that is a number whatever is known; whether it is.
fn push_lack(known: Known<'_>, does: &str, room: &Sum, place: &str, out: &mut TextBuffer) -> bool {
    match lack_of(known.means, room) {
        Some(lack) => {
            let s = plural(lack);
            writeln!(out, "      {does} {lack} cell{s} {place}");
            true
        }
        None => false,
    }
}

/// An end of a zone, where it is not shown to reach as far: by how many cells, or what is to be shown.
fn push_end(
    trying: Trying<'_, '_>,
    does: &str,
    too: &str,
    may: &str,
    sum: &Sum,
    out: &mut TextBuffer,
) {
    let known = trying.known;
    if !known.shows(sum) && !push_lack(known, does, sum, too, out) {
        writeln!(out, "      it may {may} {too}");
        trying.push_detail(sum, "      ", out);
    }
}

/// That a zone has its cells for another mode, where that does not cover the one that is asked for.
fn push_other_mode(own: Mode, asked: Mode, out: &mut TextBuffer) {
    if !mode_covers(own, asked) {
        let own = mode_text(own);
        let asked = mode_text(asked);
        writeln!(
            out,
            "      it has the cells for `{own}`, and not for `{asked}`"
        );
    }
}

/// Why `z`, which stands on a line of the text, does not cover `y`. Says nothing of another object.
pub fn push_why_not(
    trying: Trying<'_, '_>,
    z: &PlacedZone<'_>,
    y: &PlacedZone<'_>,
    out: &mut TextBuffer,
) -> bool {
    if !same_object(z.object, y.object) {
        return false;
    }
    push_candidate(trying.text(), z.zone.line, out);
    push_other_mode(z.zone.mode, y.zone.mode, out);
    let means = trying.known.means;
    let low = means.between(y.moves, &y.zone.low, z.moves, &z.zone.low);
    push_end(trying, "it begins", "too late", "begin", &low, out);
    let high = means.between(z.moves, &z.zone.high, y.moves, &y.zone.high);
    push_end(trying, "it ends", "too early", "end", &high, out);
    true
}

/// What would have to be shown for one zone to begin behind another, unless that is known not to be so.
fn push_behind(trying: Trying<'_, '_>, what: &str, room: &Sum, out: &mut TextBuffer) {
    let known = trying.known;
    match known.means.form(room) {
        Some(form) if !is_against(known.means, known.facts, &form) => {
            writeln!(out, "      apart from it if what is touched {what}");
            trying.push_detail(room, "      ", out);
        }
        _ => {}
    }
}

/// What would have to be shown for two zones to be apart.
pub fn push_why_beside(
    trying: Trying<'_, '_>,
    z: &PlacedZone<'_>,
    y: &PlacedZone<'_>,
    out: &mut TextBuffer,
) {
    let known = trying.known;
    push_candidate(trying.text(), z.zone.line, out);
    let before = known
        .means
        .between(z.moves, &z.zone.low, y.moves, &y.zone.high);
    let after = known
        .means
        .between(y.moves, &y.zone.low, z.moves, &z.zone.high);
    let place = "behind where it begins";
    push_lack(known, "what is touched ends", &before, place, out);
    let place = "before where it ends";
    push_lack(known, "what is touched begins", &after, place, out);
    push_behind(trying, "ends before it begins", &before, out);
    push_behind(trying, "begins where it ends", &after, out);
}
