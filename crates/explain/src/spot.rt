//! A place of a block, with what is known there and what it may touch; and lines to put in there.

use crate::found::{Found, Touched};
use crate::widen::{touched_zone, widened};
use crate::zone_text::{as_written, placed, push_zone};
use explain_facts::{Known, Put, Source, Trying, taken, with_line};
use footprints::Place;
use linear_shown::Known as KnownFacts;
use lists::TextBuffer;
use program::{Block, Zone};
use ranges::Move;

/// The steps that a byte of a text counts for that is judged as far as its uses.
const STEPS_A_BYTE: usize = 30;

/// A place of a block, with what is known there and what it may touch. Annotations of its task's zones begin with `word`, and stand behind the line `task`.
#[derive(Clone, Copy)]
pub struct Spot<'s, 'a> {
    pub source: Source<'s>,
    pub trying: Trying<'s, 'a>,
    pub place: Place<'a>,
    pub block: &'a Block,
    pub word: &'static str,
    pub task: u32,
}

/// The place where this is known, the first `stated` of the facts to a `shows` line there.
pub fn spot_where<'s, 'a>(
    spot: Spot<'s, 'a>,
    facts: &'a KnownFacts<'a>,
    stated: usize,
    line: u32,
) -> Spot<'s, 'a> {
    Spot {
        trying: Trying {
            known: Known {
                facts: facts.facts(),
                stated,
                line,
                ..spot.trying.known
            },
            ..spot.trying
        },
        place: Place {
            facts,
            ..spot.place
        },
        ..spot
    }
}

impl Spot<'_, '_> {
    /// A fault at the place of which nothing is said yet.
    pub fn found(&self, number: u16) -> Found {
        let known = self.trying.known;
        Found {
            number,
            line: known.line,
            notes: TextBuffer::new(known.means.alloc),
            touched: Touched {
                task: self.task,
                zones: Vec::new(known.means.alloc),
            },
        }
    }

    /// Whether another text is right up to what is known of numbers.
    fn is_right(&self, changed: &str) -> bool {
        let source = Source {
            text: changed,
            state: self.source.state,
        };
        let steps = self.source.text.len().saturating_mul(STEPS_A_BYTE);
        taken(self.trying.known.means, source, steps).is_some()
    }

    /// Adds the line of a zone that is touched, behind what it begins with, if the text with it is right up to what is known of numbers; false where it is
    /// not. It stands in place of an old one, whose ends it keeps where they reach as far with the moves put in, or after a line.
    pub fn push_zone_line(
        &self,
        begun: TextBuffer,
        old: Option<&Zone>,
        moves: &[Move],
        touched: &Zone,
        new: &Zone,
        after: u32,
        out: &mut TextBuffer,
    ) -> bool {
        let known = self.trying.known;
        let mut line = begun;
        match old {
            Some(old) => {
                let here = touched_zone(known.means, &placed(old, moves));
                let wide = widened(known, old, here.as_ref().unwrap_or(new), touched, new);
                push_zone(known, &as_written(&wide), &mut line);
                self.push_if_right(line, Put::InPlaceOf(old.line), "in place of", old.line, out)
            }
            None => {
                push_zone(known, &as_written(new), &mut line);
                let put = Put::Before(after.saturating_add(1));
                self.push_if_right(line, put, "after", after, out)
            }
        }
    }

    /// Adds a line that is put into the text there, if the text with it is right up to what is known of numbers; false where it is not.
    fn push_if_right(
        &self,
        line: TextBuffer,
        put: Put,
        place: &str,
        number: u32,
        out: &mut TextBuffer,
    ) -> bool {
        let means = self.trying.known.means;
        let line = means.text(line);
        let text = self.source.text;
        let changed = means.made(with_line(means.alloc, text, put, line.as_str()));
        let is_right = self.is_right(changed.as_str());
        if is_right {
            writeln!(out, "    try: {line}, {place} line {number}");
        }
        is_right
    }
}
