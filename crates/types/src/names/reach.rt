//! Which globals a function names, itself or by the functions that it calls (transitive closure over the call graph).

ghost use Rattle.std.specs.Prelude.{◌≡◌, ◌<◌, ◌↔◌, ℕ, true, false, length, slice_index_or, Contains, IfOk};
ghost use Rattle.types.specs.names.Marks.{SetsMarks};
ghost use Rattle.types.specs.names.Mention as spec;

use crate::names::mention::Mentions;
use lists::Seq;
use program::GlobalId;
use reachability::{Node, no_marks, one_mark, reached};
use std::alloc::{AllocError, Global};
use std::marker::Model;

impl Node for Mentions {
    ghost nexts = { λ m. m.callees };

    fn count(&self) -> usize {
        self.callees.len()
    }

    fn next_at(&self, place: usize) -> usize {
        self.callees.as_slice()[place]
    }
}

/// Sets the marks of these places, as far as there are such.
fn set_marks(places: &[usize], marks: &mut Vec<bool>)
    ensures { SetsMarks places.now marks.old.items marks.new.items }
{
    for place in places {
        let place = *place;
        if place < marks.len() {
            marks[place] = true;
        }
    }
}

/// Marks the globals that the marked functions name.
fn named_by(
    alloc: Global,
    mentions: &[Mentions],
    marked: &[bool],
    globals: usize,
) -> Result<Vec<bool>, AllocError>
    requires { length marked.now ≡ length mentions.now }
    ensures { IfOk result (λ marks. (g : ℕ) → (slice_index_or marks.items g false ≡ true)
        ↔ ((g < globals) × ((f : ℕ) × (slice_index_or marked.now f false ≡ true) × Contains (spec.globals_at mentions.now f) g))) }
{
    let mut marks = no_marks(alloc, globals)?;
    for place in 0..mentions.len() {
        if !marked[place] {
            continue;
        }
        set_marks(mentions[place].globals.as_slice(), &mut marks);
    }
    Ok(marks)
}

/// The globals that a function and those that it calls name, a mark each.
#[derive(Drop)]
pub struct NamedGlobals {
    marks: Seq<bool>,
}

impl Model for NamedGlobals {
    ghost use Rattle.std.specs.Prelude.{List, Bool};

    ghost Value = { List Bool };

    ghost view = { λ n. n.marks };
}

impl NamedGlobals {
    fn of(
        alloc: Global,
        mentions: &[Mentions],
        globals: usize,
        start: usize,
    ) -> Result<NamedGlobals, AllocError>
        requires { start < length mentions.now }
        ensures { IfOk result (spec.NamesExactly mentions.now globals start) }
    {
        let starts = one_mark(alloc, mentions.len(), start)?;
        let stops = no_marks(alloc, mentions.len())?;
        let marked = reached(alloc, mentions, &starts, &stops)?;
        let marks = named_by(alloc, mentions, marked.as_slice(), globals)?;
        Ok(NamedGlobals {
            marks: Seq::from_vec(marks),
        })
    }

    pub fn contains(&self, global: GlobalId) -> bool
        ensures { result ≡ slice_index_or self.now global.0 false }
    {
        self.marks
            .as_slice()
            .get(global.0)
            .copied()
            .unwrap_or(false)
    }
}

/// For each function what it and those that it calls name.
pub fn named_globals(
    alloc: Global,
    mentions: &[Mentions],
    globals: usize,
) -> Result<Seq<NamedGlobals>, AllocError>
    ensures { IfOk result (spec.IsNamedTable mentions.now globals) }
{
    let mut named = Seq::new(alloc);
    for start in 0..mentions.len() {
        named.push(NamedGlobals::of(alloc, mentions, globals, start)?)?;
    }
    Ok(named)
}
