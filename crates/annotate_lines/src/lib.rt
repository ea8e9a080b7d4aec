//! Annotations that follow from others, put into a module's text, each of them tried.
//!
//! `proposal` adds lines and changes none. At each block it adds the `keeps` that all ways to it bring along, the `pending` zones that are
//! handed on to it, and what is `left` by what the block does and what is left behind it; within blocks the `shows` lines with which facts show what
//! instructions and edges ask; at a function's head its `budget`, by what is left at its entry. [`with_lines`] tries them by the functions of the verifier's
//! phases, and takes out again what these refuse; [`without_needless`] takes out what an accepted text can do without. Nothing is judged here: whether a text is
//! accepted is for the verifier to say.
//!
//! Proposed: `proposal`, with `derived`, `wanted` and `step`; `plain` (lines that say nothing new). Tried: `tries`,
//! `trial`; `needless` (what can be left out). Texts: `order` (in which blocks are gone through), `new_lines`, `limits`
//! (what was not looked at).
#![tactic(auto)]

mod derived;
mod limits;
mod needless;
mod new_lines;
mod order;
mod plain;
mod proposal;
mod step;
mod trial;
mod tries;
mod wanted;

pub use limits::{Limit, MetLimit};
pub use needless::without_needless;
pub use new_lines::NewLines;
pub use tries::with_lines;
