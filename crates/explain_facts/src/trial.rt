//! A text as the phases before those of numbers, zones and costs take it.

use crate::finding::Source;
use crate::means::Means;
use cfg::{BlockEdges, Graph, graph};
use definedness::defined;
use ir_reader::read;
use lists::OutOfMemory;
use refusal::Refused;
use region_match::{Regions, regions};
use std::alloc::Global;
use std::hash::RandomState;
use syntax::Module;
use types::check_types;

/// A module whose graph and regions are right, beside its tree, which has the names.
pub struct Matched {
    pub whole: Module,
    pub graph: Graph,
    pub regions: Regions,
}

/// Written out, so that no crate above proves it anew.
impl Drop for Matched {
    fn drop(self) {
        let Matched {
            whole: _,
            graph: _,
            regions: _,
        } = self;
    }
}

impl Matched {
    /// The edges of the blocks of a function.
    pub fn edges(&self, function: usize) -> &[BlockEdges] {
        match self.graph.functions.as_slice().get(function) {
            Some(function) => function.blocks.as_slice(),
            None => &[],
        }
    }
}

fn judged(
    alloc: Global,
    state: RandomState,
    text: &[u8],
    is_defined: bool,
) -> Result<Matched, Refused> {
    let typed = check_types(alloc, state, read(alloc, state, text)?)?;
    let graph = graph(alloc, typed.program)?;
    let regions = regions(alloc, &graph)?;
    if is_defined {
        defined(alloc, &graph, &regions)?;
    }
    Ok(Matched {
        whole: read(alloc, state, text)?,
        graph,
        regions,
    })
}

/// The module of a text, unless a phase up to that of regions refuses it, or up to that of uses where `is_defined` asks for it.
pub fn match_text(
    alloc: Global,
    state: RandomState,
    text: &[u8],
    is_defined: bool,
) -> Result<Option<Matched>, OutOfMemory> {
    match judged(alloc, state, text, is_defined) {
        Ok(matched) => Ok(Some(matched)),
        Err(Refused::Fault { .. }) => Ok(None),
        Err(Refused::Memory) => Err(OutOfMemory),
    }
}

/// The module of a text that the phases up to that of uses take, where its judgement counts so many steps; none where one of them refuses it, or memory or
/// effort did not reach till now.
pub fn taken(means: &Means<'_>, source: Source<'_>, steps: usize) -> Option<Matched> {
    if !means.spend(steps) {
        return None;
    }
    means.found(match_text(means.alloc, source.state, source.text.as_bytes(), true))
}
