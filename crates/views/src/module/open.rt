//! Regions in which a child may still run where a block begins (may-happen-in-parallel).

ghost use Rattle.std.specs.Prelude.{◌≡◌, length};

use cfg::BlockEdges;
use program::{Block, RegisterId};
use region_match::{Task, detach_of, open_marks};
use std::alloc::{AllocError, Global};

/// A function's blocks with their edges and tasks, in one order.
#[derive(Clone, Copy)]
pub(crate) struct Blocks<'a> {
    pub bodies: &'a [Block],
    pub edges: &'a [BlockEdges],
    pub tasks: &'a [Task],
    ghost same: { length edges.now ≡ length bodies.now },
}

impl<'a> Blocks<'a> {
    /// None where they are not as many.
    pub(crate) fn new(
        bodies: &'a [Block],
        edges: &'a [BlockEdges],
        tasks: &'a [Task],
    ) -> Option<Blocks<'a>> {
        if edges.len() != bodies.len() {
            return None;
        }
        Some(Blocks {
            bodies,
            edges,
            tasks,
        })
    }
}

/// For each block the regions of which a child may still run where it begins: in the blocks of the task that detaches it, from the
/// continuation on to a sync. A region stands there once.
pub(crate) fn open_regions(
    alloc: Global,
    blocks: Blocks<'_>,
) -> Result<Vec<Vec<RegisterId>>, AllocError> {
    let mut open: Vec<Vec<RegisterId>> = Vec::new(alloc);
    for _block in 0..blocks.bodies.len() {
        open.push(Vec::new(alloc))?;
    }
    for detach in 0..blocks.bodies.len() {
        if let Some((region, continuation)) = detach_of(blocks.bodies, detach) {
            let marks = open_marks(alloc, blocks.bodies, blocks.edges, region, continuation)?;
            put_region(&mut open, blocks.tasks, detach, region, marks.as_slice())?;
        }
    }
    Ok(open)
}

/// Puts the region to each marked block of the detach's task.
fn put_region(
    open: &mut Vec<Vec<RegisterId>>,
    tasks: &[Task],
    detach: usize,
    region: RegisterId,
    marks: &[bool],
) -> Result<(), AllocError> {
    for block in 0..open.len() {
        if matches!(marks.get(block), Some(true))
            && tasks.get(block) == tasks.get(detach)
            && !open[block].as_slice().contains(&region)
        {
            open[block].push(region)?;
        }
    }
    Ok(())
}
