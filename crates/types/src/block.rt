//! Blocks with their names resolved: annotations at the head, phis, steps and the ending.

ghost use Rattle.std.specs.Prelude.{◌≡◌};
ghost use Rattle.types.specs.Block as spec;
ghost use Rattle.types.specs.names.Told.{Gives};

use crate::call::FunctionContext;
use crate::instruction::{resolve_phis, resolve_steps};
use crate::names::{
    AnnotationPlace, Refused, both_answers, joined, resolve_all_pending, resolve_first_zones,
    resolve_inequalities, resolve_left,
};
use crate::terminator::resolve_ending;
use lists::Seq;
use program::{Block, Ending, Inequality, Left, Pending, Phi, Step, Zone};
use std::alloc::Global;

/// The annotations at a block's head.
#[derive(Drop)]
struct Head {
    keeps: Seq<Inequality>,
    pending: Seq<Pending>,
    left: Left,
    foot: Seq<Zone>,
}

/// What stands behind a block's annotations.
#[derive(Drop)]
struct Body {
    phis: Seq<Phi>,
    steps: Seq<Step>,
    ending: Option<Ending>,
}

fn resolve_head(
    alloc: Global,
    context: &FunctionContext,
    block: usize,
    notes: &syntax::BlockNotes,
) -> Result<Head, Refused>
    ensures { Gives result (spec.head_of context.now.world.items.now context.now.scope.now block notes.now) }
{
    let items = context.world.items;
    let scope = context.scope;
    let place = AnnotationPlace::Start(block);
    let keeps = resolve_inequalities(alloc, scope, place, notes.keeps.as_slice());
    let pending = resolve_all_pending(alloc, items, scope, block, notes.pending.as_slice());
    let left = resolve_left(alloc, scope, block, &notes.left);
    let foot = notes.foot.as_slice();
    let foot = resolve_first_zones(alloc, items, scope, AnnotationPlace::Body, foot);
    let ((keeps, pending), (left, foot)) = both_answers(
        both_answers(keeps, pending),
        both_answers(left, foot),
    )?;
    Ok(Head {
        keeps,
        pending,
        left,
        foot,
    })
}

fn resolve_body(
    alloc: Global,
    context: &FunctionContext,
    function: usize,
    place: usize,
    block: &syntax::Block,
) -> Result<Body, Refused>
    ensures { Gives result
        (spec.body_of context.now.world.items.now context.now.world.functions.now context.now.world.named.now
        context.now.scope.now function place context.now.result_type block.now) }
{
    let phis = resolve_phis(alloc, context.scope, block.phis.as_slice());
    let steps = resolve_steps(alloc, context, function, place, block.steps.as_slice());
    let ending = resolve_ending(alloc, context.scope, context.result_type, &block.ending);
    let (phis, (steps, ending)) = both_answers(phis, both_answers(steps, ending))?;
    Ok(Body {
        phis,
        steps,
        ending,
    })
}

fn resolve_block(
    alloc: Global,
    context: &FunctionContext,
    function: usize,
    place: usize,
    block: &syntax::Block,
) -> Result<Block, Refused>
    ensures { Gives result
        (spec.block_of context.now.world.items.now context.now.world.functions.now context.now.world.named.now
        context.now.scope.now function context.now.result_type place block.now) }
{
    let head = resolve_head(alloc, context, place, &block.notes);
    let body = resolve_body(alloc, context, function, place, block);
    let (head, body) = both_answers(head, body)?;
    Ok(Block {
        line: block.line,
        keeps: head.keeps,
        pending: head.pending,
        left: head.left,
        foot: head.foot,
        phis: body.phis,
        steps: body.steps,
        ending: body.ending,
    })
}

/// The blocks of a function.
pub fn resolve_blocks(
    alloc: Global,
    context: &FunctionContext,
    function: usize,
    blocks: &[syntax::Block],
) -> Result<Seq<Block>, Refused>
    ensures { Gives result
        (spec.blocks_of context.now.world.items.now context.now.world.functions.now context.now.world.named.now
        context.now.scope.now function context.now.result_type blocks.now) }
{
    let mut resolved = Ok(Seq::new(alloc));
    for place in 0..blocks.len() {
        let block = &blocks[place];
        resolved = joined(
            resolved,
            resolve_block(alloc, context, function, place, block),
        );
    }
    resolved
}
