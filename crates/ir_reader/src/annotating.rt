//! Annotations, each put behind those of its kind.

ghost use Rattle.std.specs.Prelude.{◌≡◌, IfOk, OnOk, Some, None, if◌then◌else◌};
ghost use Rattle.ir_reader.specs.Annotating.{with_zone, annotated_function, annotated_block};

use ir_annotation::Annotation;
use lists::OutOfMemory;
use syntax::{Block, Function, Mode, Zone};

/// A function of which no label has been read, and whether its `measure` and `budget` are written.
#[derive(Drop)]
pub struct FunctionHead {
    pub function: Function,
    pub has_measure: bool,
    pub has_budget: bool,
}

/// A block of which only the label and annotations have been read, and whether its `left` is written.
#[derive(Drop)]
pub struct BlockHead {
    pub block: Block,
    pub has_left: bool,
}

fn add_zone(function: &mut Function, zone: Zone) -> Result<(), OutOfMemory>
    ensures { OnOk result (function.new ≡ with_zone function.old zone) }
{
    match zone.mode {
        Mode::Reads => Ok(function.notes.reads.push(zone)?),
        Mode::Writes => Ok(function.notes.writes.push(zone)?),
        Mode::Adds => Ok(function.notes.adds.push(zone)?),
    }
}

/// Puts an annotation into the head, unless it does not stand at a function, or stands there already: then false.
fn annotate_function_head(
    head: &mut FunctionHead,
    annotation: Annotation,
) -> Result<bool, OutOfMemory>
    ensures { IfOk result (λ stands. annotated_function head.old annotation ≡ (if stands then Some head.new else None)) }
{
    match annotation {
        Annotation::Requires(inequality) => {
            head.function.notes.requirements.push(inequality)?;
            Ok(true)
        }
        Annotation::Ensures(inequality) => {
            head.function.notes.guarantees.push(inequality)?;
            Ok(true)
        }
        Annotation::FunctionZone(zone) => {
            add_zone(&mut head.function, zone)?;
            Ok(true)
        }
        Annotation::Measure(measure) if !head.has_measure => {
            head.function.notes.measure = measure;
            head.has_measure = true;
            Ok(true)
        }
        Annotation::Budget(budget) if !head.has_budget => {
            head.function.notes.budget = budget;
            head.has_budget = true;
            Ok(true)
        }
        other => {
            drop(other);
            Ok(false)
        }
    }
}

/// The head with one more annotation. None: the annotation does not stand at a function, or stands there already.
pub fn annotated_function(
    head: FunctionHead,
    annotation: Annotation,
) -> Result<Option<FunctionHead>, OutOfMemory>
    ensures { IfOk result (λ h. h ≡ annotated_function head annotation) }
{
    let mut head = head;
    match annotate_function_head(&mut head, annotation) {
        Ok(true) => Ok(Some(head)),
        Ok(false) => {
            drop(head);
            Ok(None)
        }
        Err(OutOfMemory) => {
            drop(head);
            Err(OutOfMemory)
        }
    }
}

/// Puts an annotation into the head, unless it does not stand at a block, or stands there already: then false.
fn annotate_block_head(head: &mut BlockHead, annotation: Annotation) -> Result<bool, OutOfMemory>
    ensures { IfOk result (λ stands. annotated_block head.old annotation ≡ (if stands then Some head.new else None)) }
{
    match annotation {
        Annotation::Keeps(inequality) => {
            head.block.notes.keeps.push(inequality)?;
            Ok(true)
        }
        Annotation::Pending(pending) => {
            head.block.notes.pending.push(pending)?;
            Ok(true)
        }
        Annotation::Foot(zone) => {
            head.block.notes.foot.push(zone)?;
            Ok(true)
        }
        Annotation::Left(left) if !head.has_left => {
            head.block.notes.left = left;
            head.has_left = true;
            Ok(true)
        }
        other => {
            drop(other);
            Ok(false)
        }
    }
}

/// The head with one more annotation. None: the annotation does not stand at a block, or stands there already.
pub fn annotated_block(
    head: BlockHead,
    annotation: Annotation,
) -> Result<Option<BlockHead>, OutOfMemory>
    ensures { IfOk result (λ h. h ≡ annotated_block head annotation) }
{
    let mut head = head;
    match annotate_block_head(&mut head, annotation) {
        Ok(true) => Ok(Some(head)),
        Ok(false) => {
            // By name, which is one call. Let go of at the end it goes field by field, once for each way out: that was 51 calls.
            drop(head);
            Ok(None)
        }
        Err(OutOfMemory) => {
            drop(head);
            Err(OutOfMemory)
        }
    }
}
