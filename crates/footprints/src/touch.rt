//! Rules 601 and 604: the zones that instructions, calls and new children touch (reads and writes, effects).

ghost use Rattle.std.specs.Prelude.{◌≡◌, List, Some, IfOk, slice_get};
ghost use Rattle.syntax.specs.declared.operator.Mode.TheVariants.{Writes};
ghost use Rattle.footprints_feet.specs.footprints_zones.Zones.{as_written};
ghost use Rattle.ranges.specs.ranges_owed.Inequalities.{argument_moves};
ghost use Rattle.program.specs.declared.instruction.Step.{Step as StepKind};
ghost use Rattle.footprints.specs.Touched.{pointers_of};
ghost use Rattle.footprints.specs.Footprints.{place_of, address_cell, first_cell, cells_zone, is_allowed, is_clear, cell_use, access_use, put_object};
ghost use Rattle.footprints.specs.Footprints.{put_in, callee_use, call_use, foot_use, step_use, child_foot};
ghost use Rattle.footprints.specs.Touched.{put_use};
ghost use Rattle.footprints.specs.Footprints.{end_use};

use crate::access::{Cell, Pointer, cell_of, cells_zone, first_cell};
use footprints_feet::{
    MeasuredPlace, Place, PlacedZone, Use, as_written, foot_use, is_allowed, is_clear, joined_use,
    no_use, zone_use,
};
use program::{
    Address, Argument, Block, Function, FunctionId, Instruction, Mode, ObjectName, Terminator, Zone,
};
use ranges::{Move, Unanswered, argument_moves};
use refusal::rule;
use std::alloc::Global;

/// 601: of an access of these cells.
fn access_use(alloc: Global, place: &Place<'_>, zone: &Zone) -> Result<Use, Unanswered>
    ensures { IfOk result (λ u. u ≡ access_use (place_of place.now.facts.now place.now.covering.now place.now.own place.now.pending.now) (Some zone.now)) }
{
    let y = as_written(zone);
    Ok(Use {
        number: rule::UNCOVERED_CELL,
        covered: is_allowed(alloc, place, &y)?,
        clear: is_clear(alloc, place, &y)?,
    })
}

/// 601: of an access of this cell; one through a pointer of another block is not covered.
fn cell_use(
    alloc: Global,
    place: &Place<'_>,
    line: u32,
    mode: Mode,
    cell: Option<Cell>,
) -> Result<Use, Unanswered>
    ensures { IfOk result (λ u. u ≡ cell_use (place_of place.now.facts.now place.now.covering.now place.now.own place.now.pending.now) line mode cell) }
{
    match cell {
        Some(cell) => {
            let zone = cells_zone(alloc, line, mode, cell, 1)?;
            access_use(alloc, place, &zone)
        }
        None => Ok(Use {
            number: rule::UNCOVERED_CELL,
            covered: false,
            clear: true,
        }),
    }
}

/// 601: of an access through an address of a block with these pointers.
fn address_use(
    alloc: Global,
    place: &Place<'_>,
    pointers: &[Pointer],
    line: u32,
    mode: Mode,
    address: Address,
) -> Result<Use, Unanswered>
    ensures { (steps : List StepKind) → pointers.now ≡ pointers_of steps → IfOk result (λ u. u ≡ cell_use
        (place_of place.now.facts.now place.now.covering.now place.now.own place.now.pending.now) line mode
        (address_cell steps address)) }
{
    let cell = cell_of(pointers, address);
    cell_use(alloc, place, line, mode, cell)
}

/// 601: of a store of an array of so many cells.
fn array_use(
    alloc: Global,
    place: &Place<'_>,
    line: u32,
    object: ObjectName,
    cells: u64,
) -> Result<Use, Unanswered>
    ensures { IfOk result (λ u. u ≡ access_use
        (place_of place.now.facts.now place.now.covering.now place.now.own place.now.pending.now)
        (Some (cells_zone line Writes (first_cell object) cells))) }
{
    let zone = cells_zone(alloc, line, Mode::Writes, first_cell(object), cells)?;
    access_use(alloc, place, &zone)
}

/// The caller's object behind a callee's name.
pub fn put_object(arguments: &[Argument], object: ObjectName) -> Option<ObjectName>
    ensures { result ≡ put_object arguments.now object }
{
    match object {
        ObjectName::Global(global) => Some(ObjectName::Global(global)),
        ObjectName::Alloca(_) => None,
        ObjectName::Parameter(register) => match arguments.get(register.0) {
            Some(Argument::Object(object)) => Some(*object),
            Some(Argument::Number(_)) | None => None,
        },
    }
}

/// 604: of a callee's zone, with the arguments put in; one of what is no object of the caller is not covered.
fn put_use(
    alloc: Global,
    place: &MeasuredPlace<'_>,
    moves: &[Move],
    arguments: &[Argument],
    zone: &Zone,
) -> Result<Use, Unanswered>
    requires { moves.now ≡ argument_moves 0 arguments.now }
    ensures { IfOk result (λ u. u ≡ put_use place.now (put_in arguments.now zone.now)) }
{
    match put_object(arguments, zone.object) {
        None => Ok(Use {
            number: rule::UNCOVERED_ZONE,
            covered: false,
            clear: true,
        }),
        Some(object) => {
            let y = PlacedZone {
                object,
                moves,
                zone,
            };
            zone_use(alloc, place, &y)
        }
    }
}

/// 604: of a call of this function, which has some zones.
#[tactic(auto, using(crate::proofs::Callees::zones_use_more))]
fn zones_use(
    alloc: Global,
    place: &MeasuredPlace<'_>,
    callee: &Function,
    arguments: &[Argument],
) -> Result<Use, Unanswered>
    ensures { IfOk result (λ u. u ≡ callee_use place.now callee.now arguments.now) }
{
    let moves = argument_moves(alloc, arguments)?;
    let zones = callee.zones.as_slice();
    let mut all = no_use();
    for zone in zones {
        let one = put_use(alloc, place, &moves, arguments, zone)?;
        all = joined_use(all, one);
    }
    Ok(all)
}

/// 604: of a call of this function, its zones.
fn callee_use(
    alloc: Global,
    place: &Place<'_>,
    callee: &Function,
    arguments: &[Argument],
) -> Result<Use, Unanswered>
    ensures { IfOk result (λ u. u ≡ callee_use
        (place_of place.now.facts.now place.now.covering.now place.now.own place.now.pending.now) callee.now arguments.now) }
{
    if callee.zones.as_slice().is_empty() {
        return Ok(no_use());
    }
    let place = MeasuredPlace::new(alloc, place)?;
    zones_use(alloc, &place, callee, arguments)
}

/// 604: of a call, the callee's zones.
fn call_use(
    alloc: Global,
    place: &Place<'_>,
    functions: &[Function],
    callee: FunctionId,
    arguments: &[Argument],
) -> Result<Use, Unanswered>
    ensures { IfOk result (λ u. u ≡ call_use
        (place_of place.now.facts.now place.now.covering.now place.now.own place.now.pending.now)
        (slice_get functions.now callee.0) arguments.now) }
{
    match functions.get(callee.0) {
        Some(callee) => callee_use(alloc, place, callee, arguments),
        None => Ok(no_use()),
    }
}

/// What an instruction of a block with these pointers touches.
pub fn step_use(
    alloc: Global,
    place: &Place<'_>,
    functions: &[Function],
    pointers: &[Pointer],
    line: u32,
    instruction: &Instruction,
) -> Result<Use, Unanswered>
    ensures { (steps : List StepKind) → pointers.now ≡ pointers_of steps → IfOk result (λ u. u ≡ step_use
        (place_of place.now.facts.now place.now.covering.now place.now.own place.now.pending.now) functions.now steps line instruction.now) }
{
    match instruction {
        Instruction::Load { address, .. } => {
            address_use(alloc, place, pointers, line, Mode::Reads, *address)
        }
        Instruction::Store { address, .. } => {
            address_use(alloc, place, pointers, line, Mode::Writes, *address)
        }
        Instruction::AtomicAdd { address, .. } => {
            address_use(alloc, place, pointers, line, Mode::Adds, *address)
        }
        Instruction::StoreZeros { cells, object } => {
            array_use(alloc, place, line, *object, *cells)
        }
        Instruction::Call {
            callee,
            arguments,
            ..
        } => call_use(alloc, place, functions, *callee, arguments.as_slice()),
        Instruction::Binary { .. }
        | Instruction::Compare { .. }
        | Instruction::Convert { .. }
        | Instruction::Alloca { .. }
        | Instruction::ElementPointer { .. }
        | Instruction::StartRegion { .. } => Ok(no_use()),
    }
}

/// The foot of the child of a detach.
pub fn child_foot<'a>(blocks: &'a [Block], terminator: &Terminator) -> &'a [Zone]
    ensures { result.now ≡ child_foot blocks.now terminator.now }
{
    match terminator {
        Terminator::Detach { body, .. } => match blocks.get(body.0) {
            Some(block) => block.foot.as_slice(),
            None => &[],
        },
        Terminator::Jump { .. }
        | Terminator::Branch { .. }
        | Terminator::Switch { .. }
        | Terminator::Return { .. }
        | Terminator::Reattach { .. }
        | Terminator::Sync { .. } => &[],
    }
}

/// What a terminator touches: the foot of a new child.
pub fn end_use(
    alloc: Global,
    place: &Place<'_>,
    blocks: &[Block],
    terminator: &Terminator,
) -> Result<Use, Unanswered>
    ensures { IfOk result (λ u. u ≡ end_use
        (place_of place.now.facts.now place.now.covering.now place.now.own place.now.pending.now) blocks.now terminator.now) }
{
    foot_use(alloc, place, child_foot(blocks, terminator))
}
