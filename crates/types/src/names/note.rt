//! Annotations' zones, `pending` and `left` lines with their names resolved.

ghost use Rattle.std.specs.Prelude.{◌≡◌, List, Result};
ghost use Rattle.program.specs.declared.annotation.Zone.{Zone as ZoneMeaning};
ghost use Rattle.refusal.specs.declared.broken.Broken.{Broken as FaultMeaning};
ghost use Rattle.types.specs.names.Told.{Gives};
ghost use Rattle.types.specs.names.Note as spec;
ghost use Rattle.types.specs.names.Table.{look_up};

use crate::names::address::held_object;
use crate::names::fault::{both_answers, joined, told, unknown_name};
use crate::names::form::{AnnotationPlace, made_before, resolve_form, resolve_parameter};
use crate::names::item::{Item, Items};
use crate::names::operand::{resolve_region, resolve_register};
use crate::names::scope::{Register, Scope};
use crate::names::{Refused, TypeFault};
use lists::{Name, Seq};
use program::{Left, Measure, ObjectName, Pending, RegisterId, Zone};
use std::alloc::Global;

fn noted_global(items: &Items, line: u32, name: &Name) -> Result<ObjectName, TypeFault>
    ensures { result ≡ spec.noted_global line (look_up items.now name.now) }
{
    match items.find(name.as_bytes()) {
        None => Err(unknown_name(line)),
        Some(Item::Function(_)) => Err(unknown_name(line)),
        Some(Item::Global { id, .. }) => Ok(ObjectName::Global(id)),
    }
}

/// The object that a register names in an annotation.
fn noted_holding(line: u32, register: Register) -> Result<ObjectName, TypeFault>
    ensures { result ≡ spec.noted_holding line register }
{
    let object = held_object(line, register.holding)?;
    Ok(object.name)
}

fn noted_parameter(scope: &Scope, line: u32, name: &Name) -> Result<ObjectName, TypeFault>
    ensures { result ≡ spec.noted_parameter scope.now line name.now }
{
    let register = resolve_parameter(scope, line, name)?;
    noted_holding(line, register)
}

fn noted_register(scope: &Scope, line: u32, name: &Name) -> Result<ObjectName, TypeFault>
    ensures { result ≡ spec.noted_register scope.now line name.now }
{
    let register = resolve_register(scope, line, name)?;
    noted_holding(line, register)
}

fn noted_before(
    scope: &Scope,
    block: usize,
    line: u32,
    name: &Name,
) -> Result<ObjectName, TypeFault>
    ensures { result ≡ spec.noted_before scope.now block line name.now }
{
    let register = resolve_register(scope, line, name)?;
    let object = noted_holding(line, register)?;
    made_before(line, block, register)?;
    Ok(object)
}

/// `O` of an annotation.
fn noted_object(
    items: &Items,
    scope: &Scope,
    place: AnnotationPlace,
    line: u32,
    object: &syntax::Address,
) -> Result<ObjectName, TypeFault>
    ensures { result ≡ spec.noted_object items.now scope.now place line object.now }
{
    match object {
        syntax::Address::Global(name) => noted_global(items, line, name),
        syntax::Address::Register(name) => match place {
            AnnotationPlace::Head => noted_parameter(scope, line, name),
            AnnotationPlace::Guarantee(_) => noted_parameter(scope, line, name),
            AnnotationPlace::Body => noted_register(scope, line, name),
            AnnotationPlace::Start(block) => noted_before(scope, block, line, name),
        },
    }
}

/// `O F F`
pub fn resolve_zone(
    alloc: Global,
    items: &Items,
    scope: &Scope,
    place: AnnotationPlace,
    zone: &syntax::Zone,
) -> Result<Zone, Refused>
    ensures { Gives result (spec.zone_of items.now scope.now place zone.now) }
{
    let line = zone.line;
    let object = told(noted_object(items, scope, place, line, &zone.object));
    let low = resolve_form(alloc, scope, place, line, &zone.low);
    let high = resolve_form(alloc, scope, place, line, &zone.high);
    let (object, (low, high)) = both_answers(object, both_answers(low, high))?;
    Ok(Zone {
        line,
        mode: zone.mode,
        object,
        low,
        high,
    })
}

/// The zones that were resolved before, and those of one kind behind them.
pub fn resolve_zones(
    alloc: Global,
    items: &Items,
    scope: &Scope,
    place: AnnotationPlace,
    before: Result<Seq<Zone>, Refused>,
    zones: &[syntax::Zone],
) -> Result<Seq<Zone>, Refused>
    ensures { (meaning : Result (List ZoneMeaning) FaultMeaning) → Gives before meaning
        → Gives result (spec.more_zones items.now scope.now place meaning zones.now) }
{
    let mut resolved = before;
    for zone in zones {
        resolved = joined(resolved, resolve_zone(alloc, items, scope, place, zone));
    }
    resolved
}

/// The zones of one kind.
pub fn resolve_first_zones(
    alloc: Global,
    items: &Items,
    scope: &Scope,
    place: AnnotationPlace,
    zones: &[syntax::Zone],
) -> Result<Seq<Zone>, Refused>
    ensures { Gives result (spec.zones_of items.now scope.now place zones.now) }
{
    let none = Ok(Seq::new(alloc));
    resolve_zones(alloc, items, scope, place, none, zones)
}

/// The region of a `pending` line of a block.
fn pending_region(
    scope: &Scope,
    block: usize,
    line: u32,
    name: &Name,
) -> Result<RegisterId, TypeFault>
    ensures { result ≡ spec.pending_region_of scope.now block line name.now }
{
    let region = resolve_region(scope, line, name)?;
    let register = resolve_register(scope, line, name)?;
    made_before(line, block, register)?;
    Ok(region)
}

fn resolve_pending(
    alloc: Global,
    items: &Items,
    scope: &Scope,
    block: usize,
    pending: &syntax::Pending,
) -> Result<Pending, Refused>
    ensures { Gives result (spec.pending_of items.now scope.now block pending.now) }
{
    let line = pending.zone.line;
    let region = told(pending_region(scope, block, line, &pending.region));
    let zone = resolve_zone(
        alloc,
        items,
        scope,
        AnnotationPlace::Start(block),
        &pending.zone,
    );
    let (region, zone) = both_answers(region, zone)?;
    Ok(Pending { region, zone })
}

/// The `pending` lines of a block.
pub fn resolve_all_pending(
    alloc: Global,
    items: &Items,
    scope: &Scope,
    block: usize,
    lines: &[syntax::Pending],
) -> Result<Seq<Pending>, Refused>
    ensures { Gives result (spec.all_pending_of items.now scope.now block lines.now) }
{
    let mut resolved = Ok(Seq::new(alloc));
    for line in lines {
        resolved = joined(resolved, resolve_pending(alloc, items, scope, block, line));
    }
    resolved
}

/// `left F F`
pub fn resolve_left(
    alloc: Global,
    scope: &Scope,
    block: usize,
    left: &syntax::Left,
) -> Result<Left, Refused>
    ensures { Gives result (spec.left_of scope.now block left.now) }
{
    let line = left.line;
    let place = AnnotationPlace::Start(block);
    let self_calls = resolve_form(alloc, scope, place, line, &left.self_calls);
    let instructions = resolve_form(alloc, scope, place, line, &left.instructions);
    let (self_calls, instructions) = both_answers(self_calls, instructions)?;
    Ok(Left {
        line,
        self_calls,
        instructions,
    })
}

/// `measure F max N`
pub fn resolve_measure(
    alloc: Global,
    scope: &Scope,
    measure: &syntax::Measure,
) -> Result<Measure, Refused>
    ensures { Gives result (spec.measure_of scope.now measure.now) }
{
    let line = measure.line;
    let form = resolve_form(alloc, scope, AnnotationPlace::Head, line, &measure.form)?;
    Ok(Measure {
        line,
        form,
        bound: measure.bound,
    })
}
