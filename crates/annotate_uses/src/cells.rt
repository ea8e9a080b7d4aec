//! The cells that instructions touch, and the zones that may cover them.

use crate::goal::{Call, Scope, pointer_cells};
use annotate_facts::{Edge, Heap, Sum, Way, block_at};
use lists::Name;
use syntax::{Address, Argument, Function, FunctionNotes, Instruction, Mode, Operand, Step, Zone};

/// How often the edges are gone along to find the children that blocks belong to.
const MOST_ROUNDS: usize = 16;

/// Cells of an object, and how they are touched.
pub struct Cells<'a> {
    pub mode: Mode,
    pub object: &'a Address,
    pub low: Sum<'a>,
    pub high: Sum<'a>,
}

/// Written out, so that each path that lets go of cells is short.
impl Drop for Cells<'_> {
    fn drop(self) {
        let Cells {
            mode: _,
            object: _,
            low: _,
            high: _,
        } = self;
    }
}

/// Whether both are one global or one register.
pub fn is_same_object(one: &Address, other: &Address) -> bool {
    match (one, other) {
        (Address::Register(one), Address::Register(other)) => one.is_same(other),
        (Address::Global(one), Address::Global(other)) => one.is_same(other),
        _ => false,
    }
}

impl<'a> Cells<'a> {
    /// The cells of a zone.
    pub fn of_zone(heap: &'a Heap, zone: &'a Zone) -> Cells<'a> {
        Cells {
            mode: zone.mode,
            object: &zone.object,
            low: Sum::of_form(heap, &zone.low),
            high: Sum::of_form(heap, &zone.high),
        }
    }

    /// The cells that a call touches by a zone of its callee; none where it is of no object of the caller's.
    fn of_call(call: Call<'a>, zone: &'a Zone) -> Option<Cells<'a>> {
        match object_of(call, zone) {
            Some(object) => Some(Cells {
                mode: zone.mode,
                object,
                low: call.put_in_form(&zone.low),
                high: call.put_in_form(&zone.high),
            }),
            None => None,
        }
    }

    /// Whether a zone is of the same object, and lets the cells be touched.
    pub fn may_lie_in(&self, zone: &Zone) -> bool {
        is_same_object(self.object, &zone.object)
            && (zone.mode == Mode::Writes || zone.mode == self.mode)
    }

    /// Whether they are of an `alloca` of the function.
    pub fn is_own(&self, function: &Function) -> bool {
        match self.object {
            Address::Global(_) => false,
            Address::Register(name) => pointer_cells(function, name).is_none(),
        }
    }
}

/// The caller's object that a zone of the callee is of.
fn object_of<'a>(call: Call<'a>, zone: &'a Zone) -> Option<&'a Address> {
    match &zone.object {
        Address::Global(_) => Some(&zone.object),
        Address::Register(name) => match call.argument(name.as_str()) {
            Some(Argument::Pointer(object)) => Some(object),
            _ => None,
        },
    }
}

/// The base and the index of the `getelementptr` among these steps that defines a register.
fn element_of<'a>(steps: &'a [Step], name: &Name) -> Option<(&'a Address, &'a Operand)> {
    for step in steps {
        match &step.instruction {
            Instruction::ElementPointer {
                register,
                base,
                index,
            } if register.is_same(name) => return Some((base, index)),
            _ => {}
        }
    }
    None
}

/// The cells that an instruction of a block touches by an address: those of the object itself, or from where the `getelementptr` leads that defines the address.
fn accessed<'a>(
    heap: &'a Heap,
    steps: &'a [Step],
    instruction: &'a Instruction,
) -> Option<Cells<'a>> {
    let (object, mode, count) = match instruction {
        Instruction::Load { address, .. } => (address, Mode::Reads, 1),
        Instruction::Store { address, .. } => (address, Mode::Writes, 1),
        Instruction::AtomicAdd { address, .. } => (address, Mode::Adds, 1),
        Instruction::StoreZeros { address, cells } => (address, Mode::Writes, i128::from(*cells)),
        _ => return None,
    };
    let mut cells = Cells {
        mode,
        object,
        low: Sum::number(heap, 0),
        high: Sum::number(heap, count),
    };
    if let Address::Register(name) = object {
        if let Some((base, index)) = element_of(steps, name) {
            cells.object = base;
            cells.low.add_operand(index, 1);
            cells.high.add_operand(index, 1);
        }
    }
    Some(cells)
}

/// The zones of a function, by their modes.
fn zones_of(notes: &FunctionNotes) -> [&[Zone]; 3] {
    [
        notes.reads.as_slice(),
        notes.writes.as_slice(),
        notes.adds.as_slice(),
    ]
}

impl<'a> Scope<'a> {
    /// Adds the cells that a call touches by some zones of its callee.
    fn push_called(self, out: &mut Vec<Cells<'a>>, call: Call<'a>, zones: &'a [Zone]) {
        for zone in zones {
            if let Some(cells) = Cells::of_call(call, zone) {
                self.heap.push(out, cells);
            }
        }
    }

    /// The cells that an instruction of a block touches.
    pub fn touched(self, steps: &'a [Step], instruction: &'a Instruction) -> Vec<Cells<'a>> {
        let mut out = self.heap.list();
        if let Some(cells) = accessed(self.heap, steps, instruction) {
            self.heap.push(&mut out, cells);
        }
        if let Some(call) = self.call_of(instruction) {
            for zones in &zones_of(&call.callee.notes) {
                self.push_called(&mut out, call, zones);
            }
        }
        out
    }

    /// The zones that cover what the blocks of a child may touch, by the child's first block; what the function may touch, where that is the entry.
    pub fn covering(self, first: usize) -> [&'a [Zone]; 3] {
        match block_at(self.function, first) {
            Some(child) if first != 0 => [child.notes.foot.as_slice(), &[], &[]],
            _ => zones_of(&self.function.notes),
        }
    }
}

/// Says along an edge that its target is of the same child, or the first block of a new one. Whether that is new.
fn pass_on(firsts: &mut Vec<Option<usize>>, edge: Edge<'_>) -> bool {
    let first = match edge.way {
        Way::Detached => Some(edge.to),
        _ => firsts.get(edge.from).copied().flatten(),
    };
    if edge.to >= firsts.len() || firsts[edge.to].is_some() {
        return false;
    }
    firsts[edge.to] = first;
    first.is_some()
}

/// For each block the first one of the child that it belongs to: the entry, where that is the function itself; none where it is not known.
pub fn firsts_of(heap: &Heap, edges: &[Edge<'_>], count: usize) -> Vec<Option<usize>> {
    let mut firsts = heap.list();
    for block in 0..count {
        heap.push(&mut firsts, if block == 0 { Some(0) } else { None });
    }
    for _round in 0..MOST_ROUNDS {
        let mut is_new = false;
        for edge in edges {
            is_new = pass_on(&mut firsts, *edge) || is_new;
        }
        if !is_new {
            break;
        }
    }
    firsts
}
