//! The cells that an address names: the first of an object, or the one that a `getelementptr` gave.

ghost use Rattle.std.specs.Prelude.{◌≡◌, ◌+ℤ◌, pos, List, IfOk};
ghost use Rattle.program.specs.declared.instruction.Step.{Step as StepKind};
ghost use Rattle.footprints.specs.Pointers.{defined_pointer, pointed_by};
ghost use Rattle.footprints.specs.Touched.{pointers_of};
ghost use Rattle.footprints.specs.Footprints.{pointer_of, pointed, first_cell, address_cell, operand_terms, operand_constant, form_at, cells_zone};

use linear::{Form, RegisterId, Term};
use lists::{OutOfMemory, Seq};
use program::{Address, Instruction, Mode, ObjectName, Operand, Step, Zone};
use std::alloc::Global;

/// A cell of an object.
#[derive(Clone, Copy)]
pub struct Cell {
    pub object: ObjectName,
    pub index: Operand,
}

/// A `getelementptr`: the register that it defines, and the cell that this points to.
#[derive(Clone, Copy)]
pub struct Pointer {
    pub register: RegisterId,
    pub cell: Cell,
}

/// The pointer that an instruction defines.
fn defined_pointer(instruction: &Instruction) -> Option<Pointer>
    ensures { result ≡ defined_pointer instruction.now }
{
    match instruction {
        Instruction::ElementPointer {
            register,
            object,
            index,
        } => Some(Pointer {
            register: *register,
            cell: Cell {
                object: *object,
                index: *index,
            },
        }),
        Instruction::Binary { .. }
        | Instruction::Compare { .. }
        | Instruction::Convert { .. }
        | Instruction::Alloca { .. }
        | Instruction::Load { .. }
        | Instruction::Store { .. }
        | Instruction::StoreZeros { .. }
        | Instruction::AtomicAdd { .. }
        | Instruction::Call { .. }
        | Instruction::StartRegion { .. } => None,
    }
}

/// What an instruction's pointer points to, if its register is this one.
fn pointer_of(register: RegisterId, instruction: &Instruction) -> Option<Cell>
    ensures { result ≡ pointer_of register instruction.now }
{
    match defined_pointer(instruction) {
        Some(pointer) if pointer.register.0 == register.0 => Some(pointer.cell),
        _ => None,
    }
}

/// What the first `getelementptr` among the steps that defines the register points to.
fn pointed(register: RegisterId, steps: &[Step]) -> Option<Cell>
    ensures { result ≡ pointed register steps.now }
{
    for step in steps {
        if let Some(cell) = pointer_of(register, &step.instruction) {
            return Some(cell);
        }
    }
    None
}

/// The pointers that the steps of a block define, in their order: few among very many steps.
pub fn pointers_of(alloc: Global, steps: &[Step]) -> Result<Vec<Pointer>, OutOfMemory>
    ensures { IfOk result (λ pointers. pointers.items ≡ pointers_of steps.now) }
{
    let mut pointers = Vec::new(alloc);
    for step in steps {
        if let Some(pointer) = defined_pointer(&step.instruction) {
            pointers.push(pointer)?;
        }
    }
    Ok(pointers)
}

/// What the first of the pointers with this register points to.
fn pointed_by(register: RegisterId, pointers: &[Pointer]) -> Option<Cell>
    ensures { result ≡ pointed_by register pointers.now }
{
    for pointer in pointers {
        if pointer.register.0 == register.0 {
            return Some(pointer.cell);
        }
    }
    None
}

/// The first cell of an object.
pub fn first_cell(object: ObjectName) -> Cell
    ensures { result ≡ first_cell object }
{
    Cell {
        object,
        index: Operand::Number(0),
    }
}

/// The first cell of an object, or what a `getelementptr` of the block points to.
pub fn address_cell(steps: &[Step], address: Address) -> Option<Cell>
    ensures { result ≡ address_cell steps.now address }
{
    match address {
        Address::First(object) => Some(first_cell(object)),
        Address::Element(register) => pointed(register, steps),
    }
}

/// The first cell of an object, or what one of the block's pointers points to.
pub fn cell_of(pointers: &[Pointer], address: Address) -> Option<Cell>
    ensures { (steps : List StepKind) → pointers.now ≡ pointers_of steps → result ≡ address_cell steps address }
{
    match address {
        Address::First(object) => Some(first_cell(object)),
        Address::Element(register) => pointed_by(register, pointers),
    }
}

fn operand_terms(alloc: Global, operand: Operand) -> Result<Seq<Term>, OutOfMemory>
    ensures { IfOk result (λ terms. terms ≡ operand_terms operand) }
{
    let mut terms = Seq::new(alloc);
    if let Operand::Register(register) = operand {
        terms.push(Term {
            register,
            coefficient: 1,
        })?;
    }
    Ok(terms)
}

fn operand_constant(operand: Operand) -> i64
    ensures { result ≡ operand_constant operand }
{
    match operand {
        Operand::Number(number) => number,
        Operand::Register(_) => 0,
    }
}

/// An operand and so many more.
fn form_at(alloc: Global, operand: Operand, offset: u64) -> Result<Form, OutOfMemory>
    ensures { IfOk result (λ f. f ≡ form_at operand offset) }
{
    let terms = operand_terms(alloc, operand)?;
    let constant = i128::from(operand_constant(operand)) + i128::from(offset);
    Ok(Form { terms, constant })
}

/// So many cells of an object from an index on.
pub fn cells_zone(
    alloc: Global,
    line: u32,
    mode: Mode,
    cell: Cell,
    count: u64,
) -> Result<Zone, OutOfMemory>
    ensures { IfOk result (λ z. z ≡ cells_zone line mode cell count) }
{
    Ok(Zone {
        line,
        mode,
        object: cell.object,
        low: form_at(alloc, cell.index, 0)?,
        high: form_at(alloc, cell.index, count)?,
    })
}
