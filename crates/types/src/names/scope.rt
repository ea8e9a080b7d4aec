//! The names of a function: parameters, registers with what they hold, and labels (its symbol table).

ghost use Rattle.std.specs.Prelude.{◌≡◌};
ghost use Rattle.types.specs.names.Scope as spec;

use crate::names::table::NameTable;
use program::{BlockId, ObjectName, RegisterId, Width};

/// What a register holds; of an object its name and its number of cells too.
#[derive(Clone, Copy)]
pub enum Holding {
    Number(Width),
    /// `i1`
    Truth,
    /// A whole object: a pointer parameter or an `alloca`.
    Object { name: ObjectName, cells: u64 },
    /// The result of a `getelementptr`.
    Element,
    /// A sync region.
    Region,
}

/// What defines a register.
#[derive(Clone, Copy)]
pub enum Origin {
    Parameter,
    Phi,
    /// An instruction of this block, by its place in the text.
    Step(usize),
}

/// A register with what it holds.
#[derive(Clone, Copy)]
pub struct Register {
    pub id: RegisterId,
    pub holding: Holding,
    pub origin: Origin,
}

/// What a name of a function stands for.
#[derive(Clone, Copy)]
pub enum Named {
    Label(BlockId),
    Register(Register),
}

/// The names of a function: parameters, registers and labels share one name space.
pub type Scope = NameTable<Named>;

/// A register that holds a number of this width.
pub fn is_number_of(width: Width, holding: Holding) -> bool
    ensures { result ≡ spec.is_number_of width holding }
{
    match holding {
        Holding::Number(Width::Bits64) => match width {
            Width::Bits64 => true,
            Width::Bits32 => false,
        },
        Holding::Number(Width::Bits32) => match width {
            Width::Bits64 => false,
            Width::Bits32 => true,
        },
        Holding::Truth | Holding::Object { .. } | Holding::Element | Holding::Region => false,
    }
}

pub fn is_number(holding: Holding) -> bool
    ensures { result ≡ spec.is_number holding }
{
    match holding {
        Holding::Number(_) => true,
        Holding::Truth | Holding::Object { .. } | Holding::Element | Holding::Region => false,
    }
}

pub fn is_truth(holding: Holding) -> bool
    ensures { result ≡ spec.is_truth holding }
{
    match holding {
        Holding::Truth => true,
        Holding::Number(_) | Holding::Object { .. } | Holding::Element | Holding::Region => false,
    }
}

pub fn is_region(holding: Holding) -> bool
    ensures { result ≡ spec.is_region holding }
{
    match holding {
        Holding::Region => true,
        Holding::Number(_) | Holding::Truth | Holding::Object { .. } | Holding::Element => false,
    }
}

pub fn is_parameter(origin: Origin) -> bool
    ensures { result ≡ spec.is_parameter origin }
{
    match origin {
        Origin::Parameter => true,
        Origin::Phi | Origin::Step(_) => false,
    }
}

/// An instruction of this block that is no phi defines the register.
pub fn is_step_of(block: usize, origin: Origin) -> bool
    ensures { result ≡ spec.is_step_of block origin }
{
    match origin {
        Origin::Parameter | Origin::Phi => false,
        Origin::Step(other) => other == block,
    }
}
