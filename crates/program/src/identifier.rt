//! The numbers by which globals, functions, blocks and allocas go, and names of whole objects.

ghost use Rattle.std.specs.Prelude.{◌≡◌};
ghost use Rattle.program.specs.ObjectNames.{same_object};

use linear::RegisterId;

/// A global, by its place in the text, from 0.
#[derive(Clone, Copy, PartialEq, Eq)]
pub struct GlobalId(pub usize);

/// A function, by its place in the text, from 0.
#[derive(Clone, Copy, PartialEq, Eq)]
pub struct FunctionId(pub usize);

/// A block of a function, by its place in the text; the entry is 0.
#[derive(Clone, Copy, PartialEq, Eq)]
pub struct BlockId(pub usize);

/// An `alloca` of a function, by its place in the text, from 0.
#[derive(Clone, Copy, PartialEq, Eq)]
pub struct AllocaId(pub usize);

/// A whole object as a function's text names it.
#[derive(Clone, Copy, PartialEq, Eq)]
pub enum ObjectName {
    Global(GlobalId),
    Alloca(AllocaId),
    /// The object that a pointer parameter was given.
    Parameter(RegisterId),
}

/// Whether two names of a function are of one object: its own names are of different objects.
#[inline]
pub fn same_object(left: ObjectName, right: ObjectName) -> bool
    ensures { result ≡ same_object left right }
{
    match (left, right) {
        (ObjectName::Global(a), ObjectName::Global(b)) => a.0 == b.0,
        (ObjectName::Alloca(a), ObjectName::Alloca(b)) => a.0 == b.0,
        (ObjectName::Parameter(a), ObjectName::Parameter(b)) => a.0 == b.0,
        (ObjectName::Global(_), ObjectName::Alloca(_) | ObjectName::Parameter(_))
        | (ObjectName::Alloca(_), ObjectName::Global(_) | ObjectName::Parameter(_))
        | (ObjectName::Parameter(_), ObjectName::Global(_) | ObjectName::Alloca(_)) => false,
    }
}
