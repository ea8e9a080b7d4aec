//! Instructions, phis and terminators with resolved names: operands, addresses and targets are numbers.

ghost use Rattle.std.specs.Prelude.{◌≡◌, IsSome, Some};
ghost use Rattle.program.specs.Phis.{entry_for};

use crate::annotation::Inequality;
use crate::identifier::{AllocaId, BlockId, FunctionId, ObjectName};
use linear::RegisterId;
use syntax::{BinaryOperator, Conversion, Predicate, Seq, Width};

/// A number, or the value of a register.
#[derive(Clone, Copy, PartialEq, Eq)]
pub enum Operand {
    Number(i64),
    Register(RegisterId),
}

/// A cell: the first of an object, or the one that a `getelementptr` of the same block gave.
#[derive(Clone, Copy)]
pub enum Address {
    First(ObjectName),
    Element(RegisterId),
}

/// An argument of a call: a number or a whole object.
#[derive(Clone, Copy)]
pub enum Argument {
    Number(Operand),
    Object(ObjectName),
}

/// What a phi takes where the run comes from `predecessor`.
#[derive(Clone, Copy)]
pub struct PhiEntry {
    pub value: Operand,
    pub predecessor: BlockId,
}

/// A phi (LLVM Language Reference, "phi").
#[derive(Drop)]
pub struct Phi {
    pub line: u32,
    pub register: RegisterId,
    pub width: Width,
    pub entries: Seq<PhiEntry>,
}

/// The value of the first entry that names a predecessor.
#[inline(always)]
pub fn entry_for(entries: &[PhiEntry], predecessor: BlockId) -> Option<Operand>
    ensures { result ≡ entry_for predecessor.0 entries.now }
{
    for entry in entries {
        if entry.predecessor.0 == predecessor.0 {
            return Some(entry.value);
        }
    }
    None
}

/// What a phi takes where the run comes from a block that one of its entries names.
#[inline(always)]
pub fn entry_from(entries: &[PhiEntry], predecessor: BlockId) -> Operand
    requires { IsSome (entry_for predecessor.0 entries.now) }
    ensures { entry_for predecessor.0 entries.now ≡ Some result }
{
    match entry_for(entries, predecessor) {
        Some(value) => value,
        None => unreachable!(),
    }
}

/// An instruction that is neither a phi nor a terminator. `register` is the register that it defines.
#[derive(Drop)]
pub enum Instruction {
    Binary {
        register: RegisterId,
        operator: BinaryOperator,
        width: Width,
        left: Operand,
        right: Operand,
    },
    Compare {
        register: RegisterId,
        predicate: Predicate,
        width: Width,
        left: Operand,
        right: Operand,
    },
    Convert {
        register: RegisterId,
        conversion: Conversion,
        value: Operand,
    },
    /// Counts as an instruction; the cells are made with the frame.
    Alloca {
        register: RegisterId,
        alloca: AllocaId,
    },
    /// The cell of an object at an index.
    ElementPointer {
        register: RegisterId,
        object: ObjectName,
        index: Operand,
    },
    Load {
        register: RegisterId,
        address: Address,
    },
    Store {
        value: Operand,
        address: Address,
    },
    /// Sets the first cells of an object to 0.
    StoreZeros {
        cells: u64,
        object: ObjectName,
    },
    AtomicAdd {
        address: Address,
        value: Operand,
    },
    Call {
        register: Option<RegisterId>,
        callee: FunctionId,
        arguments: Seq<Argument>,
    },
    /// Starts a sync region; `register` names it from here on.
    StartRegion {
        register: RegisterId,
    },
}

/// An instruction with the `shows` lines directly before it.
#[derive(Drop)]
pub struct Step {
    pub line: u32,
    pub shows: Seq<Inequality>,
    pub instruction: Instruction,
}

/// A case of a switch.
#[derive(Clone, Copy)]
pub struct Case {
    pub number: i64,
    pub target: BlockId,
}

/// What ends a block (LLVM Language Reference, "Terminator Instructions"; Tapir for the last three).
#[derive(Drop)]
pub enum Terminator {
    Jump {
        target: BlockId,
    },
    Branch {
        condition: RegisterId,
        when_true: BlockId,
        when_false: BlockId,
    },
    Switch {
        width: Width,
        value: Operand,
        default: BlockId,
        cases: Seq<Case>,
    },
    Return {
        value: Option<Operand>,
    },
    Detach {
        region: RegisterId,
        body: BlockId,
        continuation: BlockId,
    },
    Reattach {
        region: RegisterId,
        continuation: BlockId,
    },
    Sync {
        region: RegisterId,
        target: BlockId,
    },
}

/// A terminator with the `shows` lines directly before it.
#[derive(Drop)]
pub struct Ending {
    pub line: u32,
    pub shows: Seq<Inequality>,
    pub terminator: Terminator,
}
