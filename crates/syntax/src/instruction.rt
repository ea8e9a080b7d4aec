//! The syntax tree of instructions: operands, addresses, arguments, phis and steps.

ghost use Rattle.std.specs.Prelude.{◌≡◌};
ghost use Rattle.syntax.specs.Cells.{size_cells};

use crate::annotation::Inequality;
use crate::operator::{BinaryOperator, Conversion, Predicate, Width};
use lists::{Name, Seq};

/// A value of a number's type as the text writes it: a number or a register.
#[derive(Drop)]
pub enum Operand {
    Number(i64),
    Register(Name),
}

/// A value of type `ptr` as the text writes it: a register or a global.
#[derive(Drop)]
pub enum Address {
    Register(Name),
    Global(Name),
}

/// An argument of a call: `i64 V` or `ptr P`.
#[derive(Drop)]
pub enum Argument {
    Number(Operand),
    Pointer(Address),
}

/// How an `alloca` spells its size: `i64` or `[N x i64]`.
#[derive(Clone, Copy)]
pub enum AllocaSize {
    One,
    Array(u64),
}

impl AllocaSize {
    /// The number of cells that it makes.
    pub fn cells(self) -> u64
        ensures { result ≡ size_cells self }
    {
        match self {
            AllocaSize::One => 1,
            AllocaSize::Array(cells) => cells,
        }
    }
}

/// `[ V, %l ]` of a phi.
#[derive(Drop)]
pub struct PhiEntry {
    pub value: Operand,
    pub predecessor: Name,
}

/// `%d = phi T [ V, %l ], ..`
#[derive(Drop)]
pub struct Phi {
    pub line: u32,
    pub register: Name,
    pub width: Width,
    pub entries: Seq<PhiEntry>,
}

/// An instruction that is neither a phi nor a terminator. `register` is the register that it defines.
#[derive(Drop)]
pub enum Instruction {
    /// `%d = OP T V, V`
    Binary {
        register: Name,
        operator: BinaryOperator,
        width: Width,
        left: Operand,
        right: Operand,
    },
    /// `%d = icmp PRED T V, V`
    Compare {
        register: Name,
        predicate: Predicate,
        width: Width,
        left: Operand,
        right: Operand,
    },
    /// `%d = trunc i64 V to i32` and its like
    Convert {
        register: Name,
        conversion: Conversion,
        value: Operand,
    },
    /// `%d = alloca ..`
    Alloca {
        register: Name,
        size: AllocaSize,
    },
    /// `%d = getelementptr inbounds i64, ptr P, i64 V`
    ElementPointer {
        register: Name,
        base: Address,
        index: Operand,
    },
    /// `%d = load i64, ptr P`
    Load {
        register: Name,
        address: Address,
    },
    /// `store i64 V, ptr P`
    Store {
        value: Operand,
        address: Address,
    },
    /// `store [N x i64] zeroinitializer, ptr P`
    StoreZeros {
        cells: u64,
        address: Address,
    },
    /// `atomicrmw add ptr P, i64 V seq_cst`
    AtomicAdd {
        address: Address,
        value: Operand,
    },
    /// `%d = call i64 @f(..)`, and with no register `call void @f(..)`
    Call {
        register: Option<Name>,
        callee: Name,
        arguments: Seq<Argument>,
    },
    /// `%s = call token @llvm.syncregion.start()`
    StartRegion {
        register: Name,
    },
}

impl Instruction {
    /// The register that it defines, if it defines one.
    pub fn register(&self) -> Option<&Name> {
        match self {
            Instruction::Binary { register, .. } => Some(register),
            Instruction::Compare { register, .. } => Some(register),
            Instruction::Convert { register, .. } => Some(register),
            Instruction::Alloca { register, .. } => Some(register),
            Instruction::ElementPointer { register, .. } => Some(register),
            Instruction::Load { register, .. } => Some(register),
            Instruction::StartRegion { register } => Some(register),
            Instruction::Call { register, .. } => register.as_ref(),
            Instruction::Store { .. }
            | Instruction::StoreZeros { .. }
            | Instruction::AtomicAdd { .. } => None,
        }
    }
}

/// An instruction with the `shows` lines directly before it.
#[derive(Drop)]
pub struct Step {
    pub line: u32,
    pub shows: Seq<Inequality>,
    pub instruction: Instruction,
}
