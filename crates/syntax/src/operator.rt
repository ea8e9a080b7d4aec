//! Operators: widths, binary operations, predicates of `icmp`, conversions; and the modes of zones.

/// The width of a number's type: `i64` or `i32`.
#[derive(Clone, Copy, PartialEq, Eq)]
pub enum Width {
    Bits64,
    Bits32,
}

/// A binary operation on integers (LLVM Language Reference, "Binary Operations" and "Bitwise Binary Operations").
#[derive(Clone, Copy, PartialEq, Eq)]
pub enum BinaryOperator {
    /// `add`
    Add,
    /// `sub`
    Subtract,
    /// `mul`
    Multiply,
    /// `add nsw`
    AddNoWrap,
    /// `sub nsw`
    SubtractNoWrap,
    /// `mul nsw`
    MultiplyNoWrap,
    /// `sdiv`
    SignedDivide,
    /// `udiv`
    UnsignedDivide,
    /// `srem`
    SignedRemainder,
    /// `urem`
    UnsignedRemainder,
    /// `shl`
    ShiftLeft,
    /// `lshr`
    LogicalShiftRight,
    /// `ashr`
    ArithmeticShiftRight,
    /// `and`
    And,
    /// `or`
    Or,
    /// `xor`
    ExclusiveOr,
}

/// How `icmp` compares (LLVM Language Reference, "icmp").
#[derive(Clone, Copy)]
pub enum Predicate {
    /// `eq`
    Equal,
    /// `ne`
    NotEqual,
    /// `ugt`
    UnsignedGreater,
    /// `uge`
    UnsignedAtLeast,
    /// `ult`
    UnsignedLess,
    /// `ule`
    UnsignedAtMost,
    /// `sgt`
    SignedGreater,
    /// `sge`
    SignedAtLeast,
    /// `slt`
    SignedLess,
    /// `sle`
    SignedAtMost,
}

/// A conversion between the two widths (LLVM Language Reference, "Conversion Operations").
#[derive(Clone, Copy)]
pub enum Conversion {
    /// `trunc i64 V to i32`
    Truncate,
    /// `sext i32 V to i64`
    SignExtend,
    /// `zext i32 V to i64`
    ZeroExtend,
}

/// What a zone's cells may be used for.
#[derive(Clone, Copy, PartialEq, Eq)]
pub enum Mode {
    /// `reads`
    Reads,
    /// `writes`: any use
    Writes,
    /// `adds`: `atomicrmw add` alone
    Adds,
}
