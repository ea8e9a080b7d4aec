//! Binary operations, comparisons and conversions on words of two widths, of operands that do not trap.

ghost use Rattle.std.specs.Prelude.{◌≡◌, ◌<◌, ◌^◌, ◌%◌, ◌≢◌, ◌+ℤ◌, ◌-ℤ◌, ◌*ℤ◌, ℤ};
ghost use Rattle.std.specs.Int.{w64, int_wrap, int_bit_and, int_bit_or, int_bit_xor};
ghost use Rattle.semantics.specs.Arithmetic as running;
ghost use Rattle.semantics.specs.Arithmetic.{word, Gives};
ghost use Rattle.frame_engine.specs.Operands.{Fits};
ghost use Rattle.program.specs.Widths.{source_width};
ghost use Rattle.frame_engine.specs.Arithmetic.{IsGiven};
ghost use Rattle.syntax.specs.declared.operator.BinaryOperator.TheVariants.{SignedDivide, UnsignedDivide, SignedRemainder, UnsignedRemainder};
ghost use Rattle.syntax.specs.declared.operator.BinaryOperator.TheVariants.{ShiftLeft, LogicalShiftRight, ArithmeticShiftRight};
ghost use Rattle.syntax.specs.declared.operator.Width.TheVariants.{Bits32};
ghost use mir.Val.{bits as bits_of};

use program::{BinaryOperator, Conversion, Predicate, Width};

/// The sum modulo 2^64.
#[inline(always)]
pub fn sum(left: i64, right: i64) -> i64
    ensures { result ≡ running.cell_sum left right }
{
    left.wrapping_add(right)
}

/// The number's bits, read as an unsigned number.
#[inline(always)]
fn unsigned(width: Width, number: i64) -> u64
    ensures in_range { result < 2 ^ bits_of (word width) }
    ensures value { Fits width number → result ≡ running.unsigned width number }
{
    match width {
        Width::Bits64 => number.cast_unsigned(),
        Width::Bits32 => number.cast_unsigned() % 4294967296,
    }
}

/// The low bits, read as a signed number.
#[inline(always)]
fn signed(width: Width, bits: u64) -> i64
    ensures fits { Fits width result }
    ensures low_bits { result ≡ running.signed width (bits % 2 ^ bits_of (word width)) }
    ensures value { bits < 2 ^ bits_of (word width) → result ≡ running.signed width bits }
{
    match width {
        Width::Bits64 => bits.cast_signed(),
        Width::Bits32 => ((bits % 4294967296) as u32).cast_signed() as i64,
    }
}

/// The number modulo 2 to the width.
#[inline(always)]
fn wrapped(width: Width, number: i64) -> i64
    ensures fits { Fits width result }
    ensures value { result ≡ running.wrapped width number }
{
    signed(width, number.cast_unsigned())
}

/// The bits of both.
#[inline(always)]
fn both(width: Width, left: i64, right: i64) -> i64
    ensures { Fits width left → Fits width right → result ≡ int_bit_and (word width) left right }
{
    signed(width, unsigned(width, left) & unsigned(width, right))
}

/// The bits of either.
#[inline(always)]
fn either(width: Width, left: i64, right: i64) -> i64
    ensures { Fits width left → Fits width right → result ≡ int_bit_or (word width) left right }
{
    signed(width, unsigned(width, left) | unsigned(width, right))
}

/// The bits of one alone.
#[inline(always)]
fn differing(width: Width, left: i64, right: i64) -> i64
    ensures { Fits width left → Fits width right → result ≡ int_bit_xor (word width) left right }
{
    signed(width, unsigned(width, left) ^ unsigned(width, right))
}

#[inline(always)]
fn signed_quotient(width: Width, left: i64, right: i64) -> i64
    requires left { Fits width left }
    requires right { Fits width right }
    requires given { IsGiven (running.binary SignedDivide width left right) }
    ensures { Gives result ≡ running.binary SignedDivide width left right }
{
    left / right
}

#[inline(always)]
fn signed_remainder(width: Width, left: i64, right: i64) -> i64
    requires left { Fits width left }
    requires right { Fits width right }
    requires given { IsGiven (running.binary SignedRemainder width left right) }
    ensures { Gives result ≡ running.binary SignedRemainder width left right }
{
    left % right
}

#[inline(always)]
fn unsigned_quotient(width: Width, left: i64, right: i64) -> i64
    requires left { Fits width left }
    requires right { Fits width right }
    requires given { IsGiven (running.binary UnsignedDivide width left right) }
    ensures { Gives result ≡ running.binary UnsignedDivide width left right }
{
    signed(width, unsigned(width, left) / unsigned(width, right))
}

#[inline(always)]
fn unsigned_remainder(width: Width, left: i64, right: i64) -> i64
    requires left { Fits width left }
    requires right { Fits width right }
    requires given { IsGiven (running.binary UnsignedRemainder width left right) }
    ensures { Gives result ≡ running.binary UnsignedRemainder width left right }
{
    signed(width, unsigned(width, left) % unsigned(width, right))
}

#[inline(always)]
fn shifted_left(width: Width, left: i64, right: i64) -> i64
    requires left { Fits width left }
    requires right { Fits width right }
    requires given { IsGiven (running.binary ShiftLeft width left right) }
    ensures { Gives result ≡ running.binary ShiftLeft width left right }
{
    signed(width, unsigned(width, left) << unsigned(width, right))
}

#[inline(always)]
fn shifted_right(width: Width, left: i64, right: i64) -> i64
    requires left { Fits width left }
    requires right { Fits width right }
    requires given { IsGiven (running.binary LogicalShiftRight width left right) }
    ensures { Gives result ≡ running.binary LogicalShiftRight width left right }
{
    signed(width, unsigned(width, left) >> unsigned(width, right))
}

#[inline(always)]
fn shifted_right_signed(width: Width, left: i64, right: i64) -> i64
    requires left { Fits width left }
    requires right { Fits width right }
    requires given { IsGiven (running.binary ArithmeticShiftRight width left right) }
    ensures { Gives result ≡ running.binary ArithmeticShiftRight width left right }
{
    left >> unsigned(width, right)
}

/// The result of a binary operation of the width, which has one.
#[inline(always)]
fn operate(operator: BinaryOperator, width: Width, left: i64, right: i64) -> i64
    requires left { Fits width left }
    requires right { Fits width right }
    requires given { IsGiven (running.binary operator width left right) }
    ensures { Gives result ≡ running.binary operator width left right }
{
    match operator {
        BinaryOperator::Add => wrapped(width, left.wrapping_add(right)),
        BinaryOperator::Subtract => wrapped(width, left.wrapping_sub(right)),
        BinaryOperator::Multiply => wrapped(width, left.wrapping_mul(right)),
        BinaryOperator::AddNoWrap => left.wrapping_add(right),
        BinaryOperator::SubtractNoWrap => left.wrapping_sub(right),
        BinaryOperator::MultiplyNoWrap => left.wrapping_mul(right),
        BinaryOperator::SignedDivide => signed_quotient(width, left, right),
        BinaryOperator::UnsignedDivide => unsigned_quotient(width, left, right),
        BinaryOperator::SignedRemainder => signed_remainder(width, left, right),
        BinaryOperator::UnsignedRemainder => unsigned_remainder(width, left, right),
        BinaryOperator::ShiftLeft => shifted_left(width, left, right),
        BinaryOperator::LogicalShiftRight => shifted_right(width, left, right),
        BinaryOperator::ArithmeticShiftRight => shifted_right_signed(width, left, right),
        BinaryOperator::And => both(width, left, right),
        BinaryOperator::Or => either(width, left, right),
        BinaryOperator::ExclusiveOr => differing(width, left, right),
    }
}

/// The result of a binary operation at 32 bits. It is rare, so its code is kept out of the loop that calls it.
#[cold]
#[inline(never)]
fn narrow(operator: BinaryOperator, left: i64, right: i64) -> i64
    requires left { Fits Bits32 left }
    requires right { Fits Bits32 right }
    requires given { IsGiven (running.binary operator Bits32 left right) }
    ensures { Gives result ≡ running.binary operator Bits32 left right }
{
    operate(operator, Width::Bits32, left, right)
}

/// The result of a binary operation that has one.
#[inline(always)]
pub fn binary(operator: BinaryOperator, width: Width, left: i64, right: i64) -> i64
    requires left { Fits width left }
    requires right { Fits width right }
    requires given { IsGiven (running.binary operator width left right) }
    ensures { Gives result ≡ running.binary operator width left right }
{
    match width {
        Width::Bits64 => operate(operator, Width::Bits64, left, right),
        Width::Bits32 => narrow(operator, left, right),
    }
}

/// Whether a comparison holds (LLVM Language Reference, "icmp").
#[inline(always)]
pub fn compare(predicate: Predicate, width: Width, left: i64, right: i64) -> bool
    ensures { Fits width left → Fits width right → result ≡ running.compares predicate width left right }
{
    match predicate {
        Predicate::Equal => left == right,
        Predicate::NotEqual => left != right,
        Predicate::UnsignedGreater => unsigned(width, left) > unsigned(width, right),
        Predicate::UnsignedAtLeast => unsigned(width, left) >= unsigned(width, right),
        Predicate::UnsignedLess => unsigned(width, left) < unsigned(width, right),
        Predicate::UnsignedAtMost => unsigned(width, left) <= unsigned(width, right),
        Predicate::SignedGreater => left > right,
        Predicate::SignedAtLeast => left >= right,
        Predicate::SignedLess => left < right,
        Predicate::SignedAtMost => left <= right,
    }
}

/// The number that a conversion makes of one of the other width (LLVM Language Reference, "Conversion Operations").
#[inline(always)]
pub fn convert(conversion: Conversion, number: i64) -> i64
    ensures { Fits (source_width conversion) number → result ≡ running.converts conversion number }
{
    match conversion {
        Conversion::Truncate => wrapped(Width::Bits32, number),
        Conversion::SignExtend => number,
        Conversion::ZeroExtend => signed(Width::Bits64, unsigned(Width::Bits32, number)),
    }
}
