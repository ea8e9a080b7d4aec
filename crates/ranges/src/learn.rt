//! What an instruction makes known of its result: sums, products, quotients, masks, conversions, a call's `ensures`.

ghost use Rattle.std.specs.Prelude.{◌≡◌, ◌++◌, ◌∷◌, [], pos, ◌≤ℤ◌, ◌-ℤ◌, true, IfOk, OnOk, slice_get};
ghost use Rattle.program.specs.syntax.declared.operator.BinaryOperator.TheVariants.{AddNoWrap, SubtractNoWrap};
ghost use Rattle.ranges_owed.specs.Scales.{is_scale, scale_of};
ghost use Rattle.ranges_owed.specs.Sums.{one, two, three};
ghost use Rattle.ranges.specs.Sums.{shows};
ghost use Rattle.ranges.specs.Learned.{is_multiple, is_product, is_between, is_quotient, is_divisor, quotient_by};
ghost use Rattle.ranges.specs.Learned.{remainder_by, masked_by, binary_sums, is_32_bits, conversion_sums, call_sums, learned};

use crate::edge::opposite_number;
use crate::know::shows_at;
use crate::unverified::Unanswered;
use linear::RegisterId;
use linear_shown::Known;
use program::{Argument, BinaryOperator, Conversion, Function, FunctionId, Instruction, Operand};
use ranges_owed::{Sum, call_moves, differences_of, opposite, scale_of};
use std::alloc::Global;

fn one_less(divisor: i64) -> i128
    ensures { result ≡ divisor -ℤ pos 1 }
{
    i128::from(divisor) - 1
}

/// Sums that an instruction makes known to be at least 0.
#[derive(Drop)]
struct Sums {
    alloc: Global,
    list: Vec<Sum>,
}

impl Sums {
    fn new(alloc: Global) -> Sums
        ensures { result.list.items ≡ [] }
    {
        Sums {
            alloc,
            list: Vec::new(alloc),
        }
    }

    /// Adds that constant + a * x is at least 0.
    fn push_one(&mut self, constant: i128, a: i64, x: Operand) -> Result<(), Unanswered>
        ensures { OnOk result (self.new.list.items ≡ self.old.list.items ++ one constant a x ∷ []) }
    {
        self.list.push(Sum::one(self.alloc, constant, a, x)?)?;
        Ok(())
    }

    /// Adds that constant + a * x + b * y is at least 0.
    fn push_two(
        &mut self,
        constant: i128,
        a: i64,
        x: Operand,
        b: i64,
        y: Operand,
    ) -> Result<(), Unanswered>
        ensures { OnOk result (self.new.list.items ≡ self.old.list.items ++ two constant a x b y ∷ []) }
    {
        self.list.push(Sum::two(self.alloc, constant, a, x, b, y)?)?;
        Ok(())
    }

    /// Adds that a * x + b * y + c * z is at least 0.
    fn push_three(
        &mut self,
        a: i64,
        x: Operand,
        b: i64,
        y: Operand,
        c: i64,
        z: Operand,
    ) -> Result<(), Unanswered>
        ensures { OnOk result (self.new.list.items ≡ self.old.list.items ++ three (pos 0) a x b y c z ∷ []) }
    {
        self.list
            .push(Sum::two(self.alloc, 0, a, x, b, y)?.plus(c, z)?)?;
        Ok(())
    }

    /// d = factor * x
    fn push_multiple(&mut self, d: Operand, factor: i64, x: Operand) -> Result<(), Unanswered>
        requires { is_scale factor ≡ true }
        ensures { OnOk result (self.new.list.items ≡ self.old.list.items ++ is_multiple d factor x) }
    {
        self.push_two(0, 1, d, opposite(factor), x)?;
        self.push_two(0, -1, d, factor, x)?;
        Ok(())
    }

    /// d from least to greatest
    fn push_between(&mut self, least: i64, greatest: i64, d: Operand) -> Result<(), Unanswered>
        ensures { OnOk result (self.new.list.items ≡ self.old.list.items ++ is_between least greatest d) }
    {
        self.push_one(opposite_number(least), 1, d)?;
        self.push_one(i128::from(greatest), -1, d)
    }

    /// divisor * d <= x, x <= divisor * d + divisor - 1, d >= 0
    fn push_quotient(&mut self, d: Operand, x: Operand, divisor: i64) -> Result<(), Unanswered>
        requires scale { is_scale divisor ≡ true }
        requires positive { pos 1 ≤ℤ divisor }
        ensures { OnOk result (self.new.list.items ≡ self.old.list.items ++ is_quotient d x divisor) }
    {
        self.push_two(0, 1, x, opposite(divisor), d)?;
        self.push_two(one_less(divisor), divisor, d, -1, x)?;
        self.push_one(0, 1, d)?;
        Ok(())
    }
}

/// d = x + y
fn sum_sums(alloc: Global, d: Operand, x: Operand, y: Operand) -> Result<Vec<Sum>, Unanswered>
    ensures { IfOk result (λ sums. sums.items ≡ binary_sums [] AddNoWrap d x y) }
{
    let mut sums = Sums::new(alloc);
    sums.push_three(1, d, -1, x, -1, y)?;
    sums.push_three(-1, d, 1, x, 1, y)?;
    Ok(sums.list)
}

/// d = x - y
fn difference_sums(
    alloc: Global,
    d: Operand,
    x: Operand,
    y: Operand,
) -> Result<Vec<Sum>, Unanswered>
    ensures { IfOk result (λ sums. sums.items ≡ binary_sums [] SubtractNoWrap d x y) }
{
    let mut sums = Sums::new(alloc);
    sums.push_three(1, d, -1, x, 1, y)?;
    sums.push_three(-1, d, 1, x, -1, y)?;
    Ok(sums.list)
}

/// d = x * y, where one of them is a number within a million
fn product_sums(alloc: Global, d: Operand, x: Operand, y: Operand) -> Result<Vec<Sum>, Unanswered>
    ensures { IfOk result (λ sums. sums.items ≡ is_product d (scale_of x y)) }
{
    let mut sums = Sums::new(alloc);
    if let Some(part) = scale_of(x, y) {
        sums.push_multiple(d, part.factor, part.operand)?;
    }
    Ok(sums.list)
}

/// Whether constant + a * x is shown to be at least 0.
fn shows_one(
    alloc: Global,
    known: &Known<'_>,
    constant: i128,
    a: i64,
    x: Operand,
) -> Result<bool, Unanswered>
    ensures { IfOk result (λ b. b ≡ shows known.now (one constant a x)) }
{
    let sum = Sum::one(alloc, constant, a, x)?;
    shows_at(alloc, known, &sum)
}

/// Whether a number may divide an operand: it lies from 1 to a million, and the operand is shown to be at least 0.
fn is_divisor(
    alloc: Global,
    known: &Known<'_>,
    x: Operand,
    divisor: i64,
) -> Result<bool, Unanswered>
    ensures value { IfOk result (λ b. b ≡ is_divisor known.now x divisor) }
    ensures positive { IfOk result (λ b. b ≡ true → pos 1 ≤ℤ divisor) }
    ensures scale { IfOk result (λ b. b ≡ true → is_scale divisor ≡ true) }
{
    if 1 <= divisor && divisor <= 1_000_000 {
        shows_one(alloc, known, 0, 1, x)
    } else {
        Ok(false)
    }
}

/// d = x / divisor, rounded down
fn quotient_sums(
    alloc: Global,
    known: &Known<'_>,
    d: Operand,
    x: Operand,
    y: Operand,
) -> Result<Vec<Sum>, Unanswered>
    ensures { IfOk result (λ sums. sums.items ≡ quotient_by known.now d x y) }
{
    let mut sums = Sums::new(alloc);
    if let Operand::Number(divisor) = y {
        if is_divisor(alloc, known, x, divisor)? {
            sums.push_quotient(d, x, divisor)?;
        }
    }
    Ok(sums.list)
}

/// d = x % divisor
fn remainder_sums(
    alloc: Global,
    known: &Known<'_>,
    d: Operand,
    x: Operand,
    y: Operand,
) -> Result<Vec<Sum>, Unanswered>
    ensures { IfOk result (λ sums. sums.items ≡ remainder_by known.now d x y) }
{
    let mut sums = Sums::new(alloc);
    if let Operand::Number(divisor) = y {
        if is_divisor(alloc, known, x, divisor)? {
            sums.push_between(0, divisor - 1, d)?;
        }
    }
    Ok(sums.list)
}

/// d = x & mask
fn masked_sums(alloc: Global, d: Operand, y: Operand) -> Result<Vec<Sum>, Unanswered>
    ensures { IfOk result (λ sums. sums.items ≡ masked_by d y) }
{
    let mut sums = Sums::new(alloc);
    if let Operand::Number(mask) = y {
        if 0 <= mask {
            sums.push_between(0, mask, d)?;
        }
    }
    Ok(sums.list)
}

fn binary_sums(
    alloc: Global,
    known: &Known<'_>,
    operator: BinaryOperator,
    d: Operand,
    x: Operand,
    y: Operand,
) -> Result<Vec<Sum>, Unanswered>
    ensures { IfOk result (λ sums. sums.items ≡ binary_sums known.now operator d x y) }
{
    match operator {
        BinaryOperator::AddNoWrap => sum_sums(alloc, d, x, y),
        BinaryOperator::SubtractNoWrap => difference_sums(alloc, d, x, y),
        BinaryOperator::MultiplyNoWrap => product_sums(alloc, d, x, y),
        BinaryOperator::SignedDivide => quotient_sums(alloc, known, d, x, y),
        BinaryOperator::SignedRemainder => remainder_sums(alloc, known, d, x, y),
        BinaryOperator::And => masked_sums(alloc, d, y),
        BinaryOperator::Add
        | BinaryOperator::Subtract
        | BinaryOperator::Multiply
        | BinaryOperator::UnsignedDivide
        | BinaryOperator::UnsignedRemainder
        | BinaryOperator::ShiftLeft
        | BinaryOperator::LogicalShiftRight
        | BinaryOperator::ArithmeticShiftRight
        | BinaryOperator::Or
        | BinaryOperator::ExclusiveOr => Ok(Vec::new(alloc)),
    }
}

/// Whether x is shown to fit 32 bits.
fn is_32_bits(alloc: Global, known: &Known<'_>, x: Operand) -> Result<bool, Unanswered>
    ensures { IfOk result (λ b. b ≡ is_32_bits known.now x) }
{
    if shows_one(alloc, known, 2_147_483_648, 1, x)? {
        shows_one(alloc, known, 2_147_483_647, -1, x)
    } else {
        Ok(false)
    }
}

fn conversion_sums(
    alloc: Global,
    known: &Known<'_>,
    conversion: Conversion,
    d: Operand,
    x: Operand,
) -> Result<Vec<Sum>, Unanswered>
    ensures { IfOk result (λ sums. sums.items ≡ conversion_sums known.now conversion d x) }
{
    let mut sums = Sums::new(alloc);
    let is_kept = match conversion {
        Conversion::SignExtend => {
            sums.push_between(-2_147_483_648, 2_147_483_647, d)?;
            true
        }
        Conversion::Truncate => {
            sums.push_between(-2_147_483_648, 2_147_483_647, d)?;
            is_32_bits(alloc, known, x)?
        }
        Conversion::ZeroExtend => {
            sums.push_between(0, 4_294_967_295, d)?;
            shows_one(alloc, known, 0, 1, x)?
        }
    };
    if is_kept {
        sums.push_multiple(d, 1, x)?;
    }
    Ok(sums.list)
}

/// The callee's `ensures`, with the arguments and the result's register put in.
fn call_sums(
    alloc: Global,
    functions: &[Function],
    callee: FunctionId,
    arguments: &[Argument],
    register: Option<RegisterId>,
) -> Result<Vec<Sum>, Unanswered>
    ensures { IfOk result (λ sums. sums.items ≡ call_sums (slice_get functions.now callee.0) arguments.now register) }
{
    match functions.get(callee.0) {
        Some(callee) => {
            let moves = call_moves(alloc, callee, arguments, register)?;
            Ok(differences_of(alloc, &moves, callee.guarantees.as_slice())?)
        }
        None => Ok(Vec::new(alloc)),
    }
}

/// What an instruction makes known, where `known` is known before it.
pub fn learned(
    alloc: Global,
    functions: &[Function],
    known: &Known<'_>,
    instruction: &Instruction,
) -> Result<Vec<Sum>, Unanswered>
    ensures { IfOk result (λ sums. sums.items ≡ learned functions.now known.now instruction.now) }
{
    match instruction {
        Instruction::Binary {
            register,
            operator,
            left,
            right,
            ..
        } => binary_sums(
            alloc,
            known,
            *operator,
            Operand::Register(*register),
            *left,
            *right,
        ),
        Instruction::Convert {
            register,
            conversion,
            value,
        } => conversion_sums(
            alloc,
            known,
            *conversion,
            Operand::Register(*register),
            *value,
        ),
        Instruction::Call {
            register,
            callee,
            arguments,
        } => call_sums(alloc, functions, *callee, arguments.as_slice(), *register),
        Instruction::Compare { .. }
        | Instruction::Alloca { .. }
        | Instruction::ElementPointer { .. }
        | Instruction::Load { .. }
        | Instruction::Store { .. }
        | Instruction::StoreZeros { .. }
        | Instruction::AtomicAdd { .. }
        | Instruction::StartRegion { .. } => Ok(Vec::new(alloc)),
    }
}
