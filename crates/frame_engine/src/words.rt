//! Words by register, and addresses: of an operand, of an object's first cell, of a cell behind it.

ghost use Rattle.std.specs.Prelude.{◌≡◌, ◌<◌, ◌+ℤ◌, ⊤, Some, length, slice_get, slice_set};
ghost use Rattle.semantics.specs.Arithmetic.{wrapped};
ghost use Rattle.syntax.specs.declared.operator.Width.TheVariants.{Bits64};
ghost use Rattle.frame_engine.specs.Words.{IsWord, IsFirst, IsAddress, bases};
ghost use Rattle.frame_engine.specs.Names.{HasOperand, HasObject, HasAddress, sizes};

use lists::Seq;
use program::{Address, ObjectName, Operand, RegisterId};

#[inline(always)]
pub fn number_at(numbers: &[i64], at: usize) -> i64
    requires { at < length numbers.now }
    ensures { slice_get numbers.now at ≡ Some result }
{
    numbers[at]
}

#[inline(always)]
pub fn number_in(numbers: &Seq<i64>, at: usize) -> i64
    requires { at < length numbers.now }
    ensures { slice_get numbers.now at ≡ Some result }
{
    number_at(numbers.as_slice(), at)
}

#[inline(always)]
pub fn register(regs: &[i64], register: RegisterId) -> i64
    requires { register.0 < length regs.now }
    ensures { slice_get regs.now register.0 ≡ Some result }
{
    number_at(regs, register.0)
}

#[inline(always)]
pub fn define(regs: &mut [i64], register: RegisterId, word: i64)
    requires { register.0 < length regs.old }
    ensures { regs.new ≡ slice_set regs.old register.0 word }
{
    regs[register.0] = word;
}

#[inline(always)]
pub fn word(regs: &[i64], operand: Operand) -> i64
    requires { HasOperand (sizes (length regs.now) 0 0) operand }
    ensures { IsWord regs.now operand result }
{
    match operand {
        Operand::Number(number) => number,
        Operand::Register(from) => register(regs, from),
    }
}

/// The address so many cells further.
#[inline(always)]
pub fn behind(at: i64, cells: i64) -> i64
    ensures { result ≡ wrapped Bits64 (at +ℤ cells) }
{
    at.wrapping_add(cells)
}

/// The address of the object's first cell.
#[inline(always)]
pub fn first(
    globals: &Seq<i64>,
    allocas: &Seq<i64>,
    home: &i64,
    regs: &[i64],
    name: ObjectName,
) -> i64
    requires { HasObject (sizes (length regs.now) (length globals.now) (length allocas.now)) name }
    ensures { IsFirst (bases globals.now allocas.now home.now) regs.now name result }
{
    match name {
        ObjectName::Global(global) => number_in(globals, global.0),
        ObjectName::Alloca(alloca) => behind(*home, number_in(allocas, alloca.0)),
        ObjectName::Parameter(from) => register(regs, from),
    }
}

#[inline(always)]
pub fn address(
    globals: &Seq<i64>,
    allocas: &Seq<i64>,
    home: &i64,
    regs: &[i64],
    address: Address,
) -> i64
    requires { HasAddress (sizes (length regs.now) (length globals.now) (length allocas.now)) address }
    ensures { IsAddress (bases globals.now allocas.now home.now) regs.now address result }
{
    match address {
        Address::First(name) => first(globals, allocas, home, regs, name),
        Address::Element(from) => register(regs, from),
    }
}
