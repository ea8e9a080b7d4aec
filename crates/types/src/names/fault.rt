//! The faults of the rules 201 to 206, and which of two is named (precedence of errors).

ghost use Rattle.std.specs.Prelude.{◌≡◌};
ghost use Rattle.types.specs.names.Fault.{both_of, breaks, unless_of};
ghost use Rattle.types.specs.names.Told.{both_answers, earlier_answer, told_of, Joins};

use crate::names::TypeFault;
use lists::Seq;
use refusal::{Broken, Refused, rule};

/// 201: nothing has this name.
pub fn unknown_name(line: u32) -> TypeFault
    ensures { result ≡ breaks 201 line }
{
    TypeFault {
        number: rule::UNKNOWN_NAME,
        line,
    }
}

/// 202: what has this name is of another type than stands here.
pub fn type_mismatch(line: u32) -> TypeFault
    ensures { result ≡ breaks 202 line }
{
    TypeFault {
        number: rule::WRONG_TYPE,
        line,
    }
}

/// 203: a call with more or fewer arguments than the callee has parameters.
pub fn wrong_count(line: u32) -> TypeFault
    ensures { result ≡ breaks 203 line }
{
    TypeFault {
        number: rule::ARGUMENT_COUNT,
        line,
    }
}

/// 204: a pointer is used as none may be.
pub fn pointer_misuse(line: u32) -> TypeFault
    ensures { result ≡ breaks 204 line }
{
    TypeFault {
        number: rule::MISUSED_POINTER,
        line,
    }
}

/// 205: a call of a function that stands below.
pub fn downward_call(line: u32) -> TypeFault
    ensures { result ≡ breaks 205 line }
{
    TypeFault {
        number: rule::CALLEE_BELOW,
        line,
    }
}

/// 206: a form over a limit, or a note that names what its own block defines.
pub fn form_limit(line: u32) -> TypeFault
    ensures { result ≡ breaks 206 line }
{
    TypeFault {
        number: rule::FORM_LIMIT,
        line,
    }
}

/// Nothing where the rule holds, else the fault.
pub fn unless(holds: bool, fault: TypeFault) -> Result<(), TypeFault>
    ensures { result ≡ unless_of holds fault }
{
    if holds { Ok(()) } else { Err(fault) }
}

/// Both parts, else the earlier fault of the two.
pub fn both<A: Drop, B: Drop>(
    first: Result<A, TypeFault>,
    second: Result<B, TypeFault>,
) -> Result<(A, B), TypeFault>
    ensures { result ≡ both_of first second }
{
    match first {
        Ok(a) => match second {
            Ok(b) => Ok((a, b)),
            Err(fault) => Err(fault),
        },
        Err(fault) => match second {
            Ok(_) => Err(fault),
            Err(other) => Err(fault.earlier(other)),
        },
    }
}

/// A part that takes no memory, beside those that do.
pub fn told<A: Drop>(part: Result<A, TypeFault>) -> Result<A, Refused>
    ensures { result ≡ told_of part }
{
    match part {
        Ok(a) => Ok(a),
        Err(fault) => Err(Refused::Fault {
            number: fault.number,
            line: fault.line,
        }),
    }
}

/// The fault of the lower line, and on one line of the lower number. Want of memory comes first.
fn earlier(first: Refused, second: Refused) -> Refused
    ensures { result ≡ earlier_answer first second }
{
    match (first, second) {
        (
            Refused::Fault { number, line },
            Refused::Fault {
                number: other_number,
                line: other_line,
            },
        ) => {
            let other = Broken {
                line: other_line,
                number: other_number,
            };
            Refused::from(Broken { line, number }.earlier(other))
        }
        _ => Refused::Memory,
    }
}

/// Both answers, else the earlier of their refusals.
pub fn both_answers<A: Drop, B: Drop>(
    first: Result<A, Refused>,
    second: Result<B, Refused>,
) -> Result<(A, B), Refused>
    ensures { result ≡ both_answers first second }
{
    match first {
        Ok(a) => match second {
            Ok(b) => Ok((a, b)),
            Err(fault) => Err(fault),
        },
        Err(fault) => match second {
            Ok(_) => Err(fault),
            Err(other) => Err(earlier(fault, other)),
        },
    }
}

/// The list with one more part at its end, else the earlier refusal of the two.
pub fn joined<A: Drop>(
    list: Result<Seq<A>, Refused>,
    part: Result<A, Refused>,
) -> Result<Seq<A>, Refused>
    ensures { Joins result (both_answers list part) }
{
    let (mut list, part) = both_answers(list, part)?;
    list.push(part)?;
    Ok(list)
}
