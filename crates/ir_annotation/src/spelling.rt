//! The canonical spelling of annotations: the words behind `;!`, parted by one space.
//!
//! A public call writes its words to a text of their own first, so the text that it is lent gets all of them or none.

ghost use Rattle.std.specs.Prelude.{◌≡◌, ◌++◌, OnOk, OnErr, string_bytes, codes, flat_map, false};
ghost use Rattle.ir_annotation.specs.Spelling.{sign_text, factor_text, term_text, constant_text, terms_text, form_text, relation_text};
ghost use Rattle.ir_annotation.specs.Spelling.{inequality_text, zone_text, measure_text, budget_text, pending_text, left_text};
ghost use Rattle.ir_annotation.specs.Spelling.{foot_text};

use crate::pieces::{Piece, push_pieces};
use itoa::Buffer;
use std::alloc::AllocError;
use syntax::{Budget, Form, Inequality, Left, Measure, Pending, Relation, Term, Zone};

/// The sign before a number's size: that of a first number is left out where it is `+`.
pub fn sign_text(is_first: bool, number: i128) -> &'static str
    ensures { result.now ≡ sign_text is_first number }
{
    if number < 0 {
        "-"
    } else if is_first {
        ""
    } else {
        "+"
    }
}

/// A factor and `*`, unless it is 1.
fn write_factor(out: &mut String, factor: u64) -> Result<(), AllocError>
    ensures { OnOk result (string_bytes out.new ≡ string_bytes out.old ++ factor_text factor) }
{
    if factor == 1 {
        return Ok(());
    }
    out.push_str(Buffer::new().format(factor))?;
    out.push_str("*")
}

fn write_term(out: &mut String, is_first: bool, term: &Term) -> Result<(), AllocError>
    ensures { OnOk result (string_bytes out.new ≡ string_bytes out.old ++ term_text is_first term.now) }
{
    out.push_str(sign_text(is_first, i128::from(term.coefficient)))?;
    write_factor(out, term.coefficient.unsigned_abs())?;
    out.push_str("%")?;
    out.push_str(term.register.as_str())
}

fn write_terms(out: &mut String, terms: &[Term]) -> Result<(), AllocError>
    ensures { OnOk result (string_bytes out.new ≡ string_bytes out.old ++ flat_map (term_text false) terms.now) }
{
    for term in terms {
        write_term(out, false, term)?;
    }
    Ok(())
}

/// The constant behind a register.
fn write_constant(out: &mut String, constant: i64) -> Result<(), AllocError>
    ensures { OnOk result (string_bytes out.new ≡ string_bytes out.old ++ constant_text constant) }
{
    let size: u64 = constant.unsigned_abs();
    if size == 0 {
        return Ok(());
    }
    out.push_str(sign_text(false, i128::from(constant)))?;
    out.push_str(Buffer::new().format(size))
}

#[tactic(auto, unfolding(crate::specs::Spelling::form_text))]
pub fn write_form(out: &mut String, form: &Form) -> Result<(), AllocError>
    ensures { OnOk result (string_bytes out.new ≡ string_bytes out.old ++ form_text form.now) }
{
    match form.terms.as_slice() {
        [] => out.push_str(Buffer::new().format(form.constant)),
        [first, rest @ ..] => {
            write_term(out, true, first)?;
            write_terms(out, rest)?;
            write_constant(out, form.constant)
        }
    }
}

/// Two forms, and what stands between them.
fn write_forms(
    out: &mut String,
    first: &Form,
    between: &str,
    second: &Form,
) -> Result<(), AllocError>
    ensures { OnOk result (string_bytes out.new ≡ string_bytes out.old ++ form_text first.now ++ between.now ++ form_text second.now) }
{
    write_form(out, first)?;
    out.push_str(between)?;
    write_form(out, second)
}

/// A relation between spaces.
fn spaced_relation(relation: Relation) -> &'static str
    ensures { result.now ≡ codes " " ++ relation_text relation ++ codes " " }
{
    match relation {
        Relation::AtMost => " <= ",
        Relation::AtLeast => " >= ",
    }
}

#[tactic(auto, unfolding(crate::specs::Spelling::inequality_text))]
fn write_inequality(out: &mut String, word: &str, inequality: &Inequality) -> Result<(), AllocError>
    ensures { OnOk result (string_bytes out.new ≡ string_bytes out.old ++ inequality_text word.now inequality.now) }
{
    out.push_str(word)?;
    out.push_str(" ")?;
    write_forms(
        out,
        &inequality.left,
        spaced_relation(inequality.relation),
        &inequality.right,
    )
}

/// A form: its registers in their order, and then the constant, unless it is 0 behind a register.
pub fn push_form(out: &mut String, form: &Form) -> Result<(), AllocError>
    ensures ok { OnOk result (string_bytes out.new ≡ string_bytes out.old ++ form_text form.now) }
    ensures err { OnErr result (string_bytes out.new ≡ string_bytes out.old) }
{
    push_pieces(out, &[Piece::Form(form)])
}

/// `WORD F R F`, for the words `requires`, `ensures`, `keeps` and `shows`.
pub fn push_inequality(
    out: &mut String,
    word: &str,
    inequality: &Inequality,
) -> Result<(), AllocError>
    ensures ok { OnOk result (string_bytes out.new ≡ string_bytes out.old ++ inequality_text word.now inequality.now) }
    ensures err { OnErr result (string_bytes out.new ≡ string_bytes out.old) }
{
    let mut words = String::new(*out.allocator());
    write_inequality(&mut words, word, inequality)?;
    out.push_str(words.as_str())
}

/// `MODE O F F`, which is the whole annotation `reads`, `writes` or `adds` of a function.
#[tactic(auto, unfolding(crate::specs::Spelling::zone_text))]
pub fn push_zone(out: &mut String, zone: &Zone) -> Result<(), AllocError>
    ensures ok { OnOk result (string_bytes out.new ≡ string_bytes out.old ++ zone_text zone.now) }
    ensures err { OnErr result (string_bytes out.new ≡ string_bytes out.old) }
{
    push_pieces(
        out,
        &[
            Piece::Mode(zone.mode),
            Piece::Text(" "),
            Piece::Object(&zone.object),
            Piece::Text(" "),
            Piece::Form(&zone.low),
            Piece::Text(" "),
            Piece::Form(&zone.high),
        ],
    )
}

/// `measure F max N`
#[tactic(auto, unfolding(crate::specs::Spelling::measure_text))]
pub fn push_measure(out: &mut String, measure: &Measure) -> Result<(), AllocError>
    ensures ok { OnOk result (string_bytes out.new ≡ string_bytes out.old ++ measure_text measure.now) }
    ensures err { OnErr result (string_bytes out.new ≡ string_bytes out.old) }
{
    push_pieces(
        out,
        &[
            Piece::Text("measure "),
            Piece::Form(&measure.form),
            Piece::Text(" max "),
            Piece::Count(measure.bound),
        ],
    )
}

/// `budget K S`
#[tactic(auto, unfolding(crate::specs::Spelling::budget_text))]
pub fn push_budget(out: &mut String, budget: &Budget) -> Result<(), AllocError>
    ensures ok { OnOk result (string_bytes out.new ≡ string_bytes out.old ++ budget_text budget.now) }
    ensures err { OnErr result (string_bytes out.new ≡ string_bytes out.old) }
{
    push_pieces(
        out,
        &[
            Piece::Text("budget "),
            Piece::Count(budget.self_calls),
            Piece::Text(" "),
            Piece::Count(budget.instructions),
        ],
    )
}

/// `pending %s MODE O F F`
#[tactic(auto, unfolding(crate::specs::Spelling::pending_text, crate::specs::Spelling::zone_text))]
pub fn push_pending(out: &mut String, pending: &Pending) -> Result<(), AllocError>
    ensures ok { OnOk result (string_bytes out.new ≡ string_bytes out.old ++ pending_text pending.now) }
    ensures err { OnErr result (string_bytes out.new ≡ string_bytes out.old) }
{
    let zone = &pending.zone;
    push_pieces(
        out,
        &[
            Piece::Text("pending %"),
            Piece::Name(&pending.region),
            Piece::Text(" "),
            Piece::Mode(zone.mode),
            Piece::Text(" "),
            Piece::Object(&zone.object),
            Piece::Text(" "),
            Piece::Form(&zone.low),
            Piece::Text(" "),
            Piece::Form(&zone.high),
        ],
    )
}

/// `left F F`
#[tactic(auto, unfolding(crate::specs::Spelling::left_text))]
pub fn push_left(out: &mut String, left: &Left) -> Result<(), AllocError>
    ensures ok { OnOk result (string_bytes out.new ≡ string_bytes out.old ++ left_text left.now) }
    ensures err { OnErr result (string_bytes out.new ≡ string_bytes out.old) }
{
    push_pieces(
        out,
        &[
            Piece::Text("left "),
            Piece::Form(&left.self_calls),
            Piece::Text(" "),
            Piece::Form(&left.instructions),
        ],
    )
}

/// `foot MODE O F F`
#[tactic(auto, unfolding(crate::specs::Spelling::foot_text, crate::specs::Spelling::zone_text))]
pub fn push_foot(out: &mut String, foot: &Zone) -> Result<(), AllocError>
    ensures ok { OnOk result (string_bytes out.new ≡ string_bytes out.old ++ foot_text foot.now) }
    ensures err { OnErr result (string_bytes out.new ≡ string_bytes out.old) }
{
    push_pieces(
        out,
        &[
            Piece::Text("foot "),
            Piece::Mode(foot.mode),
            Piece::Text(" "),
            Piece::Object(&foot.object),
            Piece::Text(" "),
            Piece::Form(&foot.low),
            Piece::Text(" "),
            Piece::Form(&foot.high),
        ],
    )
}
