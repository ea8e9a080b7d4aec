//! How terminators are spelled.

ghost use Rattle.std.specs.Prelude.{◌≡◌, ◌++◌, OnOk, string_bytes, flat_map};
ghost use Rattle.ir_spelling.specs.TerminatorText.{jump_text, branch_text, case_text, switch_text, return_text, detach_text, reattach_text, sync_text};
ghost use Rattle.ir_spelling.specs.TerminatorText.{terminator_text};

use crate::pieces::{Piece, push_pieces};
use lists::Name;
use std::alloc::AllocError;
use syntax::{Case, Operand, Terminator, Width};

fn push_jump(out: &mut String, target: &Name) -> Result<(), AllocError>
    ensures { OnOk result (string_bytes out.new ≡ string_bytes out.old ++ jump_text target.now) }
{
    push_pieces(out, &[Piece::Text("br label %"), Piece::Name(target)])
}

fn push_branch<'a>(
    out: &mut String,
    condition: &'a Name,
    when_true: &'a Name,
    when_false: &'a Name,
) -> Result<(), AllocError>
    ensures { OnOk result (string_bytes out.new ≡ string_bytes out.old ++ branch_text condition.now when_true.now when_false.now) }
{
    push_pieces(
        out,
        &[
            Piece::Text("br i1 %"),
            Piece::Name(condition),
            Piece::Text(", label %"),
            Piece::Name(when_true),
            Piece::Text(", label %"),
            Piece::Name(when_false),
        ],
    )
}

/// ` T N, label %l`
fn push_case(out: &mut String, width: Width, case: &Case) -> Result<(), AllocError>
    ensures { OnOk result (string_bytes out.new ≡ string_bytes out.old ++ case_text width case.now) }
{
    push_pieces(
        out,
        &[
            Piece::Text(" "),
            Piece::Width(width),
            Piece::Text(" "),
            Piece::Number(case.number),
            Piece::Text(", label %"),
            Piece::Name(&case.target),
        ],
    )
}

fn push_cases(out: &mut String, width: Width, cases: &[Case]) -> Result<(), AllocError>
    ensures { OnOk result (string_bytes out.new ≡ string_bytes out.old ++ flat_map (case_text width) cases.now) }
{
    for case in cases {
        push_case(out, width, case)?;
    }
    Ok(())
}

fn push_switch<'a>(
    out: &mut String,
    width: Width,
    value: &'a Operand,
    default: &'a Name,
    cases: &'a [Case],
) -> Result<(), AllocError>
    ensures { OnOk result (string_bytes out.new ≡ string_bytes out.old ++ switch_text width value.now default.now cases.now) }
{
    push_pieces(
        out,
        &[
            Piece::Text("switch "),
            Piece::Width(width),
            Piece::Text(" "),
            Piece::Value(value),
            Piece::Text(", label %"),
            Piece::Name(default),
            Piece::Text(" ["),
        ],
    )?;
    push_cases(out, width, cases)?;
    out.push_str(" ]")
}

fn push_return(out: &mut String, value: &Option<Operand>) -> Result<(), AllocError>
    ensures { OnOk result (string_bytes out.new ≡ string_bytes out.old ++ return_text value.now) }
{
    match value {
        None => out.push_str("ret void"),
        Some(value) => push_pieces(out, &[Piece::Text("ret i64 "), Piece::Value(value)]),
    }
}

fn push_detach<'a>(
    out: &mut String,
    region: &'a Name,
    body: &'a Name,
    continuation: &'a Name,
) -> Result<(), AllocError>
    ensures { OnOk result (string_bytes out.new ≡ string_bytes out.old ++ detach_text region.now body.now continuation.now) }
{
    push_pieces(
        out,
        &[
            Piece::Text("detach within %"),
            Piece::Name(region),
            Piece::Text(", label %"),
            Piece::Name(body),
            Piece::Text(", label %"),
            Piece::Name(continuation),
        ],
    )
}

#[tactic(auto, unfolding(crate::specs::TerminatorText::reattach_text))]
fn push_reattach<'a>(
    out: &mut String,
    region: &'a Name,
    continuation: &'a Name,
) -> Result<(), AllocError>
    ensures { OnOk result (string_bytes out.new ≡ string_bytes out.old ++ reattach_text region.now continuation.now) }
{
    push_pieces(
        out,
        &[
            Piece::Text("reattach within %"),
            Piece::Name(region),
            Piece::Text(", label %"),
            Piece::Name(continuation),
        ],
    )
}

fn push_sync<'a>(out: &mut String, region: &'a Name, target: &'a Name) -> Result<(), AllocError>
    ensures { OnOk result (string_bytes out.new ≡ string_bytes out.old ++ sync_text region.now target.now) }
{
    push_pieces(
        out,
        &[
            Piece::Text("sync within %"),
            Piece::Name(region),
            Piece::Text(", label %"),
            Piece::Name(target),
        ],
    )
}

pub fn push_terminator(out: &mut String, terminator: &Terminator) -> Result<(), AllocError>
    ensures { OnOk result (string_bytes out.new ≡ string_bytes out.old ++ terminator_text terminator.now) }
{
    match terminator {
        Terminator::Jump { target } => push_jump(out, target),
        Terminator::Branch {
            condition,
            when_true,
            when_false,
        } => push_branch(out, condition, when_true, when_false),
        Terminator::Switch {
            width,
            value,
            default,
            cases,
        } => push_switch(out, *width, value, default, cases.as_slice()),
        Terminator::Return { value } => push_return(out, value),
        Terminator::Detach {
            region,
            body,
            continuation,
        } => push_detach(out, region, body, continuation),
        Terminator::Reattach {
            region,
            continuation,
        } => push_reattach(out, region, continuation),
        Terminator::Sync { region, target } => push_sync(out, region, target),
    }
}
