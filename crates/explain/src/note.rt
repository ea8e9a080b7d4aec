//! What there is to say of a line that breaks a rule of names, blocks or regions.

use crate::cause::cause_of;
use crate::row::{Row, function_of, is_among, rows_of};
use explain_facts::{Finding, Source};
use lists::{OutOfMemory, TextBuffer};
use std::alloc::{AllocError, Global};

/// A line of the text, with the lines of its function.
#[derive(Clone, Copy)]
struct Site<'r, 'a> {
    rows: &'r [Row<'a>],
    function: &'r [Row<'a>],
    line: u32,
}

/// The line of this number, if it can be read.
fn row_at<'r, 'a>(rows: &'r [Row<'a>], line: u32) -> Option<&'r Row<'a>> {
    for row in rows {
        if row.number == line {
            return Some(row);
        }
    }
    None
}

/// The label of the block in which a line of a function stands.
fn label_at<'a>(function: &[Row<'a>], line: u32) -> &'a str {
    let mut label = "";
    for row in function {
        if row.number <= line {
            label = row.label().unwrap_or(label);
        }
    }
    label
}

/// A line, with its block where it stands in one of this function and is no label itself.
fn push_row(out: &mut TextBuffer, row: &Row<'_>, function: &[Row<'_>]) {
    let number = row.number;
    let code = row.code();
    write!(out, "line {number}, {code}");
    let label = label_at(function, number);
    if !label.is_empty() && row.label().is_none() {
        write!(out, " (in %{label})");
    }
    out.push_str("\n");
}

/// Where the name is defined beside the line itself; or that it is not.
fn push_definitions(out: &mut TextBuffer, site: Site<'_, '_>, name: &str) {
    let (rows, function): (&[Row<'_>], &[Row<'_>]) = if name.starts_with('@') {
        (site.rows, &[])
    } else {
        (site.function, site.function)
    };
    let mut is_defined = false;
    for row in rows {
        if row.defines(name) {
            is_defined = true;
            if row.number != site.line {
                write!(out, "    {name}: ");
                push_row(out, row, function);
            }
        }
    }
    if !is_defined {
        writeln!(out, "    {name}: nothing defines it");
    }
}

/// What leads to the block of the line.
fn push_ways(out: &mut TextBuffer, site: Site<'_, '_>) {
    let label = label_at(site.function, site.line);
    let mut is_reached = false;
    for row in site.function {
        if is_among(&["br", "switch", "detach", "sync"], row.word(0)) && row.has(label) {
            is_reached = true;
            write!(out, "    to %{label} leads ");
            push_row(out, row, site.function);
        }
    }
    if !is_reached {
        writeln!(out, "    nothing leads to %{label}");
    }
}

/// The lines of the function that detach, end a child, or wait for children.
fn push_regions(out: &mut TextBuffer, site: Site<'_, '_>) {
    out.push_str("    regions of this function:\n");
    for row in site.function {
        if is_among(&["detach", "reattach", "sync"], row.word(0)) {
            out.push_str("      ");
            push_row(out, row, site.function);
        }
    }
}

/// Where the names of the line are defined.
fn push_all_definitions(
    alloc: Global,
    out: &mut TextBuffer,
    site: Site<'_, '_>,
    row: &Row<'_>,
) -> Result<(), AllocError> {
    for name in &row.names(alloc)? {
        push_definitions(out, site, name);
    }
    Ok(())
}

/// What there is to say of a line of these that breaks this rule.
fn finding_among(
    alloc: Global,
    rows: &[Row<'_>],
    number: u16,
    line: u32,
) -> Result<Finding, OutOfMemory> {
    let site = Site {
        rows,
        function: function_of(rows, line),
        line,
    };
    let mut cause = None;
    let mut notes = TextBuffer::new(alloc);
    if let Some(row) = row_at(rows, line) {
        cause = cause_of(rows, site.function, row, number);
        if matches!(number, 201..=206 | 401) {
            push_all_definitions(alloc, &mut notes, site, row)?;
        }
    }
    if matches!(number, 211 | 212 | 306 | 307) {
        push_ways(&mut notes, site);
    }
    if matches!(number, 301..=306) {
        push_regions(&mut notes, site);
    }
    Ok(Finding {
        number,
        line,
        cause,
        follows: false,
        notes: notes.finish()?,
    })
}

/// What there is to say of a line that breaks this rule: from 201 to 206 and at 401 where its names are defined, of the graph what leads to its
/// block, of the regions what the function does with them, and of a rule with several causes which one it is, if the line tells.
pub fn name_finding(
    alloc: Global,
    source: Source<'_>,
    number: u16,
    line: u32,
) -> Result<Finding, OutOfMemory> {
    let rows = rows_of(alloc, source.text)?;
    finding_among(alloc, rows.as_slice(), number, line)
}
