//! Which of a rule's causes it is, where a rule has several.

use crate::row::{Row, function_of};
use crate::table::looked_up;

/// What a line does that breaks 307 in its block.
const PLACE_CAUSES: &str = "\
;! | `foot` in a block that is not detached
phi | a phi in a detached block or a continuation
call | `syncregion.start` in neither an entry block nor a detached one
";

/// What a line does that breaks 204, but for calls and stores of arrays.
const POINTER_CAUSES: &str = "\
;! | a zone names an element, and not its object
store | an element of another block; take it again in this one
atomicrmw | an element of another block; take it again in this one
load | an element of another block; take it again in this one
alloca | an `alloca` outside the entry block
getelementptr | an element of an element; take it of the object
";

/// Whether the function makes the register by `getelementptr`.
fn is_element(function: &[Row<'_>], name: &str) -> bool {
    for row in function {
        if row.operation() == "getelementptr" && row.defines(name) {
            return true;
        }
    }
    false
}

/// Whether a pointer of the line is an element of an object.
fn has_element(function: &[Row<'_>], row: &Row<'_>) -> bool {
    for index in 0..row.tokens.len() {
        if let Some(name) = row.behind(index, "ptr") {
            if is_element(function, name) {
                return true;
            }
        }
    }
    false
}

/// Whether a global among the pointers of a call stands in a line.
fn has_global_of(row: &Row<'_>, call: &Row<'_>) -> bool {
    for index in 0..call.tokens.len() {
        if let Some(name) = call.behind(index, "ptr") {
            if name.starts_with('@') && row.has(name) {
                return true;
            }
        }
    }
    false
}

/// Whether a pointer of the line is a global.
fn has_global(row: &Row<'_>) -> bool {
    for index in 0..row.tokens.len() {
        if let Some(name) = row.behind(index, "ptr") {
            if name.starts_with('@') {
                return true;
            }
        }
    }
    false
}

/// The line in which the function begins that a line calls.
fn callee_line(rows: &[Row<'_>], call: &Row<'_>) -> Option<u32> {
    for row in rows {
        if row.word(0) == "define" && call.has(row.word(2)) {
            return Some(row.number);
        }
    }
    None
}

/// Whether the function that a line calls names a global that is passed.
fn is_named_by_callee(rows: &[Row<'_>], call: &Row<'_>) -> bool {
    let Some(line) = callee_line(rows, call) else {
        return false;
    };
    for row in function_of(rows, line) {
        if has_global_of(row, call) {
            return true;
        }
    }
    false
}

/// What of a call breaks 204.
fn call_cause(rows: &[Row<'_>], function: &[Row<'_>], row: &Row<'_>) -> &'static str {
    if has_element(function, row) {
        "an element is passed, where a call takes whole objects"
    } else if row.twice_behind("ptr").is_some() {
        "one object is passed twice"
    } else if is_named_by_callee(rows, row) {
        "a global is passed to a function that names it"
    } else if has_global(row) {
        "an object is smaller than its parameter asks, or what the callee calls names a global that is passed"
    } else {
        "an object is smaller than its parameter asks"
    }
}

/// Which cause of the rule of this number the line has, where the rule has several and the line says which.
pub(crate) fn cause_of(
    rows: &[Row<'_>],
    function: &[Row<'_>],
    row: &Row<'_>,
    number: u16,
) -> Option<&'static str> {
    let operation = row.operation();
    match number {
        204 if operation == "call" => Some(call_cause(rows, function, row)),
        204 if operation == "store" && row.word(1) == "[" => {
            Some(if has_element(function, row) {
                "an array is stored to an element, and not to its object"
            } else {
                "the array has not as many cells as its object"
            })
        }
        204 => looked_up(POINTER_CAUSES, operation),
        307 if row.label().is_some() => { Some("another way to a detached block than its detach") }
        307 => looked_up(PLACE_CAUSES, operation),
        _ => None,
    }
}
