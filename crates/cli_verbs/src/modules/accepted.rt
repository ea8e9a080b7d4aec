//! What `verify` answers of a module that is accepted.

use crate::modules::answer::{Answer, Unanswered};
use crate::modules::json::push_separator;
use cli_words::{Request, Status};
use lists::TextBuffer;
use std::alloc::Global;
use verifier::Verified;

/// The function whose table is asked for: its name and number; none where no table is.
fn tabled<'a>(
    verified: &Verified,
    request: &'a Request,
) -> Result<Option<(&'a str, usize)>, Unanswered> {
    let Some(name) = &request.table else {
        return Ok(None);
    };
    let functions = verified.program().functions.as_slice();
    for number in 0..functions.len() {
        if functions[number].name.as_str() == name.as_str() {
            return Ok(Some((name.as_str(), number)));
        }
    }
    Err(Unanswered::Words)
}

/// The costs and depths of a function, from measure 0 to its bound.
fn push_rows(
    out: &mut TextBuffer,
    verified: &Verified,
    name: &str,
    function: usize,
    is_json: bool,
) {
    let table = verified.table();
    for measure in 0..u64::MAX {
        let row = (
            table.cost(function, measure),
            table.depth(function, measure),
        );
        let (Some(cost), Some(depth)) = row else {
            return;
        };
        if is_json {
            push_separator(out);
            write!(
                out,
                "{{\"measure\":{measure},\"cost\":{cost},\"depth\":{depth}}}"
            );
        } else {
            writeln!(out, "@{name} {measure} cost {cost} depth {depth}");
        }
    }
}

/// Budget and depth of a module, and the table of a function where one is asked for; a name of none is a wrong word.
pub(crate) fn accepted(
    alloc: Global,
    verified: &Verified,
    request: &Request,
) -> Result<Answer, Unanswered> {
    let tabled = tabled(verified, request)?;
    let budget = verified.budget();
    let depth = verified.depth();
    let mut out = TextBuffer::new(alloc);
    if request.is_json {
        write!(
            out,
            "{{\"verdict\":\"accepted\",\"budget\":{budget},\"depth\":{depth}"
        );
        if let Some((name, function)) = tabled {
            write!(out, ",\"table\":{{\"function\":\"@{name}\",\"rows\":[");
            push_rows(&mut out, verified, name, function, true);
            out.push_str("]}");
        }
        out.push_str("}\n");
    } else {
        writeln!(out, "accepted\nbudget {budget}\ndepth {depth}");
        if let Some((name, function)) = tabled {
            push_rows(&mut out, verified, name, function, false);
        }
    }
    Ok(Answer::of(out.finish()?, Status::Done))
}
