//! Faults of a file, told on standard error so that editors find the line.

use cli_words::{Beside, Question};
use explain::line_at;
use rule_words::rule_of;

/// The text, where it is UTF-8.
pub(crate) fn utf8_of(text: &[u8]) -> &str {
    str::from_utf8(text).unwrap_or("")
}

/// What the rule of this number means that a line breaks, without its causes.
pub(crate) fn head_of(number: u16, broken: &str) -> &'static str {
    match rule_of(number, broken) {
        Some(rule) => rule.head(),
        None => "",
    }
}

/// Says on which line of the file a rule is broken, and what the rule means. Where lines are put in, the text has the line at another place.
pub(crate) fn note_fault(
    question: Question<'_>,
    own_line: u32,
    text: &[u8],
    number: u16,
    line: u32,
    beside: &mut Beside,
) {
    let broken = line_at(utf8_of(text), line).unwrap_or("").trim();
    let head = head_of(number, broken);
    let file = question.request.file.as_str();
    let error = beside.error_word();
    writeln!(beside, "{file}:{own_line}: {error} rule {number}: {head}");
}
