//! Whether a text is another one with annotations put in.

ghost use Rattle.std.specs.Prelude.{◌≡◌, ◌∷◌, IsTrue, IfSome, List, ℕ};
ghost use Rattle.annotate.specs.Kept.{AreLinesAmong, IsAnnotated, is_annotation};
ghost use Rattle.ir_reader.specs.Lines.{content, lines_of};

use ir_lex::{is_note_mark, spaces};
use ir_reader::{content, cut_line};

/// Whether two lines are the same, with or without the LF that ends them.
fn are_same(line: &[u8], other: &[u8]) -> bool
    ensures { IsTrue result → content line.now ≡ content other.now }
{
    content(line) == content(other)
}

/// Whether a line is an annotation.
fn is_annotation(line: &[u8]) -> bool
    ensures { result ≡ is_annotation line.now }
{
    let start = spaces(line);
    is_note_mark(&line[start..])
}

/// What is left of a text behind its first line, where that is this line; the text, where this line is an annotation.
fn left_behind<'a>(text: &'a [u8], line: &[u8]) -> Option<&'a [u8]>
    ensures { IfSome result (λ left. (more : List (List ℕ)) → AreLinesAmong (lines_of left.now) more → AreLinesAmong (lines_of text.now) (line.now ∷ more)) }
{
    if !text.is_empty() {
        let (first, behind) = cut_line(text);
        if are_same(first, line) {
            return Some(behind);
        }
    }
    if is_annotation(line) {
        Some(text)
    } else {
        None
    }
}

/// Whether a text has the lines of another one in their order, and between them annotations.
pub fn is_annotated(text: &[u8], annotated: &[u8]) -> bool
    ensures { IsTrue result → IsAnnotated text.now annotated.now }
{
    let mut left = text;
    let mut rest = annotated;
    while !rest.is_empty() {
        let (line, after) = cut_line(rest);
        let Some(behind) = left_behind(left, line) else {
            return false;
        };
        left = behind;
        rest = after;
    }
    left.len() == 0
}
