//! Notes of what was not looked at for annotations, since a text meets a limit.

use annotate::MetLimit;
use cli_words::Beside;
use verifier::Effort;

/// What a line for standard error begins with that tells of no fault.
fn note_word(beside: &Beside) -> &'static str {
    if beside.has_colours {
        "\u{1b}[36mnote:\u{1b}[0m"
    } else {
        "note:"
    }
}

/// Says which limits were met at which lines of a file, so that lines that follow may be missing, and whether the effort is spent.
pub(crate) fn note_limits(file: &str, met: &[MetLimit], effort: &Effort, beside: &mut Beside) {
    let note = note_word(beside);
    if effort.is_spent() {
        writeln!(
            beside,
            "{note} the effort is spent, and no line is put in; --effort=N grants more"
        );
    }
    for next in met {
        let line = next.line;
        let what = next.limit.text();
        writeln!(beside, "{file}:{line}: {note} {what}");
    }
}
