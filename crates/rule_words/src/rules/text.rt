//! The words of the rules of the text, 101 to 107.

use crate::rule::Rule;

static NOT_UTF8: Rule = Rule {
    reported_at: "the line",
    means: "the line is not UTF-8",
    mend: "save the file as UTF-8; outside comments only ASCII may stand",
    example: "a comment with the byte 255",
};

static NO_TOKEN: Rule = Rule {
    reported_at: "the line",
    means: "the line has bytes that are no word of the language; or, outside comments, a control \
        byte, a carriage return or a byte past ASCII",
    mend: "write the word as LANGUAGE.md says; save with LF alone",
    example: "`%x = add i64 %n, 007`; right is `%x = add i64 %n, 7`",
};

static MISPLACED_WORD: Rule = Rule {
    reported_at: "the line",
    means: "a word or a whole line stands where it may not",
    mend: "write the line as the grammar has it; a block is label, annotations, phis, \
        instructions, terminator, in this order",
    example: "`%x = add i64 %n 7`; right is `%x = add i64 %n, 7`",
};

static OVER_LIMIT: Rule = Rule {
    reported_at: "the line",
    means: "the line passes a limit: of the text, a name, a number, or how many of a kind there \
        may be",
    mend: "split the module or the function; the limits stand in LANGUAGE.md",
    example: "`ret i64 9223372036854775808`; the greatest number is 9223372036854775807",
};

static UNCLOSED_FUNCTION: Rule = Rule {
    reported_at: "the line",
    means: "the text ends inside a function; reported at the last line that holds a byte",
    mend: "close the function with `}`",
    example: "a function whose last line is `ret i64 0`; right with `}` after it",
};

static DEFINED_TWICE: Rule = Rule {
    reported_at: "the line",
    means: "the line defines a name that is defined already, or `%.ret` or \
        `@llvm.syncregion.start`, which no line may define; reported at the second definition",
    mend: "rename; labels, registers and parameters of a function share one name space, globals \
        and functions another",
    example: "`%n = add nsw i64 %n, 1` where `%n` is a parameter; right is `%m = add nsw i64 %n, 1`",
};

static UNKNOWN_ANNOTATION: Rule = Rule {
    reported_at: "the line",
    means: "the annotation begins with a word that no annotation has",
    mend: "write an annotation of LANGUAGE.md; for a plain comment leave the `!` out",
    example: "`;! keep %n >= 0`; right is `;! keeps %n >= 0`",
};

/// The rule of this number.
pub(crate) fn rule_of(number: u16) -> Option<&'static Rule> {
    match number {
        101 => Some(&NOT_UTF8),
        102 => Some(&NO_TOKEN),
        103 => Some(&MISPLACED_WORD),
        104 => Some(&OVER_LIMIT),
        105 => Some(&UNCLOSED_FUNCTION),
        106 => Some(&DEFINED_TWICE),
        107 => Some(&UNKNOWN_ANNOTATION),
        _ => None,
    }
}
