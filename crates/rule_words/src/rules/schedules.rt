//! The words of the rules of the text of a schedule, 901 and 902.

use crate::rule::Rule;

static NO_EVENTS: Rule = Rule {
    reported_at: "the line",
    means: "The line is neither `step W N` nor `steal W PATH` ended by LF, or it has steps of the \
        worker whose steps stand on the line before. Examples: `step 0 0`, `step 64 1`, `step 0 \
        01`, `steal 1 root.`, a last line without LF, an empty line; `step 0 1` after `step 0 1`.",
    mend: "Write numbers without sign and leading zeros, one space between words, workers from 0 \
        to 63, numbers of paths up to 1,000,000,000,000, and all steps of one worker that follow \
        each other on one line.",
    example: "`step 0 01`; right is `step 0 1`",
};

static OVER_SCHEDULE_LIMIT: Rule = Rule {
    reported_at: "the line",
    means: "With this line the text has over 1,048,576 bytes or events.",
    mend: "Cut the schedule: `step 0 1048577` is more events than a schedule may have.",
    example: "`step 0 1048577` alone is too many events",
};

/// The rule of this number.
pub(crate) fn rule_of(number: u16) -> Option<&'static Rule> {
    match number {
        901 => Some(&NO_EVENTS),
        902 => Some(&OVER_SCHEDULE_LIMIT),
        _ => None,
    }
}
