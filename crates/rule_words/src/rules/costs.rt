//! The words of the rules of costs, 701 to 705.

use crate::rule::{Numbered, Rule};

static LEFT_BELOW_ZERO: Rule = Rule {
    reported_at: "the `left` line, else the label",
    means: "nothing shows that both forms of `left` are at least 0 when the block begins",
    mend: "bound their registers by `keeps`, or leave more from the entry on",
    example: "`;! left 0 2*%n` with nothing known of `%n`; right with `;! keeps %n >= 0`",
};

static LEFT_TOO_SMALL: Rule = Rule {
    reported_at: "the terminator",
    means: "the block has too little `left`: less what the block itself does, it has to be enough \
        for the `left` of each target, of both targets of a detach together, and for 0 at a `ret` \
        or `reattach`",
    mend: "raise `left` here and in the blocks before, or lower that of the target; bound by \
        `keeps` the registers that the forms name",
    example: "`;! left 0 3` and 3 instructions up to `br label %j`, where `j` has `;! left 0 1`; \
        right is `;! left 0 4`",
};

static MEASURE: Rule = Rule {
    reported_at: "the `measure` line",
    means: "no `requires` lines show that the measure is from 0 to its bound",
    mend: "require both bounds",
    example: "`;! measure %n max 20` with nothing known of `%n`; right with `;! requires %n >= 0` \
        and `;! requires %n <= 20`",
};

static SELF_CALL: Rule = Rule {
    reported_at: "the self call",
    means: "nothing shows that the measure of the arguments is at least 0 and below the call's own",
    mend: "bound the arguments by `keeps`, or by `shows` before the call; without a `measure` line \
        the function may not call itself",
    example: "`%y = call i64 @fib(i64 %n)` in `@fib` with `;! measure %n max 20`; right with an \
        argument below `%n`",
};

static BUDGET: Rule = Rule {
    reported_at: "the `budget` line, else the `define`",
    means: "nothing shows that what is left at the entry is within the budget",
    mend: "raise the budget, or lower `left`",
    example: "`;! budget 0 13` where the entry has `;! left 0 14`; right is `;! budget 0 14`",
};

static RECURSION_COST: Rule = Rule {
    reported_at: "the `define`",
    means: "a call of a measure within the bound may cost over 1,000,000,000,000 instructions",
    mend: "lower the bound of the measure, or make fewer self calls",
    example: "`;! budget 2 15` with `;! measure %n max 60`; right with a bound of 20",
};

/// The rules of this number.
pub(crate) fn rules_of(number: u16) -> Option<Numbered> {
    let rule = match number {
        701 => &LEFT_BELOW_ZERO,
        702 => &LEFT_TOO_SMALL,
        703 => {
            return Some(Numbered::Two {
                annotation: &MEASURE,
                instruction: &SELF_CALL,
            });
        }
        704 => &BUDGET,
        705 => &RECURSION_COST,
        _ => return None,
    };
    Some(Numbered::One(rule))
}
