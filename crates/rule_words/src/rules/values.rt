//! The words of the rules of what has a value where it is used, 401 and 402.

use crate::rule::Rule;

static UNDEFINED_REGISTER: Rule = Rule {
    reported_at: "the use, the phi or the annotation",
    means: "the line uses a register that some path from the entry to here does not define",
    mend: "define it before the branch, or take it by a phi; what a child defines is not defined \
        in its parent",
    example: "`%t = add i64 %r, %y` after a continuation, where the child defines `%r`",
};

static UNSTORED_CELL: Rule = Rule {
    reported_at: "the load, the `atomicrmw` or the call",
    means: "an alloca is read or passed while some of its cells may have no values",
    mend: "clear an array by `store [N x i64] zeroinitializer`, store to a single cell through its \
        own name, on every path; read what a child stores after the sync",
    example: "`%x = load i64, ptr %a` right after `%a = alloca [2 x i64]`; right after `store [2 x \
        i64] zeroinitializer, ptr %a`",
};

/// The rule of this number.
pub(crate) fn rule_of(number: u16) -> Option<&'static Rule> {
    match number {
        401 => Some(&UNDEFINED_REGISTER),
        402 => Some(&UNSTORED_CELL),
        _ => None,
    }
}
