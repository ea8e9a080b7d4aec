//! The words of the rules of what is shown of numbers, 501 to 508.

use crate::rule::Rule;

static INDEX: Rule = Rule {
    reported_at: "the instruction",
    means: "nothing shows that the index is at least 0 and at most the extent of the object less 1",
    mend: "bound the index from both sides by `keeps`, in the entry block by `requires`; or take \
        it from an `and` with a mask",
    example: "`%p = getelementptr inbounds i64, ptr @a, i64 2`, where `@a` has 2 cells; right is \
        an index from 0 to 1",
};

static DIVISOR: Rule = Rule {
    reported_at: "the instruction",
    means: "nothing shows that the divisor is at least 1 or at most -1; or, at `sdiv` and `srem`, \
        that it is not -1 or the dividend is above the least value",
    mend: "bound the divisor by a branch or by `requires`, or the dividend",
    example: "`%q = urem i64 %a, %b` with `;! requires %b >= 0`; right is `;! requires %b >= 1`",
};

static NO_SIGNED_WRAP: Rule = Rule {
    reported_at: "the instruction",
    means: "nothing shows that the result of the `nsw` operation fits its width; or neither \
        operand of a `mul nsw` is a number within a million",
    mend: "bound the operands by `keeps`, in the entry block by `requires`; or leave `nsw` out, \
        and the result may wrap and gives no fact",
    example: "`%s = add nsw i64 %a, 1` with `;! requires %a >= 0` alone; right with `;! requires \
        %a <= 9` too",
};

static SHIFT_AMOUNT: Rule = Rule {
    reported_at: "the instruction",
    means: "nothing shows that the amount of the shift is from 0 to 63 (31 at i32)",
    mend: "shift by a number, or by an `and` with 63",
    example: "`%s = shl i64 %a, %b` with `;! requires %b >= 0` alone; right with `;! requires %b \
        <= 63` too",
};

static KEEPS: Rule = Rule {
    reported_at: "the terminator of the edge's source",
    means: "the block at the end of an edge has a `keeps` line that nothing shows on this edge, \
        where each phi is what it takes there",
    mend: "add the fact as a `keeps` line to the block that the edge leaves, or show it in steps \
        by `shows` before the terminator",
    example: "`;! keeps %i >= 1` at a loop's head with `%i = phi i64 [ 0, %entry ], ..`; right is \
        `;! keeps %i >= 0`",
};

static REQUIRES: Rule = Rule {
    reported_at: "the call",
    means: "nothing shows a `requires` line of the callee, with the arguments put in",
    mend: "bound the arguments by `keeps`, or show it in steps by `shows` before the call",
    example: "`%r = call i64 @next(i64 10)`, where `@next` requires `%x <= 9`; right is an \
        argument up to 9",
};

static ENSURES: Rule = Rule {
    reported_at: "the `ret`",
    means: "nothing shows an `ensures` line of the function at this `ret`, with the returned value \
        for `%.ret`",
    mend: "show it in steps by `shows` before the `ret`",
    example: "`ret i64 %x` where the function ensures `%.ret >= %x+1`; right is `ret i64 %y` after \
        `%y = add nsw i64 %x, 1`",
};

static SHOWS: Rule = Rule {
    reported_at: "the line",
    means: "no two facts that are known here show what the `shows` line says",
    mend: "go by smaller steps: a `shows` line is a fact for the next one",
    example: "`;! shows %k >= 0` from `%i >= 0`, `%j >= %i` and `%k >= %j`; right with `;! shows \
        %j >= 0` before it",
};

/// The rule of this number.
pub(crate) fn rule_of(number: u16) -> Option<&'static Rule> {
    match number {
        501 => Some(&INDEX),
        502 => Some(&DIVISOR),
        503 => Some(&NO_SIGNED_WRAP),
        504 => Some(&SHIFT_AMOUNT),
        505 => Some(&KEEPS),
        506 => Some(&REQUIRES),
        507 => Some(&ENSURES),
        508 => Some(&SHOWS),
        _ => None,
    }
}
