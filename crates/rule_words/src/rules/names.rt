//! The words of the rules of names, types and the graph of blocks, 201 to 213.

use crate::rule::Rule;

static UNKNOWN_NAME: Rule = Rule {
    reported_at: "the line",
    means: "the line uses a name that nothing in its name space defines, or, in a function's \
        annotation, a register that is no parameter; or the module has no `@main` (reported at \
        line 1)",
    mend: "define it, or correct its spelling",
    example: "`ret i64 %q` where nothing defines `%q`",
};

static WRONG_TYPE: Rule = Rule {
    reported_at: "the line",
    means: "something has another type than its place asks for: an i64 for an i32, a number out of \
        an i32, a label for a register, a pointer in a form, a result that the function does not \
        have; or `@main` does not return i64, or takes a pointer",
    mend: "convert by `trunc`, `sext` or `zext`, or correct the type",
    example: "`ret void` in `@main`; right is `ret i64 0`",
};

static ARGUMENT_COUNT: Rule = Rule {
    reported_at: "the line",
    means: "the call passes more or fewer arguments than the callee has parameters",
    mend: "pass one for each parameter",
    example: "`%r = call i64 @f(i64 0, i64 1)` where `@f` has one parameter; right is `%r = call \
        i64 @f(i64 0)`",
};

static MISUSED_POINTER: Rule = Rule {
    reported_at: "the line",
    means: "a pointer is used in a way that the language does not have: a `getelementptr` result \
        outside its block or as an argument, an `alloca` outside the entry block, an object that \
        is too small or passed twice, a global passed to a function that names it",
    mend: "pass whole objects; take the address again in each block",
    example: "`call void @put(ptr @a, ptr @a)`; right is `call void @put(ptr @a, ptr @b)`",
};

static CALLEE_BELOW: Rule = Rule {
    reported_at: "the line",
    means: "the call names a function that stands below it",
    mend: "move the callee up; there is no mutual recursion",
    example: "a call in `@main` of a function that is written after `@main`",
};

static FORM_LIMIT: Rule = Rule {
    reported_at: "the line",
    means: "a form, or the difference of both sides, has more than 4 registers or a coefficient \
        over 1,000,000; or a `keeps`, `pending` or `left` names a register that its own block \
        defines after its phis",
    mend: "shorten the form; name registers that the block has when it begins",
    example: "`;! shows 1000001*%n >= 0`; the greatest coefficient is 1000000",
};

static PHI_ENTRIES: Rule = Rule {
    reported_at: "the line",
    means: "the phi has not exactly one entry for each predecessor of its block",
    mend: "add or remove entries; a reattach is no edge, so its block is no predecessor",
    example: "`%i = phi i64 [ 0, %entry ]` in a loop's head; right is `%i = phi i64 [ 0, %entry ], \
        [ %k, %head ]`",
};

static BLOCK_ON_NO_PATH: Rule = Rule {
    reported_at: "the line",
    means: "a branch leads to the entry block, or no path from the entry leads to the block",
    mend: "put a new entry before it; lead to the block, or remove it",
    example: "`br label %entry`, where `entry` is the first block",
};

static NO_TERMINATOR: Rule = Rule {
    reported_at: "the line",
    means: "the block has no terminator",
    mend: "end it with one: `br`, `switch`, `ret`, `detach`, `reattach` or `sync`",
    example: "`x:` and then `}`; right with `ret i64 0` between them",
};

/// The rule of this number.
pub(crate) fn rule_of(number: u16) -> Option<&'static Rule> {
    match number {
        201 => Some(&UNKNOWN_NAME),
        202 => Some(&WRONG_TYPE),
        203 => Some(&ARGUMENT_COUNT),
        204 => Some(&MISUSED_POINTER),
        205 => Some(&CALLEE_BELOW),
        206 => Some(&FORM_LIMIT),
        211 => Some(&PHI_ENTRIES),
        212 => Some(&BLOCK_ON_NO_PATH),
        213 => Some(&NO_TERMINATOR),
        _ => None,
    }
}
