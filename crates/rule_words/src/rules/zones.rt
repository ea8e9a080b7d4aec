//! The words of the rules of zones, 601 to 604.

use crate::rule::Rule;

static UNCOVERED_CELL: Rule = Rule {
    reported_at: "the load, store or `atomicrmw`",
    means: "the instruction touches a cell that no zone covers: in the function's own blocks a \
        `reads`, `writes` or `adds` line of the function, in a child a `foot` line of its detached \
        block",
    mend: "add or widen the zone, or bound the index by `keeps`; a child needs cover for its \
        function's allocas too, the function's own blocks do not",
    example: "`store i64 1, ptr @a` in a function without zones; right with `;! writes @a 0 1` at \
        its head",
};

static CONFLICT: Rule = Rule {
    reported_at: "the load, store, `atomicrmw`, call or detach",
    means: "the line touches cells that a child which may still run has, as a `pending` line of \
        the block says",
    mend: "sync first; or cut the cells so that each child has its own; or add in place of a load \
        and a store",
    example: "`store i64 2, ptr @a` in a continuation with `;! pending %s writes @a 0 1`; right \
        after a sync",
};

static PENDING: Rule = Rule {
    reported_at: "the terminator of the edge's source",
    means: "children may still run when the next block begins, and no `pending` line of it covers \
        what one of them may touch: what was pending before and, behind a detach, the new child's \
        foot, where each phi is what it takes on the edge",
    mend: "put a `pending` line of their region into that block, or widen the one it has; behind a \
        sync of the region it needs none",
    example: "a detach whose child writes cell 0 of `@a`, and a continuation without `;! pending \
        %s writes @a 0 1`",
};

static UNCOVERED_ZONE: Rule = Rule {
    reported_at: "the call or the detach",
    means: "the callee or the new child may touch cells that no zone here covers: the zones of a \
        callee, with the arguments put in, or the child's `foot` have to lie within the function's \
        zones, in a child within its `foot`",
    mend: "widen the zones of the function or the `foot` of the child that calls or detaches, or \
        narrow what is called or detached; a function's own blocks need no cover for its own \
        allocas",
    example: "a detach of a child with `;! foot writes @a 0 1` in a function with `;! writes @a 1 \
        2` alone; right is `;! writes @a 0 2`",
};

/// The rule of this number.
pub(crate) fn rule_of(number: u16) -> Option<&'static Rule> {
    match number {
        601 => Some(&UNCOVERED_CELL),
        602 => Some(&CONFLICT),
        603 => Some(&PENDING),
        604 => Some(&UNCOVERED_ZONE),
        _ => None,
    }
}
