//! The words of the rules of tasks and their regions, 301 to 307.

use crate::rule::Rule;

static STRAY_REATTACH: Rule = Rule {
    reported_at: "the reattach",
    means: "the reattach stands in no child, or names another region than the detach of its child",
    mend: "name the region of the detach",
    example: "`reattach within %t, label %c`, where the child was detached within `%s`",
};

static OTHER_CONTINUATION: Rule = Rule {
    reported_at: "the reattach",
    means: "the reattach names another continuation than the detach of its child",
    mend: "name the continuation of the detach",
    example: "`reattach within %s, label %j`, where the detach goes on at `%c`",
};

static FOREIGN_REGION: Rule = Rule {
    reported_at: "the detach, the sync or the `pending` line",
    means: "the line names a region that its own task did not start",
    mend: "start a region in the detached block for what it detaches itself; let the parent sync \
        its own region",
    example: "`sync within %s, label %j` in a child, where its parent started `%s`",
};

static UNSYNCED_DETACH: Rule = Rule {
    reported_at: "the `ret` or reattach",
    means: "the task may end here while its children still run: on some path no sync of their \
        region follows the detach",
    mend: "sync the region on each path before the task ends",
    example: "`ret i64 0` where no sync follows a detach; right after `sync within %s, label %j`",
};

static RETURN_IN_TASK: Rule = Rule {
    reported_at: "the `ret`",
    means: "the `ret` stands in a child, where only its function may return",
    mend: "end the child with `reattach`",
    example: "`ret i64 0` in a child; right is `reattach within %s, label %c`",
};

static TWO_TASKS: Rule = Rule {
    reported_at: "the label",
    means: "two paths give the block different tasks: a child goes on into its parent's code by a \
        branch, or a branch leads into a child",
    mend: "end the child with `reattach`; give each task its own blocks",
    example: "`br label %j` in a child, where `j` is a block of its parent; right is `reattach \
        within %s, label %c`",
};

static MISPLACED_IN_BLOCK: Rule = Rule {
    reported_at: "the instruction, the phi, the `foot` line or the label",
    means: "a block has what one of its kind may not have: `syncregion.start` in neither an entry \
        block nor a detached one; a phi in a detached block or a continuation; `foot` in a block \
        that is not detached; another way to a detached block than its detach",
    mend: "move it; carry a value into a continuation by a register that is defined before the \
        detach",
    example: "`%s = call token @llvm.syncregion.start()` in a loop; right in the entry block",
};

/// The rule of this number.
pub(crate) fn rule_of(number: u16) -> Option<&'static Rule> {
    match number {
        301 => Some(&STRAY_REATTACH),
        302 => Some(&OTHER_CONTINUATION),
        303 => Some(&FOREIGN_REGION),
        304 => Some(&UNSYNCED_DETACH),
        305 => Some(&RETURN_IN_TASK),
        306 => Some(&TWO_TASKS),
        307 => Some(&MISPLACED_IN_BLOCK),
        _ => None,
    }
}
