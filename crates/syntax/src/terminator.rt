//! The syntax tree of terminators: `br`, `switch`, `ret`, and Tapir's `detach`, `reattach` and `sync`.

use crate::annotation::Inequality;
use crate::instruction::Operand;
use crate::operator::Width;
use lists::{Name, Seq};

/// `T N, label %l` of a switch.
#[derive(Drop)]
pub struct Case {
    pub number: i64,
    pub target: Name,
}

/// What ends a block. Targets are labels; a region is named by its register.
#[derive(Drop)]
pub enum Terminator {
    /// `br label %l`
    Jump {
        target: Name,
    },
    /// `br i1 %c, label %t, label %f`
    Branch {
        condition: Name,
        when_true: Name,
        when_false: Name,
    },
    /// `switch T V, label %l [ T N, label %l .. ]`
    Switch {
        width: Width,
        value: Operand,
        default: Name,
        cases: Seq<Case>,
    },
    /// `ret i64 V`, and with no value `ret void`
    Return {
        value: Option<Operand>,
    },
    /// `detach within %s, label %d, label %c`
    Detach {
        region: Name,
        body: Name,
        continuation: Name,
    },
    /// `reattach within %s, label %c`
    Reattach {
        region: Name,
        continuation: Name,
    },
    /// `sync within %s, label %n`
    Sync {
        region: Name,
        target: Name,
    },
}

/// A terminator with the `shows` lines directly before it.
#[derive(Drop)]
pub struct Ending {
    pub line: u32,
    pub shows: Seq<Inequality>,
    pub terminator: Terminator,
}
