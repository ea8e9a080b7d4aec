//! The limits of what is looked at that a text meets, each with its line and words.

use annotate_facts::Heap;

/// A limit of what is looked at in a text, a function or a block, or before an instruction.
#[derive(Clone, Copy, PartialEq, Eq)]
pub enum Limit {
    Bytes,
    Blocks,
    Instructions,
    Facts,
    DerivedFrom,
    AtEnds,
    Derived,
    Wanted,
    Guesses,
    Keeps,
    Pending,
    InBlock,
    Shows,
    Effort,
    Calls,
    Rounds,
}

impl Limit {
    /// What the limit says of what meets it.
    pub fn text(self) -> &'static str {
        match self {
            Limit::Bytes => {
                "the text has more than 65,536 bytes, with the lines put in: only what is sure is tried, and no zones are found"
            }
            Limit::Blocks => {
                "the function has more than 256 blocks: nothing is tried at its loops, and no zones are found"
            }
            Limit::Instructions => {
                "the function has more than 2,048 instructions: what they make of registers is not looked at"
            }
            Limit::Facts => {
                "the function has 512 facts and more, with those that may be so: the others are not looked at"
            }
            Limit::DerivedFrom => {
                "the function has more than 500 facts, with those that may be so: what follows from them is not looked at"
            }
            Limit::AtEnds => {
                "128 facts at the block's head, 64 of their registers and 256 facts at its end are looked at: what follows from others is not tried"
            }
            Limit::Derived => "512 facts that follow in the function are tried: the others are not",
            Limit::Wanted => {
                "256 facts that the function's blocks ask for are looked at: the others are not"
            }
            Limit::Guesses => {
                "there is room for 24 facts that may be so of the block's phis: the others are not tried"
            }
            Limit::Keeps => {
                "there is room for 32 `keeps` lines at the block: the others are not tried"
            }
            Limit::Pending => {
                "there is room for 32 `pending` lines at the block: the others are not tried"
            }
            Limit::InBlock => "the block has 1,024 facts and more: the others show nothing in it",
            Limit::Shows => {
                "there is room for 32 `shows` lines before the instruction: the others are not tried"
            }
            Limit::Effort => {
                "the search for `shows` lines ends in this block: none are put in behind it"
            }
            Limit::Calls => {
                "zones are found through three calls: a function that is called here has none by then, so none are found"
            }
            Limit::Rounds => {
                "lines are tried 64 times: some behind this one are refused even then, so none of their kind are put in"
            }
        }
    }
}

/// A limit, and the line of a function, a block or an instruction that meets it.
#[derive(Clone, Copy, PartialEq, Eq)]
pub struct MetLimit {
    pub line: u32,
    pub limit: Limit,
}

/// Adds a limit that is met at a line, unless it is there.
pub(crate) fn meet(heap: &Heap, met: &mut Vec<MetLimit>, line: u32, limit: Limit) {
    let next = MetLimit { line, limit };
    if !met.contains(&next) {
        heap.push(met, next);
    }
}
