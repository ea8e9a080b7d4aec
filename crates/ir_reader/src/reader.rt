//! From the bytes of a text to a module, line by line (parser).

ghost use Rattle.std.specs.Prelude.{◌≡◌, length, IfErr, IfOk, Ok, Some};
ghost use Rattle.ir_reader.specs.Draft.{placed};
ghost use Rattle.ir_reader.specs.declared.draft.Draft as draft_type;
ghost use Rattle.ir_reader.specs.Faults.{IsOnLineOf};
ghost use Rattle.ir_reader.specs.Kept.{IsKeptModule};
ghost use Rattle.ir_reader.specs.Lines.{lines_of};
ghost use Rattle.ir_reader.specs.Counting.{counts_of};
ghost use Rattle.ir_reader.specs.Tracking.{IsTracked, Answered, judged_reader, judged_place, FailsAt, FaultSteps, FaultOverlong, FaultTooLate};
ghost use Rattle.ir_reader.specs.Tracking.{FaultEnded, or_too_late};
ghost use Rattle.ir_reader.specs.Reading.{start, with_item, Steps, ended, Answers, IsFaultOfText};

use crate::draft::{Draft, LineContext};
use crate::item::{Line, read_line};
use crate::limits::{Counts, MAX_BYTES, is_within_limits};
use crate::lines::{content, cut_line};
use crate::scope::Scope;
use lists::{OutOfMemory, Seq};
use refusal::{Refused, rule};
use std::alloc::Global;
use std::hash::RandomState;
use syntax::Module;

/// What was read, and what finds the next item's faults.
#[derive(Drop)]
pub struct Reader {
    pub draft: Draft,
    pub counts: Counts,
    pub scope: Scope,
}

/// The lower of a line's own fault and 104, which the line has since the text grows too long with it.
fn or_too_late(fault: Refused) -> Refused
    ensures { result ≡ or_too_late fault }
{
    match fault {
        Refused::Fault { number, line } => Refused::Fault {
            number: number.min(rule::OVER_LIMIT),
            line,
        },
        Refused::Memory => Refused::Memory,
    }
}

/// The reader, unless its last item, which stands on this line, passed a limit or defined a name again.
fn judged(reader: Reader, line: u32, is_within: bool, is_new: bool) -> Result<Reader, Refused>
    requires { reader.counts ≡ counts_of reader.draft }
    ensures { result ≡ judged_reader line is_within is_new reader }
{
    let is_good = is_within_limits(&reader.draft, reader.counts);
    if !is_within || !is_good {
        drop(reader);
        Err(Refused::Fault {
            number: rule::OVER_LIMIT,
            line,
        })
    } else if is_new {
        Ok(reader)
    } else {
        drop(reader);
        Err(Refused::Fault {
            number: rule::DEFINED_TWICE,
            line,
        })
    }
}

impl Reader {
    fn new(alloc: Global, state: RandomState) -> Result<Reader, OutOfMemory>
        ensures draft { IfOk result (λ r. r.draft ≡ start) }
        ensures tracked { IfOk result IsTracked }
    {
        let scope = Scope::new(alloc, state)?;
        Ok(Reader {
            draft: Draft {
                whole: Module {
                    globals: Seq::new(alloc),
                    functions: Seq::new(alloc),
                },
                place: LineContext::Outside,
            },
            counts: Counts::new(),
            scope,
        })
    }

    /// Puts the line's item behind what was read; counts and scope have it already.
    fn placed(self, alloc: Global, number: u32, line: Line, is_new: bool) -> Result<Reader, Refused>
        requires { (e : draft_type.Draft) → Some e ≡ placed self.draft number line.item → self.counts ≡ counts_of e }
        ensures { Answered result (judged_place number (placed self.draft number line.item) line.is_within_limits is_new self.counts self.scope) }
    {
        let Reader {
            draft,
            counts,
            scope,
        } = self;
        let Line {
            item,
            is_within_limits,
        } = line;
        match draft.put(alloc, number, item) {
            Ok(Some(draft)) => judged(
                Reader {
                    draft,
                    counts,
                    scope,
                },
                number,
                is_within_limits,
                is_new,
            ),
            Ok(None) => {
                drop(scope);
                Err(Refused::Fault {
                    number: rule::MISPLACED_WORD,
                    line: number,
                })
            }
            Err(_) => {
                drop(scope);
                Err(Refused::Memory)
            }
        }
    }

    /// What was read, with the item of one more line. Of several faults the lowest number is named.
    fn put(mut self, alloc: Global, number: u32, line: Line) -> Result<Reader, Refused>
        requires { IsTracked self }
        ensures tracked { IfOk result IsTracked }
        ensures read { IfOk result (λ r. with_item self.draft number line ≡ Ok r.draft) }
        ensures fault { IfErr result (FailsAt number (with_item self.draft number line)) }
    {
        self.counts = self.counts.with(&line.item);
        match self.scope.define(alloc, &line.item) {
            Ok(is_new) => self.placed(alloc, number, line, is_new),
            Err(_) => {
                drop(self);
                drop(line);
                Err(Refused::Memory)
            }
        }
    }

    /// What was read, with one more line.
    fn step(self, alloc: Global, number: u32, line: &[u8]) -> Result<Reader, Refused>
        requires { IsTracked self }
        ensures tracked { IfOk result IsTracked }
        ensures read { IfOk result (λ r. Steps self.draft number line.now (Ok r.draft)) }
        ensures fault { IfErr result (FaultSteps self.draft number line.now) }
    {
        match read_line(alloc, line, number) {
            Ok(None) => Ok(self),
            Ok(Some(line)) => self.put(alloc, number, line),
            Err(fault) => {
                drop(self);
                Err(fault)
            }
        }
    }

    /// The fault of a line that says this and with which the text grows too long.
    fn too_late(self, alloc: Global, number: u32, line: Line) -> Refused
        ensures { FaultTooLate self.draft number line result }
    {
        let Reader { draft, scope, .. } = self;
        drop(scope);
        match draft.put(alloc, number, line.item) {
            Ok(Some(draft)) => {
                drop(draft);
                Refused::Fault {
                    number: rule::OVER_LIMIT,
                    line: number,
                }
            }
            Ok(None) => Refused::Fault {
                number: rule::MISPLACED_WORD,
                line: number,
            },
            Err(_) => Refused::Memory,
        }
    }

    /// The fault of the line with which the text grows too long.
    fn overlong(self, alloc: Global, number: u32, line: &[u8]) -> Refused
        ensures { FaultOverlong self.draft number line.now result }
    {
        match read_line(alloc, line, number) {
            Ok(Some(line)) => self.too_late(alloc, number, line),
            Ok(None) => {
                drop(self);
                Refused::Fault {
                    number: rule::OVER_LIMIT,
                    line: number,
                }
            }
            Err(fault) => {
                drop(self);
                or_too_late(fault)
            }
        }
    }

    /// The module, where it is not in a function that the text ends.
    fn end(self, number: u32) -> Result<Module, Refused>
        ensures read { IfOk result (λ m. ended self.draft.whole self.draft.place number ≡ Ok m) }
        ensures fault { IfErr result (FaultEnded (ended self.draft.whole self.draft.place number)) }
    {
        let Reader { draft, scope, .. } = self;
        drop(scope);
        let Draft { whole, place } = draft;
        match place {
            LineContext::Outside => Ok(whole),
            other => {
                drop(other);
                drop(whole);
                Err(Refused::Fault {
                    number: rule::UNCLOSED_FUNCTION,
                    line: number,
                })
            }
        }
    }
}

/// Reads a module's text: it answers the module that the lines make, or the first fault with its line.
pub fn read(alloc: Global, state: RandomState, text: &[u8]) -> Result<Module, Refused>
    ensures exact { IfOk result (λ m. Answers text.now (Ok m)) }
    ensures kept { IfOk result IsKeptModule }
    ensures fault { IfErr result (IsFaultOfText text.now) }
    ensures line { IfErr result (IsOnLineOf (length (lines_of text.now))) }
{
    let Ok(mut reader) = Reader::new(alloc, state) else {
        return Err(Refused::Memory);
    };
    let mut rest = text;
    let mut number: u32 = 0;
    while !rest.is_empty() {
        let (line, after) = cut_line(rest);
        number += 1;
        if text.len() - after.len() > MAX_BYTES {
            return Err(reader.overlong(alloc, number, content(line)));
        }
        reader = reader.step(alloc, number, content(line))?;
        rest = after;
    }
    reader.end(number)
}
