//! A module of which the first lines have been read, and which item may stand behind them.
//!
//! Where memory is refused all parts are let go by one call: a proof follows each drop by itself.

ghost use Rattle.std.specs.Prelude.{◌≡◌, IfOk, []};
ghost use Rattle.ir_annotation.specs.declared.meaning.Annotation.TheVariants.{Shows};
ghost use Rattle.ir_reader.specs.Annotating.{annotated_function, annotated_block};
ghost use Rattle.ir_reader.specs.Draft.{placed, placed_outside, placed_at_function, placed_in_function_head, placed_at_block, annotated_in_block_head};
ghost use Rattle.ir_reader.specs.Draft.{placed_in_block_head, placed_in_phis, annotated_in_body, placed_behind, placed_in_body, placed_in_ended};
ghost use Rattle.ir_reader.specs.Draft.{new_place};

use crate::annotating::{BlockHead, FunctionHead, annotated_block, annotated_function};
use crate::item::Item;
use crate::opening::{
    new_block, new_function, with_block, with_ending, with_function, with_global, with_phi,
    with_step,
};
use ir_annotation::Annotation;
use lists::{Name, OutOfMemory, Seq};
use std::alloc::Global;
use syntax::{Block, Function, Inequality, Module};

/// What the next line stands in. A function and a block that are not at their end are no part of the module yet.
#[derive(Drop)]
pub enum LineContext {
    /// Not in a function.
    Outside,
    /// Behind a `define` and its annotations.
    FunctionHead(FunctionHead),
    /// Behind a label and its annotations.
    BlockHead(Function, BlockHead),
    /// Behind a phi.
    Phis(Function, Block),
    /// Behind an instruction, with the `shows` lines that wait for the next one.
    Body(Function, Block, Seq<Inequality>),
    /// Behind a terminator.
    Ended(Function, Block),
}

#[derive(Drop)]
pub struct Draft {
    pub whole: Module,
    pub place: LineContext,
}

/// Behind a label.
fn new_place(alloc: Global, function: Function, line: u32, label: Name) -> LineContext
    ensures { result ≡ new_place function line label }
{
    let block = new_block(alloc, line, label);
    LineContext::BlockHead(
        function,
        BlockHead {
            block,
            has_left: false,
        },
    )
}

fn put_outside(
    alloc: Global,
    whole: Module,
    line: u32,
    item: Item,
) -> Result<Option<Draft>, OutOfMemory>
    ensures { IfOk result (λ d. d ≡ placed_outside whole line item) }
{
    match item {
        Item::Global(global) if whole.functions.is_empty() => Ok(Some(Draft {
            whole: with_global(whole, global)?,
            place: LineContext::Outside,
        })),
        Item::Define {
            name,
            result_type,
            parameters,
        } => {
            let function = new_function(alloc, line, name, result_type, parameters);
            Ok(Some(Draft {
                whole,
                place: LineContext::FunctionHead(FunctionHead {
                    function,
                    has_measure: false,
                    has_budget: false,
                }),
            }))
        }
        other => {
            drop(other);
            drop(whole);
            Ok(None)
        }
    }
}

fn annotate_function(
    whole: Module,
    head: FunctionHead,
    annotation: Annotation,
) -> Result<Option<Draft>, OutOfMemory>
    ensures { IfOk result (λ d. d ≡ placed_at_function whole (annotated_function head annotation)) }
{
    match annotated_function(head, annotation) {
        Ok(Some(head)) => Ok(Some(Draft {
            whole,
            place: LineContext::FunctionHead(head),
        })),
        Ok(None) => {
            drop(whole);
            Ok(None)
        }
        Err(OutOfMemory) => {
            drop(whole);
            Err(OutOfMemory)
        }
    }
}

fn put_in_function_head(
    alloc: Global,
    whole: Module,
    head: FunctionHead,
    line: u32,
    item: Item,
) -> Result<Option<Draft>, OutOfMemory>
    ensures { IfOk result (λ d. d ≡ placed_in_function_head whole head line item) }
{
    match item {
        Item::Label(label) => Ok(Some(Draft {
            whole,
            place: new_place(alloc, head.function, line, label),
        })),
        Item::Annotation(annotation) => annotate_function(whole, head, annotation),
        other => {
            drop(other);
            drop(head);
            drop(whole);
            Ok(None)
        }
    }
}

/// A module with a function more that is not at its end.
#[derive(Drop)]
struct OpenFunction {
    whole: Module,
    function: Function,
}

impl OpenFunction {
    fn annotate_block(
        self,
        head: BlockHead,
        annotation: Annotation,
    ) -> Result<Option<Draft>, OutOfMemory>
        ensures { IfOk result (λ d. d ≡ placed_at_block self.whole self.function (annotated_block head annotation)) }
    {
        match annotated_block(head, annotation) {
            Ok(Some(head)) => Ok(Some(Draft {
                whole: self.whole,
                place: LineContext::BlockHead(self.function, head),
            })),
            Ok(None) => {
                drop(self);
                Ok(None)
            }
            Err(OutOfMemory) => {
                drop(self);
                Err(OutOfMemory)
            }
        }
    }

    /// A `shows` line more, behind which its instruction is waited for.
    fn with_shows(
        self,
        block: Block,
        mut shows: Seq<Inequality>,
        inequality: Inequality,
    ) -> Result<Option<Draft>, OutOfMemory>
        ensures { IfOk result (λ d. d ≡ annotated_in_body self.whole self.function block shows (Shows inequality)) }
    {
        match shows.push(inequality) {
            Ok(()) => Ok(Some(Draft {
                whole: self.whole,
                place: LineContext::Body(self.function, block, shows),
            })),
            Err(refused) => {
                drop((self, block, shows));
                Err(refused.into())
            }
        }
    }

    fn annotate_in_block_head(
        self,
        alloc: Global,
        head: BlockHead,
        annotation: Annotation,
    ) -> Result<Option<Draft>, OutOfMemory>
        ensures { IfOk result (λ d. d ≡ annotated_in_block_head self.whole self.function head annotation) }
    {
        match annotation {
            Annotation::Shows(inequality) => {
                self.with_shows(head.block, Seq::new(alloc), inequality)
            }
            annotation => self.annotate_block(head, annotation),
        }
    }

    fn annotate_in_body(
        self,
        block: Block,
        shows: Seq<Inequality>,
        annotation: Annotation,
    ) -> Result<Option<Draft>, OutOfMemory>
        ensures { IfOk result (λ d. d ≡ annotated_in_body self.whole self.function block shows annotation) }
    {
        match annotation {
            Annotation::Shows(inequality) => self.with_shows(block, shows, inequality),
            other => {
                drop(other);
                drop((self, block, shows));
                Ok(None)
            }
        }
    }

    fn put_in_ended(
        self,
        alloc: Global,
        block: Block,
        line: u32,
        item: Item,
    ) -> Result<Option<Draft>, OutOfMemory>
        ensures { IfOk result (λ d. d ≡ placed_in_ended self.whole self.function block line item) }
    {
        match item {
            Item::Label(label) => match with_block(self.function, block) {
                Ok(function) => Ok(Some(Draft {
                    whole: self.whole,
                    place: new_place(alloc, function, line, label),
                })),
                Err(OutOfMemory) => {
                    drop((self.whole, label));
                    Err(OutOfMemory)
                }
            },
            Item::Close => match with_block(self.function, block) {
                Ok(function) => Ok(Some(Draft {
                    whole: with_function(self.whole, function)?,
                    place: LineContext::Outside,
                })),
                Err(OutOfMemory) => {
                    drop(self.whole);
                    Err(OutOfMemory)
                }
            },
            other => {
                drop(other);
                drop((self, block));
                Ok(None)
            }
        }
    }

    /// Ends the block, unless `shows` lines wait for an instruction.
    fn put_behind(
        self,
        alloc: Global,
        block: Block,
        shows: Seq<Inequality>,
        line: u32,
        item: Item,
    ) -> Result<Option<Draft>, OutOfMemory>
        ensures { IfOk result (λ d. d ≡ placed_behind self.whole self.function block shows line item) }
    {
        if shows.is_empty() {
            drop(shows);
            self.put_in_ended(alloc, block, line, item)
        } else {
            drop(item);
            drop((self, block, shows));
            Ok(None)
        }
    }

    fn put_in_body(
        self,
        alloc: Global,
        block: Block,
        shows: Seq<Inequality>,
        line: u32,
        item: Item,
    ) -> Result<Option<Draft>, OutOfMemory>
        ensures { IfOk result (λ d. d ≡ placed_in_body self.whole self.function block shows line item) }
    {
        match item {
            Item::Annotation(annotation) => self.annotate_in_body(block, shows, annotation),
            Item::Instruction(instruction) => match with_step(block, line, shows, instruction) {
                Ok(block) => Ok(Some(Draft {
                    whole: self.whole,
                    place: LineContext::Body(self.function, block, Seq::new(alloc)),
                })),
                Err(OutOfMemory) => {
                    drop(self);
                    Err(OutOfMemory)
                }
            },
            Item::Terminator(terminator) => {
                let block = with_ending(block, line, shows, terminator);
                Ok(Some(Draft {
                    whole: self.whole,
                    place: LineContext::Ended(self.function, block),
                }))
            }
            item => self.put_behind(alloc, block, shows, line, item),
        }
    }

    fn put_in_phis(
        self,
        alloc: Global,
        block: Block,
        line: u32,
        item: Item,
    ) -> Result<Option<Draft>, OutOfMemory>
        ensures { IfOk result (λ d. d ≡ placed_in_phis self.whole self.function block line item) }
    {
        match item {
            Item::Phi(phi) => match with_phi(block, phi) {
                Ok(block) => Ok(Some(Draft {
                    whole: self.whole,
                    place: LineContext::Phis(self.function, block),
                })),
                Err(OutOfMemory) => {
                    drop(self);
                    Err(OutOfMemory)
                }
            },
            item => self.put_in_body(alloc, block, Seq::new(alloc), line, item),
        }
    }

    fn put_in_block_head(
        self,
        alloc: Global,
        head: BlockHead,
        line: u32,
        item: Item,
    ) -> Result<Option<Draft>, OutOfMemory>
        ensures { IfOk result (λ d. d ≡ placed_in_block_head self.whole self.function head line item) }
    {
        match item {
            Item::Annotation(annotation) => self.annotate_in_block_head(alloc, head, annotation),
            item => self.put_in_phis(alloc, head.block, line, item),
        }
    }
}

impl Draft {
    /// What was read, with the item of one more line. None: the item may not stand there.
    pub fn put(self, alloc: Global, line: u32, item: Item) -> Result<Option<Draft>, OutOfMemory>
        ensures { IfOk result (λ d. d ≡ placed self line item) }
    {
        let Draft { whole, place } = self;
        match place {
            LineContext::Outside => put_outside(alloc, whole, line, item),
            LineContext::FunctionHead(head) => put_in_function_head(alloc, whole, head, line, item),
            LineContext::BlockHead(function, head) => {
                OpenFunction { whole, function }.put_in_block_head(alloc, head, line, item)
            }
            LineContext::Phis(function, block) => {
                OpenFunction { whole, function }.put_in_phis(alloc, block, line, item)
            }
            LineContext::Body(function, block, shows) => {
                OpenFunction { whole, function }.put_in_body(alloc, block, shows, line, item)
            }
            LineContext::Ended(function, block) => {
                OpenFunction { whole, function }.put_in_ended(alloc, block, line, item)
            }
        }
    }
}
