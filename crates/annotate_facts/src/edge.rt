//! The edges from block to block by the labels of a text, and where registers are used and defined (successors, uses).

use crate::heap::Heap;
use lists::Name;
use syntax::{Argument, Block, Function, Instruction, Operand, Phi, Step, Terminator};

/// How a path goes along an edge. None goes along a reattach.
#[derive(Clone, Copy)]
pub enum Way<'a> {
    Branch,
    /// Where the condition of the branch holds, and where it does not.
    WhenTrue(&'a str),
    WhenFalse(&'a str),
    /// To a detached block.
    Detached,
    /// To the block that goes on beside it, from a detach within this region.
    Continued(&'a str),
    /// Behind a sync of this region.
    Synced(&'a str),
}

/// An edge, by the numbers of its blocks.
#[derive(Clone, Copy)]
pub struct Edge<'a> {
    pub from: usize,
    pub to: usize,
    pub way: Way<'a>,
}

/// The number of the block of this label.
pub fn block_numbered(blocks: &[Block], label: &Name) -> Option<usize> {
    for number in 0..blocks.len() {
        if blocks[number].label.is_same(label) {
            return Some(number);
        }
    }
    None
}

/// The edges of a function, while they are gathered.
#[derive(Drop)]
struct Finder<'a> {
    heap: &'a Heap,
    blocks: &'a [Block],
    edges: Vec<Edge<'a>>,
}

impl<'a> Finder<'a> {
    /// Adds an edge to the block of a label; where no block has it there is none.
    fn push(&mut self, from: usize, label: &Name, way: Way<'a>) {
        if let Some(to) = block_numbered(self.blocks, label) {
            self.heap.push(&mut self.edges, Edge { from, to, way });
        }
    }

    /// Adds the edges of a block, in the order of its terminator.
    fn push_all(&mut self, from: usize, terminator: &'a Terminator) {
        match terminator {
            Terminator::Jump { target } => self.push(from, target, Way::Branch),
            Terminator::Branch {
                condition,
                when_true,
                when_false,
            } => {
                self.push(from, when_true, Way::WhenTrue(condition.as_str()));
                self.push(from, when_false, Way::WhenFalse(condition.as_str()));
            }
            Terminator::Switch { default, cases, .. } => {
                self.push(from, default, Way::Branch);
                for case in cases.as_slice() {
                    self.push(from, &case.target, Way::Branch);
                }
            }
            Terminator::Detach {
                region,
                body,
                continuation,
            } => {
                self.push(from, body, Way::Detached);
                self.push(from, continuation, Way::Continued(region.as_str()));
            }
            Terminator::Sync { region, target } => {
                self.push(from, target, Way::Synced(region.as_str()));
            }
            Terminator::Return { .. } | Terminator::Reattach { .. } => {}
        }
    }
}

/// The edges of a function, in the order of its blocks and terminators.
pub fn edges_of<'a>(heap: &'a Heap, function: &'a Function) -> Vec<Edge<'a>> {
    let blocks = function.blocks.as_slice();
    let mut finder = Finder {
        heap,
        blocks,
        edges: heap.list(),
    };
    for from in 0..blocks.len() {
        if let Some(ending) = &blocks[from].ending {
            finder.push_all(from, &ending.terminator);
        }
    }
    finder.edges
}

/// The last block from which an edge leads back to this one.
pub fn last_of(edges: &[Edge<'_>], head: usize) -> Option<usize> {
    let mut last = None;
    for edge in edges {
        if edge.to == head && edge.from >= head {
            last = Some(edge.from);
        }
    }
    last
}

/// The block of this number, where the function has one.
pub fn block_at(function: &Function, number: usize) -> Option<&Block> {
    let blocks = function.blocks.as_slice();
    if number < blocks.len() {
        Some(&blocks[number])
    } else {
        None
    }
}

/// The register that an instruction defines.
pub fn register_of(instruction: &Instruction) -> Option<&str> {
    match instruction.register() {
        Some(register) => Some(register.as_str()),
        None => None,
    }
}

pub fn is_register(operand: &Operand, name: &str) -> bool {
    match operand {
        Operand::Register(register) => register.as_str() == name,
        Operand::Number(_) => false,
    }
}

fn is_passed(arguments: &[Argument], name: &str) -> bool {
    for argument in arguments {
        if let Argument::Number(value) = argument {
            if is_register(value, name) {
                return true;
            }
        }
    }
    false
}

/// Whether an instruction takes a register that holds a number.
fn uses(instruction: &Instruction, name: &str) -> bool {
    match instruction {
        Instruction::Binary { left, right, .. } | Instruction::Compare { left, right, .. } => {
            is_register(left, name) || is_register(right, name)
        }
        Instruction::Convert { value, .. }
        | Instruction::Store { value, .. }
        | Instruction::AtomicAdd { value, .. } => is_register(value, name),
        Instruction::ElementPointer { index, .. } => is_register(index, name),
        Instruction::Call { arguments, .. } => is_passed(arguments.as_slice(), name),
        Instruction::Alloca { .. }
        | Instruction::Load { .. }
        | Instruction::StoreZeros { .. }
        | Instruction::StartRegion { .. } => false,
    }
}

pub fn block_uses(block: &Block, name: &str) -> bool {
    for step in block.steps.as_slice() {
        if uses(&step.instruction, name) {
            return true;
        }
    }
    false
}

/// Whether another block's instructions take the register.
pub fn is_used_beside(function: &Function, own: usize, name: &str) -> bool {
    let blocks = function.blocks.as_slice();
    for index in 0..blocks.len() {
        if index != own && block_uses(&blocks[index], name) {
            return true;
        }
    }
    false
}

/// The instruction of a function that defines the register.
pub fn definition_in<'a>(function: &'a Function, name: &str) -> Option<&'a Instruction> {
    for block in function.blocks.as_slice() {
        let definition = definition_among(block.steps.as_slice(), name);
        if definition.is_some() {
            return definition;
        }
    }
    None
}

fn definition_among<'a>(steps: &'a [Step], name: &str) -> Option<&'a Instruction> {
    for step in steps {
        if let Some(register) = register_of(&step.instruction) {
            if register == name {
                return Some(&step.instruction);
            }
        }
    }
    None
}

/// The phi that defines the register.
fn phi_of<'a>(phis: &'a [Phi], name: &str) -> Option<&'a Phi> {
    for phi in phis {
        if phi.register.as_str() == name {
            return Some(phi);
        }
    }
    None
}

/// The phi of a function that defines the register.
pub fn phi_in<'a>(function: &'a Function, name: &str) -> Option<&'a Phi> {
    for block in function.blocks.as_slice() {
        let phi = phi_of(block.phis.as_slice(), name);
        if phi.is_some() {
            return phi;
        }
    }
    None
}

/// Whether one of these phis defines the register.
pub fn is_phi(phis: &[Phi], name: &str) -> bool {
    phi_of(phis, name).is_some()
}

/// Whether the block's instructions make the register.
pub fn makes(block: &Block, name: &str) -> bool {
    definition_among(block.steps.as_slice(), name).is_some()
}

/// Whether the block defines the register.
pub fn defines(block: &Block, name: &str) -> bool {
    makes(block, name) || is_phi(block.phis.as_slice(), name)
}

/// Whether one of these phis takes the register where the run comes from a block of this label.
pub fn phi_takes(phis: &[Phi], name: &str, predecessor: &Name) -> bool {
    for phi in phis {
        if let Some(value) = value_from(phi, predecessor) {
            if is_register(value, name) {
                return true;
            }
        }
    }
    false
}

/// What a phi takes where the run comes from a block of this label.
pub fn value_from<'a>(phi: &'a Phi, predecessor: &Name) -> Option<&'a Operand> {
    for entry in phi.entries.as_slice() {
        if entry.predecessor.is_same(predecessor) {
            return Some(&entry.value);
        }
    }
    None
}

/// What the phi that defines a register takes where the run comes from a block of this label; none where no phi among these defines it.
pub fn phi_value<'a>(phis: &'a [Phi], name: &str, predecessor: &Name) -> Option<&'a Operand> {
    match phi_of(phis, name) {
        Some(phi) => value_from(phi, predecessor),
        None => None,
    }
}
