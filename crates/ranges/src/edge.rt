//! What an edge makes known where it is taken: the outcome of a branch's `icmp`, or the case of a switch.

ghost use Rattle.std.specs.Prelude.{◌≡◌, ◌++◌, ◌∷◌, [], List, true, false, pos, negsuc, ◌*ℤ◌, IfOk, OnOk};
ghost use Rattle.program.specs.syntax.declared.operator.Predicate.TheVariants.{Equal};
ghost use Rattle.ranges.specs.Sums.{facts_of};
ghost use Rattle.ranges_owed.specs.Sums.{one, two};
ghost use Rattle.ranges.specs.Edges.{compare_of, compared, at_least, above, compare_sums, branch_sums, case_sums, guard_sums, edge_along, edges_out};
ghost use Rattle.linear.specs.declared.form.Fact.{Fact};
ghost use Rattle.ranges.specs.Edges.{edge_facts, all_edge_facts};
ghost use Rattle.ranges.specs.Tables.{with_known, all_with_known};

use crate::know::push_facts;
use crate::table::EdgeFacts;
use linear_shown::{Effort, FactList};
use lists::{OutOfMemory, Seq};
use program::{Block, BlockId, Instruction, Operand, Predicate, RegisterId, Step, Terminator};
use ranges_owed::{Guard, Successor, Sum, Way, make_moves, successors};
use std::alloc::Global;

/// What an `icmp` compares.
#[derive(Clone, Copy)]
pub struct Comparison {
    pub predicate: Predicate,
    pub left: Operand,
    pub right: Operand,
}

/// An edge with the sums that are at least 0 where it is taken.
#[derive(Drop)]
pub struct EdgeSums {
    pub to: BlockId,
    pub way: Way,
    pub sums: Seq<Sum>,
}

fn compare_of(register: RegisterId, instruction: &Instruction) -> Option<Comparison>
    ensures { result ≡ compare_of register instruction.now }
{
    match instruction {
        Instruction::Compare {
            register: defined,
            predicate,
            left,
            right,
            ..
        } => {
            if defined.0 == register.0 {
                Some(Comparison {
                    predicate: *predicate,
                    left: *left,
                    right: *right,
                })
            } else {
                None
            }
        }
        Instruction::Binary { .. }
        | Instruction::Convert { .. }
        | Instruction::Alloca { .. }
        | Instruction::ElementPointer { .. }
        | Instruction::Load { .. }
        | Instruction::Store { .. }
        | Instruction::StoreZeros { .. }
        | Instruction::AtomicAdd { .. }
        | Instruction::Call { .. }
        | Instruction::StartRegion { .. } => None,
    }
}

/// The first compare among the steps that defines the register.
fn compared(register: RegisterId, steps: &[Step]) -> Option<Comparison>
    ensures { result ≡ compared register steps.now }
{
    for step in steps {
        if let Some(comparison) = compare_of(register, &step.instruction) {
            return Some(comparison);
        }
    }
    None
}

/// One sum: that constant + x - y is at least 0.
fn difference(
    alloc: Global,
    constant: i128,
    x: Operand,
    y: Operand,
) -> Result<Seq<Sum>, OutOfMemory>
    ensures { IfOk result (λ sums. sums ≡ two constant (pos 1) x (negsuc 0) y ∷ []) }
{
    let mut sums = Seq::new(alloc);
    sums.push(Sum::two(alloc, constant, 1, x, -1, y)?)?;
    Ok(sums)
}

/// x >= y
fn at_least(alloc: Global, x: Operand, y: Operand) -> Result<Seq<Sum>, OutOfMemory>
    ensures { IfOk result (λ sums. sums ≡ at_least x y ∷ []) }
{
    difference(alloc, 0, x, y)
}

/// x > y
fn above(alloc: Global, x: Operand, y: Operand) -> Result<Seq<Sum>, OutOfMemory>
    ensures { IfOk result (λ sums. sums ≡ above x y ∷ []) }
{
    difference(alloc, -1, x, y)
}

/// x = y
fn equal(alloc: Global, x: Operand, y: Operand) -> Result<Seq<Sum>, OutOfMemory>
    ensures { IfOk result (λ sums. sums ≡ compare_sums Equal true x y) }
{
    let mut sums = at_least(alloc, x, y)?;
    sums.push(Sum::two(alloc, 0, 1, y, -1, x)?)?;
    Ok(sums)
}

/// What a compare says where it holds, and where it does not.
fn compare_sums(
    alloc: Global,
    predicate: Predicate,
    holds: bool,
    x: Operand,
    y: Operand,
) -> Result<Seq<Sum>, OutOfMemory>
    ensures { IfOk result (λ sums. sums ≡ compare_sums predicate holds x y) }
{
    match (predicate, holds) {
        (Predicate::Equal, true) => equal(alloc, x, y),
        (Predicate::SignedGreater, true) => above(alloc, x, y),
        (Predicate::SignedGreater, false) => at_least(alloc, y, x),
        (Predicate::SignedAtLeast, true) => at_least(alloc, x, y),
        (Predicate::SignedAtLeast, false) => above(alloc, y, x),
        (Predicate::SignedLess, true) => above(alloc, y, x),
        (Predicate::SignedLess, false) => at_least(alloc, x, y),
        (Predicate::SignedAtMost, true) => at_least(alloc, y, x),
        (Predicate::SignedAtMost, false) => above(alloc, x, y),
        (Predicate::Equal, false)
        | (Predicate::NotEqual, _)
        | (Predicate::UnsignedGreater, _)
        | (Predicate::UnsignedAtLeast, _)
        | (Predicate::UnsignedLess, _)
        | (Predicate::UnsignedAtMost, _) => Ok(Seq::new(alloc)),
    }
}

/// What a branch on a compare of the block says on one of its edges.
fn branch_sums(
    alloc: Global,
    comparison: Option<Comparison>,
    holds: bool,
) -> Result<Seq<Sum>, OutOfMemory>
    ensures { IfOk result (λ sums. sums ≡ branch_sums comparison holds) }
{
    match comparison {
        Some(c) => compare_sums(alloc, c.predicate, holds, c.left, c.right),
        None => Ok(Seq::new(alloc)),
    }
}

/// The opposite of a number.
pub fn opposite_number(number: i64) -> i128
    ensures { result ≡ negsuc 0 *ℤ number }
{
    -1 * i128::from(number)
}

/// Adds that constant + a * x is at least 0.
fn push_one(
    alloc: Global,
    sums: &mut Seq<Sum>,
    constant: i128,
    a: i64,
    x: Operand,
) -> Result<(), OutOfMemory>
    ensures { OnOk result (sums.new ≡ sums.old ++ one constant a x ∷ []) }
{
    sums.push(Sum::one(alloc, constant, a, x)?)?;
    Ok(())
}

/// The register of a switch equals the case's number.
fn case_sums(alloc: Global, value: Operand, number: i64) -> Result<Seq<Sum>, OutOfMemory>
    ensures { IfOk result (λ sums. sums ≡ case_sums value number) }
{
    let mut sums = Seq::new(alloc);
    if let Operand::Register(_) = value {
        push_one(alloc, &mut sums, opposite_number(number), 1, value)?;
        push_one(alloc, &mut sums, i128::from(number), -1, value)?;
    }
    Ok(sums)
}

/// What it makes known that a run goes to a successor.
fn guard_sums(alloc: Global, steps: &[Step], guard: Guard) -> Result<Seq<Sum>, OutOfMemory>
    ensures { IfOk result (λ sums. sums ≡ guard_sums steps.now guard) }
{
    match guard {
        Guard::Silent => Ok(Seq::new(alloc)),
        Guard::Tested { condition, holds } => {
            branch_sums(alloc, compared(condition, steps), holds)
        }
        Guard::Matched { value, number } => case_sums(alloc, value, number),
    }
}

/// The edge to a successor, with what its being taken makes known.
fn edge_along(alloc: Global, steps: &[Step], successor: Successor) -> Result<EdgeSums, OutOfMemory>
    ensures { IfOk result (λ edge. edge ≡ edge_along steps.now successor) }
{
    Ok(EdgeSums {
        to: successor.to,
        way: successor.way,
        sums: guard_sums(alloc, steps, successor.guard)?,
    })
}

/// The edges of a terminator in its order, each with what its being taken makes known.
pub fn edges_out(
    alloc: Global,
    steps: &[Step],
    terminator: &Terminator,
) -> Result<Vec<EdgeSums>, OutOfMemory>
    ensures { IfOk result (λ edges. edges.items ≡ edges_out steps.now terminator.now) }
{
    let list = successors(alloc, terminator)?;
    let mut edges = Vec::new(alloc);
    for successor in list.as_slice() {
        edges.push(edge_along(alloc, steps, *successor)?)?;
    }
    Ok(edges)
}

/// An edge from a block: what its target's phis take, and what its being taken says.
fn edge_facts(
    alloc: Global,
    blocks: &[Block],
    from: usize,
    edge: &EdgeSums,
) -> Result<EdgeFacts, OutOfMemory>
    ensures { IfOk result (λ e. (known : List Fact) → with_known known e ≡ edge_facts blocks.now from known edge.now) }
{
    let effort = Effort::unlimited();
    let mut facts = FactList::new(alloc, &effort);
    push_facts(alloc, &mut facts, edge.sums.as_slice())?;
    let moves = match blocks.get(edge.to.0) {
        Some(target) => make_moves(alloc, target.phis.as_slice(), from)?,
        None => Seq::new(alloc),
    };
    Ok(EdgeFacts {
        to: edge.to,
        way: edge.way,
        moves,
        facts: Seq::from_vec(facts.into_vec()),
    })
}

/// The edges from a block, each with what its target's phis take and what its being taken says.
pub fn all_edge_facts(
    alloc: Global,
    blocks: &[Block],
    from: usize,
    edges: &[EdgeSums],
) -> Result<Vec<EdgeFacts>, OutOfMemory>
    ensures { IfOk result (λ list. (known : List Fact) → all_with_known known list.items ≡ all_edge_facts blocks.now from known edges.now) }
{
    let mut list = Vec::new(alloc);
    for edge in edges {
        list.push(edge_facts(alloc, blocks, from, edge)?)?;
    }
    Ok(list)
}
