//! What it means to run a program, for contracts and proofs; there is no code to run here. `specs/` defines, in this order:
//!
//! - `Paths`, `Cells`: paths of frames; objects, cells and memory.
//! - `Arithmetic`: operations on words of two widths, and traps.
//! - `Frames`, `Effect`: frames and their registers; what one instruction does.
//! - `State`, `Tree`: the tree of frames with its memory, and a step of one frame; what is true of every tree that is reached.
//! - `SerialMeaning`: the serial elision's result, memory, count and depth.
//! - `Events`, `Replay`: workers, tasks, steps and steals; schedules.
//! - `Counts`, `Tasks`: how children are counted, and which frames are a task; the two theorems below say that both are right.
#![tactic(auto)]

ghost use Rattle.semantics.specs.Counts.{RegionCounts};
ghost use Rattle.semantics.specs.Tasks.{FramesOnTasks};

// What is run, for the crates above.
pub use program::{
    Address, AllocaId, BinaryOperator, Block, BlockId, Ending, Function, FunctionId, GlobalId,
    Instruction, ObjectName, Operand, Phi, PhiEntry, Predicate, Program, RegisterId, Step,
    Terminator, Width,
};

/// Whatever the program: counts of children for each frame and region that detaches raise and reattaches lower are the numbers of
/// living children in each machine that a schedule leads to, and a sync passes just where its count is none.
pub fn region_counts()
    ensures { RegionCounts }
{}

/// Whatever the program: in each machine that a schedule leads to each living frame is on just one task, and each task runs, or is
/// ready or stalled, until a step traps.
pub fn frames_on_tasks()
    ensures { FramesOnTasks }
{}
