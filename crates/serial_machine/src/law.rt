//! The laws below the promise: of walks, of operands, of safety, and of rows of cells.

ghost use Rattle.serial_machine.specs.Rows.{RowsMean};
ghost use Rattle.serial_machine.specs.Safe.{ItemsFit, SerialRunsAreSafe, TextsFit};
ghost use Rattle.serial_machine.specs.walks.Along.{WalksCount, WalksGoOn, WalksKeepTests};

/// Where the serial meaning of a program gives a number, the steps from its start never get stuck, and neither their count nor the depth of
/// the stack goes beyond the meaning's.
pub fn walks_go_on()
    ensures { WalksGoOn }
{}

/// What the instructions of a serial run keep holds of the frame on top after any number of steps, if it holds of the first frame: here of
/// conditions that are given by tests, and `walks_keep` of `proofs/Kept.antt` has it of any.
pub fn walks_keep()
    ensures { WalksKeepTests }
{}

/// After n steps no frame stands further in its block than n or has made more than n frames, and no more than n are below the one on top.
pub fn walks_count()
    ensures { WalksCount }
{}

/// Where registers hold values of their kinds, the numbers of `i32` that an instruction reads are numbers of that type.
pub fn operands_fit()
    ensures { ItemsFit }
{}

/// Wherever the serial run of a program that the verifier took comes, with arguments that its `main` takes and its globals, it can do its next
/// step, within its budget: the step does not trap, the cells that it stores or adds to are there, and its numbers fit.
pub fn serial_runs_are_safe()
    ensures { SerialRunsAreSafe }
{}

/// What the text of a program that the verifier took names is there: blocks, registers, objects, callees, and room for the moves of each edge.
pub fn texts_fit()
    ensures { TextsFit }
{}

/// A run on the engine that has ended comes to the serial meaning: from what its row of cells held of the globals to what the row holds of them at
/// its end, with its count and its depth.
pub fn rows_mean()
    ensures { RowsMean }
{}
