//! A worker's frame may go on apart from the machine: what it does by itself, and what the frames do that it makes, is safe, whatever numbers
//! the cells of living objects hold meanwhile, since no rule of the verifier rests on a number that was loaded. There is no code to run here.

ghost use Rattle.schedule_core.specs.laws_workers.strands.StrandsPromise.{FramesGoAlone, FramesGoAsStrands, LoadedFramesGoAsStrands};

/// Of a program that `verify` takes, with arguments that `main` takes and globals that have values: wherever a schedule leads, each worker's
/// frame can do its next step, and each after it up to its next border, with any numbers in the cells of living objects at each step. It does
/// not trap, the cells that it stores or adds to are cells of living objects, and its numbers fit.
pub fn frames_go_alone()
    ensures { FramesGoAlone }
{}

/// Of the same programs, arguments and globals: wherever a schedule leads, each worker's frame can go on as a strand, over calls,
/// detaches, syncs and ends of frames of its own, and wherever that comes, its next step is safe.
pub fn frames_go_as_strands()
    ensures { FramesGoAsStrands }
{}

/// Of the same programs, arguments and globals: wherever a schedule leads, a frame that shows a worker's frame, wherever objects begin that
/// live then, may be the base of a strand. What this goes on to within 65,536 instructions is safe.
pub fn loaded_frames_go_as_strands()
    ensures { LoadedFramesGoAsStrands }
{}
