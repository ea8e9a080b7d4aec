//! The schedule theorem, for each program that the verifier takes. There is no code to run here.
//!
//! `specs/Promise.antt` says what is asked of the arguments and the globals, and the theorem, `accepted_programs_keep_their_promise`. Below
//! it stand, in folders of `specs/` and `proofs/`:
//!
//! - `typing`: what the rules on names, types and pointers give the laws on runs, of each program that a module means
//!   (`accepted_programs_are_typed` has all of it).
//! - `pointers`: two names of objects in a function's text never name one object, so a zone of one name is apart from a zone of another.
//! - `kinds`: registers hold values of their kinds in each frame that steps of any frame in any order lead to. `Holding`: what they hold; the
//!   same as a test. `Uses`: what instructions name is of its kind too. `Kept`: kinds are kept. `Ready`: all that an instruction reads is
//!   there.
//! - `zones`: the theorem's conditions on zones. `Keeping`: the cells that a frame and all below it keep to, and what is kept of a frame by
//!   every step of every frame. `ByPhases`, `Named`: what the phases give of a program for it. `Conditions`: the conditions.
//!
//! - `safe`: what holds of every living frame of every state that a schedule leads to, in any order of steps (`schedules_are_safe`): what a
//!   machine would else have to test at each step. `Kept`: numbers are no more than the instructions done. `Objects`, `Sizes`: objects have
//!   the cells that the text declares, and uses lie within them. `Steps`, `Reads`: what a worker's frame finds at its next step. `Safe`: all of it.
//!
//! The proof puts them together: `Accepted`, what a program has that the verifier takes; `Serially`, `Findings`, what is kept along the
//! serial run and found of its outcome; `Bounds`, `Starting`, the budget, the depth and the first frame; `Runs`, `Schedules`, the serial run
//! and every schedule.
#![tactic(auto)]

ghost use Rattle.laws_schedule.specs.Promise.{AcceptedProgramsKeepTheirPromise};
ghost use Rattle.laws_schedule.specs.kinds.Kept.{KindsAreKept, KindsAreKeptSerially, KindsAreTested, StartsKinded, WidthsAreGiven, WidthsAreGivenByTests};
ghost use Rattle.laws_schedule.specs.kinds.Ready.{FramesAreReady};
ghost use Rattle.laws_schedule.specs.kinds.Uses.{UsesAreKinded};
ghost use Rattle.laws_schedule.specs.pointers.Apart.{AcceptedNamesAreApart, MeantNamesAreApart, PointerNamesAreApart};
ghost use Rattle.laws_schedule.specs.safe.Kept.{FramesAreCounted, KeptIsEverywhere};
ghost use Rattle.laws_schedule.specs.safe.Objects.{ObjectsAreKnown};
ghost use Rattle.laws_schedule.specs.safe.Promise.{SchedulesAreSafe};
ghost use Rattle.laws_schedule.specs.safe.Sizes.{UsesAreSized};
ghost use Rattle.laws_schedule.specs.safe.Steps.{GlobalsStay, HeldFramesAreSteady};
ghost use Rattle.laws_schedule.specs.typing.Accepted.{AcceptedProgramsAreTyped};
ghost use Rattle.laws_schedule.specs.typing.Kinds.{KindsAreRight};
ghost use Rattle.laws_schedule.specs.typing.Typed.{MeasuresNameParameters, NamesAreRight, ObjectsAreNamed, ParametersAreNamed, TypesAreRight};
ghost use Rattle.laws_schedule.specs.zones.Conditions.{JudgedByRules, SchedulesAgree, ZonesAreMet, ZonesAtStart};
ghost use Rattle.laws_schedule.specs.zones.Named.{AcceptedZonesAreNamed, ZonesAreNamed};

/// The schedule theorem: for each program that the verifier takes, whatever its text, arguments that its `main` takes, and globals whose
/// cells have values, there is one serial run, which gives a number within the budget and the depth that the verifier answers; and
/// on any number of workers, whatever the events, no step traps, no more instructions are done than in it, living frames are at most the
/// workers times its depth, and each run that ends has its memory, result and count.
pub fn accepted_programs_keep_their_promise()
    ensures { AcceptedProgramsKeepTheirPromise }
{}

/// Where a module that is read means a program that breaks no rule of the graph, the program has the names that the laws on definedness
/// ask for.
pub fn names_are_right()
    ensures { NamesAreRight }
{}

/// Where a module means a program that breaks no rule of the graph and on regions, the program has the types that the laws on facts ask for.
pub fn types_are_right()
    ensures { TypesAreRight }
{}

/// What a program's `requires` and `ensures` name are parameters and results.
pub fn parameters_are_named()
    ensures { ParametersAreNamed }
{}

/// What a function's measure names are its parameters.
pub fn measures_name_parameters()
    ensures { MeasuresNameParameters }
{}

/// Where a module that is read means a program that breaks no rule of the graph, on regions and on registers, what it reads and what it passes
/// are objects with cells enough.
pub fn objects_are_named()
    ensures { ObjectsAreNamed }
{}

/// Where a module that is read means a program, each instruction, terminator and phi defines and uses registers of their kinds.
pub fn kinds_are_right()
    ensures { KindsAreRight }
{}

/// So each program that `verify` takes has names and types as the other laws ask for them, whatever its text.
pub fn accepted_programs_are_typed()
    ensures { AcceptedProgramsAreTyped }
{}

/// In every state that a run reaches, whatever the schedule, the names of each frame stand for pairwise different objects: it is
/// enough that each call keeps to the rules on pointers, and that no instruction defines a parameter again.
pub fn pointer_names_are_apart()
    ensures { PointerNamesAreApart }
{}

/// Each program that a text means by the rules of reading and those on names and types is such a program.
pub fn meant_names_are_apart()
    ensures { MeantNamesAreApart }
{}

/// And each program that `verify` takes, whatever its text.
pub fn accepted_names_are_apart()
    ensures { AcceptedNamesAreApart }
{}

/// Where instructions define and use registers of their kinds, each register that has a value holds one of its kind, whatever the step and
/// whatever the other frames do.
pub fn kinds_are_kept()
    ensures { KindsAreKept }
{}

/// So it is along the serial run.
pub fn kinds_are_kept_serially()
    ensures { KindsAreKeptSerially }
{}

/// So it is of the first frame, where `main` takes numbers and gets as many as it takes.
pub fn starts_kinded()
    ensures { StartsKinded }
{}

/// So the numbers of `i32` that an instruction reads fit, of which the facts of arithmetic are true.
pub fn widths_are_given()
    ensures { WidthsAreGiven }
{}

/// The test of a frame says just that its registers hold values of their kinds.
pub fn kinds_are_tested()
    ensures { KindsAreTested }
{}

/// So the numbers of `i32` that an instruction reads fit, by the test of a frame.
pub fn widths_are_given_by_tests()
    ensures { WidthsAreGivenByTests }
{}

/// Objects, elements and numbers of the text that instructions name are of their kinds, in each program that `verify` takes, whatever its
/// text, and its `main` takes numbers.
pub fn uses_are_kinded()
    ensures { UsesAreKinded }
{}

/// In a frame that is placed, has values of their kinds in the registers that are defined and values in the cells that it reads, and names
/// regions of its own, all that its instruction reads is there.
pub fn frames_are_ready()
    ensures { FramesAreReady }
{}

/// Where no rule on ranges and zones is broken, and names, types, tasks and definedness are as their phases have them, the machine's
/// frames meet the conditions on zones under which every schedule comes to the serial meaning.
pub fn zones_are_met()
    ensures { ZonesAreMet }
{}

/// At the start the first frame keeps to the zones of its function.
pub fn zones_at_start()
    ensures { ZonesAtStart }
{}

/// What the conditions ask of definedness follows from the rules on the graph, regions and uses.
pub fn judged_by_rules()
    ensures { JudgedByRules }
{}

/// So every schedule on any number of workers comes to the serial meaning, where the regions' conditions hold too.
pub fn schedules_agree()
    ensures { SchedulesAgree }
{}

/// Where a module means a program, the parameters that a function's text names are the function's own, and the zones of its head name
/// parameters alone.
pub fn zones_are_named()
    ensures { ZonesAreNamed }
{}

/// So it is with each program that `verify` takes, whatever its text.
pub fn accepted_zones_are_named()
    ensures { AcceptedZonesAreNamed }
{}

/// In each program that `verify` takes, an object whose first cell is an address has a cell, an address in a register is that of an element which a
/// step of its block before gave, and an array store sets no more cells than its object has.
pub fn uses_are_sized()
    ensures { UsesAreSized }
{}

/// What each step keeps of each frame, whatever the other frames do, is so of all frames of each state that a schedule leads to, where no step traps.
pub fn kept_is_everywhere()
    ensures { KeptIsEverywhere }
{}

/// A frame's place in its block, the number of children that it made, and that of the frames above it are at most the instructions done.
pub fn frames_are_counted()
    ensures { FramesAreCounted }
{}

/// In any order of steps each frame's function's own frame lives at it or above it, each of its pointer parameters holds an object of at least
/// as many cells as it declares, and what the steps of its block have pointed to are cells of such objects.
pub fn objects_are_known()
    ensures { ObjectsAreKnown }
{}

/// Where no step traps, a worker's frame may go on, all that its next instruction or terminator reads is there, and where it ends it has no children left
/// and finds the frame above it.
pub fn held_frames_are_steady()
    ensures { HeldFramesAreSteady }
{}

/// No cell of a global loses its value.
pub fn globals_stay()
    ensures { GlobalsStay }
{}

/// For each program that `verify` takes, arguments that its `main` takes, globals whose cells have values, number of workers and list of events: each
/// living frame stands at a place of the program, its registers hold values of their kinds, its pointers name objects of a living frame at it or
/// above it or globals, with as many cells as the text declares, and its numbers are at most the instructions done, which are within the
/// budget. The next step of a worker's frame does not trap: the registers and cells that it reads hold values, those that it writes are there.
pub fn schedules_are_safe()
    ensures { SchedulesAreSafe }
{}
