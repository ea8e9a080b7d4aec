//! A frame strand: a copy of a frame is loaded, goes on to a pause, and is told what a cell holds.

ghost use Rattle.std.specs.Prelude.{◌≡◌, ◌≢◌, ◌≤◌, [], map, ◌++◌, ◌∷◌, ℕ, ℤ, IfOk, None, Some, length, vec_capacity};
ghost use Rattle.frame_engine.specs.Activation.{FrameFits, ProgramFits};
ghost use Rattle.frame_strand.specs.Along.{HasRegisters, IsGoing, IsFrameStrandKept, MayBegin};
ghost use Rattle.frame_strand.specs.Keeping.{AreDifferent};
ghost use Rattle.frame_strand.specs.Standing.{IsCopy};

use crate::cells::{Read, Written};
use crate::standing::{Course, FrameStrandPause};
use frame_engine::{Frame, Places};
use lists::OutOfMemory;
use program::Program;
use std::alloc::Global;

/// What a worker does outside of the machine with a copy of a frame, up to a pause.
pub struct FrameStrand<'p> {
    pub(crate) program: &'p Program,
    pub(crate) places: &'p Places,
    pub(crate) course: Course,
    /// Where it stands; None where it can go on.
    pub(crate) pause: Option<FrameStrandPause>,
    pub ghost kept: { ∥ IsFrameStrandKept program.now places.now course pause ∥₁ },
}

/// Written out, so that no crate above proves it anew.
impl Drop for FrameStrand<'_> {
    fn drop(self) {
        let FrameStrand {
            program: _,
            places: _,
            course: _,
            pause: _,
        } = self;
    }
}

/// As many registers as the largest function has.
fn most_registers(program: &Program) -> usize
    ensures { HasRegisters program.now result }
{
    let mut most = 0;
    for function in program.functions.as_slice() {
        most = most.max(function.registers.len());
    }
    most
}

impl<'p> FrameStrand<'p> {
    /// A blank strand, with room for any frame of the program at a path of so many numbers, and for 256 cells read and 256 written.
    ///
    /// # Errors
    ///
    /// Memory was refused.
    pub fn new(
        alloc: Global,
        program: &'p Program,
        places: &'p Places,
        depth: usize,
    ) -> Result<FrameStrand<'p>, OutOfMemory>
        requires { (moves : ℕ) → HasRegisters program.now moves → ProgramFits program.now places.now moves }
        ensures program { IfOk result (λ s. s.program.now ≡ program.now) }
        ensures places { IfOk result (λ s. s.places.now ≡ places.now) }
        ensures blank { IfOk result (λ s. s.pause ≡ Some FrameStrandPause.Blank) }
        ensures depth { IfOk result (λ s. vec_capacity s.course.path ≡ depth) }
    {
        let registers = most_registers(program);
        let course = Course::new(alloc, registers, depth, registers)?;
        Ok(FrameStrand {
            program,
            places,
            course,
            pause: Some(FrameStrandPause::Blank),
        })
    }

    /// Begins with a copy of a frame at a path, which has the root's number first; it takes no memory.
    pub fn load(&mut self, frame: &Frame, path: &[u64])
        requires blank { self.old.pause ≡ Some FrameStrandPause.Blank }
        requires room { length path.now ≤ vec_capacity self.old.course.path }
        requires stands { FrameFits self.old.program.now frame.now }
        requires goes { ∥ MayBegin self.old.program.now self.old.places.now path.now frame.now ∥₁ }
        ensures program { self.new.program.now ≡ self.old.program.now }
        ensures places { self.new.places.now ≡ self.old.places.now }
        ensures path { self.new.course.path.items ≡ path.now }
        ensures loaded { IsCopy frame.now self.new.course.loaded }
        ensures done { self.new.course.done ≡ 0 }
        ensures reads { self.new.course.cells.reads ≡ [] }
        ensures depth { vec_capacity self.new.course.path ≡ vec_capacity self.old.course.path }
        ensures going { ∥ IsGoing self.new.program.now self.new.places.now self.new.course self.new.pause ∥₁ }
    {
        self.pause = self.course.begin(self.program, self.places, frame, path);
    }

    /// Goes on by plain instructions to a pause; at one it stays.
    pub fn advance(&mut self) -> FrameStrandPause
        ensures pause { self.new.pause ≡ Some result }
        ensures stays { self.old.pause ≢ None → self.old.pause ≡ Some result }
        ensures program { self.new.program.now ≡ self.old.program.now }
        ensures places { self.new.places.now ≡ self.old.places.now }
        ensures path { self.new.course.path ≡ self.old.course.path }
        ensures loaded { self.new.course.loaded ≡ self.old.course.loaded }
        ensures reads { self.new.course.cells.reads ≡ self.old.course.cells.reads }
        ensures done { self.old.course.done ≤ self.new.course.done }
        ensures going { self.old.pause ≢ Some FrameStrandPause.Blank → ∥ IsGoing self.new.program.now self.new.places.now self.new.course (Some result) ∥₁ }
    {
        match self.pause {
            Some(pause) => pause,
            None => {
                let pause = self.course.advance(self.program, self.places);
                self.pause = Some(pause);
                pause
            }
        }
    }

    /// The cell that it needs holds the value.
    pub fn fill(&mut self, value: i64)
        requires { (at : ℤ) × (self.old.pause ≡ Some (FrameStrandPause.Need at)) }
        ensures program { self.new.program.now ≡ self.old.program.now }
        ensures places { self.new.places.now ≡ self.old.places.now }
        ensures path { self.new.course.path ≡ self.old.course.path }
        ensures loaded { self.new.course.loaded ≡ self.old.course.loaded }
        ensures present { self.new.course.present ≡ self.old.course.present }
        ensures done { self.new.course.done ≡ self.old.course.done }
        ensures reads { (at : ℤ) → self.old.pause ≡ Some (FrameStrandPause.Need at)
            → self.new.course.cells.reads ≡ self.old.course.cells.reads ++ record { at = at; value = value } ∷ [] }
        ensures goes_on { self.new.pause ≡ None }
        ensures going { ∥ IsGoing self.new.program.now self.new.places.now self.new.course None ∥₁ }
    {
        match self.pause {
            Some(FrameStrandPause::Need { at }) => {
                self.course.fill(&at, &value);
                self.pause = None;
            }
            _ => unreachable!(),
        }
    }

    /// No frame is loaded from here on; the room stays.
    pub fn clear(&mut self)
        ensures program { self.new.program.now ≡ self.old.program.now }
        ensures places { self.new.places.now ≡ self.old.places.now }
        ensures blank { self.new.pause ≡ Some FrameStrandPause.Blank }
        ensures depth { vec_capacity self.new.course.path ≡ vec_capacity self.old.course.path }
    {
        self.pause = Some(FrameStrandPause::Blank);
    }

    /// Where it stands; None where it can go on.
    pub fn pause(&self) -> Option<FrameStrandPause>
        ensures { result ≡ self.now.pause }
    {
        self.pause
    }

    /// For how many numbers of a path it has room.
    pub fn room(&self) -> usize
        ensures { result ≡ vec_capacity self.now.course.path }
    {
        self.course.path.capacity()
    }

    /// The frame as it was loaded.
    pub fn loaded(&self) -> &Frame
        ensures { result.now ≡ self.now.course.loaded }
    {
        &self.course.loaded
    }

    /// The path of the frame, the root's number first.
    pub fn path(&self) -> &[u64]
        ensures { result.now ≡ self.now.course.path.items }
    {
        self.course.path.as_slice()
    }

    /// The frame as it stands.
    pub fn present(&self) -> &Frame
        ensures { result.now ≡ self.now.course.present }
    {
        &self.course.present
    }

    /// The number of instructions since the frame was loaded.
    pub fn done(&self) -> u64
        ensures { result ≡ self.now.course.done }
    {
        self.course.done
    }

    /// The cells that were read, in their order.
    pub fn reads(&self) -> &[Read]
        ensures { result.now ≡ self.now.course.cells.reads }
    {
        self.course.cells.reads()
    }

    /// The cells that were written, in the order of their first writes.
    pub fn writes(&self) -> &[Written]
        ensures is { result.now ≡ self.now.course.cells.writes }
        ensures differ { AreDifferent (map (λ (w : Written). w.at) self.now.course.cells.writes) }
    {
        self.course.cells.writes()
    }
}
