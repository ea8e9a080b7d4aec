//! A debugger goes forwards, backwards, to a position and to a line (reverse execution).

ghost use Rattle.std.specs.Prelude.{◌≡◌, ◌≢◌, ◌≤◌, ◌-◌, ◌+◌, Err, None, IfOk, IfSome, IfNone, OnOk, OnErr, length, min};
ghost use Rattle.schedule_core.specs.store.Made.{IsMadeFor};
ghost use Rattle.schedule_core.specs.Admission.{IsAdmitted};
ghost use Rattle.schedule_core.specs.Stages.{global_named};
ghost use Rattle.schedule_core.specs.Viewed.{IsTask, status_in};
ghost use Rattle.debugger.specs.Sessions.{AreMarks, Debugs, HasLineAt, IsAt, IsFirstStop, Session, Stays, state_at};

use crate::debugger::Debugger;
use crate::marks::Marks;
use frame::Path;
use lists::OutOfMemory;
use schedule_core::{Event, Machine, Memory, RunFault, TaskView, Verified};
use std::alloc::Global;

/// Does the events from one position up to another, and keeps marks on the way.
fn walk<'v>(
    events: &[Event],
    from: usize,
    to: usize,
    machine: &mut Machine<'v>,
    marks: &mut Marks<'v>,
) -> Result<(), OutOfMemory>
    requires { to ≤ length events.now }
    ensures marks { (s : Session) → s.events ≡ events.now → IsAt s from machine.old.stage → AreMarks s marks.old → AreMarks s marks.new }
    ensures at { OnOk result ((s : Session) → s.events ≡ events.now → from ≤ to → IsAt s from machine.old.stage → IsAt s to machine.new.stage) }
{
    for position in from..to {
        let _enabled = machine.apply(&events[position])?;
        marks.keep(position + 1, machine);
    }
    Ok(())
}

/// Does events up to the first position after this one at which a worker's next instruction stands on the line, else up to the
/// end. The answer is the position.
fn walk_to_line<'v>(
    events: &[Event],
    from: usize,
    line: u64,
    machine: &mut Machine<'v>,
    marks: &mut Marks<'v>,
) -> Result<usize, OutOfMemory>
    requires { from ≤ length events.now }
    ensures marks { (s : Session) → s.events ≡ events.now → IsAt s from machine.old.stage → AreMarks s marks.old → AreMarks s marks.new }
    ensures at { IfOk result (λ to. (s : Session) → s.events ≡ events.now → IsAt s from machine.old.stage → IsAt s to machine.new.stage) }
    ensures stop { IfOk result (λ to. (s : Session) → s.events ≡ events.now → IsAt s from machine.old.stage → IsFirstStop s line from to) }
    ensures within { IfOk result (λ to. to ≤ length events.now) }
{
    for position in from..events.len() {
        let _enabled = machine.apply(&events[position])?;
        marks.keep(position + 1, machine);
        if machine.stands_at(line) {
            return Ok(position + 1);
        }
    }
    Ok(events.len())
}

impl<'v> Debugger<'v> {
    /// Before the first event of the schedule, with memory that was made for this module.
    ///
    /// # Errors
    ///
    /// Those of [`Machine::start`]; 803 too where memory for the first state again is refused.
    pub fn new(
        alloc: Global,
        verified: &'v Verified,
        arguments: &[i64],
        memory: Memory,
        workers: usize,
        events: Vec<Event>,
    ) -> Result<Debugger<'v>, RunFault>
        requires { IsMadeFor verified.now memory }
        ensures session { let s : Session =
            record { program = verified.now; arguments = arguments.now; globals = memory; workers = workers; events = events.items }
            in IfOk result (Debugs s) }
        ensures first { IfOk result (λ d. d.position ≡ 0) }
        ensures admitted { IsAdmitted verified.now arguments.now memory workers result }
        ensures not_stopped { result ≢ Err RunFault.Stopped }
    {
        let first = Machine::start(alloc, verified, arguments, memory, workers)?;
        let Ok(machine) = first.copy() else {
            return Err(RunFault::OutOfMemory);
        };
        let marks = Marks::new(alloc, first, events.len());
        Ok(Debugger {
            events,
            position: 0,
            machine,
            marks,
        })
    }

    /// How many events were done.
    pub fn position(&self) -> usize
        ensures { result ≡ self.now.position }
    {
        self.position
    }

    /// How many events the schedule has.
    pub fn len(&self) -> usize
        ensures { result ≡ length self.now.events.items }
    {
        self.events.len()
    }

    /// A state at or before the position, with its own position.
    fn state_before(&self, position: usize) -> Result<(usize, Machine<'v>), OutOfMemory>
        ensures before { IfOk result (λ r. r.0 ≤ position) }
        ensures state { IfOk result (λ r. (s : Session) → Debugs s self.now → IsAt s r.0 r.1.stage) }
    {
        let (last, marked) = self.marks.before(position);
        if last <= self.position && self.position <= position {
            Ok((self.position, self.machine.copy()?))
        } else {
            Ok((last, marked.copy()?))
        }
    }

    /// Goes to the position, or to the end where the schedule is shorter.
    ///
    /// # Errors
    ///
    /// Memory was refused: position and state stay.
    pub fn to(&mut self, position: usize) -> Result<(), OutOfMemory>
        ensures session { (s : Session) → Debugs s self.old → Debugs s self.new }
        ensures position { OnOk result (self.new.position ≡ min position (length self.old.events.items)) }
        ensures refused { OnErr result (Stays self.old self.new) }
        ensures events { self.new.events ≡ self.old.events }
    {
        let to = position.min(self.events.len());
        let (from, mut machine) = self.state_before(to)?;
        walk(
            self.events.as_slice(),
            from,
            to,
            &mut machine,
            &mut self.marks,
        )?;
        self.machine = machine;
        self.position = to;
        Ok(())
    }

    /// Does the next event; at the end it stays.
    ///
    /// # Errors
    ///
    /// Memory was refused: position and state stay.
    pub fn forward(&mut self) -> Result<(), OutOfMemory>
        ensures session { (s : Session) → Debugs s self.old → Debugs s self.new }
        ensures position { OnOk result (self.new.position ≡ min (self.old.position + 1) (length self.old.events.items)) }
        ensures refused { OnErr result (Stays self.old self.new) }
        ensures events { self.new.events ≡ self.old.events }
    {
        if self.position >= self.events.len() {
            return Ok(());
        }
        let _enabled = self.machine.apply(&self.events[self.position])?;
        self.position += 1;
        self.marks.keep(self.position, &self.machine);
        Ok(())
    }

    /// Goes back by one event; at the start it stays.
    ///
    /// # Errors
    ///
    /// Memory was refused: position and state stay.
    pub fn back(&mut self) -> Result<(), OutOfMemory>
        ensures session { (s : Session) → Debugs s self.old → Debugs s self.new }
        ensures position { OnOk result (self.new.position ≡ min (self.old.position - 1) (length self.old.events.items)) }
        ensures refused { OnErr result (Stays self.old self.new) }
        ensures events { self.new.events ≡ self.old.events }
    {
        self.to(self.position.saturating_sub(1))
    }

    /// Goes forward to the first later position at which some worker's next instruction stands on the line, else to the end.
    ///
    /// # Errors
    ///
    /// Memory was refused: position and state stay.
    pub fn break_at(&mut self, line: u64) -> Result<(), OutOfMemory>
        ensures session { (s : Session) → Debugs s self.old → Debugs s self.new }
        ensures stop { OnOk result ((s : Session) → Debugs s self.old → IsFirstStop s line self.old.position self.new.position) }
        ensures refused { OnErr result (Stays self.old self.new) }
        ensures events { self.new.events ≡ self.old.events }
    {
        let mut machine = self.machine.copy()?;
        let to = walk_to_line(
            self.events.as_slice(),
            self.position,
            line,
            &mut machine,
            &mut self.marks,
        )?;
        self.machine = machine;
        self.position = to;
        Ok(())
    }

    /// The task of the path; none where the path is no task's.
    pub fn show_task(&self, path: &Path) -> Option<TaskView<'_>>
        ensures shown { (s : Session) → Debugs s self.now → IfSome result (IsTask self.now.machine.stage (state_at s self.now.position) path.now) }
        ensures absent { (s : Session) → Debugs s self.now → IfNone result (status_in s.workers (state_at s self.now.position) path.now ≡ None) }
        ensures line { (s : Session) → Debugs s self.now → IfSome result (HasLineAt s self.now.position path.now) }
    {
        self.machine.task(path)
    }

    /// What a cell of a global holds; none where there is no such cell.
    pub fn show_cell(&self, name: &str, index: u64) -> Option<i64>
        ensures { (s : Session) → Debugs s self.now → result ≡ global_named (state_at s self.now.position) s.globals name.now index }
    {
        self.machine.get_global(name, index)
    }
}
