//! The events of a run so far, kept as steps and steals, or seen by contracts alone (log, trace).

ghost use Rattle.std.specs.Prelude.{◌≡◌, ◌↔◌, ◌≢◌, ℕ, ◌+◌, ◌^◌, ◌<◌, ◌≤◌, [], ◌∷◌, ◌++◌, length, replicate, vec_len, vec_capacity, IfOk, OnOk};
ghost use Rattle.std.specs.Prelude.{IfNone, IfSome};
ghost use Rattle.frame.specs.declared.event.Event.TheVariants.{Step, Steal};
ghost use Rattle.shared_run.specs.Spelled.{events_of, spelled};

use frame::Path;
use ghost_log::Log;
use lists::OutOfMemory;
use schedule_core::Event;
use std::alloc::Global;
use std::marker::Model;

/// Steps of one worker, one after the other, or a steal.
#[derive(Drop)]
pub enum Entry {
    Steps { worker: u8, count: u64 },
    Steal { worker: u8, path: Path },
}

/// Whether events are kept, or seen by contracts alone, so that they take no memory.
#[derive(Clone, Copy, PartialEq, Eq)]
pub enum Keeping {
    Events,
    Nothing,
}

/// The events of a run. Contracts see them one by one, whether they are kept, and for how many more entries there is room.
pub struct History {
    keeping: Keeping,
    /// Of a history that keeps its events: what `story` has.
    entries: Vec<Entry>,
    total: u64,
    story: Log<Entry>,
}

/// Written out, so that no crate above proves it anew.
impl Drop for History {
    fn drop(self) {
        let History {
            keeping: _,
            entries: _,
            total: _,
            story: _,
        } = self;
    }
}

impl Model for History {
    ghost use Rattle.std.specs.Prelude.{◌≡◌, ◌-◌, length, vec_len, vec_capacity};
    ghost use Rattle.shared_run.specs.declared.history.Keeping.TheVariants.{Events};
    ghost use Rattle.shared_run.specs.Spelled.{Chronicle, room_of, spelled};

    ghost Value = { Chronicle };

    ghost view = { λ h. record { events = spelled h.story.items; keeping = h.keeping; spare = room_of h.keeping (vec_capacity h.entries - vec_len h.entries) } };

    ghost invariant = { λ h. (h.total ≡ length (spelled h.story.items)) × (h.keeping ≡ Events → spelled h.entries.items ≡ spelled h.story.items) };
}

/// Takes the last entry off where it is steps of this worker, and answers how many.
#[tactic(auto, using(crate::proofs::Runs::spelled_push))]
fn take_steps(entries: &mut Vec<Entry>, worker: u8) -> u64
    ensures taken { spelled entries.old.items ≡ spelled entries.new.items ++ replicate result (Step worker) }
    ensures room { vec_len entries.new ≤ vec_len entries.old }
    ensures as_large { vec_capacity entries.new ≡ vec_capacity entries.old }
{
    match entries.pop() {
        Some(
            Entry::Steps {
                worker: last,
                count,
            },
        ) if last == worker => count,
        Some(entry) => {
            entries.push_reserved(entry);
            0
        }
        None => 0,
    }
}

/// Adds so many steps of the worker to the entries.
fn keep_steps(entries: &mut Vec<Entry>, worker: u8, count: u64)
    requires room { vec_len entries.old < vec_capacity entries.old }
    requires count { length (spelled entries.old.items) + count < 2 ^ 64 }
    ensures { spelled entries.new.items ≡ spelled entries.old.items ++ replicate count (Step worker) }
{
    let before = take_steps(entries, worker);
    entries.push_reserved(Entry::Steps {
        worker,
        count: before + count,
    });
}

impl History {
    /// No events yet; it takes no memory.
    pub(crate) fn new(alloc: Global, keeping: Keeping) -> History
        ensures events { result.events ≡ [] }
        ensures keeping { result.keeping ≡ keeping }
    {
        History {
            keeping,
            entries: Vec::new(alloc),
            total: 0,
            story: Log::new(),
        }
    }

    /// Makes room for one more entry.
    pub(crate) fn reserve(&mut self) -> Result<(), OutOfMemory>
        ensures events { self.new.events ≡ self.old.events }
        ensures keeping { self.new.keeping ≡ self.old.keeping }
        ensures room { OnOk result (0 < self.new.spare) }
    {
        match self.keeping {
            Keeping::Events => self.entries.reserve(1)?,
            Keeping::Nothing => {}
        }
        Ok(())
    }

    /// Adds so many steps of the worker.
    #[tactic(auto, using(crate::proofs::Runs::spelled_push))]
    pub(crate) fn push_steps(&mut self, worker: u8, count: u64)
        requires room { 0 < self.old.spare }
        requires count { length self.old.events + count < 2 ^ 64 }
        ensures events { self.new.events ≡ self.old.events ++ replicate count (Step worker) }
        ensures keeping { self.new.keeping ≡ self.old.keeping }
    {
        self.story = self.story.and(&Entry::Steps { worker, count });
        match self.keeping {
            Keeping::Events => keep_steps(&mut self.entries, worker, count),
            Keeping::Nothing => {}
        }
        self.total += count;
    }

    /// Adds a steal of the task of this path.
    #[tactic(auto, using(crate::proofs::Runs::spelled_push))]
    pub(crate) fn push_steal(&mut self, worker: u8, path: Path)
        requires room { 0 < self.old.spare }
        requires count { length self.old.events + 1 < 2 ^ 64 }
        ensures events { self.new.events ≡ self.old.events ++ Steal worker path ∷ [] }
        ensures keeping { self.new.keeping ≡ self.old.keeping }
    {
        let entry = Entry::Steal { worker, path };
        self.story = self.story.and(&entry);
        match self.keeping {
            Keeping::Events => self.entries.push_reserved(entry),
            Keeping::Nothing => drop(entry),
        }
        self.total += 1;
    }

    /// Adds an event.
    pub(crate) fn push(&mut self, event: Event)
        requires room { 0 < self.old.spare }
        requires count { length self.old.events + 1 < 2 ^ 64 }
        ensures events { self.new.events ≡ self.old.events ++ event ∷ [] }
        ensures keeping { self.new.keeping ≡ self.old.keeping }
    {
        match event {
            Event::Step(worker) => self.push_steps(worker, 1),
            Event::Steal(worker, path) => self.push_steal(worker, path),
        }
    }

    /// Whether its events are kept.
    pub fn keeping(&self) -> Keeping
        ensures { result ≡ self.now.keeping }
    {
        self.keeping
    }

    /// The number of events.
    pub fn total(&self) -> u64
        ensures { result ≡ length self.now.events }
    {
        self.total
    }

    /// The events as they were appended, each run of steps of one worker as one entry; none where they are not kept.
    pub fn entries(&self) -> Option<&[Entry]>
        ensures events { IfSome result (λ entries. spelled entries.now ≡ self.now.events) }
        ensures kept { IfNone result (self.now.keeping ≡ Keeping.Nothing) }
    {
        match self.keeping {
            Keeping::Events => Some(self.entries.as_slice()),
            Keeping::Nothing => None,
        }
    }

    /// The events one by one, as a replay takes them.
    ///
    /// # Errors
    ///
    /// Memory was refused: it is taken for each event. Or the events are not kept.
    pub fn events(&self, alloc: Global) -> Result<Vec<Event>, OutOfMemory>
        ensures { IfOk result (λ events. events.items ≡ self.now.events) }
    {
        let Some(entries) = self.entries() else {
            return Err(OutOfMemory);
        };
        let mut events = Vec::new(alloc);
        for entry in entries {
            spell(alloc, entry, &mut events)?;
        }
        Ok(events)
    }
}

/// Adds the events of an entry.
fn spell(alloc: Global, entry: &Entry, events: &mut Vec<Event>) -> Result<(), OutOfMemory>
    ensures { OnOk result (events.new.items ≡ events.old.items ++ events_of entry.now) }
{
    match entry {
        Entry::Steps { worker, count } => spell_steps(*worker, *count, events),
        Entry::Steal { worker, path } => {
            events.push(Event::Steal(*worker, path.copy(alloc)?))?;
            Ok(())
        }
    }
}

/// Adds so many steps of the worker.
fn spell_steps(worker: u8, count: u64, events: &mut Vec<Event>) -> Result<(), OutOfMemory>
    ensures { OnOk result (events.new.items ≡ events.old.items ++ replicate count (Step worker)) }
{
    for _step in 0..count {
        events.push(Event::Step(worker))?;
    }
    Ok(())
}
