//! The help text of the debugger: its commands in words.

/// The commands in words. Of those that begin as a word does, the first is meant that takes what follows.
pub(crate) const HELP: &str = "\
Going:
  to N           goes to the position after N events
  forward        does the next event
  back           takes the last event back
  next W         goes on past worker W's next event
  over W         the same, and past the call that it makes, to its return
  until PATH     goes on until the task or frame of this path has ended
  break L        goes on until a worker's next instruction stands on line L

Showing:
  where          the position, the last event and the next one
  workers        what each worker does
  tasks          each task, how it stands and where
  frames         the tree of living frames
  task PATH      one task
  regs PATH      the registers of a frame that have values
  allocas PATH   the arrays of a frame
  cell @a:I      one cell of a global
  cells @a I N   N cells of a global, from index I on
  list L         the source around line L, or around the first worker

  help           this
  quit           ends, as the end of the input does

A word may be cut short: f goes forward, b back, b 20 to a break.
An empty line does the last command again.
Paths are root, root.0, root.0.1 and so on.
";
