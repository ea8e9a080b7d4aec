//! The exit statuses of the program.

/// The exit statuses of the program.
#[derive(Clone, Copy)]
pub enum Status {
    /// What was asked for is done.
    Done = 0,
    /// The module was refused.
    Refused = 1,
    /// The command line is wrong, or an option names no cell of the module.
    Words = 2,
    /// The run was stopped, or memory was refused.
    Stopped = 3,
    /// A file could not be read.
    Unreadable = 4,
    /// The schedule is none.
    Schedule = 5,
    /// Standard input could not be read, or standard output not written.
    Stream = 6,
}
