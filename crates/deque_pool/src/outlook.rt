//! Why workers leave a run, and what becomes of one that has not ended then.
ghost use Rattle.std.specs.Prelude.{◌≡◌};
ghost use Rattle.std.specs.List.{list_any};
ghost use Rattle.deque_pool.specs.Leaving.{is_starved, is_stopped, outlook_of};

/// Why a worker left its work.
#[derive(Clone, Copy)]
pub(crate) enum Quit {
    /// It was refused memory.
    Starved,
    /// The gate stopped the run.
    Stopped,
    /// All was done, or another left first.
    Over,
}

/// What becomes of a run whose workers have left before it ended.
#[derive(Clone, Copy)]
pub(crate) enum Outlook {
    /// They work on.
    Again,
    /// One of them was refused memory.
    OutOfMemory,
    /// The gate stopped it.
    Stopped,
}

fn is_starved(left: &Quit) -> bool
    ensures { result ≡ is_starved left.now }
{
    matches!(left, Quit::Starved)
}

fn is_stopped(left: &Quit) -> bool
    ensures { result ≡ is_stopped left.now }
{
    matches!(left, Quit::Stopped)
}

fn any_starved(left: &[Quit]) -> bool
    ensures { result ≡ list_any is_starved left.now }
{
    left.iter().any(is_starved)
}

fn any_stopped(left: &[Quit]) -> bool
    ensures { result ≡ list_any is_stopped left.now }
{
    left.iter().any(is_stopped)
}

/// What becomes of a run that has not ended, by why each worker left.
pub(crate) fn what_next(left: &[Quit]) -> Outlook
    ensures { result ≡ outlook_of left.now }
{
    if any_starved(left) {
        Outlook::OutOfMemory
    } else if any_stopped(left) {
        Outlook::Stopped
    } else {
        Outlook::Again
    }
}
