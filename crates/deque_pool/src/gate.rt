//! What each worker passes before each strand, by which a host holds or stops a run (cancellation, throttling).

ghost use Rattle.std.specs.Prelude.{◌≡◌, ⊤, ℕ, false};

/// Whether a run goes on.
#[derive(Clone, Copy, PartialEq, Eq)]
pub enum Go {
    /// The worker does its strand.
    On,
    /// The run stops: no worker begins another strand.
    Stop,
}

/// Is called by each worker before each of its strands, while no lock is held. What a strand is here goes on to the next call. It may hold the worker there, or stop the run.
pub trait Gate {
    ghost use Rattle.deque_pool.specs.declared.gate.Go.{Go};

    /// What it may answer before the worker's strand of this number: anything, where an implementation says nothing of it.
    ghost says: { Self → ℕ → ℕ → Go → Type 0 } = { λ gate worker strand go. ⊤ };

    /// `strand` counts the worker's strands from 0; at 2^64 - 1 it stays.
    fn pass(&self, worker: u8, strand: u64) -> Go
        ensures { says self.now worker strand result };

    /// Whether it is to be called. Where it is not, each call counts as answered by [`Go::On`], and one worker alone does its run without strands.
    fn watches(&self) -> bool
        ensures { result ≡ false → (worker strand : ℕ) → says self.now worker strand Go.On }
    {
        true
    }
}

/// What the gate answers before the worker's strand: it goes on where the gate is not to be called.
pub(crate) fn pass<G: Gate>(gate: &G, worker: u8, strand: u64) -> Go
    ensures { G.says gate.now worker strand result }
{
    if gate.watches() {
        gate.pass(worker, strand)
    } else {
        Go::On
    }
}

/// A gate that holds nobody and stops nothing.
pub struct OpenGate;

impl Gate for OpenGate {
    ghost use Rattle.deque_pool.specs.declared.gate.Go.TheVariants.{On};

    ghost says = { λ gate worker strand go. go ≡ On };

    fn pass(&self, _worker: u8, _strand: u64) -> Go {
        Go::On
    }

    fn watches(&self) -> bool {
        false
    }
}
