//! The word by which a host stops runs from any thread (cancellation flag).

ghost use Rattle.std.specs.Prelude.{◌≡◌, IfOk, IsSome, IsTrue, None, is_some};

use lists::OutOfMemory;
use std::alloc::Global;
use std::sync::Arc;
use std::sync::atomic::{AtomicU64, Ordering};

/// A word that several threads may set to stop runs. Nothing of an answer rests on it.
pub struct Stop {
    word: Option<Arc<AtomicU64>>,
}

/// Written out, so that no crate above proves it anew.
impl Drop for Stop {
    fn drop(self) {
        let Stop { word: _ } = self;
    }
}

impl Stop {
    /// One that nobody sets.
    pub fn never() -> Stop
        ensures { result.word ≡ None }
    {
        Stop { word: None }
    }

    /// One that is not set.
    ///
    /// # Errors
    ///
    /// Memory was refused.
    pub fn new(alloc: Global) -> Result<Stop, OutOfMemory>
        ensures { IfOk result (λ stop. IsSome stop.word) }
    {
        let word = Arc::new(alloc, AtomicU64::new(0))?;
        Ok(Stop { word: Some(word) })
    }

    /// A second handle on this stop: what is set through one is seen through the other.
    ///
    /// # Errors
    ///
    /// There are as many as can be counted.
    pub fn share(&self) -> Result<Stop, OutOfMemory>
        ensures { IfOk result (λ stop. is_some stop.word ≡ is_some self.now.word) }
    {
        match &self.word {
            None => Ok(Stop::never()),
            Some(word) => match Arc::try_clone(word) {
                Ok(word) => Ok(Stop { word: Some(word) }),
                Err(_) => Err(OutOfMemory),
            },
        }
    }

    /// Whether somebody may set it.
    pub fn is_live(&self) -> bool
        ensures { result ≡ is_some self.now.word }
    {
        self.word.is_some()
    }

    /// Whether it is set. One that nobody sets never is.
    pub fn is_set(&self) -> bool
        ensures { IsTrue result → IsSome self.now.word }
    {
        match &self.word {
            None => false,
            Some(word) => word.load(Ordering::SeqCst) != 0,
        }
    }

    /// Sets it, or clears it; one that nobody sets stays so.
    pub fn set(&self, is_set: bool) {
        if let Some(word) = &self.word {
            word.store(u64::from(is_set), Ordering::SeqCst);
        }
    }
}
