//! Where the verifier's tables get their random numbers from: from the host.

ghost use Rattle.std.specs.Int.{to_le_bytes, w64};
ghost use Rattle.std.specs.Prelude.{◌≡◌, ◌++◌, IfErr, IfOk, length};
ghost use Rattle.kernel_calls.specs.Marks.{mark_of};
ghost use Rattle.kernel_calls.specs.Told.{granted_by};
ghost use Rattle.verifier.specs.Accepted.{IsProgramOf, IsUnverified};

use core::hash::{Hasher, keyed_hasher};
use std::alloc::Global;
use std::hash::RandomState;
use std::io;
use std::random::RandomSource;
use verifier::{Effort, Refused, Unverified, Verified, verify_within};

/// Numbers that whoever wrote the text does not know.
#[derive(Drop)]
pub struct Seed {
    pub low: u64,
    pub high: u64,
}

impl Seed {
    /// A number that stands for the text: who does not know the seed finds no other text that has it.
    pub fn mark_of(&self, text: &[u8]) -> u64
        ensures { result ≡ mark_of self.now.low self.now.high text.now }
    {
        let mut hasher = keyed_hasher(self.low, self.high);
        hasher.write(text);
        hasher.finish()
    }
}

impl RandomSource for Seed {
    /// The numbers' bytes, each number from its least on, and so again. A table takes 16: all that the host gave.
    fn fill_bytes(&self, buf: &mut [u8]) -> io::Result<()>
        ensures given { length buf.old ≡ 16 → buf.new ≡ to_le_bytes w64 self.now.low ++ to_le_bytes w64 self.now.high }
    {
        let (low, high) = (self.low.to_le_bytes(), self.high.to_le_bytes());
        if buf.len() == 16 {
            let (front, back) = buf.split_at_mut(8);
            front.copy_from_slice(&low);
            back.copy_from_slice(&high);
            return Ok(());
        }
        repeat(&low, &high, buf);
        Ok(())
    }
}

/// Fills with the bytes of both in turn.
fn repeat(low: &[u8; 8], high: &[u8; 8], buf: &mut [u8]) {
    for (place, byte) in buf.iter_mut().enumerate() {
        let source = if place % 16 < 8 { low } else { high };
        *byte = source[place % 8];
    }
}

/// The effort that a host's number grants.
#[tactic(auto, using(crate::proofs::Bounded::all_effort, crate::proofs::Bounded::some_effort))]
pub fn effort_of(effort: u64) -> Effort
    ensures { result ≡ granted_by effort }
{
    if effort == u64::MAX {
        Effort::unlimited()
    } else {
        Effort::of(effort)
    }
}

/// Verifies a text within some effort, with tables of this seed.
pub fn verify_seeded(
    alloc: Global,
    seed: &Seed,
    text: &[u8],
    effort: u64,
) -> Result<Verified, Unverified>
    ensures accepted { IfOk result (IsProgramOf text.now) }
    ensures refused { IfErr result (IsUnverified text.now (granted_by effort)) }
{
    match RandomState::new(seed) {
        Ok(state) => verify_within(alloc, state, text, &effort_of(effort)),
        Err(_) => Err(Unverified::Refused(Refused::Memory)),
    }
}
