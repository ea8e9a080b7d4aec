//! A verified module, decoded once for all its runs, with its arguments' names and its identity.

ghost use Rattle.std.specs.Prelude.{◌≡◌, IfSome};
ghost use Rattle.serial_machine.specs.Decoding.{IsCodeOf};

use lists::{Name, OutOfMemory};
use serial_machine::Decoded;
use std::alloc::Global;
use std::marker::Model;
use verifier::Verified;

/// A verified module, which is decoded once for all its runs. Contracts see it as its program.
#[derive(Drop)]
pub struct Prepared {
    verified: Verified,
    code: Decoded,
    /// Those of `main`'s arguments.
    names: Vec<Name>,
    /// It stands for the text and the seed.
    mark: u64,
}

impl Model for Prepared {
    ghost use Rattle.program.specs.declared.function.Program.{Program};
    ghost use Rattle.serial_machine.specs.Decoding.{IsCodeOf};

    ghost Value = { Program };

    ghost view = { λ m. m.verified };

    ghost invariant = { λ m. IsCodeOf m.verified m.code };
}

impl Prepared {
    /// Decodes a module. Where memory is refused, it is let go.
    pub fn of(alloc: Global, verified: Verified, names: Vec<Name>, mark: u64) -> Option<Prepared>
        ensures { IfSome result (λ kernel. kernel ≡ verified) }
    {
        match Decoded::of(alloc, &verified) {
            Ok(code) => Some(Prepared {
                verified,
                code,
                names,
                mark,
            }),
            Err(OutOfMemory) => None,
        }
    }

    /// What was verified.
    pub fn verified(&self) -> &Verified
        ensures { result.now ≡ self.now }
    {
        &self.verified
    }

    /// The names of `main`'s arguments.
    pub fn names(&self) -> &[Name] {
        self.names.as_slice()
    }

    /// Whether both come from one text, judged with one seed.
    pub fn is_same(&self, other: &Prepared) -> bool {
        self.mark == other.mark
    }

    /// The module's code, made once for all its runs.
    pub fn code(&self) -> &Decoded
        ensures { IsCodeOf self.now result.now }
    {
        &self.code
    }
}
