//! The canonical text of a module, for `print` (pretty printer, formatter).

ghost use Rattle.std.specs.Prelude.{◌≡◌, Ok, IfOk, IfErr, string_bytes};
ghost use Rattle.syntax.specs.declared.module.Module.{Module};
ghost use Rattle.ir_text.specs.Items.{module_text};
ghost use Rattle.ir_reader.specs.Reading.{Answers, IsFaultOfText};

use ir_text::{print, read};
use refusal::Refused;
use std::alloc::Global;
use std::hash::RandomState;

/// The canonical text of the module that a text spells; no comments and no blank lines are left. The names of the text are hashed with
/// `state`.
///
/// # Errors
///
/// The first fault of the text, from 101 to 107, at its line; or memory was refused.
pub fn printed(alloc: Global, state: RandomState, text: &[u8]) -> Result<String, Refused>
    ensures canonical { IfOk result (λ out. (m : Module) × Answers text.now (Ok m) × (string_bytes out ≡ module_text m)) }
    ensures fault { IfErr result (IsFaultOfText text.now) }
{
    let module = read(alloc, state, text)?;
    Ok(print(alloc, &module)?)
}
