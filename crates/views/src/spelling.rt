//! Texts as JSON strings, quoted and escaped.

ghost use Rattle.std.specs.Prelude.{◌≡◌, IfOk, Some, string_bytes};
ghost use Rattle.serde_json.specs.Data.{string};
ghost use Rattle.serde_json.specs.Read.{read};

use serde_json::Value;
use std::alloc::{AllocError, Global};

/// A text as JSON spells it: what it reads as is the text.
pub fn quoted(alloc: Global, text: &str) -> Result<String, AllocError>
    ensures { IfOk result (λ spelled. read (string_bytes spelled) ≡ Some (string text.now)) }
{
    Value::try_from_str(alloc, text)?.to_string(alloc)
}
