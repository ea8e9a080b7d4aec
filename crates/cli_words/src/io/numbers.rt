//! A global's cells as text: decimal numbers, read and printed.

ghost use Rattle.std.specs.Prelude.{◌≡◌, ◌≤◌, ◌-◌, ℕ, List, flat_map, length, take, IfOk, IfErr, string_bytes};
ghost use Rattle.cli_words.specs.declared.io.fault.DataFault.TheVariants.{NoNumber};
ghost use Rattle.cli_words.specs.io.Data.{IsFault, IsNumbers, line_of, line_after, column_after};

use crate::io::fault::DataFault;
use crate::io::scan::{next_word, number_of, place_after};
use itoa::Buffer;
use std::alloc::{AllocError, Global};

/// The fault of the word that begins where so many bytes are left of the text.
fn fault_at(text: &[u8], left: usize) -> DataFault
    requires { left ≤ length text.now }
    ensures { let before : List ℕ = take (length text.now - left) text.now
        in result ≡ NoNumber (line_after before) (column_after before) }
{
    let (line, column) = place_after(&text[..text.len() - left]);
    DataFault::NoNumber { line, column }
}

/// The numbers of a text: decimal numbers of 64 bits, with white space between and around.
///
/// # Errors
///
/// The first word that is none is named by its line and column.
pub fn read_numbers(alloc: Global, text: &[u8]) -> Result<Vec<i64>, DataFault>
    ensures numbers { IfOk result (λ numbers. IsNumbers text.now numbers.items) }
    ensures fault { IfErr result (IsFault text.now) }
{
    let mut numbers = Vec::new(alloc);
    let mut rest = text;
    while let Some((word, after)) = next_word(rest) {
        let Some(number) = number_of(word) else {
            return Err(fault_at(text, word.len() + after.len()));
        };
        numbers.push(number)?;
        rest = after;
    }
    Ok(numbers)
}

/// The text of numbers, a line for each.
pub fn print_numbers(alloc: Global, numbers: &[i64]) -> Result<String, AllocError>
    ensures { IfOk result (λ text. string_bytes text ≡ flat_map line_of numbers.now) }
{
    let mut text = String::new(alloc);
    for number in numbers {
        text.push_str(Buffer::new().format(*number))?;
        text.push_str("\n")?;
    }
    Ok(text)
}
