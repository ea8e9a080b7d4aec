//! A global's cells as bytes: words of eight bytes, the low one first (little endian).

ghost use Rattle.std.specs.Prelude.{◌≡◌, ◌≢◌, ◌/◌, ◌%◌, flat_map, length, map, IfOk, IfSome, IfNone};
ghost use Rattle.std.specs.Simd.{first_chunks};
ghost use Rattle.cli_words.specs.io.Data.{bytes_of, word_of};

use std::alloc::{AllocError, Global};

#[tactic(auto, unfolding(crate::specs::io::Data::word_of))]
fn number_of(word: [u8; 8]) -> i64
    ensures { result ≡ word_of word }
{
    i64::from_le_bytes(word)
}

#[tactic(auto, unfolding(crate::specs::io::Data::bytes_of))]
fn bytes_of(number: i64) -> [u8; 8]
    ensures { result ≡ bytes_of number }
{
    number.to_le_bytes()
}

/// The numbers of words; none where bytes are left over.
pub fn read_words(alloc: Global, bytes: &[u8]) -> Result<Option<Vec<i64>>, AllocError>
    ensures numbers { IfOk result (λ found. IfSome found (λ v. v.items ≡ map word_of (first_chunks 8 (length bytes.now / 8) bytes.now))) }
    ensures whole { IfOk result (λ found. IfSome found (λ _. length bytes.now % 8 ≡ 0)) }
    ensures left { IfOk result (λ found. IfNone found (length bytes.now % 8 ≢ 0)) }
{
    let (words, left) = bytes.as_chunks::<8>();
    if !left.is_empty() {
        return Ok(None);
    }
    let mut numbers = Vec::new(alloc);
    for word in words {
        numbers.push(number_of(*word))?;
    }
    Ok(Some(numbers))
}

/// The words of numbers.
pub fn write_words(alloc: Global, numbers: &[i64]) -> Result<Vec<u8>, AllocError>
    ensures { IfOk result (λ bytes. bytes.items ≡ flat_map bytes_of numbers.now) }
{
    let mut bytes = Vec::new(alloc);
    for number in numbers {
        bytes.extend_from_slice(&bytes_of(*number))?;
    }
    Ok(bytes)
}
