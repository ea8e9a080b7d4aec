//! The words of a text of numbers, and the line and column of one.

ghost use Rattle.std.specs.Prelude.{◌≡◌, ◌++◌, ◌+◌, ◌≤◌, ℤ, List, ℕ, length, IfSome, IfNone, true};
ghost use Rattle.std.specs.List.{list_all, prefix_len};
ghost use Rattle.cli_words.specs.io.Data.{IsNext, IsNumber, is_blank, is_solid, line_after, column_after};

fn is_blank(byte: u8) -> bool
    ensures { result ≡ is_blank byte }
{
    byte == b' ' || byte == b'\t' || byte == b'\n' || byte == b'\r'
}

fn is_solid(byte: u8) -> bool
    ensures { result ≡ is_solid byte }
{
    !is_blank(byte)
}

fn blanks_in_front(text: &[u8]) -> usize
    ensures value { result ≡ prefix_len is_blank text.now }
    ensures within { result ≤ length text.now }
{
    text.iter().take_while(|byte| is_blank(**byte)).count()
}

fn solids_in_front(text: &[u8]) -> usize
    ensures value { result ≡ prefix_len is_solid text.now }
    ensures within { result ≤ length text.now }
{
    text.iter().take_while(|byte| is_solid(**byte)).count()
}

/// The first word of a text and what follows it; none where all is blank.
pub fn next_word(text: &[u8]) -> Option<(&[u8], &[u8])>
    ensures word { IfSome result (λ r. IsNext text.now r.0.now r.1.now) }
    ensures none { IfNone result (list_all is_blank text.now ≡ true) }
{
    let (_blanks, rest) = text.split_at(blanks_in_front(text));
    if rest.is_empty() {
        return None;
    }
    Some(rest.split_at(solids_in_front(rest)))
}

/// The number that a word spells.
pub fn number_of(word: &[u8]) -> Option<i64>
    ensures number { IfSome result (IsNumber word.now) }
    ensures none { IfNone result ((z : ℤ) → IsNumber word.now z → ⊥) }
{
    match str::from_utf8(word) {
        Err(_) => None,
        Ok(text) => match text.parse::<i64>() {
            Err(_) => None,
            Ok(number) => Some(number),
        },
    }
}

/// The line and the column of what stands behind this beginning of a text.
pub fn place_after(before: &[u8]) -> (usize, usize)
    ensures line { result.0 ≡ line_after before.now }
    ensures column { result.1 ≡ column_after before.now }
{
    let mut line = 1;
    let mut column = 1;
    for byte in before {
        if *byte == b'\n' {
            line += 1;
            column = 1;
        } else {
            column += 1;
        }
    }
    (line, column)
}
