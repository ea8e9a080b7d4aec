//! A text cut into lines.

ghost use Rattle.std.specs.Prelude.{◌≡◌, ◌<◌, ◌≤◌, ◌+◌, ◌∷◌, length};
ghost use Rattle.std.specs.List.{prefix_len};
ghost use Rattle.ir_reader.specs.Lines.{lines_of, is_inner, content};

fn line_len(text: &[u8]) -> usize
    ensures value { result ≡ prefix_len is_inner text.now }
    ensures within { result ≤ length text.now }
{
    text.iter().take_while(|b| **b != b'\n').count()
}

/// The first line, with the LF that ends it, and what follows it.
pub fn cut_line(text: &[u8]) -> (&[u8], &[u8])
    requires { 0 < length text.now }
    ensures lines { lines_of text.now ≡ result.0.now ∷ lines_of result.1.now }
    ensures lengths { length result.0.now + length result.1.now ≡ length text.now }
    ensures some { 0 < length result.0.now }
{
    let len = line_len(text);
    let end = text.len().min(len + 1);
    (&text[..end], &text[end..])
}

/// A line without its LF.
pub fn content(line: &[u8]) -> &[u8]
    ensures { result.now ≡ content line.now }
{
    &line[..line_len(line)]
}
