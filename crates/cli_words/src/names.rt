//! Whether a text is a name (an identifier) as a module's text has it.

/// Whether a text is a name by the rules of the module's text, without its sigil.
pub fn is_name(text: &str) -> bool {
    for byte in text.as_bytes() {
        if !matches!(*byte, b'a'..=b'z' | b'A'..=b'Z' | b'0'..=b'9' | b'_' | b'.') {
            return false;
        }
    }
    !matches!(text.as_bytes().first(), None | Some(b'0'..=b'9'))
}
