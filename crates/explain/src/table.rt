//! Tables of words: rows `WORD | WHAT IS SAID OF IT`, each with an LF.

/// What a table says of a word.
pub(crate) fn looked_up(table: &'static str, word: &str) -> Option<&'static str> {
    for row in table.split('\n') {
        if let Some((found, said)) = row.split_once(" | ") {
            if found == word {
                return Some(said);
            }
        }
    }
    None
}
