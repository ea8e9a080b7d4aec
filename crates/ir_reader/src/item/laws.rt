//! The law that a line's canonical print is read back as what was printed (round trip).

ghost use Rattle.ir_reader.specs.item.Laws.{ItemsAreReadBack, WordsAreReadBack, SymbolsSpellTheirItem};

/// The canonical print of a line is read back as what was printed, and what is read is spelled by the line. It does nothing: its
/// contract is the law.
pub fn lines_are_read_back()
    ensures items { ItemsAreReadBack }
    ensures words { WordsAreReadBack }
    ensures spelled { SymbolsSpellTheirItem }
{}
