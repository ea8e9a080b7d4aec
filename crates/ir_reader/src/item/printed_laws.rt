//! The law that items that are read are within their limits, and are read back once printed (round trip).

ghost use Rattle.ir_reader.specs.item.Laws.{KeptItemsAreReadBack, ReadItemsAreKept};

/// An item that is read is kept: canonical forms, names and numbers within their limits; and the line that prints one that is kept
/// says it again. It does nothing: its contract is the law.
pub fn items_are_read_back()
    ensures again { KeptItemsAreReadBack }
    ensures kept { ReadItemsAreKept }
{}
