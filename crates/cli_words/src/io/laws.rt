//! The law that numbers that are printed as text are read back as these numbers.

ghost use Rattle.cli_words.specs.io.Data.{ReadsBack};

/// What is printed of numbers is read as these numbers.
pub fn reads_back()
    ensures { ReadsBack }
{}
