//! The law that a module's canonical text is read back as the module (parser and printer, round trip).

ghost use Rattle.ir_text.specs.RoundTrip.{AnswersAreOne, PrintIsReadBack};

/// The canonical text of a module that is kept, where it is within the limit of bytes, is read back as the module, lines aside; and
/// a text is read in one way. It does nothing: its contract is the law.
pub fn print_is_read_back()
    ensures read { PrintIsReadBack }
    ensures one { AnswersAreOne }
{}
