//! The laws that a list of events is spelled in one way, and that a text spells one list (bijection).

ghost use Rattle.schedule_text.specs.ScheduleText.{OneSpelling, OneReading};

/// A list of events is spelled in just one way.
pub fn one_spelling()
    ensures { OneSpelling }
{}

/// A text spells just one list of events.
pub fn one_reading()
    ensures { OneReading }
{}
