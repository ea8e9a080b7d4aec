//! A broken rule with its line, and which of two is named: by line, then by number (precedence of errors).

ghost use Rattle.std.specs.Prelude.{◌≡◌};
ghost use Rattle.refusal.specs.Before as spec;
ghost use Rattle.refusal.specs.Named.{IsLowerOf};

/// A broken rule and the line that breaks it.
#[derive(Clone, Copy)]
pub struct Broken {
    pub line: u32,
    pub number: u16,
}

impl Broken {
    /// Whether this one is named in place of the other: it is on a lower line, or on the same line and of a lower
    /// number.
    fn is_before(&self, other: &Broken) -> bool
        ensures { result ≡ spec.is_before self.now other.now }
    {
        self.line < other.line || (self.line == other.line && self.number < other.number)
    }

    /// The one of the two that is named.
    pub fn earlier(self, other: Broken) -> Broken
        ensures { result ≡ spec.earlier_of self other }
    {
        if other.is_before(&self) { other } else { self }
    }
}

/// What is named of the two.
pub fn lower(left: Option<Broken>, right: Option<Broken>) -> Option<Broken>
    ensures { IsLowerOf left right result }
{
    match (left, right) {
        (Some(first), Some(second)) => Some(first.earlier(second)),
        (None, _) => right,
        (_, None) => left,
    }
}
