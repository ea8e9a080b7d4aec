//! Colours of a terminal for what the debugger shows.

/// What a text is.
#[derive(Clone, Copy)]
pub(crate) enum Paint {
    /// A task's or a frame's path.
    Path,
    /// What stands beside.
    Soft,
    /// A line of the source where a worker stands.
    Mark,
}

/// What stands before a text and behind it, so that it has a colour where there are colours.
#[derive(Clone, Copy)]
pub(crate) struct Colour {
    pub begins: &'static str,
    pub ends: &'static str,
}

impl Colour {
    pub(crate) fn none() -> Colour {
        Colour {
            begins: "",
            ends: "",
        }
    }

    pub(crate) fn of(paint: Paint, has_colours: bool) -> Colour {
        if !has_colours {
            return Colour::none();
        }
        let begins = match paint {
            Paint::Path => "\u{1b}[36m",
            Paint::Soft => "\u{1b}[2m",
            Paint::Mark => "\u{1b}[33m",
        };
        Colour {
            begins,
            ends: "\u{1b}[0m",
        }
    }
}
