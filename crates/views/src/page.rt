//! The HTML page of a run: its text, with events, module and names in it.

use crate::change::Settings;
use crate::event::{Numbered, push_event, push_settings};
use crate::names::Names;
use crate::script::SCRIPT;
use crate::spelling::quoted;
use crate::style::STYLE;
use lists::TextBuffer;
use std::alloc::{AllocError, Global};

/// The most events that a page tells.
pub const MOST_EVENTS: u64 = 20_000;

/// What a run begins with.
#[derive(Clone, Copy)]
pub struct Start<'a> {
    /// What the page is headed by: the module's file.
    pub title: &'a str,
    /// The module's text.
    pub source: &'a str,
    pub workers: usize,
    /// The registers that the root is given.
    pub root: &'a Settings,
}

/// A page that is told events.
#[derive(Drop)]
pub(crate) struct Page {
    alloc: Global,
    text: TextBuffer,
    /// How many events there were, told or not.
    events: u64,
    /// Whether memory was refused for a text that is quoted.
    is_refused: bool,
}

/// A text that stands among tags.
fn push_plain(out: &mut TextBuffer, text: &str) {
    for c in text.chars() {
        match c {
            '<' => out.push_str("&lt;"),
            '&' => out.push_str("&amp;"),
            _ => out.push(c),
        }
    }
}

fn push_head(out: &mut TextBuffer, title: &str) {
    out.push_str(
        "<!doctype html>\n<html lang=\"en\">\n<meta charset=\"utf-8\">\n<meta name=\"viewport\" content=\"width=device-width\">\n<title>",
    );
    push_plain(out, title);
    out.push_str("</title>\n<style>");
    out.push_str(STYLE);
    out.push_str("</style>\n<body>\n<div id=\"bar\"><h1>");
    push_plain(out, title);
    out.push_str(BODY);
}

/// The parts that the script fills.
const BODY: &str = r#"</h1>
<button id="first" title="Home">|&lt;</button>
<button id="back" title="Left">back</button>
<button id="step" title="Right">step</button>
<button id="last" title="End">&gt;|</button>
<button id="play" title="Space">play</button>
<input id="slider" type="range" min="0" value="0" aria-label="position">
<span id="at"></span>
<div><code id="event"></code></div>
<div id="note"></div>
</div>
<div id="time"></div>
<div id="columns">
<div><h2>Source</h2><pre id="source"></pre></div>
<div>
<h2>Workers</h2><div id="workers"></div>
<h2>Frames and tasks</h2><div id="frames" class="scroll"></div>
<h2>Registers</h2><div id="registers" class="scroll"></div>
<h2>Cells that changed</h2><div id="cells" class="scroll"></div>
</div>
</div>
<script type="application/json" id="run">
"#;

impl Page {
    /// The page of a run that begins so, before its first event.
    pub(crate) fn start<'a>(alloc: Global, names: &'a Names<'a>, start: Start<'a>) -> Page {
        let mut page = Page {
            alloc,
            text: TextBuffer::new(alloc),
            events: 0,
            is_refused: false,
        };
        push_head(&mut page.text, start.title);
        let workers = start.workers;
        write!(
            page.text,
            "{{\"workers\":{workers},\"start\":{{\"task\":\"root\""
        );
        push_settings(&mut page.text, names, "sets", start.root);
        page.text.push_str("},\n\"source\":[");
        let mut is_first = true;
        for line in start.source.lines() {
            page.text.push_str(if is_first { "\n" } else { ",\n" });
            page.push_quoted(line);
            is_first = false;
        }
        page.text.push_str("],\n\"events\":[");
        page
    }

    /// A text as JSON within a script: a `<` is spelled by its number, so that no text ends the script.
    fn push_quoted(&mut self, text: &str) {
        let Ok(text) = quoted(self.alloc, text) else {
            self.is_refused = true;
            return;
        };
        for c in text.as_str().chars() {
            match c {
                '<' => self.text.push_str("\\u003c"),
                _ => self.text.push(c),
            }
        }
    }

    /// The next event. Past the most that a page tells it is counted alone.
    pub(crate) fn add<'a>(&mut self, names: &'a Names<'a>, numbered: Numbered<'a>) {
        if self.events < MOST_EVENTS {
            self.text
                .push_str(if self.events == 0 { "\n" } else { ",\n" });
            push_event(&mut self.text, names, numbered);
        }
        self.events = self.events.saturating_add(1);
    }

    /// So many events more, which the page does not tell.
    pub(crate) fn skip(&mut self, events: u64) {
        self.events = self.events.saturating_add(events);
    }

    /// The whole page; `answer` is what the run came to.
    ///
    /// # Errors
    ///
    /// Memory was refused.
    pub(crate) fn into_text(mut self, answer: &str) -> Result<String, AllocError> {
        let events = self.events;
        let mut note = TextBuffer::new(self.alloc);
        if events > MOST_EVENTS {
            write!(
                note,
                "The run has {events} events; the page tells the first {MOST_EVENTS}. "
            );
        }
        note.push_str(answer);
        self.text.push_str("],\n\"note\":");
        self.push_quoted(note.finish()?.as_str());
        self.text.push_str("}\n</script>\n<script>\n");
        self.text.push_str(SCRIPT);
        self.text.push_str("</script>\n</body>\n</html>\n");
        if self.is_refused {
            return Err(AllocError);
        }
        self.text.finish()
    }
}
