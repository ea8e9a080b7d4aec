//! Is told each event, and hands it to all that are wanted: trace, schedule, figures, picture, JSON, page.

use crate::event::{Numbered, push_event};
use crate::figures::Figures;
use crate::moment::Moment;
use crate::names::Names;
use crate::page::{MOST_EVENTS, Page, Start};
use crate::pictures::{Scene, picture};
use crate::rounds::Rounds;
use crate::saved::Script;
use crate::told::{Told, Wanted, Words};
use crate::trace::push_moment;
use frame::Event;
use lists::{OutOfMemory, TextBuffer};
use std::alloc::{AllocError, Global};

/// What is made of the events of a run. A list or a script to which nothing is added, since it is not wanted, takes no memory.
#[derive(Drop)]
pub struct Teller {
    alloc: Global,
    wanted: Wanted,
    rounds: Rounds,
    figures: Figures,
    scene: Option<Scene>,
    page: Option<Page>,
    json: TextBuffer,
    script: Script,
    /// The events so far.
    events: u64,
}

/// The picture of a scene, where there is one.
pub fn picture_of(alloc: Global, scene: Option<Scene>) -> Result<Option<String>, OutOfMemory> {
    let Some(mut scene) = scene else {
        return Ok(None);
    };
    scene.close();
    if scene.is_refused() {
        return Err(OutOfMemory);
    }
    Ok(Some(picture(alloc, &scene)?))
}

/// The page, where one is wanted; `untold` is how many events follow those that were told.
fn page_text(page: Option<Page>, untold: u64, answer: &str) -> Result<Option<String>, AllocError> {
    let Some(mut page) = page else {
        return Ok(None);
    };
    page.skip(untold);
    Ok(Some(page.into_text(answer)?))
}

/// The scene of a run that has not begun, where one is wanted.
fn scene_if(alloc: Global, is_wanted: bool, workers: usize) -> Result<Option<Scene>, OutOfMemory> {
    if is_wanted {
        Ok(Some(Scene::new(alloc, workers)?))
    } else {
        Ok(None)
    }
}

impl Teller {
    /// Before the first event of a run that begins so.
    pub fn new<'a>(
        alloc: Global,
        words: Words<'a>,
        wanted: Wanted,
        start: Start<'a>,
    ) -> Result<Teller, OutOfMemory> {
        let page = if wanted.page {
            Some(Page::start(alloc, words.names, start))
        } else {
            None
        };
        if let Ok(rounds) = Rounds::new(alloc, start.workers)
            && let Ok(figures) = Figures::new(alloc, start.workers)
            && let Ok(scene) = scene_if(alloc, wanted.picture, start.workers)
        {
            return Ok(Teller {
                alloc,
                wanted,
                rounds,
                figures,
                scene,
                page,
                json: TextBuffer::new(alloc),
                script: Script::new(alloc),
                events: 0,
            });
        }
        Err(OutOfMemory)
    }

    /// Where its texts are made.
    pub fn alloc(&self) -> Global {
        self.alloc
    }

    /// Whether the lines of a trace are wanted.
    pub fn is_traced(&self) -> bool {
        self.wanted.trace
    }

    /// Whether registers and cells of the next event are told.
    pub fn is_detailed(&self) -> bool {
        self.wanted.json || (self.wanted.page && self.events < MOST_EVENTS)
    }

    /// Says whether memory was refused for what later events build on.
    fn checked(&self) -> Result<(), OutOfMemory> {
        match &self.scene {
            _ if self.rounds.is_refused() => Err(OutOfMemory),
            Some(scene) if scene.is_refused() => Err(OutOfMemory),
            _ => Ok(()),
        }
    }

    /// A step of the worker that does nothing to frames or tasks, of which nothing else is shown.
    pub fn add_step(&mut self, worker: u8) -> Result<(), OutOfMemory> {
        self.events = self.events.saturating_add(1);
        let of = usize::from(worker);
        let round = self.rounds.steps(of, 1);
        self.figures.add_steps(of, 1, round);
        if self.wanted.script {
            self.script.add_steps(worker, 1);
        }
        if let Some(page) = &mut self.page {
            page.skip(1);
        }
        if let Some(scene) = &mut self.scene {
            scene.add_steps(of, 1, round);
        }
        self.checked()
    }

    /// The event as JSON, where that is wanted.
    fn add_json<'a>(&mut self, names: &'a Names<'a>, numbered: Numbered<'a>) {
        if let Some(page) = &mut self.page {
            page.add(names, numbered);
        }
        if self.wanted.json {
            push_event(&mut self.json, names, numbered);
            self.json.push_str("\n");
        }
    }

    /// The next event. The answer is its line of the trace, which is empty where none is wanted.
    pub fn add<'a>(
        &mut self,
        words: Words<'a>,
        event: &'a Event,
        moment: &'a Moment,
    ) -> Result<String, OutOfMemory> {
        self.events = self.events.saturating_add(1);
        let timing = self.rounds.next(event, moment);
        self.figures.add(event, moment, timing);
        if self.wanted.script {
            self.script.add(event);
        }
        if let Some(scene) = &mut self.scene {
            scene.add(event, moment, timing);
        }
        let numbered = Numbered {
            number: self.events,
            event,
            moment,
            round: timing.round,
        };
        self.add_json(words.names, numbered);
        self.checked()?;
        let mut line = TextBuffer::new(self.alloc);
        if self.wanted.trace {
            push_moment(&mut line, self.events, event, moment, words.lines);
        }
        Ok(line.finish()?)
    }

    /// All that was told; `answer` is what the run came to.
    pub fn finish(self, words: Words<'_>, answer: &str) -> Result<Told, OutOfMemory> {
        let mut stats = TextBuffer::new(self.alloc);
        if self.wanted.stats {
            self.figures.push_lines(&mut stats, words.crew);
        }
        // No `?`: each writes out the drops of all that is owned there. With six over these seven values this was 302 statements of the crate's 7,332.
        match (
            stats.finish(),
            self.json.finish(),
            self.script.into_text(),
            picture_of(self.alloc, self.scene),
            page_text(self.page, words.untold(), answer),
        ) {
            (Ok(stats), Ok(json), Ok(script), Ok(picture), Ok(page)) => Ok(Told {
                script,
                events: self.events,
                stats,
                picture,
                json,
                page,
            }),
            _ => Err(OutOfMemory),
        }
    }
}
