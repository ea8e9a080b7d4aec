//! The words and options of a command, read one by one.

ghost use Rattle.std.specs.Prelude.{◌≡◌};

use crate::names::is_name;
use crate::request::{
    Annotating, CellWord, DataWord, DataWords, Dialogue, Grant, Request, RowWord, Setting, Shell,
    Telling, Verb, WordsFault,
};
use clap::ArgMatches;
use rule_words::is_rule;
use std::alloc::{AllocError, Global};

/// The words and options of a command as they are read: what is wrong first is kept, and all else is read as if it were not given.
#[derive(Drop)]
pub(crate) struct Options<'m, 'a> {
    alloc: Global,
    matches: &'m ArgMatches<'a>,
    fault: Option<WordsFault>,
}

/// What an option with one text names.
pub(crate) trait Value: Drop {
    /// None where the text is none such.
    fn read(options: &mut Options<'_, '_>, text: &str) -> Option<Self>;
}

impl Value for i64 {
    fn read(_options: &mut Options<'_, '_>, text: &str) -> Option<i64> {
        text.parse::<i64>().ok()
    }
}

/// `@a:I`
impl Value for CellWord {
    fn read(options: &mut Options<'_, '_>, text: &str) -> Option<CellWord> {
        let (name, index) = text.split_once(":")?;
        let index = index.parse::<u64>().ok()?;
        let name = options.global(name)?;
        Some(CellWord { name, index })
    }
}

/// `@a:I=V`
impl Value for Setting {
    fn read(options: &mut Options<'_, '_>, text: &str) -> Option<Setting> {
        let (cell, value) = text.split_once("=")?;
        let value = value.parse::<i64>().ok()?;
        let cell = CellWord::read(options, cell)?;
        Some(Setting { cell, value })
    }
}

/// `@a=FILE`
impl Value for DataWord {
    fn read(options: &mut Options<'_, '_>, text: &str) -> Option<DataWord> {
        let (name, file) = text.split_once("=")?;
        let name = options.global(name)?;
        Some(DataWord {
            name,
            file: options.kept(file),
            bytes: None,
        })
    }
}

/// The fault that a text tells, if there was memory for it.
pub(crate) fn fault_with(text: Result<String, AllocError>) -> WordsFault {
    match text {
        Ok(text) => WordsFault::Told(text),
        Err(AllocError) => WordsFault::OutOfMemory,
    }
}

pub(crate) fn wrong_value(alloc: Global, option: &str, text: &str) -> WordsFault {
    fault_with(format!(in alloc; "error: invalid value '{text}' for '{option}'\n"))
}

impl<'m, 'a> Options<'m, 'a> {
    pub(crate) fn new(alloc: Global, matches: &'m ArgMatches<'a>) -> Options<'m, 'a> {
        Options {
            alloc,
            matches,
            fault: None,
        }
    }

    /// What was wrong first.
    pub(crate) fn fault(self) -> Option<WordsFault> {
        self.fault
    }

    fn refuse(&mut self, fault: WordsFault) {
        if self.fault.is_none() {
            self.fault = Some(fault);
        }
    }

    /// A text of its own.
    fn kept(&mut self, text: &str) -> String {
        match String::from_str(self.alloc, text) {
            Ok(text) => text,
            Err(AllocError) => {
                self.refuse(WordsFault::OutOfMemory);
                String::new(self.alloc)
            }
        }
    }

    /// The name of a global or a function, which a text gives with `@`.
    fn global(&mut self, text: &str) -> Option<String> {
        match text.strip_prefix("@") {
            Some(name) if is_name(name) => Some(self.kept(name)),
            _ => None,
        }
    }

    /// The text of a word or an option.
    fn text(&mut self, name: &str) -> Option<String> {
        let text = self.matches.get_str(name)?;
        Some(self.kept(text))
    }

    fn flag(&self, name: &str) -> bool {
        self.matches.get_flag(name)
    }

    /// Says that this is no value of what the help shows so.
    fn refuse_value(&mut self, shown: &str, text: &str) {
        let fault = wrong_value(self.alloc, shown, text);
        self.refuse(fault);
    }

    fn push<T: Drop>(&mut self, list: &mut Vec<T>, value: T) {
        if list.push(value).is_err() {
            self.refuse(WordsFault::OutOfMemory);
        }
    }

    /// The values of an option that may be given more than once.
    fn list<T: Value>(&mut self, name: &str, shown: &str) -> Vec<T> {
        let mut list = Vec::new(self.alloc);
        for text in self.matches.get_strs(name).unwrap_or(&[]) {
            match T::read(self, text) {
                Some(value) => self.push(&mut list, value),
                None => self.refuse_value(shown, text),
            }
        }
        list
    }

    /// The number of an option, if it is given.
    fn number(&mut self, name: &str, shown: &str) -> Option<u64> {
        let text = self.matches.get_str(name)?;
        let number = text.parse::<u64>().ok();
        if number.is_none() {
            self.refuse_value(shown, text);
        }
        number
    }

    /// Reads `N` or `unbounded`.
    fn effort(&mut self) -> Grant {
        if let Some("unbounded") = self.matches.get_str("effort") {
            return Grant::Unbounded;
        }
        match self.number("effort", "--effort <N|unbounded>") {
            Some(steps) => Grant::Steps(steps),
            None => Grant::Usual,
        }
    }

    /// Reads `N,N..`, where runs are to be timed.
    fn speedup(&mut self) -> Vec<usize> {
        let mut numbers = Vec::new(self.alloc);
        if let Some(text) = self.matches.get_str("speedup") {
            for word in text.split(",") {
                match word.parse::<u64>() {
                    Ok(workers) => self.push(&mut numbers, workers as usize),
                    Err(_) => self.refuse_value("--speedup <N,N..>", text),
                }
            }
        }
        numbers
    }

    /// Reads `@a 0 10`.
    fn row(&mut self, texts: &[&str]) -> Option<RowWord> {
        let [name, first, count] = texts else {
            return None;
        };
        let first = first.parse::<u64>().ok()?;
        let count = count.parse::<u64>().ok()?;
        let name = self.global(name)?;
        Some(RowWord { name, first, count })
    }

    fn rows(&mut self) -> Vec<RowWord> {
        let mut rows = Vec::new(self.alloc);
        for texts in self.matches.get_strs("cells").unwrap_or(&[]).chunks(3) {
            match self.row(texts) {
                Some(row) => self.push(&mut rows, row),
                None => {
                    let first = texts.first().copied().unwrap_or("");
                    self.refuse_value("--cells <@a> <I> <N>", first);
                }
            }
        }
        rows
    }

    /// Reads `@f`, where a table is asked for.
    fn table(&mut self) -> Option<String> {
        let text = self.matches.get_str("table")?;
        let name = self.global(text);
        if name.is_none() {
            self.refuse_value("--table <@f>", text);
        }
        name
    }

    fn shell(&mut self) -> Option<Shell> {
        match self.matches.get_str("shell")? {
            "bash" => Some(Shell::Bash),
            "zsh" => Some(Shell::Zsh),
            "fish" => Some(Shell::Fish),
            word => {
                self.refuse_value("<SHELL>", word);
                None
            }
        }
    }

    /// The number of a rule, where the word is a number.
    fn rule(&mut self, word: &str) -> Option<u16> {
        if !is_number(word) {
            return None;
        }
        let number = word.parse::<u16>().unwrap_or(0);
        if is_rule(number) {
            return Some(number);
        }
        self.refuse(fault_with(format!(in self.alloc; "error: no rule has the number {word}\n")));
        None
    }

    fn data(&mut self) -> DataWords {
        DataWords {
            load: self.list("load", "--load <@a=FILE>"),
            dump: self.list("dump", "--dump <@a=FILE>"),
            is_raw: self.flag("raw"),
            rows: self.rows(),
        }
    }

    /// What is to be told of a run; `json` names a file for the verbs that have one.
    fn telling(&mut self, has_events: bool) -> Telling {
        Telling {
            trace: self.flag("trace"),
            stats: self.flag("stats"),
            seed: self.number("seed", "--seed <S>"),
            save: self.text("save"),
            picture: self.text("picture"),
            json: if has_events { self.text("json") } else { None },
            page: self.text("page"),
        }
    }

    /// The rule that `explain` is asked for by its number.
    fn explained(&mut self, verb: Verb, word: &str) -> Option<u16> {
        match verb {
            Verb::Explain => self.rule(word),
            _ => None,
        }
    }

    fn workers(&mut self) -> usize {
        self.number("workers", "--workers <N>").unwrap_or(1) as usize
    }

    /// Whether the dialogue has colours depends on the program's streams, which the words do not name.
    fn dialogue(&self) -> Dialogue {
        Dialogue {
            is_for_people: self.flag("interactive"),
            has_colours: false,
        }
    }

    fn annotating(&self) -> Annotating {
        Annotating {
            puts_in: self.flag("annotate"),
            takes_out: self.flag("prune"),
            writes: self.flag("write"),
        }
    }

    /// What the command of a verb asks for. An option that the verb does not have is not given.
    pub(crate) fn request(&mut self, verb: Verb) -> Request
        ensures { result.verb ≡ verb }
    {
        let has_events = matches!(verb, Verb::Run | Verb::Replay);
        let file = self.text("file").unwrap_or(String::new(self.alloc));
        Request {
            verb,
            table: self.table(),
            rule: self.explained(verb, file.as_str()),
            workers: self.workers(),
            args: self.list("arg", "--arg <V>"),
            set: self.list("set", "--set <@a:I=V>"),
            show: self.list("show", "--show <@a:I>"),
            data: self.data(),
            is_timed: self.flag("time"),
            effort: self.effort(),
            telling: self.telling(has_events),
            speedup: self.speedup(),
            schedule: self.text("schedule"),
            dialogue: self.dialogue(),
            annotating: self.annotating(),
            shell: self.shell(),
            is_json: !has_events && self.flag("json"),
            file,
        }
    }

    fn refuse_pair(&mut self, said: &str) {
        let fault = fault_with(String::from_str(self.alloc, said));
        self.refuse(fault);
    }

    /// Refuses options that do not go together. An answer in JSON names the lines of the file as it is.
    pub(crate) fn check(&mut self, request: &Request) {
        let is_told = request.telling.is_any() || request.is_timed;
        let is_one = is_told || self.matches.get_str("workers").is_some();
        if is_one && !request.speedup.is_empty() {
            self.refuse_pair(
                "error: --speedup goes without --workers, --seed and what tells of one run\n",
            );
        }
        if request.is_json && request.annotating.puts_in {
            self.refuse_pair("error: --json goes without --annotate\n");
        }
    }
}

fn is_number(word: &str) -> bool {
    for byte in word.as_bytes() {
        if !byte.is_ascii_digit() {
            return false;
        }
    }
    true
}
