//! What a command line asks for: the verb with all its options (parsed arguments).

ghost use Rattle.std.specs.Prelude.{◌≡◌};
ghost use Rattle.cli_words.specs.Asked.{word_of};

use std::alloc::AllocError;

/// What the program is asked to do.
#[derive(Clone, Copy)]
pub enum Verb {
    /// Verify the module, and tell its budget and depth.
    Verify,
    /// Say why the module is refused, or print a rule.
    Explain,
    /// Run the serial elision.
    Serial,
    /// Run on workers.
    Run,
    /// Run by a schedule.
    Replay,
    /// Go forwards and backwards through a schedule.
    Debug,
    /// Print the module's canonical text.
    Print,
    /// Tell what the verifier knows of each block.
    Show,
    /// Put in the annotations that follow from others.
    Annotate,
    /// Print a script that completes the words of a shell.
    Completions,
    /// Print the manual page.
    Man,
}

impl Verb {
    /// The word that names it.
    pub fn word(self) -> &'static str
        ensures { result.now ≡ word_of self }
    {
        match self {
            Verb::Verify => "verify",
            Verb::Explain => "explain",
            Verb::Serial => "serial",
            Verb::Run => "run",
            Verb::Replay => "replay",
            Verb::Debug => "debug",
            Verb::Print => "print",
            Verb::Show => "show",
            Verb::Annotate => "annotate",
            Verb::Completions => "completions",
            Verb::Man => "man",
        }
    }
}

/// A shell whose words are completed.
#[derive(Clone, Copy)]
pub enum Shell {
    Bash,
    Zsh,
    Fish,
}

/// A cell of a global, as `@a:5` names it.
#[derive(Drop)]
pub struct CellWord {
    /// The global's name without `@`.
    pub name: String,
    pub index: u64,
}

/// `@a:5=9`: a cell's number before the run.
#[derive(Drop)]
pub struct Setting {
    pub cell: CellWord,
    pub value: i64,
}

/// A global, and the file that its numbers come from or go to.
#[derive(Drop)]
pub struct DataWord {
    /// The global's name without `@`.
    pub name: String,
    /// The word that names the file.
    pub file: String,
    /// What the file holds, once it was read.
    pub bytes: Option<Vec<u8>>,
}

/// Cells of a global, one after another.
#[derive(Drop)]
pub struct RowWord {
    /// The global's name without `@`.
    pub name: String,
    pub first: u64,
    pub count: u64,
}

/// What is read into globals before a run, and written from them after it.
#[derive(Drop)]
pub struct DataWords {
    pub load: Vec<DataWord>,
    pub dump: Vec<DataWord>,
    /// Whether files hold words of eight bytes in place of decimal numbers.
    pub is_raw: bool,
    pub rows: Vec<RowWord>,
}

/// What is to be done with annotations that follow from others.
#[derive(Clone, Copy)]
pub struct Annotating {
    /// Whether they are put in before the module is judged.
    pub puts_in: bool,
    /// Whether those are taken out that the module can do without.
    pub takes_out: bool,
    /// Whether the text goes into the module's file, and not to standard output.
    pub writes: bool,
}

/// How much searching a verdict may take.
#[derive(Clone, Copy)]
pub enum Grant {
    /// What is granted where a command line names nothing.
    Usual,
    /// So many steps.
    Steps(u64),
    /// As much as it takes.
    Unbounded,
}

/// The words of a command line, read.
pub struct Request {
    pub verb: Verb,
    /// The file of the module.
    pub file: String,
    /// The file of the schedule, for the verbs that take one.
    pub schedule: Option<String>,
    /// How many workers run; 1 where the verb takes none.
    pub workers: usize,
    /// The numbers of workers whose runs are timed, in place of one run.
    pub speedup: Vec<usize>,
    /// The arguments of `@main`, in order.
    pub args: Vec<i64>,
    /// Cells to set before the run; of two for one cell the last one stays.
    pub set: Vec<Setting>,
    /// Cells to print after the run.
    pub show: Vec<CellWord>,
    /// What comes from files, and goes to them.
    pub data: DataWords,
    /// Whether it is told what the request took.
    pub is_timed: bool,
    /// Whom the dialogue is for, for the verb that has one.
    pub dialogue: Dialogue,
    /// The name, without `@`, of the function whose costs to print, for the verb that takes one.
    pub table: Option<String>,
    pub annotating: Annotating,
    /// How much searching a verdict may take, for the verbs that ask for one.
    pub effort: Grant,
    /// The number of the rule to print in place of a module, for the verb that takes one.
    pub rule: Option<u16>,
    /// The shell whose words to complete, for the verb that takes one.
    pub shell: Option<Shell>,
    /// Whether the answer is an object of JSON, for the verbs that have one.
    pub is_json: bool,
    /// How the verb tells of the run, and where to.
    pub telling: Telling,
}

/// Written out, so that no crate above proves it anew.
impl Drop for Request {
    fn drop(self) {
        let Request {
            verb: _,
            file: _,
            schedule: _,
            workers: _,
            speedup: _,
            args: _,
            set: _,
            show: _,
            data: _,
            is_timed: _,
            dialogue: _,
            table: _,
            annotating: _,
            effort: _,
            rule: _,
            shell: _,
            is_json: _,
            telling: _,
        } = self;
    }
}

/// Whom a dialogue is for.
#[derive(Clone, Copy)]
pub struct Dialogue {
    /// For people it has a prompt and help; else each answer is a line for a program.
    pub is_for_people: bool,
    pub has_colours: bool,
}

/// What is told of a run beside its answer. A file is named where something is to be written there.
#[derive(Drop)]
pub struct Telling {
    /// A line for each event.
    pub trace: bool,
    /// What each worker did, after the answer.
    pub stats: bool,
    /// Draws the events of a run by this seed; without one its workers have threads.
    pub seed: Option<u64>,
    /// The events, as a schedule.
    pub save: Option<String>,
    pub picture: Option<String>,
    /// A line of JSON for each event.
    pub json: Option<String>,
    pub page: Option<String>,
}

impl Telling {
    /// Whether anything is told of a run's events, or they are drawn.
    pub(crate) fn is_any(&self) -> bool {
        !matches!(
            self,
            Telling {
                trace: false,
                stats: false,
                seed: None,
                save: None,
                picture: None,
                json: None,
                page: None,
            }
        )
    }
}

/// Why words are no request.
#[derive(Drop)]
pub enum WordsFault {
    /// What is wrong with them.
    Told(String),
    /// They ask for this text, and it is no fault.
    Asked(String),
    OutOfMemory,
}

impl From<AllocError> for WordsFault {
    fn from(_error: AllocError) -> WordsFault {
        WordsFault::OutOfMemory
    }
}
