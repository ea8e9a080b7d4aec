//! Faults of the text: the word that was found, and what could stand there (syntax errors, expected words). What could
//! is tried, by reading the line with it.

use crate::left_out::push_left_out;
use crate::row::{Row, row_of};
use crate::table::looked_up;
use explain_facts::{Finding, Source};
use ir_reader::{judge_line, read};
use lists::{ListBuffer, OutOfMemory, TextBuffer};
use refusal::Refused;
use std::alloc::Global;

/// What may stand in a line that is no annotation. The first three stand for all of a kind.
const WORDS: &str =
    "%x @x 1 = , ( ) [ ] { } : i64 i32 i1 void ptr token label to within add sub mul nsw sdiv udiv srem urem shl \
lshr ashr and or xor icmp eq ne ugt uge ult ule sgt sge slt sle trunc sext zext alloca x getelementptr inbounds load store \
zeroinitializer atomicrmw seq_cst call br switch ret detach reattach sync phi global define noalias dereferenceable \
@llvm.syncregion.start";

/// What may stand in an annotation.
const NOTE_WORDS: &str =
    "%x @x 1 requires ensures reads writes adds measure max budget keeps pending left foot shows <= >=";

/// The words that stand for all of a kind.
const KINDS_OF_WORDS: &str = "\
%x | a register
@x | a global's name
1 | a number
";

/// Lines of each kind, after the kind's name.
const KINDS: &str = "\
a global | @zz.a = global [1 x i64] zeroinitializer
a function's head | define i64 @zz.f() {
an annotation of a function | ;! budget 0 1
a label | zz.l:
an annotation of a block | ;! keeps 0 >= 0
a phi | %zz.p = phi i64 [ 0, %zz.q ]
a `shows` line | ;! shows 0 >= 0
an instruction | %zz.i = add i64 0, 0
a terminator | ret i64 0
`}` | }";

/// The longest line whose words are tried, in tokens.
const MOST_TOKENS: usize = 64;

/// Faults beyond this number are told without what could stand there.
const MOST_TOLD: usize = 20;

/// Types of pointers that LLVM had before `ptr`; of an array's the end.
const TYPED_POINTERS: &str = "i64* i32* i16* i8* i1* i64]*";

/// A line of the text that begins at this byte of it, and what is told of it. Where memory is refused for what is told, or for what is tried to know it,
/// [`Told::finding`] says so.
#[derive(Drop)]
struct Told<'a> {
    alloc: Global,
    source: Source<'a>,
    begin: usize,
    number: u32,
    line: &'a str,
    notes: TextBuffer,
    is_refused: bool,
}

/// Whether a word has the type of a pointer that says to what it points, at its start or behind a `(`.
fn has_typed_pointer(word: &str) -> bool {
    for part in word.split('(') {
        for pointer in TYPED_POINTERS.split(' ') {
            if part.starts_with(pointer) {
                return true;
            }
        }
    }
    false
}

impl<'a> Told<'a> {
    /// A text to try; none where memory was refused for a piece of it.
    fn made(&mut self, written: TextBuffer) -> String {
        match written.finish() {
            Ok(text) => text,
            Err(_) => {
                self.is_refused = true;
                String::new(self.alloc)
            }
        }
    }

    /// The fault of a line by itself.
    fn fault_of(&mut self, line: &str) -> Option<u16> {
        match judge_line(self.alloc, line.as_bytes(), 1) {
            Ok(()) => None,
            Err(Refused::Fault { number, .. }) => Some(number),
            Err(Refused::Memory) => {
                self.is_refused = true;
                None
            }
        }
    }

    /// Whether the line with a word in place of its bytes from one place to before another is right by itself.
    fn fits(&mut self, from: usize, to: usize, word: &str) -> bool {
        let before = self.line.get(..from).unwrap_or("");
        let after = self.line.get(to..).unwrap_or("");
        let mut changed = TextBuffer::new(self.alloc);
        write!(changed, "{before} {word} {after}");
        let changed = self.made(changed);
        self.fault_of(changed.as_str()).is_none()
    }

    /// Whether the text before the line may go on with another one.
    fn may_stand(&mut self, line: &str) -> bool {
        let before = self.source.text.get(..self.begin).unwrap_or("");
        let mut text = TextBuffer::new(self.alloc);
        writeln!(text, "{before}{line}");
        let text = self.made(text);
        match read(self.alloc, self.source.state, text.as_bytes()) {
            Ok(whole) => {
                drop(whole);
                true
            }
            Err(Refused::Fault { number, line }) => number != 103 || line != self.number,
            Err(Refused::Memory) => {
                self.is_refused = true;
                false
            }
        }
    }

    /// The place of a word that could stand; where it is that of a token, with what was found there.
    fn push_place(&mut self, place: &str, found: &str) {
        if found.is_empty() {
            write!(self.notes, "    {place} could stand:");
        } else {
            write!(self.notes, "    {place} `{found}` could stand:");
        }
    }

    /// Which words could stand from one place to before another, where some could.
    fn push_fitting(&mut self, words: &str, from: usize, to: usize, place: &str, found: &str) {
        let mut is_any = false;
        for word in words.split(' ') {
            if self.fits(from, to, word) {
                if !is_any {
                    is_any = true;
                    self.push_place(place, found);
                }
                match looked_up(KINDS_OF_WORDS, word) {
                    Some(kind) => write!(self.notes, " {kind}"),
                    None => write!(self.notes, " `{word}`"),
                }
            }
        }
        if is_any {
            self.notes.push_str("\n");
        }
    }

    /// What one word more, less or other mends in the line; of a very long one nothing is told.
    fn push_edits(&mut self, row: &Row<'_>, words: &str) {
        if row.tokens.len() > MOST_TOKENS {
            return;
        }
        let count = self.notes.as_str().len();
        let mut end = 0;
        for (index, token) in row.tokens.iter().enumerate() {
            let found = row.word(index);
            end = token.to;
            self.push_fitting(words, token.from, token.from, "before", found);
            self.push_fitting(words, token.from, end, "in place of", found);
            if self.fits(token.from, end, "") {
                writeln!(self.notes, "    without `{found}` the line is right");
            }
        }
        self.push_fitting(words, end, end, "at the end", "");
        if self.notes.as_str().len() == count {
            self.notes
                .push_str("    no one word more, less or other makes it a line\n");
        }
    }

    /// How an element is written that a `getelementptr` of the line counts in arrays.
    fn push_array_element(&mut self, row: &Row<'_>) {
        let mut is_element = false;
        for index in 0..row.tokens.len() {
            match row.word(index) {
                "getelementptr" => is_element = true,
                "inbounds" => {}
                "[" if is_element => {
                    self.notes.push_str(
                        "  an element is counted in cells: `getelementptr inbounds i64, ptr @x, i64 %x`, without the array's type and its first index\n",
                    );
                    return;
                }
                _ => is_element = false,
            }
        }
    }

    /// What is wrong with the tokens of the line: of an annotation no word of LLVM is told.
    fn push_tokens(&mut self, row: &Row<'_>) {
        if row.word(0) == ";!" {
            self.push_edits(row, NOTE_WORDS);
            return;
        }
        for index in 0..row.tokens.len() {
            push_left_out(row.word(index), &mut self.notes);
        }
        self.push_array_element(row);
        if let Some(label) = row.twice_behind("label") {
            writeln!(
                self.notes,
                "  `{label}` is a target twice, and the targets of a line differ: lead one of the two to a block of its own with `br label {label}`"
            );
        }
        self.push_edits(row, WORDS);
    }

    /// A run of bytes, if it is no token: how a pointer's type is written, and what the language leaves out.
    fn push_if_bad(&mut self, word: &str) {
        if !matches!(self.fault_of(word), Some(102)) {
            return;
        }
        let found = word.escape_debug();
        writeln!(self.notes, "  found: `{found}`");
        if has_typed_pointer(word) {
            self.notes
                .push_str("    a pointer's type is `ptr`, whatever it points to\n");
        }
        push_left_out(word, &mut self.notes);
    }

    /// The runs of bytes that are no tokens.
    fn push_bad_tokens(&mut self) {
        if self.line.ends_with('\r') {
            self.notes
                .push_str("  found: a carriage return at the line's end\n");
        }
        for word in self.line.split_whitespace() {
            self.push_if_bad(word);
        }
    }

    /// What is wrong with the words of the line.
    fn push_words(&mut self) {
        match row_of(self.alloc, self.number, self.line) {
            Ok(Some(row)) => self.push_tokens(&row),
            Ok(None) => self.push_bad_tokens(),
            Err(OutOfMemory) => self.is_refused = true,
        }
    }

    /// The kinds of lines that could stand where a right one may not.
    fn push_kinds(&mut self) {
        self.notes.push_str(
            "  the line is right by itself, and may not stand here; here could stand:\n",
        );
        for row in KINDS.split('\n') {
            if let Some((kind, line)) = row.split_once(" | ") {
                if self.may_stand(line) {
                    writeln!(self.notes, "    {kind}");
                }
            }
        }
    }

    /// What there is to say of the line where it has this fault: of its words, or of its place where they are right.
    fn push_notes(&mut self, rule: u16) {
        if matches!(rule, 102 | 103 | 107) {
            match self.fault_of(self.line) {
                Some(_) => self.push_words(),
                None => self.push_kinds(),
            }
        }
    }

    /// The fault of the line, which is the one that the reader `named` or the one that it has by itself; with what there is to say of it where that `is_told`.
    fn finding(
        mut self,
        named: Option<u16>,
        is_told: bool,
    ) -> Result<Option<Finding>, OutOfMemory> {
        let line = self.line;
        let fault = match named {
            Some(_) => named,
            None => self.fault_of(line),
        };
        if let (Some(rule), true) = (fault, is_told) {
            self.push_notes(rule);
        }
        let Told {
            number: line,
            notes,
            is_refused,
            ..
        } = self;
        if is_refused {
            return Err(OutOfMemory);
        }
        let notes = notes.finish()?;
        match fault {
            Some(number) => Ok(Some(Finding {
                number,
                line,
                cause: None,
                follows: false,
                notes,
            })),
            None => Ok(None),
        }
    }
}

/// The fault of the text that the reader names, and those of the lines after it by themselves; where many are told before, with nothing to say of it.
pub fn word_findings(
    alloc: Global,
    source: Source<'_>,
    number: u16,
    line: u32,
) -> Result<Vec<Finding>, OutOfMemory> {
    let mut findings: ListBuffer<Finding> = ListBuffer::new(alloc);
    let mut at: u32 = 0;
    let mut begin: usize = 0;
    for text in source.text.split('\n') {
        at = at.saturating_add(1);
        if at >= line {
            let told = Told {
                alloc,
                source,
                begin,
                number: at,
                line: text,
                notes: TextBuffer::new(alloc),
                is_refused: false,
            };
            let named = if at == line { Some(number) } else { None };
            let is_told = findings.as_slice().len() < MOST_TOLD;
            match told.finding(named, is_told) {
                Ok(Some(found)) => findings.push(found),
                Ok(None) => {}
                Err(refused) => return Err(refused),
            }
        }
        begin = begin.saturating_add(text.len()).saturating_add(1);
    }
    Ok(findings.finish()?)
}
