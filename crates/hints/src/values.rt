// What is said to people, as values, and how these are written as lines.

use growing_text::{COLUMNS, Lines, Sentence, Text};
use std::alloc::{AllocError, Global};

// What each line begins with.
const HEAD: &str = "hint:";

const ITEM_HEAD: &str = "hint:  ";

const DETAIL_HEAD: &str = "hint:   ";

/// How many columns a detail has.
pub const DETAIL: usize = COLUMNS - DETAIL_HEAD.len();

const RED: &str = "\x1b[31m";

const PLAIN: &str = "\x1b[0m";

/// What is said to people, and the edits that mend what it is said of.
#[derive(Drop)]
pub struct Hints {
    hints: Vec<Hint>,
    fixes: Vec<Fix>,
    // how many of the fixes belong to the first hint
    of_first: usize,
}

/// An edit of the refused text that mends it as a hint says: what is put in the place of these bytes, or between two where there are
/// none.
#[derive(Drop)]
pub struct Fix {
    pub start: usize,
    pub end: usize,
    pub puts: String,
}

impl Fix {
    fn is_same(&self, other: &Fix) -> bool {
        self.start == other.start
            && self.end == other.end
            && self.puts.as_str() == other.puts.as_str()
    }
}

/// One of the things that are said.
#[derive(Drop)]
pub enum Hint {
    /// A sentence, which is broken between two words where a line would be longer than 80 columns.
    Sentence(Sentence),
    /// The same of a sentence that belongs to the one before.
    Item(Sentence),
    /// A line that is shown as it is.
    Detail(String),
    /// The marks below a place of the line before: after so many columns, so many.
    Marks { column: usize, width: usize },
}

impl Hints {
    /// Nothing to say.
    pub fn new(alloc: Global) -> Hints {
        Hints {
            hints: Vec::new(alloc),
            fixes: Vec::new(alloc),
            of_first: 0,
        }
    }

    /// One more hint.
    pub(crate) fn push(&mut self, hint: Hint) -> Result<(), AllocError> {
        match self.hints.push(hint) {
            Ok(()) => Ok(()),
            Err(_) => Err(AllocError),
        }
    }

    /// One more edit, which belongs to the last hint. One that is there already is not kept twice.
    pub(crate) fn push_fix(&mut self, fix: Fix) -> Result<(), AllocError> {
        if self.fixes.iter().any(|known| known.is_same(&fix)) {
            return Ok(());
        }
        if self.first_length() == self.hints.len() {
            self.of_first = self.of_first.saturating_add(1);
        }
        self.keep_fix(fix)
    }

    fn keep_fix(&mut self, fix: Fix) -> Result<(), AllocError> {
        match self.fixes.push(fix) {
            Ok(()) => Ok(()),
            Err(_) => Err(AllocError),
        }
    }

    /// And these.
    ///
    /// # Errors
    ///
    /// Where an allocation fails.
    pub fn append(&mut self, others: Hints) -> Result<(), AllocError> {
        let Hints {
            hints,
            fixes,
            of_first,
        } = others;
        if self.hints.is_empty() {
            self.of_first = of_first;
        }
        for hint in hints {
            self.push(hint)?;
        }
        for fix in fixes {
            self.keep_fix(fix)?;
        }
        Ok(())
    }

    /// The first of them, with what belongs to it.
    pub(crate) fn into_first(self) -> Hints {
        let length = self.first_length();
        let mut first = self;
        first.hints.truncate(length);
        first.fixes.truncate(first.of_first);
        first
    }

    // How many there are up to the second sentence: the first hint, with what belongs to it.
    fn first_length(&self) -> usize {
        let mut length = 0usize;
        for hint in self.hints.iter() {
            if length != 0 && matches!(hint, Hint::Sentence(_)) {
                break;
            }
            length = length.saturating_add(1);
        }
        length
    }

    /// All hints, in the order in which they are said.
    pub fn all(&self) -> &[Hint] {
        self.hints.as_slice()
    }

    /// The edits of the refused text that mend it, each in its own way, in the order in which they are named.
    pub fn fixes(&self) -> &[Fix] {
        self.fixes.as_slice()
    }

    /// The lines of all hints, each of which begins with `hint:` and fits 80 columns, unless one word or detail is longer. The
    /// marks may be coloured.
    ///
    /// # Errors
    ///
    /// Where an allocation failed.
    pub fn text(&self, alloc: Global, is_colored: bool) -> Result<String, AllocError> {
        let mut text = Text::new(alloc);
        for hint in self.hints.iter() {
            hint.push_lines(alloc, &mut text, is_colored);
        }
        text.finish()
    }
}

impl Hint {
    /// The text of this hint, which is not broken. Of marks it is the line that shows them.
    ///
    /// # Errors
    ///
    /// Where an allocation failed.
    pub fn text(&self, alloc: Global) -> Result<String, AllocError> {
        let mut text = Text::new(alloc);
        match self {
            Hint::Sentence(sentence) | Hint::Item(sentence) => text.push_made(sentence.text(alloc)),
            Hint::Detail(line) => text.push(line.as_str()),
            Hint::Marks { column, width } => push_marks(&mut text, *column, *width, false),
        }
        text.finish()
    }

    fn push_lines(&self, alloc: Global, text: &mut Text, is_colored: bool) {
        match self {
            Hint::Sentence(sentence) => text.push_made(broken(alloc, HEAD, sentence)),
            Hint::Item(sentence) => text.push_made(broken(alloc, ITEM_HEAD, sentence)),
            Hint::Detail(line) => {
                text.push(DETAIL_HEAD);
                text.push(line.as_str());
                text.push("\n");
            }
            Hint::Marks { column, width } => {
                text.push(DETAIL_HEAD);
                push_marks(text, *column, *width, is_colored);
                text.push("\n");
            }
        }
    }
}

// The sentence on lines that begin so.
fn broken(alloc: Global, head: &'static str, sentence: &Sentence) -> Result<String, AllocError> {
    let mut lines = Lines::new(alloc);
    lines.begin(head, head);
    lines.sentence(sentence);
    lines.end();
    lines.finish()
}

fn push_marks(text: &mut Text, column: usize, width: usize, is_colored: bool) {
    let (before, after) = if is_colored { (RED, PLAIN) } else { ("", "") };
    push_times(text, " ", column);
    text.push(before);
    push_times(text, "^", width);
    text.push(after);
}

fn push_times(text: &mut Text, part: &str, times: usize) {
    for _ in 0..times {
        text.push(part);
    }
}
