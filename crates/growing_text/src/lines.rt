// Words in lines for a terminal.

ghost use Rattle.std.specs.Prelude.{◌≡◌};
ghost use Rattle.growing_text.specs.Lines.{lines_cut};

use crate::sentences::{Part, Sentence};
use crate::texts::Text;
use std::alloc::{AllocError, Global};

/// The columns of a terminal.
pub const COLUMNS: usize = 80;

/// Words in lines of 80 columns. A longer word has a line of its own, and one with blanks in it is not broken either.
#[derive(Drop)]
pub struct Lines {
    alloc: Global,
    text: Text,
    column: usize,
    // what a line begins with that goes on from the one before
    margin: &'static str,
}

impl Lines {
    /// No line yet.
    pub fn new(alloc: Global) -> Lines {
        Lines {
            alloc,
            text: Text::new(alloc),
            column: 0,
            margin: "",
        }
    }

    /// Begins a line with these words, which are not broken. Where it is too long it goes on after the margin.
    pub fn begin(&mut self, words: &str, margin: &'static str) {
        self.text.push(words);
        self.column = words.chars().count();
        self.margin = margin;
    }

    /// One word more, with a blank before it.
    pub fn word(&mut self, word: &str) {
        self.make_room(word.chars().count());
        self.text.push(word);
    }

    /// One word more that was made elsewhere, where there was memory for it.
    pub fn word_made(&mut self, word: Result<String, AllocError>) {
        match word {
            Ok(word) => self.word(word.as_str()),
            Err(_) => self.cut(),
        }
    }

    /// A number as a word, with this right after it.
    pub fn number(&mut self, number: u64, after: &str) {
        let digits = number.checked_ilog10().unwrap_or(0).saturating_add(1);
        let width = after.chars().count().saturating_add(digits as usize);
        self.make_room(width);
        self.text.push_number(number);
        self.text.push(after);
    }

    // A blank, after which so many characters come: on this line, or on the next one where they do not fit.
    fn make_room(&mut self, characters: usize) {
        let width = characters.saturating_add(1);
        if self.column > self.margin.len() && self.column.saturating_add(width) > COLUMNS {
            self.text.push("\n");
            self.text.push(self.margin);
            self.column = self.margin.len();
        }
        self.text.push(" ");
        self.column = self.column.saturating_add(width);
    }

    /// The words of a template: each blank in it parts two words, and each `{}` stands for the next of these parts.
    pub fn tell(&mut self, template: &'static str, parts: &[Part<'_>]) {
        let sentence = Sentence::of(self.alloc, template, parts);
        self.sentence(&sentence);
    }

    /// Each word of a sentence.
    pub fn sentence(&mut self, sentence: &Sentence) {
        for word in sentence.words() {
            self.word(word.as_str());
        }
        if !sentence.is_whole() {
            self.cut();
        }
    }

    /// There was no memory for what would come next.
    pub fn cut(&mut self)
        ensures { self.new ≡ lines_cut self.old }
    {
        self.text.cut();
    }

    /// Ends the line.
    pub fn end(&mut self) {
        self.text.push("\n");
        self.column = 0;
    }

    /// All lines.
    ///
    /// # Errors
    ///
    /// Where an allocation failed for one of their parts.
    pub fn finish(self) -> Result<String, AllocError> {
        self.text.finish()
    }
}
