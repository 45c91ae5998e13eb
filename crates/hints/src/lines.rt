// Hints as they are put together, from parts.

use crate::values::{Fix, Hint, Hints};
use growing_text::Sentence;
use std::alloc::{AllocError, Global};
use std::fmt::Display;
use std::mem;

/// Hints, one after another. That an allocation failed for one of them is told once, by `finish`.
#[derive(Drop)]
pub struct Lines {
    alloc: Global,
    hints: Hints,
    // the hint that has not ended
    open: Sentence,
    has_failed: bool,
}

impl Lines {
    /// No hint yet.
    pub fn new(alloc: Global) -> Lines {
        Lines {
            alloc,
            hints: Hints::new(alloc),
            open: Sentence::new(alloc),
            has_failed: false,
        }
    }

    /// One more sentence, on as many lines as it takes.
    pub fn say<W: Display + Drop>(&mut self, words: W) {
        self.part(words);
        self.end();
    }

    /// One more sentence, which belongs to the one before.
    pub fn item(&mut self, words: &'static str) {
        let sentence = Sentence::of(self.alloc, words, &[]);
        self.check(&sentence);
        self.add(Hint::Item(sentence));
    }

    /// One more line, which belongs to the one before. It is not broken.
    pub fn detail<W: Display + Drop>(&mut self, words: W) {
        self.part(words);
        self.end_detail();
    }

    /// Marks below the detail before: after so many columns, so many.
    pub fn marks(&mut self, column: usize, width: usize) {
        self.add(Hint::Marks { column, width });
    }

    /// A part of a sentence or of a detail, which is said where that ends. Its blanks part words.
    pub fn part<W: Display + Drop>(&mut self, words: W) {
        match format!(in self.alloc; "{words}") {
            Ok(words) => self.open.say(words.as_str()),
            Err(_) => self.fail(),
        }
    }

    /// The same of what is one word, with the parts beside it: no sentence is broken at a blank in it.
    pub fn word(&mut self, word: &str) {
        self.open.go_on(word);
    }

    /// Ends a sentence, which is said on as many lines as it takes.
    pub fn end(&mut self) {
        let sentence = self.take();
        self.add(Hint::Sentence(sentence));
    }

    /// Ends a detail.
    pub fn end_detail(&mut self) {
        match self.take().text(self.alloc) {
            Ok(line) => self.add(Hint::Detail(line)),
            Err(_) => self.fail(),
        }
    }

    /// One more edit that mends the refused text, as the last hint says: what is put in the place of these bytes.
    pub fn fix<W: Display + Drop>(&mut self, start: usize, end: usize, puts: W) {
        match format!(in self.alloc; "{puts}") {
            Ok(puts) => self.add_fix(Fix { start, end, puts }),
            Err(_) => self.fail(),
        }
    }

    /// The first of these hints, with what belongs to it.
    pub(crate) fn first_of(&mut self, hints: Hints) {
        if self.hints.append(hints.into_first()).is_err() {
            self.fail();
        }
    }

    // What was said of the hint that ends.
    fn take(&mut self) -> Sentence {
        let sentence = mem::replace(&mut self.open, Sentence::new(self.alloc));
        self.check(&sentence);
        sentence
    }

    // Notes where there was no memory for all of it.
    fn check(&mut self, sentence: &Sentence) {
        if !sentence.is_whole() {
            self.fail();
        }
    }

    // One more hint.
    fn add(&mut self, hint: Hint) {
        if self.hints.push(hint).is_err() {
            self.fail();
        }
    }

    fn add_fix(&mut self, fix: Fix) {
        if self.hints.push_fix(fix).is_err() {
            self.fail();
        }
    }

    /// Notes that there was no memory for something that was to be said.
    pub fn fail(&mut self) {
        self.has_failed = true;
    }

    /// All hints.
    ///
    /// # Errors
    ///
    /// Where an allocation failed for something that was to be said.
    pub fn finish(self) -> Result<Hints, AllocError> {
        if self.has_failed {
            Err(AllocError)
        } else {
            Ok(self.hints)
        }
    }
}
