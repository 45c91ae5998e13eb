// Sentences: words that are told by templates, and shown later.

use crate::texts::Text;
use std::alloc::{AllocError, Global};

/// What stands in a sentence where its template has `{}`.
#[derive(Clone, Copy)]
pub enum Part<'a> {
    /// A name, or what else is made elsewhere: a blank in it parts no words.
    Name(&'a str),
    Number(u64),
    /// Words of our own, which blanks part.
    Words(&'static str),
}

/// Words. A line may be broken between two of them, and at no other blank.
///
/// From the first part on for which an allocation failed, no more is added, and that is told at the end.
#[derive(Drop)]
pub struct Sentence {
    alloc: Global,
    words: Vec<String>,
    is_whole: bool,
}

impl Sentence {
    /// No word yet.
    pub fn new(alloc: Global) -> Sentence {
        Sentence {
            alloc,
            words: Vec::new(alloc),
            is_whole: true,
        }
    }

    /// The words of one template.
    pub fn of(alloc: Global, template: &'static str, parts: &[Part<'_>]) -> Sentence {
        let mut sentence = Sentence::new(alloc);
        sentence.tell(template, parts);
        sentence
    }

    /// Goes on with a template. Each blank in it parts two words, and each `{}` stands for the next of these parts.
    pub fn tell(&mut self, template: &'static str, parts: &[Part<'_>]) {
        let mut parts = parts.iter();
        for (k, words) in template.split("{}").enumerate() {
            if k != 0 {
                self.put(parts.next());
            }
            self.say(words);
        }
    }

    fn put(&mut self, part: Option<&Part<'_>>) {
        match part {
            Some(Part::Name(name)) => self.go_on(name),
            Some(Part::Number(number)) => self.number(*number),
            Some(Part::Words(words)) => self.say(words),
            None => {}
        }
    }

    /// Goes on with words that blanks part, as our own are.
    pub fn say(&mut self, words: &str) {
        for (k, word) in words.split(' ').enumerate() {
            if k != 0 {
                self.begin();
            }
            self.go_on(word);
        }
    }

    fn number(&mut self, number: u64) {
        match format!(in self.alloc; "{number}") {
            Ok(digits) => self.go_on(digits.as_str()),
            Err(_) => self.cut(),
        }
    }

    // A further word begins.
    fn begin(&mut self) {
        if self.is_whole && self.words.push(String::new(self.alloc)).is_err() {
            self.cut();
        }
    }

    /// Goes on with what stands in one word, whatever blanks are in it.
    pub fn go_on(&mut self, part: &str) {
        if self.words.is_empty() {
            self.begin();
        }
        if let Some(last) = self.words.last_mut()
            && self.is_whole
            && last.push_str(part).is_err()
        {
            self.is_whole = false;
        }
    }

    /// There was no memory for what would come next.
    pub fn cut(&mut self) {
        self.is_whole = false;
    }

    /// Whether there was memory for all its words.
    pub fn is_whole(&self) -> bool {
        self.is_whole
    }

    /// Whether it says nothing. One of which a word is missing for memory says something.
    pub fn is_empty(&self) -> bool {
        self.is_whole && self.words.is_empty()
    }

    /// Its words. Of one that is cut, some are missing.
    pub fn words(&self) -> &[String] {
        self.words.as_slice()
    }

    /// The words with a blank between two of them.
    ///
    /// # Errors
    ///
    /// Where an allocation fails, or failed for one of its words.
    pub fn text(&self, alloc: Global) -> Result<String, AllocError> {
        let mut text = Text::new(alloc);
        for (k, word) in self.words.iter().enumerate() {
            if k != 0 {
                text.push(" ");
            }
            text.push(word.as_str());
        }
        if !self.is_whole {
            text.cut();
        }
        text.finish()
    }
}
