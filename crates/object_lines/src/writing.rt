// Objects of values, field by field. Texts that people wrote are left to `serde_json`; words and numbers are pushed as they are.

use growing_text::Text;
use run_parts::{Output, RunError, write_report};
use serde::Serialize;
use std::alloc::{AllocError, Global};
use std::mem;

// How many bytes are gathered before they are written.
const BLOCK: usize = 65_536;

/// Objects, one a line, as they are written.
#[derive(Drop)]
pub struct ObjectLines {
    pub alloc: Global,
    /// What was gathered. An object of which there may be very many is pushed to it word by word.
    pub text: Text,
    // whether a field or an element stands before the next one
    is_further: bool,
}

impl ObjectLines {
    /// No object yet.
    pub fn new(alloc: Global) -> ObjectLines {
        ObjectLines {
            alloc,
            text: Text::new(alloc),
            is_further: false,
        }
    }

    /// Begins an object of this kind. Its fields follow, and `end`.
    pub fn begin(&mut self, kind: &str) {
        self.text.push("{");
        self.is_further = false;
        self.word("kind", kind);
    }

    /// Ends the object, and its line.
    pub fn end(&mut self) {
        self.text.push("}\n");
    }

    /// Begins a field that is an object. Its fields follow, and `close`.
    pub fn open(&mut self, name: &str) {
        self.name(name);
        self.text.push("{");
        self.is_further = false;
    }

    /// Ends what `open` or `open_element` began.
    pub fn close(&mut self) {
        self.text.push("}");
        self.is_further = true;
    }

    /// Begins a field that is a list. Its elements follow, and `close_list`.
    pub fn open_list(&mut self, name: &str) {
        self.name(name);
        self.text.push("[");
        self.is_further = false;
    }

    /// Ends what `open_list` began.
    pub fn close_list(&mut self) {
        self.text.push("]");
        self.is_further = true;
    }

    /// Begins an element of a list that is an object. Its fields follow, and `close`.
    pub fn open_element(&mut self) {
        self.separate();
        self.text.push("{");
        self.is_further = false;
    }

    /// A field with a word: it has nothing that JSON escapes.
    pub fn word(&mut self, name: &str, word: &str) {
        self.name(name);
        self.push_word(word);
    }

    /// An element of a list that is a word.
    pub fn word_element(&mut self, word: &str) {
        self.separate();
        self.push_word(word);
    }

    /// A field with a number.
    pub fn number(&mut self, name: &str, number: u64) {
        self.name(name);
        self.text.push_number(number);
    }

    /// A field with a truth value.
    pub fn flag(&mut self, name: &str, is_so: bool) {
        self.name(name);
        self.text.push(if is_so { "true" } else { "false" });
    }

    /// A field with any value.
    pub fn field<T: Serialize>(&mut self, name: &str, value: &T) {
        self.name(name);
        self.push(value);
    }

    /// A field with a word, where there is one.
    pub fn word_if(&mut self, name: &str, word: Option<&str>) {
        if let Some(word) = word {
            self.word(name, word);
        }
    }

    /// A field with a number, where there is one.
    pub fn number_if(&mut self, name: &str, number: Option<u64>) {
        if let Some(number) = number {
            self.number(name, number);
        }
    }

    /// A field with any value, where there is one.
    pub fn field_if<T: Serialize>(&mut self, name: &str, value: &Option<T>) {
        if let Some(value) = value {
            self.field(name, value);
        }
    }

    // The name of a field, which has nothing that JSON escapes.
    fn name(&mut self, name: &str) {
        self.separate();
        self.push_word(name);
        self.text.push(":");
    }

    fn push_word(&mut self, word: &str) {
        self.text.push("\"");
        self.text.push(word);
        self.text.push("\"");
    }

    fn separate(&mut self) {
        if self.is_further {
            self.text.push(",");
        }
        self.is_further = true;
    }

    fn push<T: Serialize>(&mut self, value: &T) {
        // these values have no text that JSON refuses, so an error is out of memory
        match serde_json::to_string(self.alloc, value) {
            Ok(value) => self.text.push(value.as_str()),
            Err(_) => self.text.cut(),
        }
    }

    /// An allocation failed for what would come next.
    pub fn cut(&mut self) {
        self.text.cut();
    }

    /// Writes what was gathered, where that is much.
    pub fn write_block<O: Output>(&mut self, out: &mut O) -> Result<(), RunError> {
        if BLOCK <= self.text.len() || !self.text.is_whole() {
            self.write_all(out)?;
        }
        Ok(())
    }

    /// Writes all that was gathered.
    pub fn write_all<O: Output>(&mut self, out: &mut O) -> Result<(), RunError> {
        let text = mem::replace(&mut self.text, Text::new(self.alloc)).finish()?;
        write_report(out, text.as_bytes())
    }

    /// Writes what is left.
    pub fn write_rest<O: Output>(self, out: &mut O) -> Result<(), RunError> {
        let text = self.text.finish()?;
        write_report(out, text.as_bytes())
    }

    /// All objects.
    pub fn finish(self) -> Result<String, AllocError> {
        self.text.finish()
    }
}
