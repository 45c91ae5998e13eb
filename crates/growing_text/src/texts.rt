// A text that grows by parts.

ghost use Rattle.std.specs.Prelude.{◌≡◌, ◌↔◌, true, false, [], length, encode_utf8, string_bytes, IsTrue, MatchResult};
ghost use Rattle.std.specs.Fmt.{decimal};
ghost use Rattle.growing_text.specs.Texts.{said, is_whole, cut_short, two_digits, Grows};

use std::alloc::{AllocError, Global};

/// A text that grows by parts. From the first part on for which an allocation failed, no more is added, and `finish`
/// says so.
#[derive(Drop)]
pub struct Text {
    text: String,
    is_whole: bool,
}

impl Text {
    /// No part yet.
    pub fn new(alloc: Global) -> Text
        ensures said { said result ≡ [] }
        ensures whole { is_whole result ≡ true }
    {
        Text {
            text: String::new(alloc),
            is_whole: true,
        }
    }

    /// One more part.
    pub fn push(&mut self, part: &str)
        ensures { Grows self.old part.now self.new }
    {
        if self.is_whole && self.text.push_str(part).is_err() {
            self.is_whole = false;
        }
    }

    /// One more character.
    pub fn push_char(&mut self, part: char)
        ensures { Grows self.old (encode_utf8 part) self.new }
    {
        if self.is_whole && self.text.push(part).is_err() {
            self.is_whole = false;
        }
    }

    /// A part that was made elsewhere, where there was memory for it.
    pub fn push_made(&mut self, part: Result<String, AllocError>)
        ensures { MatchResult part (λ made. Grows self.old (string_bytes made) self.new) (λ _. self.new ≡ cut_short self.old) }
    {
        match part {
            Ok(part) => self.push(part.as_str()),
            Err(_) => self.cut(),
        }
    }

    /// There was no memory for what would come next.
    pub fn cut(&mut self)
        ensures { self.new ≡ cut_short self.old }
    {
        self.is_whole = false;
    }

    /// A number in decimal.
    pub fn push_number(&mut self, number: u64)
        ensures { Grows self.old (decimal number) self.new }
    {
        if self.is_whole && write!(self.text, "{number}").is_err() {
            self.is_whole = false;
        }
    }

    /// A byte as two hexadecimal digits.
    pub fn push_hex(&mut self, byte: u8)
        ensures { Grows self.old (two_digits byte) self.new }
    {
        if self.is_whole && write!(self.text, "{byte:02x}").is_err() {
            self.is_whole = false;
        }
    }

    /// How many bytes it has.
    pub fn len(&self) -> usize
        ensures { result ≡ length (said self.now) }
    {
        self.text.len()
    }

    /// Whether it has none.
    pub fn is_empty(&self) -> bool
        ensures { IsTrue result ↔ (said self.now ≡ []) }
    {
        self.text.is_empty()
    }

    /// Whether there was memory for all its parts.
    pub fn is_whole(&self) -> bool
        ensures { result ≡ is_whole self.now }
    {
        self.is_whole
    }

    /// The whole text.
    ///
    /// # Errors
    ///
    /// Where an allocation failed for one of its parts.
    pub fn finish(self) -> Result<String, AllocError>
        ensures { MatchResult result (λ text. (is_whole self ≡ true) × (string_bytes text ≡ said self))
            (λ _. is_whole self ≡ false) }
    {
        if self.is_whole {
            Ok(self.text)
        } else {
            Err(AllocError)
        }
    }
}
