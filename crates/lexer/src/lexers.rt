// The lexemes of a text, one at a time.

ghost use Rattle.std.specs.Prelude.{◌≡◌, ℕ, ◌<◌, ◌≤◌, ◌+◌, ◌^◌, length, IfSome};
ghost use Rattle.std.specs.List.{prefix_len};
ghost use Rattle.lexer.specs.Lexemes.{Alphabet, letters, later, is_word_part, lexemes_of, in_comment};

use crate::fronts::{comment_end, is_part_of_word, is_quote, is_sign, string_end};
use crate::lexemes::{Letters, Lexeme, Spot, Symbol};

/// What is left of a text.
#[derive(Drop)]
pub struct Lexer<'a> {
    pub rest: &'a [u8],
    pub line: u64,
    pub letters: Letters,
    /// For refusals: how many bytes are left where the last lexeme begins.
    pub start: usize,
    /// How many are left where the lexeme before it ends.
    pub before: usize,
    // the whole text
    text: &'a [u8],
    ghost lines_fit: { line + length rest.now < 2 ^ 64 },
}

impl<'a> Lexer<'a> {
    ghost use Rattle.lexer.specs.Reading.{unread, with_lexeme, left_of, BeginsHere};

    /// A whole text, of these letters.
    pub fn new(text: &'a [u8], letters: Letters) -> Self
        ensures whole { (a : Alphabet) → left_of a result ≡ lexemes_of a 1 text.now }
        ensures letters { result.letters ≡ letters }
    {
        Lexer {
            rest: text,
            line: 1,
            letters,
            start: text.len(),
            before: text.len(),
            text,
        }
    }

    /// The next lexeme. A stray character and a foreign byte stay in their places.
    pub fn next(&mut self) -> Lexeme<'a>
        ensures lexemes { (a : Alphabet) → letters a ≡ self.old.letters →
            left_of a self.old ≡ with_lexeme result (left_of (later a) self.new) }
        ensures letters { self.new.letters ≡ self.old.letters }
    {
        self.before = self.rest.len();
        self.skip_blank();
        self.start = self.rest.len();
        let line = self.line;
        let symbol = match self.rest {
            [] => Symbol::End,
            [first, rest @ ..] => {
                if is_sign(*first, self.letters) {
                    self.rest = rest;
                    Symbol::Sign(*first)
                } else if is_part_of_word(*first, self.letters) {
                    let (word, rest) = self.rest.split_at(self.word_end());
                    self.rest = rest;
                    Symbol::Word(word)
                } else if is_quote(*first, self.letters) {
                    match string_end(rest) {
                        Some(end) => {
                            let (word, rest) = self.rest.split_at(end);
                            self.rest = rest;
                            Symbol::Word(word)
                        }
                        None => Symbol::Stray,
                    }
                } else if first.is_ascii() {
                    Symbol::Stray
                } else {
                    Symbol::Foreign
                }
            }
        };
        Lexeme { symbol, line }
    }

    /// The whole text.
    pub fn text(&self) -> &'a [u8] {
        self.text
    }

    /// Where the last lexeme stands.
    pub fn spot(&self) -> Spot {
        Spot {
            before: self.before,
            start: self.start,
            end: self.rest.len(),
        }
    }

    // Skips white space and comments. It stops before a foreign byte also inside a comment.
    fn skip_blank(&mut self)
        ensures same { (a : Alphabet) → letters a ≡ self.old.letters → left_of a self.new ≡ left_of a self.old }
        ensures here { BeginsHere self.new.rest.now }
        ensures letters { self.new.letters ≡ self.old.letters }
        ensures shorter { unread self.new ≤ unread self.old }
    {
        while let [first, rest @ ..] = self.rest {
            match *first {
                b'\n' => {
                    self.line += 1;
                    self.rest = rest;
                }
                b' ' | b'\t' | b'\r' => self.rest = rest,
                b'#' => self.rest = after_comment(rest, self.letters),
                _ => return,
            }
        }
    }

    // How many bytes at the front are parts of a word.
    fn word_end(&self) -> usize
        ensures end { result ≡ prefix_len (is_word_part self.now.letters) self.now.rest.now }
        ensures within { result ≤ length self.now.rest.now }
    {
        self.rest
            .iter()
            .take_while(|byte| is_part_of_word(**byte, self.letters))
            .count()
    }
}

// What follows a comment after its `#`: the end of its line, a foreign byte where comments have none, or nothing.
fn after_comment(bytes: &[u8], by: Letters) -> &[u8]
    ensures lexemes { (a : Alphabet) (line : ℕ) → letters a ≡ by →
        lexemes_of a line result.now ≡ in_comment a line bytes.now }
    ensures shorter { length result.now ≤ length bytes.now }
{
    &bytes[comment_end(bytes, by)..]
}
