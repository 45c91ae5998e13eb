// The tokens of a plan text, one at a time, each with its line.

ghost use Rattle.std.specs.Prelude.{◌≡◌, true, false, MatchOption};
ghost use Rattle.lexer.specs.Lexemes.{Alphabet, letters, later};
ghost use Rattle.lexer.specs.declared.lexemes.Letters.TheVariants.{Plain, Dots};
ghost use Rattle.plan_text.specs.Symbols.{pattern_word};
ghost use Rattle.plan_text.specs.Grammar.{one, ◌▸◌};
ghost use Rattle.plan_text.specs.Tokens.{tokens_of, next, word, keyword};
ghost use Rattle.plan_text.specs.declared.symbols.Keyword.TheVariants as keywords;

use crate::errors::PlanError;
use crate::places::{Expected, Over, Refused, token_at};
use crate::symbols::Token;
use crate::words::pattern;
use lexer::{Letters, Lexer};
use message_tree::Pattern;
use origins::Spans;

/// A data byte, with the line of its token.
#[derive(Clone, Copy)]
pub(crate) struct DataByte {
    pub(crate) bits: Pattern,
    pub(crate) line: u64,
}

/// What is left of a plan text.
#[derive(Drop)]
pub(crate) struct Tokens<'a> {
    lexer: Lexer<'a>,
}

impl<'a> Tokens<'a> {
    ghost use Rattle.plan_text.specs.Reading.{with_token, left_of, left};

    /// The tokens of a whole text, with no dots in words.
    pub(crate) fn new(text: &'a [u8]) -> Self
        ensures whole { (a : Alphabet) → left_of a result ≡ tokens_of a 1 text.now }
        ensures letters { result.lexer.letters ≡ Plain }
    {
        Tokens {
            lexer: Lexer::new(text, Letters::Plain),
        }
    }

    /// From here on `.` counts as a part of words.
    pub(crate) fn allow_dots(&mut self)
        ensures same { (a : Alphabet) → left_of a self.new ≡ left_of a self.old }
        ensures now { self.new.lexer.letters ≡ Dots }
    {
        self.lexer.letters = Letters::Dots;
    }

    /// The next token. A stray character and a foreign byte stay in their places.
    pub(crate) fn next(&mut self) -> Token<'a>
        ensures tokens { (a : Alphabet) → letters a ≡ self.old.lexer.letters →
            left_of a self.old ≡ with_token result (left_of (later a) self.new) }
        ensures left { left self.old ≡ with_token result (left self.new) }
        ensures letters { self.new.lexer.letters ≡ self.old.lexer.letters }
    {
        Token::of(self.lexer.next())
    }

    /// The data byte that comes next, where one blank stands before it and one after it; else nothing is taken.
    pub(crate) fn data_byte(&mut self) -> Option<DataByte>
        ensures { MatchOption result (left self.new ≡ left self.old)
            (λ it. left self.old ≡ next (word (pattern_word it.bits)) it.line (left self.new)) }
    {
        let [b' ', rest @ ..] = self.lexer.rest else {
            return None;
        };
        let (word, rest) = rest.split_at_checked(8)?;
        let [b' ', ..] = rest else {
            return None;
        };
        let bits = pattern(word)?;
        self.lexer.before = self.lexer.rest.len();
        self.lexer.start = self.lexer.before.saturating_sub(1);
        self.lexer.rest = rest;
        Some(DataByte {
            bits,
            line: self.lexer.line,
        })
    }

    /// Whether `else stop` came next, each after one blank and with a blank after them; else nothing is taken.
    pub(crate) fn else_stop(&mut self) -> bool
        ensures taken { result ≡ true →
            (one (keyword keywords.Else) ▸ one (keyword keywords.Stop)) (left self.old) (left self.new) }
        ensures same { result ≡ false → left self.new ≡ left self.old }
    {
        let Some(rest) = self.lexer.rest.strip_prefix(b" else stop".as_slice()) else {
            return false;
        };
        let [b' ', ..] = rest else {
            return false;
        };
        self.lexer.rest = rest;
        true
    }

    /// Whether `.` counts as a part of words, as in the second version.
    pub(crate) fn has_dots(&self) -> bool {
        self.lexer.letters == Letters::Dots
    }

    /// Keeps of this token, which was taken last, whether it is a name. Whether it is a token.
    pub(crate) fn record(&self, token: Token<'_>, spans: &mut Spans) -> bool {
        match token.part() {
            Some(part) => {
                let at = token_at(self.lexer.text(), self.lexer.spot(), token.line);
                spans.take(part, at);
                true
            }
            None => false,
        }
    }

    /// Keeps the names of what is left, up to its end or to what is no token of any version.
    pub(crate) fn record_rest(&mut self, spans: &mut Spans) {
        self.allow_dots();
        for _ in 0..self.lexer.rest.len() {
            let token = self.next();
            if !self.record(token, spans) {
                return;
            }
        }
    }

    /// The refusal of the token that was taken last, where this was expected. A message may be too long by so much.
    pub(crate) fn refused(
        &self,
        error: PlanError,
        expected: Expected,
        over: Option<Over>,
    ) -> Refused
        ensures { result.error ≡ error }
    {
        Refused::at(error, self.lexer.text(), self.lexer.spot(), expected, over)
    }
}
