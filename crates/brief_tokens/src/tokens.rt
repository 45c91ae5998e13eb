// The tokens of a brief, one at a time, each with its line.

ghost use Rattle.std.specs.Prelude.{◌≡◌, ◌+◌, ◌<◌, ◌^◌, length, true};
ghost use Rattle.lexer.specs.Lexemes.{is_of_brief};
ghost use Rattle.brief_tokens.specs.Heads.{is_file_name};
ghost use Rattle.brief_tokens.specs.Tokens.{tokens_of, board_tokens_of};

use crate::symbols::{Keyword, Symbol, Token};
use lexer::{Letters, Lexer, Spot};
use origins::Spans;
use plan_text::places::token_at;
use plan_text::{Expected, Place, PlanError, Refused};

/// A file that a head names, and the line of its name.
#[derive(Clone, Copy)]
pub struct FileNamed<'a> {
    /// As it is spelled: 1 to 255 characters from blank to `~`.
    pub name: &'a [u8],
    pub line: u64,
}

// Whether these characters name a file.
fn is_file_name(characters: &[u8]) -> bool
    ensures { result ≡ is_file_name characters.now }
{
    1 <= characters.len() && characters.len() <= 255
}

/// What is left of a brief.
#[derive(Drop)]
pub struct Tokens<'a> {
    lexer: Lexer<'a>,
    ghost is_brief: { is_of_brief lexer.letters ≡ true },
}

impl<'a> Tokens<'a> {
    ghost use Rattle.std.specs.Prelude.{◌≡◌, ℕ, Ok, Err, IfOk, IfErr, OnOk, true, false};
    ghost use Rattle.brief_tokens.specs.Heads.{next_file, no_more, wrong, after_file};
    ghost use Rattle.brief_tokens.specs.Reading.{with_token, left, letters_of, naming};
    ghost use Rattle.brief_tokens.specs.Tokens as spec;

    /// The tokens of a whole text in the first version.
    pub fn new(text: &'a [u8]) -> Self
        ensures tokens { left result ≡ tokens_of 1 text.now }
        ensures letters { letters_of result ≡ Letters.Brief }
    {
        Tokens {
            lexer: Lexer::new(text, Letters::Brief),
        }
    }

    /// Those of a whole text in the second version.
    pub fn of_board(text: &'a [u8]) -> Self
        ensures tokens { left result ≡ board_tokens_of 1 text.now }
        ensures letters { letters_of result ≡ Letters.Board }
    {
        Tokens {
            lexer: Lexer::new(text, Letters::Board),
        }
    }

    /// Those of a text with these letters, from this place on: so many bytes stand before it, and it is on this line. None of
    /// the tokens before it reaches over it.
    pub fn from(text: &'a [u8], letters: Letters, start: usize, line: u64) -> Self {
        let mut lexer = match letters {
            Letters::Board => Lexer::new(text, Letters::Board),
            _ => Lexer::new(text, Letters::Brief),
        };
        let rest = text.get(start..).unwrap_or(&[]);
        lexer.rest = rest;
        lexer.line = line.min(u64::MAX - rest.len() as u64);
        Tokens { lexer }
    }

    /// The letters of the text: those of the first version, or of the second.
    pub fn letters(&self) -> Letters
        ensures { result ≡ letters_of self.now }
    {
        self.lexer.letters
    }

    /// The next token. A stray character and a foreign byte stay in their places.
    pub fn next(&mut self) -> Token<'a>
        ensures token { left self.old ≡ with_token result (left self.new) }
        ensures letters { letters_of self.new ≡ letters_of self.old }
    {
        let letters = self.lexer.letters;
        Token::of(self.lexer.next(), letters)
    }

    /// The whole text.
    pub fn text(&self) -> &'a [u8] {
        self.lexer.text()
    }

    /// Where the last token stands.
    pub fn spot(&self) -> Spot {
        self.lexer.spot()
    }

    /// Keeps of this token, which was taken last, whether it is a name. Whether it is a token.
    pub fn record(&self, token: Token<'_>, spans: &mut Spans) -> bool {
        match token.part() {
            Some(part) => {
                spans.take(part, token_at(self.text(), self.spot(), token.line));
                true
            }
            None => false,
        }
    }

    /// Keeps the names of what is left, up to its end or to what is no token.
    pub fn record_rest(&mut self, spans: &mut Spans) {
        for _ in 0..self.text().len() {
            let token = self.next();
            if !self.record(token, spans) {
                return;
            }
        }
    }

    /// The next file that a head of the second version names. Where none comes next, what does stays in its place.
    ///
    /// # Errors
    ///
    /// `Unexpected` at what stands after `with` and is no string of 1 to 255 characters, `NotAscii` at a byte there that is none of
    /// ASCII.
    pub fn next_file(&mut self) -> Result<Option<FileNamed<'a>>, Refused>
        ensures file { IfOk result (λ it. next_file (left self.old) ≡ naming it (left self.new)) }
        ensures refused { IfErr result (λ e. next_file (left self.old) ≡ wrong e.error) }
        ensures letters { letters_of self.new ≡ letters_of self.old }
    {
        if !self.takes_with() {
            return Ok(None);
        }
        let token = self.next();
        match token.symbol {
            Symbol::Quoted(name) if is_file_name(name) => Ok(Some(FileNamed {
                name,
                line: token.line,
            })),
            _ => Err(self.no_name(token.unexpected())),
        }
    }

    // Takes `with`, where that comes next. Whether it did.
    fn takes_with(&mut self) -> bool
        ensures some { result ≡ true → (line : ℕ) × (left self.old ≡ spec.next (spec.keyword Keyword.With) line (left self.new)) }
        ensures none { result ≡ false → (next_file (left self.old) ≡ no_more (left self.old)) × (left self.new ≡ left self.old) }
        ensures letters { letters_of self.new ≡ letters_of self.old }
    {
        let Lexer {
            rest,
            line,
            start,
            before,
            ..
        } = self.lexer;
        let token = self.next();
        if let Symbol::Keyword(Keyword::With) = token.symbol {
            return true;
        }
        put_back(&mut self.lexer, rest, line, start, before);
        false
    }

    /// Takes the `;` after such a file.
    ///
    /// # Errors
    ///
    /// `Unexpected` at what stands in its place, `NotAscii` at a byte there that is none of ASCII.
    pub fn end_file(&mut self) -> Result<(), Refused>
        ensures rest { OnOk result (after_file (left self.old) ≡ Ok (left self.new)) }
        ensures refused { IfErr result (λ e. after_file (left self.old) ≡ Err e.error) }
        ensures letters { letters_of self.new ≡ letters_of self.old }
    {
        let token = self.next();
        if token.is_semicolon() {
            return Ok(());
        }
        Err(self.refused(token.unexpected(), Expected::Semicolon))
    }

    /// The refusal of the token that was taken last, in the place of the name of a file, or as one that has such a name.
    pub fn no_name(&self, error: PlanError) -> Refused
        ensures { result.error ≡ error }
    {
        let Refused { error, place } = self.refused(error, Expected::Version);
        Refused {
            error,
            // (nothing else has a word for what could stand there)
            place: match place {
                Some(place) => Some(Place {
                    expected: None,
                    ..place
                }),
                None => None,
            },
        }
    }

    /// The refusal of the token that was taken last, in the place of `brief` or of its version.
    pub(crate) fn no_head(&self, error: PlanError) -> Refused
        ensures { result.error ≡ error }
    {
        self.refused(error, Expected::Version)
    }

    // The refusal of the token that was taken last, where this was expected.
    fn refused(&self, error: PlanError, expected: Expected) -> Refused
        ensures { result.error ≡ error }
    {
        Refused::at(error, self.lexer.text(), self.lexer.spot(), expected, None)
    }
}

// Puts back what was taken: these bytes, from this line on, are left. The two numbers are those of the lexeme before.
fn put_back<'a>(lexer: &mut Lexer<'a>, rest: &'a [u8], line: u64, start: usize, before: usize)
    requires { line + length rest.now < 2 ^ 64 }
    ensures rest { lexer.new.rest.now ≡ rest.now }
    ensures line { lexer.new.line ≡ line }
    ensures letters { lexer.new.letters ≡ lexer.old.letters }
{
    lexer.rest = rest;
    lexer.line = line;
    lexer.start = start;
    lexer.before = before;
}

/// Adds the items and the names of a text that is not judged, up to its end or to what is no token, to these of texts before it. It
/// may have no head.
pub fn record(text: &[u8], spans: &mut Spans) {
    spans.begin(None);
    Tokens::new(text).record_rest(spans);
}
