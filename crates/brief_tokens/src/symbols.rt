// The symbols of a brief: its tokens, and what stands where there is none.

ghost use Rattle.std.specs.Prelude.{◌≡◌, Some, true, false};
ghost use Rattle.brief_tokens.specs.Tokens.{keyword_of, token_of_word, sign_of};
ghost use Rattle.brief_tokens.specs.Tokens.{board_keyword_of, further_keyword_of, board_token_of_word, span_of, hex_number};
ghost use Rattle.brief_tokens.specs.Reading.{token_of_symbol};
ghost use Rattle.lexer.specs.Lexemes as lexemes;

use lexer::{Letters, Lexeme};
use origins::{ItemKind, Kind, Part};
use plan_text::PlanError;

/// A word that the language has in fixed places.
#[derive(Clone, Copy)]
pub enum Keyword {
    Brief,
    Device,
    Byte,
    Any,
    Message,
    Controller,
    Interrupt,
    Never,
    Write,
    Read,
    Else,
    Stop,
    // in the second version
    With,
    Group,
    Extend,
    But,
    Wr,
    Rd,
    Pec,
    Sum,
}

/// A character that is a token by itself.
#[derive(Clone, Copy)]
pub enum Sign {
    Semicolon,
    Open,
    Close,
    Star,
}

/// What stands at one place of a brief, after the white space and the comments before it.
#[derive(Clone, Copy)]
pub enum Symbol<'a> {
    /// A maximal run of letters, digits, `_`, `.` and `/` that is a keyword.
    Keyword(Keyword),
    /// Another such run.
    Word(&'a [u8]),
    /// `;`, `(`, `)` or `*`.
    Sign(Sign),
    /// What stands between the quotes of a string.
    Quoted(&'a [u8]),
    /// The ends of a span.
    Span { least: u8, greatest: u8 },
    /// An ASCII character that belongs to no token.
    Stray,
    /// A byte of 128 or more, where its text may not have one.
    Foreign,
    /// The end of the text.
    End,
}

/// A symbol with its line.
#[derive(Clone, Copy)]
pub struct Token<'a> {
    pub symbol: Symbol<'a>,
    pub line: u64,
}

impl<'a> Token<'a> {
    ghost use Rattle.lexer.specs.Reading.{with_lexeme};
    ghost use Rattle.brief_tokens.specs.Reading.{unexpected_at, with_token};
    ghost use Rattle.brief_tokens.specs.Heads.{no_version};
    ghost use Rattle.brief_tokens.specs.Tokens.{tokens_by, told_in};
    ghost use Rattle.brief_tokens.specs.Tokens as tokens;

    /// The token that a lexeme is in a text with these letters.
    pub(crate) fn of(lexeme: Lexeme<'a>, letters: Letters) -> Self
        ensures { (rest : lexemes.Lexemes) → tokens_by (told_in letters) (with_lexeme lexeme.entry rest) ≡
            with_token result (tokens_by (told_in letters) rest) }
    {
        let symbol = match lexeme.symbol {
            lexer::Symbol::Word(word) if letters == Letters::Board => board_symbol(word),
            lexer::Symbol::Word(word) => word_symbol(word),
            lexer::Symbol::Sign(byte) => Symbol::Sign(sign_of(byte)),
            lexer::Symbol::Stray => Symbol::Stray,
            lexer::Symbol::Foreign => Symbol::Foreign,
            lexer::Symbol::End => Symbol::End,
        };
        Token {
            symbol,
            line: lexeme.line,
        }
    }

    /// What it is to the names of a text. Nothing, where it is no token.
    pub fn part(&self) -> Option<Part<'a>> {
        match self.symbol {
            Symbol::Keyword(keyword) => Some(part_of_keyword(keyword)),
            Symbol::Word(word) => Some(Part::Word(word)),
            Symbol::Sign(Sign::Semicolon) => Some(Part::End),
            Symbol::Sign(Sign::Star) => Some(Part::Star),
            // (an address follows it, or a frame, which begins with its direction)
            Symbol::Sign(Sign::Open) => Some(Part::Direction),
            Symbol::Sign(Sign::Close) => Some(Part::Other),
            Symbol::Quoted(_) | Symbol::Span { .. } => Some(Part::Other),
            Symbol::Stray | Symbol::Foreign | Symbol::End => None,
        }
    }

    /// What the first name is of in an item that begins with this token.
    pub fn kind(&self) -> Option<Kind> {
        match self.part() {
            Some(Part::Item(ItemKind::Gives(kind))) => Some(kind),
            Some(Part::Item(ItemKind::Extends)) => Some(Kind::Controller),
            Some(Part::Item(ItemKind::Groups)) => Some(Kind::Device),
            _ => None,
        }
    }

    /// The refusal of this token where the grammar does not allow it.
    pub fn unexpected(&self) -> PlanError
        ensures { result ≡ unexpected_at self.now }
    {
        match self.symbol {
            Symbol::Foreign => PlanError::NotAscii(self.line),
            _ => PlanError::Unexpected(self.line),
        }
    }

    /// Whether this is `;`.
    pub fn is_semicolon(&self) -> bool
        ensures some { result ≡ true → self.now.symbol ≡ Symbol.Sign Sign.Semicolon }
        ensures none { result ≡ false → self.now.symbol ≡ Symbol.Sign Sign.Semicolon → ⊥ }
    {
        matches!(self.symbol, Symbol::Sign(Sign::Semicolon))
    }

    /// The refusal of this token in the place of `brief`, or of the `1` after it.
    pub(crate) fn no_version(&self) -> PlanError
        ensures { (rest : tokens.Tokens) → result ≡ no_version (with_token self.now rest) }
    {
        match self.symbol {
            Symbol::Stray | Symbol::Foreign => self.unexpected(),
            _ => PlanError::Version(self.line),
        }
    }
}

fn part_of_keyword(keyword: Keyword) -> Part<'static> {
    match keyword {
        Keyword::Device => Part::Item(ItemKind::Gives(Kind::Device)),
        Keyword::Byte => Part::Item(ItemKind::Gives(Kind::Byte)),
        Keyword::Message => Part::Item(ItemKind::Gives(Kind::Message)),
        Keyword::Controller => Part::Item(ItemKind::Gives(Kind::Controller)),
        Keyword::Extend => Part::Item(ItemKind::Extends),
        Keyword::Group => Part::Item(ItemKind::Groups),
        Keyword::Interrupt => Part::Item(ItemKind::Gives(Kind::Interrupt)),
        Keyword::Never => Part::Item(ItemKind::Never),
        Keyword::Write | Keyword::Read => Part::Direction,
        Keyword::Brief | Keyword::Any | Keyword::Else | Keyword::Stop => Part::Other,
        Keyword::With | Keyword::But => Part::Other,
        Keyword::Wr | Keyword::Rd | Keyword::Pec | Keyword::Sum => Part::Other,
    }
}

/// The symbol that this word is.
#[tactic(auto, unfolding(crate::specs::Tokens::token_of_word))]
fn word_symbol(word: &[u8]) -> Symbol<'_>
    ensures { token_of_symbol result ≡ Some (token_of_word word.now) }
{
    match keyword_of(word) {
        Some(keyword) => Symbol::Keyword(keyword),
        None => Symbol::Word(word),
    }
}

/// The symbol that this word is in the second version.
#[tactic(auto, unfolding(crate::specs::Tokens::board_token_of_word))]
fn board_symbol(word: &[u8]) -> Symbol<'_>
    ensures { token_of_symbol result ≡ Some (board_token_of_word word.now) }
{
    if let [b'"', rest @ ..] = word {
        return Symbol::Quoted(&rest[..rest.len().saturating_sub(1)]);
    }
    if let Some((least, greatest)) = span_of(word) {
        return Symbol::Span { least, greatest };
    }
    match board_keyword_of(word) {
        Some(keyword) => Symbol::Keyword(keyword),
        None => Symbol::Word(word),
    }
}

// The ends of `0xLO..0xHI`.
fn span_of(word: &[u8]) -> Option<(u8, u8)>
    ensures { result ≡ span_of word.now }
{
    match word {
        [b'0', b'x', c, d, b'.', b'.', b'0', b'x', i, j] => {
            let least = hex_number(*c, *d)?;
            let greatest = hex_number(*i, *j)?;
            Some((least, greatest))
        }
        _ => None,
    }
}

// The number of two digits in base 16.
fn hex_number(high: u8, low: u8) -> Option<u8>
    ensures { result ≡ hex_number high low }
{
    let high = (high as char).to_digit(16)?;
    let low = (low as char).to_digit(16)?;
    Some((high * 16 + low) as u8)
}

fn board_keyword_of(word: &[u8]) -> Option<Keyword>
    ensures { result ≡ board_keyword_of word.now }
{
    match keyword_of(word) {
        Some(keyword) => Some(keyword),
        None => further_keyword_of(word),
    }
}

fn further_keyword_of(word: &[u8]) -> Option<Keyword>
    ensures { result ≡ further_keyword_of word.now }
{
    if word == b"with".as_slice() {
        Some(Keyword::With)
    } else if word == b"group".as_slice() {
        Some(Keyword::Group)
    } else if word == b"extend".as_slice() {
        Some(Keyword::Extend)
    } else if word == b"but".as_slice() {
        Some(Keyword::But)
    } else if word == b"wr".as_slice() {
        Some(Keyword::Wr)
    } else if word == b"rd".as_slice() {
        Some(Keyword::Rd)
    } else if word == b"pec".as_slice() {
        Some(Keyword::Pec)
    } else if word == b"sum".as_slice() {
        Some(Keyword::Sum)
    } else {
        None
    }
}

fn keyword_of(word: &[u8]) -> Option<Keyword>
    ensures { result ≡ keyword_of word.now }
{
    if word == b"brief".as_slice() {
        Some(Keyword::Brief)
    } else if word == b"device".as_slice() {
        Some(Keyword::Device)
    } else if word == b"byte".as_slice() {
        Some(Keyword::Byte)
    } else if word == b"any".as_slice() {
        Some(Keyword::Any)
    } else if word == b"message".as_slice() {
        Some(Keyword::Message)
    } else if word == b"controller".as_slice() {
        Some(Keyword::Controller)
    } else if word == b"interrupt".as_slice() {
        Some(Keyword::Interrupt)
    } else if word == b"never".as_slice() {
        Some(Keyword::Never)
    } else if word == b"write".as_slice() {
        Some(Keyword::Write)
    } else if word == b"read".as_slice() {
        Some(Keyword::Read)
    } else if word == b"else".as_slice() {
        Some(Keyword::Else)
    } else if word == b"stop".as_slice() {
        Some(Keyword::Stop)
    } else {
        None
    }
}

// The character that stands by itself: no other does in a brief.
fn sign_of(byte: u8) -> Sign
    ensures { result ≡ sign_of byte }
{
    match byte {
        b'(' => Sign::Open,
        b')' => Sign::Close,
        b'*' => Sign::Star,
        _ => Sign::Semicolon,
    }
}
