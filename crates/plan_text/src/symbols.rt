// The symbols of a plan text: its tokens, and what stands where there is none.

ghost use Rattle.std.specs.Prelude.{◌≡◌, Some};
ghost use Rattle.plan_text.specs.Tokens.{keyword_of, token_of_word};
ghost use Rattle.plan_text.specs.Reading.{token_of_symbol};
ghost use Rattle.plan_text.specs.Tokens as tokens;
ghost use Rattle.lexer.specs.Lexemes as lexemes;

use crate::errors::PlanError;
use lexer::Lexeme;
use origins::{ItemKind, Kind, Part};

/// A word that the grammar has in fixed places.
#[derive(Clone, Copy)]
pub(crate) enum Keyword {
    Plan,
    Message,
    Controller,
    Interrupt,
    Never,
    Write,
    Read,
    Again,
    Else,
    Stop,
}

/// What stands at one place of a plan text, after the white space and the comments before it.
#[derive(Clone, Copy)]
pub(crate) enum Symbol<'a> {
    /// A maximal run of letters, digits and `_`, and of `.` where dots count as parts of words, that is a keyword.
    Keyword(Keyword),
    /// Another such run.
    Word(&'a [u8]),
    /// `;`.
    Semicolon,
    /// An ASCII character that belongs to no token.
    Stray,
    /// A byte of 128 or more, inside a comment or outside.
    Foreign,
    /// The end of the text.
    End,
}

/// A symbol with its line.
#[derive(Clone, Copy)]
pub(crate) struct Token<'a> {
    pub(crate) symbol: Symbol<'a>,
    pub(crate) line: u64,
}

impl<'a> Token<'a> {
    ghost use Rattle.lexer.specs.Reading.{with_lexeme};
    ghost use Rattle.plan_text.specs.Reading.{unexpected_at, with_token};
    ghost use Rattle.plan_text.specs.Reader.{no_version};
    ghost use Rattle.plan_text.specs.Tokens.{tokens_from};

    /// The token that a lexeme is.
    pub(crate) fn of(lexeme: Lexeme<'a>) -> Self
        ensures { (rest : lexemes.Lexemes) →
            tokens_from (with_lexeme lexeme.entry rest) ≡ with_token result (tokens_from rest) }
    {
        let symbol = match lexeme.symbol {
            lexer::Symbol::Word(word) => word_symbol(word),
            lexer::Symbol::Sign(_) => Symbol::Semicolon,
            lexer::Symbol::Stray => Symbol::Stray,
            lexer::Symbol::Foreign => Symbol::Foreign,
            lexer::Symbol::End => Symbol::End,
        };
        Token {
            symbol,
            line: lexeme.line,
        }
    }

    /// What it is to the names of a text. Nothing, where it is no token.
    pub(crate) fn part(&self) -> Option<Part<'a>> {
        match self.symbol {
            Symbol::Keyword(keyword) => Some(part_of_keyword(keyword)),
            Symbol::Word(word) => Some(Part::Word(word)),
            Symbol::Semicolon => Some(Part::End),
            Symbol::Stray | Symbol::Foreign | Symbol::End => None,
        }
    }

    /// The refusal of this token where the grammar does not allow it.
    pub(crate) fn unexpected(&self) -> PlanError
        ensures { result ≡ unexpected_at self.now }
    {
        match self.symbol {
            Symbol::Foreign => PlanError::NotAscii(self.line),
            _ => PlanError::Unexpected(self.line),
        }
    }

    /// The refusal of this token in the place of `plan`, or of the version after it.
    pub(crate) fn no_version(&self) -> PlanError
        ensures { (rest : tokens.Tokens) → result ≡ no_version (with_token self.now rest) }
    {
        match self.symbol {
            Symbol::Stray | Symbol::Foreign => self.unexpected(),
            _ => PlanError::Version(self.line),
        }
    }
}

fn part_of_keyword(keyword: Keyword) -> Part<'static> {
    match keyword {
        Keyword::Message => Part::Item(ItemKind::Gives(Kind::Message)),
        Keyword::Controller => Part::Item(ItemKind::Gives(Kind::Controller)),
        Keyword::Interrupt => Part::Item(ItemKind::Gives(Kind::Interrupt)),
        Keyword::Never => Part::Item(ItemKind::Never),
        Keyword::Write | Keyword::Read => Part::Direction,
        Keyword::Plan | Keyword::Again | Keyword::Else | Keyword::Stop => Part::Other,
    }
}

/// The symbol that this word is.
#[tactic(auto, unfolding(crate::specs::Tokens::token_of_word))]
pub(crate) fn word_symbol(word: &[u8]) -> Symbol<'_>
    ensures { token_of_symbol result ≡ Some (token_of_word word.now) }
{
    match keyword_of(word) {
        Some(keyword) => Symbol::Keyword(keyword),
        None => Symbol::Word(word),
    }
}

fn keyword_of(word: &[u8]) -> Option<Keyword>
    ensures { result ≡ keyword_of word.now }
{
    if word == b"plan".as_slice() {
        Some(Keyword::Plan)
    } else if word == b"message".as_slice() {
        Some(Keyword::Message)
    } else if word == b"controller".as_slice() {
        Some(Keyword::Controller)
    } else if word == b"interrupt".as_slice() {
        Some(Keyword::Interrupt)
    } else if word == b"never".as_slice() {
        Some(Keyword::Never)
    } else if word == b"write".as_slice() {
        Some(Keyword::Write)
    } else if word == b"read".as_slice() {
        Some(Keyword::Read)
    } else if word == b"again".as_slice() {
        Some(Keyword::Again)
    } else if word == b"else".as_slice() {
        Some(Keyword::Else)
    } else if word == b"stop".as_slice() {
        Some(Keyword::Stop)
    } else {
        None
    }
}
