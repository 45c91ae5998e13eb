// What is left of a plan text, and the parts of items that are one token.

ghost use Rattle.std.specs.Prelude.{◌≡◌, ◌≤◌, ◌<◌, ℕ, IfOk};
ghost use Rattle.plan_core.specs.NameBytes.{name_bytes};
ghost use Rattle.plan_core.specs.declared.limits.TheConstants.{MOST_NODES};
ghost use Rattle.plan_text.specs.Reader.{Place, token_as, name_in, known_address_at, end_at};
ghost use Rattle.plan_text.specs.Reading.{left};

use crate::errors::PlanError;
use crate::places::{Expected, Over, Refused};
use crate::symbols::{Symbol, Token};
use crate::tokens::Tokens;
use crate::words::known_address;
use origins::Spans;
use plan_core::{Name, NameError};
use std::alloc::Global;

/// What is left of a plan text, and how many nodes of the message have been read.
#[derive(Drop)]
pub(crate) struct Source<'a> {
    pub(crate) alloc: Global,
    pub(crate) tokens: Tokens<'a>,
    pub(crate) nodes: u32,
    // for refusals: what the last token was to be, and by how much the message is too long
    expected: Expected,
    pub(crate) over: Option<Over>,
    // the names so far
    spans: Spans,
    ghost nodes_fit: { nodes ≤ MOST_NODES },
}

/// A name, with the line of its token.
#[derive(Drop)]
pub(crate) struct Named {
    pub(crate) name: Name,
    pub(crate) line: u64,
}

impl<'a> Source<'a> {
    ghost use Rattle.plan_text.specs.Places.{place, before, Passes, Gives, Finds};

    /// The whole of these tokens.
    pub(crate) fn new(alloc: Global, tokens: Tokens<'a>, spans: Spans) -> Self
        ensures { place result ≡ record { tokens = left tokens.entry; nodes = 0 } }
    {
        Source {
            alloc,
            tokens,
            nodes: 0,
            expected: Expected::Version,
            over: None,
            spans,
        }
    }

    /// The next token, which is to be this.
    pub(crate) fn next(&mut self, expected: Expected) -> Token<'a>
        ensures { place self.old ≡ before result (place self.new) }
    {
        self.expected = expected;
        let token = self.tokens.next();
        self.tokens.record(token, &mut self.spans);
        token
    }

    /// The names so far.
    pub(crate) fn into_spans(self) -> Spans {
        self.spans
    }

    /// The names so far, and those of what is left.
    pub(crate) fn into_all_spans(self) -> Spans {
        let mut tokens = self.tokens;
        let mut spans = self.spans;
        tokens.record_rest(&mut spans);
        spans
    }

    /// The refusal of the token that was taken last.
    pub(crate) fn refused(&self, error: PlanError) -> Refused
        ensures { result.error ≡ error }
    {
        self.tokens.refused(error, self.expected, self.over)
    }

    /// NAME, which is to be this.
    pub(crate) fn name(&mut self, expected: Expected) -> Result<Named, PlanError>
        ensures { Finds (λ it. name_bytes it.name) (λ it. it.line) result (token_as name_in (place self.old))
            (place self.new) }
    {
        let token = self.next(expected);
        let name = self.name_of(token)?;
        Ok(Named {
            name,
            line: token.line,
        })
    }

    /// The NAME that this token is.
    pub(crate) fn name_of(&self, token: Token<'_>) -> Result<Name, PlanError>
        ensures { (after : Place) → Finds name_bytes (λ it. token.entry.line) result
            (token_as name_in (before token.entry after)) after }
    {
        let Symbol::Word(word) = token.symbol else {
            return Err(token.unexpected());
        };
        let Ok(text) = str::from_utf8(word) else {
            return Err(token.unexpected());
        };
        match Name::new(self.alloc, text) {
            Ok(name) => Ok(name),
            Err(NameError::BadName) => Err(token.unexpected()),
            Err(NameError::NoMemory) => Err(PlanError::NoMemory),
        }
    }

    /// ADDR7
    pub(crate) fn interrupt_address(&mut self) -> Result<u8, PlanError>
        ensures read { Gives (λ it. it) result (known_address_at (place self.old)) (place self.new) }
        ensures small { IfOk result (λ it. it < 128) }
    {
        let token = self.next(Expected::KnownAddress);
        let Symbol::Word(word) = token.symbol else {
            return Err(token.unexpected());
        };
        let Some(address) = known_address(word) else {
            return Err(token.unexpected());
        };
        Ok(address)
    }

    /// `;`
    pub(crate) fn semicolon(&mut self) -> Result<(), PlanError>
        ensures { Passes result (end_at (place self.old)) (place self.new) }
    {
        let token = self.next(Expected::Semicolon);
        match token.symbol {
            Symbol::Semicolon => Ok(()),
            _ => Err(token.unexpected()),
        }
    }
}
