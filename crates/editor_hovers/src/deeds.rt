// What the tokens of an item are for: addresses, data bytes, and what stands around these.

use brief_tokens::{Keyword, Sign, Symbol, Tokens};
use lexer::Letters;
use origins::{Item, ItemKind, Kind};
use plan_text::places::token_at;

/// What a token is in its item.
#[derive(Clone, Copy, PartialEq, Eq)]
pub(crate) enum Deed {
    /// The address of a frame, which begins with it.
    Header,
    /// Another address.
    Address,
    /// A data byte, or the word with which one begins that is an address and a direction.
    Byte,
    /// A data byte that a choice leaves out.
    Except,
    /// A `pec` or a `sum`.
    Check,
    /// How often the last byte stands.
    Times,
    /// A bracket around what follows a NACK.
    Opens,
    Closes,
    Other,
}

/// A token that stands at a place, and what it is there.
#[derive(Clone, Copy)]
pub(crate) struct Found<'a> {
    pub(crate) symbol: Symbol<'a>,
    pub(crate) deed: Deed,
}

// What the token before asks for.
#[derive(Clone, Copy)]
enum After {
    // the word that begins an item, and the name that it gives
    Nothing,
    Item,
    // an address and then a count
    Read,
    Count,
    // an address, of a write or of a device
    Write,
    Value,
    // a bracket, an address and a bracket
    Made,
    Inside,
    End,
    // a number or a range
    Star,
    // what a choice leaves out
    But,
    // `stop` or a bracket
    Else,
    Other,
}

/// The tokens of an item, one after another, and what each is.
#[derive(Drop)]
pub(crate) struct Deeds<'a> {
    tokens: Tokens<'a>,
    text: &'a [u8],
    after: After,
    // what the word after the name is
    first: After,
    /// How many tokens there may be.
    pub(crate) left: usize,
}

impl<'a> Deeds<'a> {
    /// Those of an item of this text.
    pub(crate) fn new(text: &'a [u8], letters: Letters, item: Item) -> Deeds<'a> {
        let (start, end) = (item.span.start, item.span.end);
        Deeds {
            tokens: Tokens::from(text, letters, start, 1),
            text,
            after: After::Nothing,
            first: match item.kind {
                ItemKind::Gives(Kind::Device | Kind::Interrupt) => After::Value,
                _ => After::Other,
            },
            left: end.saturating_sub(start),
        }
    }

    /// The next token, and where it begins and ends. None at the end of the item.
    pub(crate) fn next(&mut self) -> Option<(Found<'a>, (usize, usize))> {
        self.left = self.left.checked_sub(1)?;
        let token = self.tokens.next();
        if token.is_semicolon() {
            return None;
        }
        let at = token_at(self.text, self.tokens.spot(), token.line);
        let found = Found {
            symbol: token.symbol,
            deed: self.take(token.symbol),
        };
        Some((found, (at.start, at.end)))
    }

    /// The token around this place, or right before it: a word. None where none is there.
    pub(crate) fn find(&mut self, offset: usize) -> Option<Found<'a>> {
        for _ in 0..self.left {
            let (found, (start, end)) = self.next()?;
            if offset < start {
                return None;
            }
            if offset <= end && is_word(found.symbol) {
                return Some(found);
            }
        }
        None
    }

    fn take(&mut self, symbol: Symbol<'_>) -> Deed {
        let (after, deed) = match self.after {
            After::Nothing => (After::Item, Deed::Other),
            After::Item => (self.first, Deed::Other),
            After::Read => (After::Count, Deed::Header),
            After::Write => (After::Other, Deed::Header),
            After::Value => (After::Other, Deed::Address),
            After::Made => (After::Inside, Deed::Other),
            After::Inside => (After::End, Deed::Address),
            After::Count | After::End => (After::Other, Deed::Other),
            After::Star => (After::Other, Deed::Times),
            After::But => (After::Other, Deed::Except),
            After::Else => (After::Other, after_else(symbol)),
            After::Other => next_of(symbol),
        };
        self.after = after;
        deed
    }
}

fn is_word(symbol: Symbol<'_>) -> bool {
    matches!(symbol, Symbol::Keyword(_) | Symbol::Word(_))
}

fn after_else(symbol: Symbol<'_>) -> Deed {
    match symbol {
        Symbol::Sign(Sign::Open) => Deed::Opens,
        _ => Deed::Other,
    }
}

// What a token is for which nothing before it asks, and what it asks for.
fn next_of(symbol: Symbol<'_>) -> (After, Deed) {
    match symbol {
        Symbol::Keyword(keyword) => of_keyword(keyword),
        Symbol::Word(_) | Symbol::Span { .. } => (After::Other, Deed::Byte),
        Symbol::Sign(Sign::Star) => (After::Star, Deed::Other),
        Symbol::Sign(Sign::Close) => (After::Other, Deed::Closes),
        _ => (After::Other, Deed::Other),
    }
}

fn of_keyword(keyword: Keyword) -> (After, Deed) {
    match keyword {
        Keyword::Write => (After::Write, Deed::Other),
        Keyword::Read => (After::Read, Deed::Other),
        Keyword::Else => (After::Else, Deed::Other),
        Keyword::But => (After::But, Deed::Other),
        Keyword::Any => (After::Other, Deed::Byte),
        Keyword::Wr | Keyword::Rd => (After::Made, Deed::Byte),
        Keyword::Pec | Keyword::Sum => (After::Other, Deed::Check),
        _ => (After::Other, Deed::Other),
    }
}
