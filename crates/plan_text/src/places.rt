//! Where a text was refused, and what could stand there. None of it decides anything. Briefs have the same refusals, and so
//! the same places.

ghost use Rattle.std.specs.Prelude.{◌≡◌};

use crate::errors::PlanError;
pub use lexer::Spot;
use origins::TokenAt;
pub use origins::{Kind, Language};

/// How much a message is too long, with the token that makes it so.
#[derive(Clone, Copy, PartialEq, Eq)]
pub enum Over {
    /// So many bytes on a path.
    Bytes(u32),
    /// So many headers and data bytes.
    Nodes(u32),
}

/// What can stand in the place of a token that was refused.
#[derive(Clone, Copy, PartialEq, Eq)]
pub enum Expected {
    /// The two tokens with which a text begins.
    Version,
    /// An item of a plan, which is `never` in the second version alone; or the end of the text.
    Item { never: bool },
    /// An item of a brief, or the end of the text.
    BriefItem,
    /// A name that is given here.
    Name(Kind),
    /// The name of a message, or `;`.
    Sending,
    /// The name of a controller.
    Controller,
    /// `;`
    Semicolon,
    /// `write` or `read`
    Frame,
    /// An address of a plan, some of whose bits may be open.
    Address,
    /// The same with no open bits.
    KnownAddress,
    /// A data byte of a plan, or what ends a message or repeats START.
    Payload,
    /// `stop` or `again`
    Tail,
    /// `else`
    Else,
    /// A count, which may be a range.
    Count { ranges: bool },
    /// An address of a brief, or the name of a device.
    Target,
    /// The same with no open bits.
    KnownTarget,
    /// The name of a device of a brief, or `;` where a group has one by then.
    Device { ends: bool },
    /// An address of a brief.
    BriefAddress,
    /// A data byte of a brief.
    BriefByte,
    /// How often a data byte stands, which may be a range.
    Times { ranges: bool },
    /// `(` or `)` around the address of `wr` or `rd`.
    Bracket { opens: bool },
    /// What stands after `else` in a brief: `stop` or `(`.
    Refusal,
    /// A controller of a brief, or a label.
    Party,
    /// What can follow a part of a message of a brief.
    Further(Further),
}

/// What can follow a part of a message of a brief, beside `write` and `read`.
#[derive(Clone, Copy, PartialEq, Eq)]
pub struct Further {
    /// `*`
    pub times: bool,
    /// `else`
    pub refusal: bool,
    /// A data byte.
    pub bytes: bool,
    /// It may be one that follows from others: `wr`, `rd`, `pec` or `sum`.
    pub made: bool,
    /// `)` in place of `;`.
    pub is_inner: bool,
}

/// A token that was refused, a character that belongs to none, or the end of a text.
#[derive(Clone, Copy, PartialEq, Eq)]
pub struct Place {
    /// Its line.
    pub line: u64,
    /// How many bytes of its line stand before it, and one.
    pub column: usize,
    /// How many bytes of the text stand before it.
    pub start: usize,
    /// How many stand before what follows it.
    pub end: usize,
    /// How many stand before what follows the token before it.
    pub before: usize,
    /// What could stand there, where something else could.
    pub expected: Option<Expected>,
    /// Of a message that is too long.
    pub over: Option<Over>,
}

/// Why a text is refused, and where.
#[derive(Clone, Copy, PartialEq, Eq)]
pub struct Refused {
    pub error: PlanError,
    /// None where an allocation failed.
    pub place: Option<Place>,
}

impl Refused {
    /// The refusal of the token that stands here in the text, where this was expected. A message may be too long by so much.
    pub fn at(
        error: PlanError,
        text: &[u8],
        spot: Spot,
        expected: Expected,
        over: Option<Over>,
    ) -> Refused
        ensures { result.error ≡ error }
    {
        Refused {
            error,
            place: place_of(error, text, spot, expected, over),
        }
    }

    /// An allocation failed.
    pub fn memory() -> Refused
        ensures { result.error ≡ PlanError.NoMemory }
    {
        Refused {
            error: PlanError::NoMemory,
            place: None,
        }
    }
}

fn place_of(
    error: PlanError,
    text: &[u8],
    spot: Spot,
    expected: Expected,
    over: Option<Over>,
) -> Option<Place> {
    let line = error.line()?;
    let start = start_of(text, spot);
    Some(Place {
        line,
        column: columns_before(text, start).saturating_add(1),
        start,
        end: end_of(text, start, text.len().saturating_sub(spot.end)),
        before: text.len().saturating_sub(spot.before),
        expected: match error {
            PlanError::NotAscii(_) | PlanError::TooLong(_) => None,
            _ => Some(expected),
        },
        over: match error {
            PlanError::TooLong(_) => over,
            _ => None,
        },
    })
}

/// How many bytes of the text stand before what stands here in it.
fn start_of(text: &[u8], spot: Spot) -> usize {
    text.len().saturating_sub(spot.start)
}

/// The place of the token on this line that stands here in the text.
pub fn token_at(text: &[u8], spot: Spot, line: u64) -> TokenAt {
    TokenAt {
        start: start_of(text, spot),
        end: text.len().saturating_sub(spot.end),
        line,
    }
}

// How many bytes of its line stand before this place.
fn columns_before(text: &[u8], start: usize) -> usize {
    let mut columns = 0usize;
    for byte in text.get(..start).unwrap_or(text).iter().rev() {
        if *byte == b'\n' {
            break;
        }
        columns = columns.saturating_add(1);
    }
    columns
}

// Where a token ends. What is no token was not taken: a character, or all bytes that are not ASCII.
fn end_of(text: &[u8], start: usize, taken: usize) -> usize {
    if taken > start {
        return taken;
    }
    let mut end = start;
    for byte in text.get(start..).unwrap_or(&[]) {
        if byte.is_ascii() {
            break;
        }
        end = end.saturating_add(1);
    }
    end.max(start.saturating_add(1)).min(text.len())
}
