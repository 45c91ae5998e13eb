// Which token was taken last, and what could stand there: for refusals alone.

ghost use Rattle.std.specs.Prelude.{◌≡◌};

use brief_tokens::{Keyword, Sign, Symbol, Token};
use plan_text::places::{Further, Kind, Over, Spot};
use plan_text::{Expected, PlanError, Refused};

/// What a token is to be, where it is taken.
#[derive(Clone, Copy, PartialEq, Eq)]
pub(crate) enum Wanted {
    Item,
    Name,
    Controller,
    Device,
    Sending,
    Party,
    Address,
    Byte,
    KnownTarget,
    Frame,
    Target,
    Count,
    Data,
    /// A byte that follows from others or is a choice.
    Made,
    /// The parentheses of its address.
    OpenAddress,
    CloseAddress,
    /// What follows its `any`, and what is not chosen.
    But,
    Excepted,
    Star,
    Times { ranges: bool },
    Else,
    /// What stands after `else`, where data bytes may follow that.
    Refusal { bytes: bool },
    Close { bytes: bool },
    End,
}

/// The token that was taken last, and what it and the one before it were to be.
#[derive(Clone, Copy)]
pub(crate) struct Trace {
    spot: Spot,
    wanted: Wanted,
    before: Wanted,
    // in how many brackets the token stands
    depth: u32,
    // what the item gives a name to
    item: Kind,
    // whether bytes may follow from others
    made: bool,
}

impl Trace {
    /// Nothing was taken of a text, in which bytes may follow from others or not.
    pub(crate) fn new(made: bool) -> Trace {
        Trace {
            spot: Spot {
                before: 0,
                start: 0,
                end: 0,
            },
            wanted: Wanted::Item,
            before: Wanted::Item,
            depth: 0,
            item: Kind::Message,
            made,
        }
    }

    /// After this token, which stands here and is to be this.
    pub(crate) fn taken(self, token: Token<'_>, spot: Spot, wanted: Wanted) -> Trace {
        let depth = match (wanted, token.symbol) {
            (Wanted::Refusal { .. }, Symbol::Sign(Sign::Open)) => self.depth.saturating_add(1),
            (Wanted::Close { .. }, Symbol::Sign(Sign::Close)) => self.depth.saturating_sub(1),
            _ => self.depth,
        };
        Trace {
            spot,
            wanted,
            before: self.wanted,
            depth,
            item: match wanted {
                Wanted::Item => kind_of(token).unwrap_or(self.item),
                _ => self.item,
            },
            made: self.made,
        }
    }

    /// The refusal of the token that was taken last. A message may be too long by so much.
    pub(crate) fn refused(&self, error: PlanError, text: &[u8], over: Option<Over>) -> Refused
        ensures { result.error ≡ error }
    {
        Refused::at(error, text, self.spot, self.expected(), over)
    }

    fn expected(&self) -> Expected {
        match self.wanted {
            Wanted::Item => Expected::BriefItem,
            Wanted::Name => Expected::Name(self.item),
            Wanted::Controller => Expected::Controller,
            Wanted::Device => Expected::Device {
                ends: self.before == Wanted::Device,
            },
            Wanted::Sending => Expected::Sending,
            Wanted::Party => Expected::Party,
            Wanted::Address => Expected::BriefAddress,
            Wanted::Byte => Expected::BriefByte,
            Wanted::KnownTarget => Expected::KnownTarget,
            Wanted::Frame => Expected::Frame,
            Wanted::Target => Expected::Target,
            Wanted::Count => Expected::Count { ranges: true },
            Wanted::Times { ranges } => Expected::Times { ranges },
            Wanted::Refusal { .. } => Expected::Refusal,
            // what is taken where it stands is never refused
            Wanted::Star | Wanted::Else => Expected::Semicolon,
            Wanted::OpenAddress => Expected::Bracket { opens: true },
            Wanted::CloseAddress => Expected::Bracket { opens: false },
            Wanted::Excepted => Expected::BriefByte,
            Wanted::Data | Wanted::Made | Wanted::But | Wanted::Close { .. } | Wanted::End => {
                self.further()
            }
        }
    }

    // What can follow the token before, where that is a part of a message.
    fn further(&self) -> Expected {
        let (times, refusal, bytes) = match self.before {
            Wanted::Target | Wanted::Times { .. } => (false, true, true),
            Wanted::Data => (true, true, true),
            Wanted::Made | Wanted::CloseAddress | Wanted::Excepted => (false, true, true),
            Wanted::Count => (false, true, false),
            Wanted::Refusal { bytes } | Wanted::Close { bytes } => (false, false, bytes),
            _ => return Expected::Semicolon,
        };
        Expected::Further(Further {
            times,
            refusal,
            bytes,
            made: self.made,
            is_inner: self.depth != 0,
        })
    }
}

// What an item that begins with this token gives a name to. Groups have names among those of devices.
fn kind_of(token: Token<'_>) -> Option<Kind> {
    match token.symbol {
        Symbol::Keyword(Keyword::Group) => Some(Kind::Device),
        _ => token.kind(),
    }
}
