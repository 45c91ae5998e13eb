// What is said of a `pec` or a `sum`: its value, in the plan that was read.

use crate::deeds::{Deed, Deeds, Found};
use crate::hover_words::push_byte;
use brief_tokens::Symbol;
use editor_texts::{Known, Reading};
use growing_text::Text;
use message_tree::{Bit, Frame, Pattern, Payload, Tail};
use origins::{Kind, NamedTexts};
use plan_core::Plan;
use std::alloc::{AllocError, Global};

/// What is said of a `pec` or a `sum`, which stands in the item of this number, after so many bytes of its text: these are the
/// tokens of the item. Its value is told where the item makes one message.
///
/// # Errors
///
/// Where an allocation fails.
pub(crate) fn check_hover(
    alloc: Global,
    known: &Known,
    names: &NamedTexts<'_>,
    place: (usize, usize),
    deeds: Deeds<'_>,
    is_sum: bool,
) -> Result<Option<String>, AllocError> {
    let (item, offset) = place;
    let bits = match &known.reading {
        Reading::Plan(read) => match message_of(&read.checked.plan, given_in(names, item)) {
            Some(message) => bits_at(alloc, message, deeds, offset)?,
            None => None,
        },
        Reading::Refused(_) => None,
    };
    let mut text = Text::new(alloc);
    text.push(if is_sum { "`sum`: " } else { "`pec`: " });
    if let Some(bits) = bits {
        push_value(&mut text, bits);
    }
    text.push(if is_sum { SUM } else { PEC });
    Ok(Some(text.finish()?))
}

const PEC: &str = "the packet error code of the bytes since START";

const SUM: &str =
    "what makes the sum of the bytes since START, or since the `sum` before it, 0 modulo 256";

fn push_value(text: &mut Text, bits: Pattern) {
    let mut value = 0u8;
    for bit in bits.bits() {
        value = match bit {
            Bit::Zero => value << 1,
            Bit::One => value << 1 | 1,
            Bit::Either => {
                return text.push("`any`, since not all bytes before it are known: ");
            }
        };
    }
    push_byte(text, value);
    text.push(", ");
}

// The name that this item gives to a message.
fn given_in<'a>(names: &NamedTexts<'a>, item: usize) -> &'a [u8] {
    for at in names.names() {
        if at.item == item && at.gives(Kind::Message) {
            return names.word(*at);
        }
    }
    &[]
}

// The message of this name, which is no family.
fn message_of<'p>(plan: &'p Plan, name: &[u8]) -> Option<&'p Frame> {
    for k in 0..plan.messages() {
        if plan.message_name(k).as_str().as_bytes() == name {
            return Some(plan.message(k));
        }
    }
    None
}

// ---- a place in a message

// What comes next on a path.
#[derive(Clone, Copy)]
enum Next<'a> {
    Frame(&'a Frame),
    Payload(&'a Payload),
    Tail(&'a Tail),
}

impl<'a> Next<'a> {
    fn frame(self) -> Option<&'a Frame> {
        match self {
            Next::Frame(frame) => Some(frame),
            Next::Payload(Payload::Last(Tail::Again(frame))) => Some(frame),
            Next::Tail(Tail::Again(frame)) => Some(frame),
            _ => None,
        }
    }

    // A byte, and what follows its ACK and its NACK.
    fn byte(self) -> Option<(Pattern, &'a Payload, &'a Tail)> {
        match self {
            Next::Payload(
                Payload::Byte {
                    bits,
                    acked,
                    refused,
                },
            ) => Some((*bits, acked, refused)),
            _ => None,
        }
    }
}

// How far the tokens of a message have come in its tree.
#[derive(Drop)]
struct Walk<'a> {
    next: Next<'a>,
    // what follows a NACK of the last header or byte
    refused: Option<&'a Tail>,
    // that byte
    last: Option<Pattern>,
    // what comes next behind each bracket that is open
    outer: Vec<Next<'a>>,
}

// The bits of the byte that stands there. None where it stands in several copies.
fn bits_at(
    alloc: Global,
    message: &Frame,
    mut deeds: Deeds<'_>,
    offset: usize,
) -> Result<Option<Pattern>, AllocError> {
    let mut walk = Walk {
        next: Next::Frame(message),
        refused: None,
        last: None,
        outer: Vec::new(alloc),
    };
    for _ in 0..deeds.left {
        let Some((found, (_, end))) = deeds.next() else {
            return Ok(None);
        };
        if walk.take(found)?.is_none() {
            return Ok(None);
        }
        if offset <= end && found.deed == Deed::Check {
            return Ok(walk.last);
        }
    }
    Ok(None)
}

impl<'a> Walk<'a> {
    // Takes a further token. None where the tree has nothing of that kind there, or several copies of what follows.
    fn take(&mut self, found: Found<'_>) -> Result<Option<()>, AllocError> {
        Ok(match found.deed {
            Deed::Header => self.begin(),
            Deed::Byte | Deed::Check => self.pass(),
            Deed::Times => self.repeat(found.symbol),
            Deed::Opens => return self.open(),
            Deed::Closes => self.close(),
            Deed::Address | Deed::Except | Deed::Other => Some(()),
        })
    }

    fn begin(&mut self) -> Option<()> {
        self.last = None;
        match self.next.frame()? {
            Frame::Write { acked, refused, .. } => {
                self.next = Next::Payload(acked);
                self.refused = Some(refused);
            }
            Frame::Read { after, refused, .. } => {
                self.next = Next::Tail(after);
                self.refused = Some(refused);
            }
        }
        Some(())
    }

    fn pass(&mut self) -> Option<()> {
        let (bits, acked, refused) = self.next.byte()?;
        self.next = Next::Payload(acked);
        self.refused = Some(refused);
        self.last = Some(bits);
        Some(())
    }

    // The last byte stands so often. What follows a NACK of it stands as often then.
    fn repeat(&mut self, symbol: Symbol<'_>) -> Option<()> {
        let Symbol::Word(word) = symbol else {
            return None;
        };
        let times = str::from_utf8(word).ok()?.parse::<u32>().ok()?;
        for _ in 1..times {
            self.pass()?;
        }
        if times != 1 {
            self.refused = None;
        }
        Some(())
    }

    fn open(&mut self) -> Result<Option<()>, AllocError> {
        let Some(refused) = self.refused else {
            return Ok(None);
        };
        self.outer.push(self.next)?;
        self.next = Next::Tail(refused);
        Ok(Some(()))
    }

    fn close(&mut self) -> Option<()> {
        self.next = self.outer.pop()?;
        self.refused = None;
        Some(())
    }
}
