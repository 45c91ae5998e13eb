// Data bytes that are written as numbers, where the byte of an address stands that a `brief 2` writes by `wr` or `rd`.

use crate::{Oddity, Placed, is_reserved, with_address};
use brief_tokens::{Keyword, Sign, Symbol, Token, Tokens};
use lexer::Letters;
use message_tree::Address;
use origins::{Device, Head, Kind, Language, NameAt, Span, Spans};
use plan_text::places::token_at;
use std::alloc::{AllocError, Global};

// Where a data byte stands: in a write to this address, after this many others, as far as both are known.
#[derive(Clone, Copy, PartialEq, Eq)]
struct Place {
    to: Option<Address>,
    before: Option<u32>,
}

// A data byte with which a transaction with a device begins, as a number.
#[derive(Clone, Copy)]
struct Literal<'a> {
    device: &'a Device,
    is_read: bool,
    place: Place,
    is_after_sum: bool,
    at: Placed,
}

impl Literal<'_> {
    // Whether the byte of an address stands there: after the checksum of a header, as in a request of IPMB; first in what the host
    // of an SMBus is told; or where `wr` or `rd` stands in another message to this address.
    fn is_likely(self, made: &[Place]) -> bool {
        self.is_after_sum
            || self.place.is_host_notify()
            || self.place.is_known() && made.contains(&self.place)
    }
}

impl Place {
    // First in a write to the host, where the device stands that notifies it (SMBus 3.2, 6.5.9).
    fn is_host_notify(self) -> bool {
        self.to == Some(known(HOST)) && self.before == Some(0)
    }

    fn is_known(self) -> bool {
        self.to.is_some() && self.before.is_some()
    }
}

/// Adds the bytes in briefs of the second version that are likely meant as `wr` or `rd` of one of these devices.
pub(crate) fn push_address_bytes<'a>(
    alloc: Global,
    found: &mut Vec<Oddity<'a>>,
    devices: &'a [Device],
    texts: &[Vec<u8>],
    spans: &Spans,
) -> Result<(), AllocError> {
    let mut seen = Seen::new(alloc, devices);
    for at in spans.names() {
        if at.gives(Kind::Message) && is_second(spans.head(at.span.file)) {
            seen.look_at(texts, spans, *at)?;
        }
    }
    for literal in seen.literals.iter() {
        if literal.is_likely(seen.made.as_slice()) {
            found.push(Oddity::AddressByte {
                device: literal.device,
                is_read: literal.is_read,
                at: literal.at,
            })?;
        }
    }
    Ok(())
}

fn is_second(head: Option<Head>) -> bool {
    match head {
        Some(head) => head.language == Language::Brief && head.version == 2,
        None => false,
    }
}

// What was seen in messages: where `wr` and `rd` stand, and the numbers that they could have made.
#[derive(Drop)]
struct Seen<'a> {
    devices: &'a [Device],
    made: Vec<Place>,
    literals: Vec<Literal<'a>>,
}

impl<'a> Seen<'a> {
    fn new(alloc: Global, devices: &'a [Device]) -> Seen<'a> {
        Seen {
            devices,
            made: Vec::new(alloc),
            literals: Vec::new(alloc),
        }
    }

    // Looks at the message that gets this name.
    fn look_at(
        &mut self,
        texts: &[Vec<u8>],
        spans: &Spans,
        name: NameAt,
    ) -> Result<(), AllocError> {
        let (Some(text), Some(item)) = (texts.get(name.span.file as usize), spans.item(name)) else {
            return Ok(());
        };
        let Span { file, start, .. } = name.span;
        let mut tokens = Tokens::from(text.as_slice(), Letters::Board, start, name.line);
        let mut reading = Reading::nothing();
        for _ in start..item.span.end {
            let token = tokens.next();
            if token.is_semicolon() {
                return Ok(());
            }
            let at = token_at(tokens.text(), tokens.spot(), token.line);
            let span = Span {
                file,
                start: at.start,
                end: at.end,
            };
            self.take(&mut reading, token, span)?;
        }
        Ok(())
    }

    // A further token of a message.
    fn take(
        &mut self,
        reading: &mut Reading,
        token: Token<'_>,
        span: Span,
    ) -> Result<(), AllocError> {
        let place = reading.place;
        match reading.byte_of(token, self.devices) {
            Some(Byte::Made) => self.made.push(place)?,
            Some(Byte::Number(number)) => {
                let at = Placed {
                    span,
                    line: token.line,
                };
                self.add(number, place, reading.was_after_sum, at)?;
            }
            None => {}
        }
        Ok(())
    }

    // A number in this place. It matters where a device has the address.
    fn add(
        &mut self,
        number: u8,
        place: Place,
        is_after_sum: bool,
        at: Placed,
    ) -> Result<(), AllocError> {
        if let Some(device) = with_header(self.devices, number) {
            self.literals.push(Literal {
                device,
                is_read: number & 1 == 1,
                place,
                is_after_sum,
                at,
            })?;
        }
        Ok(())
    }
}

// The first of these devices whose transactions begin with this byte. Reserved addresses do not count.
fn with_header(devices: &[Device], byte: u8) -> Option<&Device> {
    let address = known(byte / 2);
    if is_reserved(address) {
        return None;
    }
    with_address(devices, address)
}

// ---- the tokens of a message

// A data byte that is looked at.
#[derive(Clone, Copy)]
enum Byte {
    // `wr` or `rd`
    Made,
    Number(u8),
}

// What the token before asks for.
#[derive(Clone, Copy, PartialEq, Eq)]
enum After {
    // an address, of a write or of a read
    Write,
    Read,
    // an address between brackets
    Made,
    // a number or a range
    Star,
    // `stop` or a bracket
    Else,
    // so many brackets are open in what follows a NACK, which is passed over
    Inner(u32),
    Other,
}

// How far a message was read.
#[derive(Clone, Copy)]
struct Reading {
    // where its next data byte stands
    place: Place,
    is_after_sum: bool,
    // the same of the last one
    was_after_sum: bool,
    is_write: bool,
    after: After,
}

impl Reading {
    fn nothing() -> Reading {
        Reading {
            place: NOWHERE,
            is_after_sum: false,
            was_after_sum: false,
            is_write: false,
            after: After::Other,
        }
    }

    // Takes a further token. What it is, where that is looked at.
    fn byte_of(&mut self, token: Token<'_>, devices: &[Device]) -> Option<Byte> {
        match self.after {
            After::Inner(open) => {
                self.after = inner_after(open, token.symbol);
                None
            }
            After::Made => {
                self.after = made_after(token.symbol);
                None
            }
            After::Else => {
                self.after = else_after(token.symbol);
                None
            }
            _ => self.byte_at(token.symbol, devices),
        }
    }

    fn byte_at(&mut self, symbol: Symbol<'_>, devices: &[Device]) -> Option<Byte> {
        match symbol {
            Symbol::Keyword(keyword) => self.take_keyword(keyword),
            Symbol::Word(word) => self.take_word(word, devices),
            Symbol::Sign(Sign::Star) => {
                self.after = After::Star;
                None
            }
            _ => None,
        }
    }

    fn take_keyword(&mut self, keyword: Keyword) -> Option<Byte> {
        match keyword {
            Keyword::Write => self.after = After::Write,
            Keyword::Read => self.after = After::Read,
            Keyword::Else => self.after = After::Else,
            Keyword::Wr | Keyword::Rd => {
                self.pass(1, false);
                self.after = After::Made;
                return Some(Byte::Made);
            }
            Keyword::Sum => self.pass(1, true),
            Keyword::Pec | Keyword::Any => self.pass(1, false),
            _ => {}
        }
        None
    }

    fn take_word(&mut self, word: &[u8], devices: &[Device]) -> Option<Byte> {
        let after = self.after;
        self.after = After::Other;
        match after {
            After::Write => {
                self.begin(Some(word), devices);
                None
            }
            After::Read => {
                self.begin(None, devices);
                None
            }
            After::Star => {
                self.repeat(word);
                None
            }
            _ if self.is_write => {
                self.pass(1, false);
                Some(Byte::Number(number_of(word, 8)?))
            }
            _ => None,
        }
    }

    // A header of a write to this, or of a read.
    fn begin(&mut self, to: Option<&[u8]>, devices: &[Device]) {
        self.is_write = to.is_some();
        self.is_after_sum = false;
        self.place = Place {
            to: match to {
                Some(word) => address_of(word, devices),
                None => None,
            },
            before: Some(0),
        };
    }

    // So many bytes are passed, of which the last is a `sum` or not.
    fn pass(&mut self, count: u32, is_sum: bool) {
        self.was_after_sum = self.is_after_sum;
        self.is_after_sum = is_sum;
        self.place.before = match self.place.before {
            Some(before) => before.checked_add(count),
            None => None,
        };
    }

    // The last byte stands there so often. After a range no place is known.
    fn repeat(&mut self, times: &[u8]) {
        match decimal(times) {
            Some(times) => self.pass(u32::from(times).saturating_sub(1), false),
            None => self.place.before = None,
        }
    }
}

fn inner_after(open: u32, symbol: Symbol<'_>) -> After {
    match symbol {
        Symbol::Sign(Sign::Open) => After::Inner(open.saturating_add(1)),
        Symbol::Sign(Sign::Close) if open <= 1 => After::Other,
        Symbol::Sign(Sign::Close) => After::Inner(open.saturating_sub(1)),
        _ => After::Inner(open),
    }
}

fn made_after(symbol: Symbol<'_>) -> After {
    match symbol {
        Symbol::Sign(Sign::Close) => After::Other,
        _ => After::Made,
    }
}

fn else_after(symbol: Symbol<'_>) -> After {
    match symbol {
        Symbol::Sign(Sign::Open) => After::Inner(1),
        _ => After::Other,
    }
}

const NOWHERE: Place = Place {
    to: None,
    before: None,
};

// The address of the host of an SMBus.
const HOST: u8 = 0x08;

fn known(address: u8) -> Address {
    Address::new(0x7F, address)
}

// The address of a device, or one that is written as a number. Nothing of one with open bits that has no name.
fn address_of(word: &[u8], devices: &[Device]) -> Option<Address> {
    match devices
        .iter()
        .find(|device| device.name.as_str().as_bytes() == word)
    {
        Some(device) => Some(device.address),
        None => Some(known(number_of(word, 7)?)),
    }
}

// A number of two hex digits, or of so many bits.
fn number_of(word: &[u8], width: usize) -> Option<u8> {
    let word = str::from_utf8(word).ok()?;
    match word.strip_prefix("0x") {
        Some(digits) if digits.len() == 2 => u8::from_str_radix(digits, 16).ok(),
        Some(_) => None,
        None => bits_of(word.strip_prefix("0b")?, width),
    }
}

fn bits_of(bits: &str, width: usize) -> Option<u8> {
    if bits.len() != width {
        return None;
    }
    u8::from_str_radix(bits, 2).ok()
}

fn decimal(digits: &[u8]) -> Option<u8> {
    str::from_utf8(digits).ok()?.parse::<u8>().ok()
}
