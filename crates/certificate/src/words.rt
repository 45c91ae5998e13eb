// Numbers, wires and kinds.

ghost use Rattle.std.specs.Prelude.{◌≡◌, ◌<◌, ◌^◌, ◌+◌, ◌*◌, ◌-◌, ◌&&◌, nat_lt, true, false, MatchOption};
ghost use Rattle.std.specs.Char.{is_ascii_digit};
ghost use Rattle.certificate.specs.Reader.{item_of, kind_of_letter};

use crate::errors::CertError;
use crate::places::{Expected, Last, Next};
use crate::sources::Source;
use crate::values::Fault;
use message_tree::{Item, Kind};
use std::alloc::Global;

impl Source<'_> {
    ghost use Rattle.certificate.specs.Places.{place, parts_of, Gives};
    ghost use Rattle.certificate.specs.Reader.{number_at, digits_at, wire_at, fault_at, kind_at};

    /// A decimal number without leading zeros, below 2 to the power 32, and the byte that ends it.
    pub(crate) fn number(&mut self, end: u8) -> Result<u32, CertError>
        ensures { Gives (λ n. n) result (number_at end (place self.old)) (place self.new) }
    {
        let refusal = self.format();
        match self.take()? {
            b'0' => {
                self.this(end)?;
                Ok(0)
            }
            digit @ b'1'..=b'9' => self.digits(u32::from(digit - b'0'), end),
            _ => Err(refusal),
        }
    }

    // What follows the digits of this number, and the byte that ends it.
    fn digits(&mut self, first: u32, end: u8) -> Result<u32, CertError>
        ensures { Gives (λ n. n) result
            (digits_at first end (place self.old).line (place self.old).rest) (place self.new) }
    {
        let mut number = first;
        'digits: loop {
            let refusal = self.format();
            let byte = self.take()?;
            if byte == end {
                return Ok(number);
            }
            let Some(more) = with_digit(number, byte) else {
                return Err(refusal);
            };
            number = more;
        }
    }

    /// One or more symbols of items that a wire goes on with, and a space.
    pub(crate) fn wire(&mut self, alloc: Global) -> Result<Vec<Item>, CertError>
        ensures { Gives (λ it. it.items) result (wire_at (place self.old)) (place self.new) }
    {
        let refusal = self.format();
        let Some(first) = item_of(self.take()?) else {
            return Err(refusal);
        };
        let mut wire = Vec::new(alloc);
        wire.push(first)?;
        'symbols: loop {
            let refusal = self.format();
            let symbol = self.take()?;
            if symbol == b' ' {
                return Ok(wire);
            }
            let Some(item) = item_of(symbol) else {
                return Err(refusal);
            };
            wire.push(item)?;
        }
    }

    /// A wire, two kinds and the end of the line.
    #[tactic(auto, unfolding(crate::specs::Reader::fault_at))]
    pub(crate) fn fault(&mut self, alloc: Global) -> Result<Fault, CertError>
        ensures { Gives parts_of result (fault_at (place self.old)) (place self.new) }
    {
        self.asked = self.asks(Expected::Symbol, Expected::Space(Next::Kind));
        let wire = self.wire(alloc)?;
        self.asked = self.asks(Expected::Kind, Expected::Space(Next::Kind));
        let first = self.kind()?;
        self.this(b' ')?;
        self.asked = self.asks(Expected::Kind, Expected::LineFeed(Last::Fault));
        let second = self.kind()?;
        self.this(b'\n')?;
        Ok(Fault {
            wire,
            first,
            second,
        })
    }

    /// The word of a kind.
    pub(crate) fn kind(&mut self) -> Result<Kind, CertError>
        ensures { Gives (λ kind. kind) result (kind_at (place self.old)) (place self.new) }
    {
        let refusal = self.format();
        let Some(kind) = kind_of_letter(self.take()?) else {
            return Err(refusal);
        };
        let (_, rest) = kind.word().as_bytes().split_at(1);
        self.each(rest)?;
        Ok(kind)
    }
}

// The number with one more digit, where the byte is a digit and the number has room for it.
fn with_digit(number: u32, byte: u8) -> Option<u32>
    ensures { MatchOption result
        ((is_ascii_digit byte && nat_lt (number * 10 + (byte - 48)) (2 ^ 32)) ≡ false)
        (λ n. (is_ascii_digit byte ≡ true) × (n ≡ number * 10 + (byte - 48)) × (n < 2 ^ 32)) }
{
    if !byte.is_ascii_digit() {
        return None;
    }
    number.checked_mul(10)?.checked_add(u32::from(byte - b'0'))
}

// The item of a wire that a symbol stands for.
fn item_of(symbol: u8) -> Option<Item>
    ensures { result ≡ item_of symbol }
{
    match symbol {
        b'0' => Some(Item::Sent(false)),
        b'1' => Some(Item::Sent(true)),
        b'l' => Some(Item::Heard(false)),
        b'h' => Some(Item::Heard(true)),
        b'r' => Some(Item::Again),
        _ => None,
    }
}

// The kind whose word begins with a letter.
fn kind_of_letter(letter: u8) -> Option<Kind>
    ensures { result ≡ kind_of_letter letter }
{
    match letter {
        b'd' => Some(Kind::Sent),
        b'a' => Some(Kind::Heard),
        b'r' => Some(Kind::Again),
        b's' => Some(Kind::Stop),
        b'c' => Some(Kind::Claim),
        _ => None,
    }
}
