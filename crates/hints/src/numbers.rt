// Numbers that stand in the place of an address or of a data byte of a brief, and are none, with what would be right there.

use crate::lines::Lines;
use crate::texts::RefusedIn;
use plan_text::Expected;

/// A number that is no address, or no data byte, of a brief.
#[derive(Clone, Copy)]
pub(crate) enum Number<'a> {
    ByteSpan,
    AddressSpan,
    /// An address of ten bits, in digits of hex or as bits.
    TenBits { word: &'a str, value: u16 },
    /// One of more bits.
    Beyond,
    /// Two bytes in one word.
    TwoBytes(u16),
    /// A number without a base that says so: digits, their decimal value, and what they are in hex, if that fits too.
    Decimal(&'a str, u8, Option<u8>),
}

impl<'a> Number<'a> {
    /// What this word is in the place of an address, or else of a byte.
    pub(crate) fn of(word: &'a str, is_address: bool) -> Option<Number<'a>> {
        if let Some((first, _)) = word.split_once("..") {
            return has_digit_first(first).then_some(if is_address {
                Number::AddressSpan
            } else {
                Number::ByteSpan
            });
        }
        if let Some(bits) = word.strip_prefix("0b") {
            return Number::of_bits(word, bits, is_address);
        }
        match word.strip_prefix("0x") {
            Some(digits) => Number::of_hex(word, digits, is_address),
            None => Number::of_decimal(word, is_address),
        }
    }

    // Ten bits of an address, all of them known.
    fn of_bits(word: &'a str, bits: &str, is_address: bool) -> Option<Number<'a>> {
        if !is_address || bits.len() != 10 || !bits.as_bytes().iter().all(is_bit) {
            return None;
        }
        let value = u16::from_str_radix(bits, 2).ok()?;
        Some(Number::TenBits { word, value })
    }

    fn of_hex(word: &'a str, digits: &str, is_address: bool) -> Option<Number<'a>> {
        if !matches!(digits.len(), 3 | 4) || !has_hex_alone(digits) {
            return None;
        }
        let value = u16::from_str_radix(digits, 16).ok()?;
        Some(if !is_address {
            Number::TwoBytes(value)
        } else if value <= MOST_OF_TEN_BITS {
            Number::TenBits { word, value }
        } else {
            Number::Beyond
        })
    }

    fn of_decimal(word: &'a str, is_address: bool) -> Option<Number<'a>> {
        let most = if is_address { 0x7F } else { 0xFF };
        if !has_hex_alone(word) || is_bits(word) {
            return None;
        }
        let value = word.parse::<u8>().ok()?;
        let hex = match u8::from_str_radix(word, 16) {
            Ok(hex) if hex <= most => Some(hex),
            _ => None,
        };
        (value <= most).then_some(Number::Decimal(word, value, hex))
    }

    /// Says what would be right.
    pub(crate) fn tell(self, lines: &mut Lines) {
        match self {
            Number::ByteSpan => lines.say(
                "a brief has no spans of bytes: 'any' has all, and open bits have some, as 0x0X has 0x00 to 0x0F",
            ),
            Number::AddressSpan => lines.say(
                "a brief has no spans of addresses: open bits have some, as 0b00100xx has 0x10 to 0x13",
            ),
            Number::TenBits { word, value } => push_ten_bits(lines, word, value),
            Number::Beyond => {
                lines.say("an address has seven bits, at most 0x7F, or ten, at most 0x3FF");
            }
            Number::TwoBytes(value) => {
                let [high, low] = value.to_be_bytes();
                lines.say(format_args!(
                    "a data byte has two hex digits; two bytes are 0x{high:02X} 0x{low:02X}, in the order in which they are sent"
                ));
            }
            Number::Decimal(word, value, hex) => {
                lines.part(format_args!(
                    "addresses and bytes are written in hex: the decimal number {word} is 0x{value:02X}"
                ));
                if let Some(hex) = hex {
                    lines.part(format_args!(", and {word} in hex is 0x{hex:02X}"));
                }
                lines.end();
            }
        }
    }

    /// Notes what would be right in the place of the refused word, where this was expected.
    pub(crate) fn mend(self, lines: &mut Lines, refused: &RefusedIn<'_>, expected: Expected) {
        match self {
            Number::TenBits { value, .. } => mend_ten_bits(lines, refused, expected, value),
            Number::TwoBytes(value) => mend_two_bytes(lines, refused, expected, value),
            Number::Decimal(_, value, hex) => {
                refused.mend(lines, format_args!("0x{value:02X}"));
                if let Some(hex) = hex {
                    refused.mend(lines, format_args!("0x{hex:02X}"));
                }
            }
            Number::ByteSpan | Number::AddressSpan | Number::Beyond => {}
        }
    }
}

const MOST_OF_TEN_BITS: u16 = 0x3FF;

// The header of a ten-bit address has 11110 and its first two bits, and the byte after it the others (UM10204, 3.1.11). A
// number of seven bits may have a digit too many instead.
fn push_ten_bits(lines: &mut Lines, word: &str, value: u16) {
    let [high, low] = value.to_be_bytes();
    let header = 0x78 | high;
    lines.part("an address has seven bits, at most 0x7F");
    if value <= 0x7F {
        lines.part(format_args!(", as 0x{low:02X}"));
    }
    lines.part(format_args!("; if {word} is a ten-bit address, it is sent by '"));
    // (these words stand on one line)
    lines.word("write ");
    lines.part(format_args!("0x{header:02X}"));
    lines.word(" ");
    lines.say(format_args!(
        "0x{low:02X}', the header 0b{header:07b} and the byte 0x{low:02X} after it, as in the recipes of the guide"
    ));
}

// Notes the address of seven bits, and what sends one of ten bits where a message writes to it.
fn mend_ten_bits(lines: &mut Lines, refused: &RefusedIn<'_>, expected: Expected, value: u16) {
    let [high, low] = value.to_be_bytes();
    let header = 0x78 | high;
    if value <= 0x7F {
        refused.mend(lines, format_args!("0x{low:02X}"));
    }
    if expected == Expected::Target && refused.before().trim_ascii_end().ends_with(b"write") {
        refused.mend(lines, format_args!("0x{header:02X} 0x{low:02X}"));
    }
}

// Notes the two bytes, where several can stand, and none of them is repeated.
fn mend_two_bytes(lines: &mut Lines, refused: &RefusedIn<'_>, expected: Expected, value: u16) {
    let [high, low] = value.to_be_bytes();
    if matches!(expected, Expected::Further(_)) && !refused.is_repeated() {
        refused.mend(lines, format_args!("0x{high:02X} 0x{low:02X}"));
    }
}

fn has_digit_first(word: &str) -> bool {
    match word.as_bytes().first() {
        Some(byte) => byte.is_ascii_digit(),
        None => false,
    }
}

fn has_hex_alone(digits: &str) -> bool {
    digits.as_bytes().iter().all(u8::is_ascii_hexdigit)
}

// Whether these are the bits of an address or of a byte, which only lack what stands before them.
fn is_bits(word: &str) -> bool {
    matches!(word.len(), 7 | 8) && word.as_bytes().iter().all(is_bit)
}

fn is_bit(byte: &u8) -> bool {
    matches!(*byte, b'0' | b'1')
}
