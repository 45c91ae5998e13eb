// What is said of addresses and data bytes that are written as numbers or bits.

use crate::hover_words::{end_list, push_byte, push_code, push_listed};
use growing_text::Text;
use origins::{Kind, NamedTexts};
use std::alloc::{AllocError, Global};

// Bits, of which those are known that have a 1 in `known`. The others are 0 in `value`.
#[derive(Clone, Copy, PartialEq, Eq)]
struct Bits {
    known: u8,
    value: u8,
}

// All bits of an address, and all of a byte.
const SEVEN: u8 = 0x7F;

const EIGHT: u8 = 0xFF;

/// What is said of an address: whose it is, the bytes of its headers, and for what UM10204 reserves it. None of a word that is none.
///
/// # Errors
///
/// Where an allocation fails.
pub(crate) fn address_hover(
    alloc: Global,
    names: &NamedTexts<'_>,
    word: &[u8],
) -> Result<Option<String>, AllocError> {
    let Some(address) = address_of(word) else {
        return Ok(None);
    };
    let mut text = Text::new(alloc);
    text.push("address ");
    push_code(&mut text, word);
    push_devices(&mut text, names, address);
    text.push(": ");
    if address.known == SEVEN {
        push_headers(&mut text, address.value);
    } else {
        push_bits(&mut text, address, 7);
    }
    if let Some(purpose) = reserved_for(address) {
        text.push("\n\nUM10204 3.1.12 reserves it for ");
        text.push(purpose);
    }
    Ok(Some(text.finish()?))
}

// The bytes with which a write and a read begin.
fn push_headers(text: &mut Text, address: u8) {
    let header = (address & SEVEN) << 1;
    push_byte(text, header);
    text.push(" to write, ");
    push_byte(text, header | 1);
    text.push(" to read");
}

// The devices that may have the address: no bit is known in both and different.
fn push_devices(text: &mut Text, names: &NamedTexts<'_>, address: Bits) {
    let mut count = 0usize;
    for at in names.names() {
        if at.gives(Kind::Device) && !names.is_group(*at) {
            if let Some(own) = address_of(names.value(*at)) {
                if own.known & address.known & (own.value ^ address.value) == 0 {
                    text.push(if count == 0 { " of " } else { "" });
                    push_listed(text, count, names.word(*at));
                    count = count.saturating_add(1);
                }
            }
        }
    }
    end_list(text, count);
}

/// What is said of a data byte: that it begins a transaction with a device, where it is the byte of its address, and else its
/// bits, or its value. None of a word that is no byte.
///
/// # Errors
///
/// Where an allocation fails.
pub(crate) fn byte_hover(
    alloc: Global,
    names: &NamedTexts<'_>,
    word: &[u8],
) -> Result<Option<String>, AllocError> {
    let Some(byte) = bits_of(word, 8) else {
        return Ok(None);
    };
    let mut text = Text::new(alloc);
    text.push("byte ");
    push_code(&mut text, word);
    text.push(": ");
    if byte.known != EIGHT || !push_made(&mut text, names, byte.value) {
        push_other(&mut text, byte, word.starts_with(b"0x"));
    }
    Ok(Some(text.finish()?))
}

// The `wr` and `rd` that make this byte. Whether there are any.
fn push_made(text: &mut Text, names: &NamedTexts<'_>, byte: u8) -> bool {
    let address = Bits {
        known: SEVEN,
        value: byte >> 1,
    };
    let mut before = "`";
    for at in names.names() {
        if at.gives(Kind::Device) && address_of(names.value(*at)) == Some(address) {
            text.push(before);
            text.push(if byte & 1 == 1 { "rd(" } else { "wr(" });
            text.push(str::from_utf8(names.word(*at)).unwrap_or(""));
            text.push(")`");
            before = ", `";
        }
    }
    before != "`"
}

// Its bits, or its value where it is written in bits.
fn push_other(text: &mut Text, byte: Bits, is_number: bool) {
    if byte.known == EIGHT && !is_number {
        push_byte(text, byte.value);
    } else {
        push_bits(text, byte, 8);
    }
}

// So many bits, the last ones of these.
fn push_bits(text: &mut Text, bits: Bits, width: u32) {
    text.push("bits `");
    for place in (0..width.min(8)).rev() {
        let bit = 1u8 << place;
        text.push(if bits.known & bit == 0 {
            "x"
        } else if bits.value & bit == 0 {
            "0"
        } else {
            "1"
        });
    }
    text.push("`");
}

// ---- what is reserved

// For what UM10204, 3.1.12 reserves the address.
fn reserved_for(address: Bits) -> Option<&'static str> {
    for (mask, value, purpose) in RESERVED {
        if address.known & mask == mask && address.value & mask == value {
            return Some(purpose);
        }
    }
    None
}

const RESERVED: [(u8, u8, &str); 8] = [
    (
        0x7F,
        0x00,
        "the general call (to write) and the START byte (to read)",
    ),
    (0x7F, 0x01, "CBUS"),
    (0x7F, 0x02, "another bus format"),
    (0x7F, 0x03, "future purposes"),
    (0x7C, 0x04, "the controller codes of High-speed mode"),
    (0x7C, 0x78, "addresses of ten bits"),
    (0x7C, 0x7C, "the device ID"),
    (0x78, 0x00, "other purposes"),
];

// ---- numbers and bits

fn address_of(word: &[u8]) -> Option<Bits> {
    let Bits { known, value } = bits_of(word, 7)?;
    if SEVEN < value {
        return None;
    }
    Some(Bits {
        known: known & SEVEN,
        value,
    })
}

// Two digits in base 16, or so many bits: in a plan with no `0b` before them.
fn bits_of(word: &[u8], width: usize) -> Option<Bits> {
    let word = str::from_utf8(word).ok()?;
    match word.strip_prefix("0x") {
        Some(digits) => of_digits(digits.as_bytes()),
        None => of_bits(word.strip_prefix("0b").unwrap_or(word), width),
    }
}

fn of_digits(digits: &[u8]) -> Option<Bits> {
    let [high, low] = digits else {
        return None;
    };
    let (high, low) = (of_digit(*high)?, of_digit(*low)?);
    Some(Bits {
        known: high.known << 4 | low.known,
        value: high.value << 4 | low.value,
    })
}

// A digit, or an `X`, whose bits are open.
fn of_digit(digit: u8) -> Option<Bits> {
    if digit == b'X' {
        return Some(Bits { known: 0, value: 0 });
    }
    let value = u8::try_from((digit as char).to_digit(16)?).ok()?;
    Some(Bits {
        known: 0x0F,
        value: value & 0x0F,
    })
}

fn of_bits(word: &str, width: usize) -> Option<Bits> {
    if word.len() != width {
        return None;
    }
    let mut bits = Bits { known: 0, value: 0 };
    for byte in word.bytes() {
        let (known, value) = match byte {
            b'0' => (1, 0),
            b'1' => (1, 1),
            b'x' => (0, 0),
            _ => return None,
        };
        bits = Bits {
            known: bits.known << 1 | known,
            value: bits.value << 1 | value,
        };
    }
    Some(bits)
}
