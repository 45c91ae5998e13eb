// What is wrong with a span of bytes, or with `but`, in a brief of the second version.

use crate::texts::RefusedIn;
use plan_text::Expected;

const SECOND: &str = "a message has one choice or one range, and this would be its second";

const BUT: &str = "'but' follows 'any' alone, and a message has one choice or one range";

const FORM: &str = "a span is two bytes in hex, as 0x02..0x0F";

const ONE_BYTE: &str = "a name stands for one byte: spans stand in messages";

const OPEN: &str = "after 'any but' stands a byte without open bits, or a span of bytes";

/// Why the refused word cannot stand there, where it is meant as a choice.
pub(crate) fn reason_of_choice(
    refused: &RefusedIn<'_>,
    expected: Expected,
) -> Option<&'static str> {
    if !refused.is_second() {
        return None;
    }
    let word = str::from_utf8(refused.token()).ok()?;
    match expected {
        Expected::Further(further) if further.bytes && word == "but" => Some(BUT),
        Expected::Further(further) if further.bytes => reason_of_span(word, SECOND),
        // (where a byte gets a name it may have open bits)
        Expected::BriefByte if is_byte(word) => Some(OPEN),
        Expected::BriefByte => reason_of_span(word, ONE_BYTE),
        _ => None,
    }
}

// Why a span cannot stand there, where it is one for another reason than this.
fn reason_of_span(word: &str, reason: &'static str) -> Option<&'static str> {
    let (least, greatest) = word.split_once("..")?;
    if is_end(least) && is_end(greatest) {
        Some(reason)
    } else {
        least.as_bytes().first()?.is_ascii_digit().then_some(FORM)
    }
}

// Whether this is one end of a span.
fn is_end(word: &str) -> bool {
    match word.strip_prefix("0x") {
        Some(digits) => digits.len() == 2 && digits.as_bytes().iter().all(u8::is_ascii_hexdigit),
        None => false,
    }
}

// Whether this is a data byte, which may have open bits.
fn is_byte(word: &str) -> bool {
    match word.strip_prefix("0x") {
        Some(digits) => digits.len() == 2 && digits.as_bytes().iter().all(is_digit),
        None => match word.strip_prefix("0b") {
            Some(bits) => bits.len() == 8 && bits.as_bytes().iter().all(is_bit),
            None => false,
        },
    }
}

fn is_digit(digit: &u8) -> bool {
    *digit == b'X' || digit.is_ascii_hexdigit()
}

fn is_bit(bit: &u8) -> bool {
    matches!(*bit, b'0' | b'1' | b'x')
}
