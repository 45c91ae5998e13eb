// Paths and messages in words.

use crate::paths::{NoPath, Sent, Step};
use crate::trees::Node;
use growing_text::{Lines, Text};
use std::alloc::{AllocError, Global};

/// The bytes of a path, as `S 48 Wr A 01 A P`. What is sent stays on one line with the answer to it.
pub(crate) fn push_path(alloc: Global, line: &mut Lines, path: &[Step]) {
    for (k, step) in path.iter().enumerate() {
        let start = if k == 0 { "S " } else { "Sr " };
        line.word_made(answered_step(alloc, step, start));
    }
    line.word("P");
}

// A header or a byte, and the answer to it.
fn answered_step(alloc: Global, step: &Step, start: &str) -> Result<String, AllocError> {
    let mut text = Text::new(alloc);
    push_sent(&mut text, start, step.sent);
    text.push(if step.refused { " NA" } else { " A" });
    if let Sent::Read(_, Some(count)) = step.sent {
        text.push(" (");
        text.push_number(u64::from(count));
        text.push(" bytes)");
    }
    text.finish()
}

// A data byte, or a header as `48 Wr` with this before it.
fn push_sent(text: &mut Text, start: &str, sent: Sent) {
    match sent {
        Sent::Write(address) => push_header(text, start, address, " Wr"),
        Sent::Read(address, _) => push_header(text, start, address, " Rd"),
        Sent::Register(byte) | Sent::Data(byte) => text.push_hex(byte),
    }
}

fn push_header(text: &mut Text, start: &str, address: u8, direction: &str) {
    text.push(start);
    text.push_hex(address);
    text.push(direction);
}

/// A data byte with its open bits, as a brief writes it.
pub(crate) fn push_data(text: &mut Text, byte: u8, known: u8) {
    if known == 0 {
        return text.push("any");
    }
    let high = nibble(byte / 16, known / 16);
    let low = nibble(byte % 16, known % 16);
    if let (Some(high), Some(low)) = (high, low) {
        text.push("0x");
        text.push_char(high);
        return text.push_char(low);
    }
    text.push("0b");
    for bit in 0..8u32 {
        let mask = 0x80u8.wrapping_shr(bit);
        text.push(if known & mask == 0 {
            "x"
        } else if byte & mask == 0 {
            "0"
        } else {
            "1"
        });
    }
}

// A digit in hex whose bits are all known, or all open.
fn nibble(value: u8, known: u8) -> Option<char> {
    match known {
        15 => char::from_digit(u32::from(value), 16),
        0 => Some('X'),
        _ => None,
    }
}

/// Why a transaction is in no message.
pub(crate) fn why(no: NoPath) -> &'static str {
    match no {
        NoPath::Broken => "a START or STOP stands in the midst of a byte, or no byte between two",
        NoPath::OddRead => "a read that does not end with its first byte that is not acknowledged",
        NoPath::OnRefused => "bytes go on after one that was not acknowledged",
        NoPath::Long => "more than 256 bytes (a read has one byte at least)",
        NoPath::Collision => "those who made its STOP have sent different bits: nobody sent this",
        NoPath::NoRoom => "a plan has at most 256 messages",
        NoPath::NoSending => "the controllers of a plan list at most 512 messages",
        NoPath::NoController => "a plan has at most 32 controllers",
        NoPath::Lost => "the message it was put into does not have it: a fault of twire",
    }
}

/// What is sent at a place of a message, and an answer to it.
pub(crate) fn answered(alloc: Global, node: &Node, answer: &str) -> Result<String, AllocError> {
    let mut text = Text::new(alloc);
    match node.sent {
        Sent::Register(byte) | Sent::Data(byte) => push_data(&mut text, byte, node.known),
        header => push_sent(&mut text, "", header),
    }
    text.push(answer);
    text.finish()
}

/// The name of a file on one line, and in the characters of a brief.
pub(crate) fn plain_word(alloc: Global, file: &str) -> Result<String, AllocError> {
    let mut text = Text::new(alloc);
    for c in file.chars() {
        let is_plain = c.is_ascii() && !c.is_control();
        text.push_char(if is_plain { c } else { '?' });
    }
    text.finish()
}
