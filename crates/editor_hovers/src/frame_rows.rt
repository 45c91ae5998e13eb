// The frames of a message in bytes, as documents of the bus write them, and as the page of a plan shows them.

use growing_text::Text;
use message_tree::{Address, Bit, Count, Frame, Pattern, Payload, Tail};
use std::alloc::{AllocError, Global};

// So many rows a message has at most.
const MOST: usize = 6;

// What is done after a refusal, where that is more than a STOP: these words stand before its frames.
#[derive(Drop)]
struct Turn<'a> {
    words: String,
    next: &'a Frame,
}

// A row, as far as it was made.
#[derive(Drop)]
struct Row<'a> {
    alloc: Global,
    text: Text,
    // bytes that are alike, one after another
    last: Option<Pattern>,
    times: u64,
    turns: Vec<Turn<'a>>,
}

/// Adds the rows of a message: its frames as far as they are acknowledged, and below them what is done after a refusal, where
/// that is more than a STOP.
///
/// # Errors
///
/// Where an allocation fails.
pub(crate) fn push_rows(alloc: Global, text: &mut Text, message: &Frame) -> Result<(), AllocError> {
    let mut turns = Vec::new(alloc);
    turns = push_row(alloc, text, "S", message, turns)?;
    for number in 1..MOST {
        let Some(turn) = turns.get(number.saturating_sub(1)) else {
            return Ok(());
        };
        let (words, next) = (copy_of(alloc, turn.words.as_str())?, turn.next);
        turns = push_row(alloc, text, words.as_str(), next, turns)?;
    }
    if MOST <= turns.len() {
        text.push("..\n");
    }
    Ok(())
}

fn copy_of(alloc: Global, words: &str) -> Result<String, AllocError> {
    String::from_str(alloc, words)
}

// Adds one row, which begins with these words, and answers all turns that were found up to its end.
fn push_row<'a>(
    alloc: Global,
    text: &mut Text,
    words: &str,
    message: &'a Frame,
    turns: Vec<Turn<'a>>,
) -> Result<Vec<Turn<'a>>, AllocError> {
    let mut row = Row {
        alloc,
        text: Text::new(alloc),
        last: None,
        times: 0,
        turns,
    };
    row.text.push(words);
    frame(&mut row, message)?;
    row.text.push(" P\n");
    let Row {
        text: made,
        turns,
        ..
    } = row;
    text.push_made(made.finish());
    Ok(turns)
}

#[cycle(frame)]
fn frame<'a>(row: &mut Row<'a>, it: &'a Frame) -> Result<(), AllocError> {
    match it {
        Frame::Write {
            address,
            acked,
            refused,
        } => {
            row.header(address, " Wr")?;
            row.turn(address_words(row.alloc, address, " Wr")?, refused)?;
            payload(row, acked)
        }
        Frame::Read {
            address,
            count,
            after,
            refused,
        } => {
            row.header(address, " Rd")?;
            row.turn(address_words(row.alloc, address, " Rd")?, refused)?;
            row.count(count);
            tail(row, after)
        }
    }
}

#[cycle(frame)]
fn payload<'a>(row: &mut Row<'a>, it: &'a Payload) -> Result<(), AllocError> {
    match it {
        Payload::Byte {
            bits,
            acked,
            refused,
        } => {
            row.byte(bits)?;
            row.turn(byte_words(row.alloc, bits)?, refused)?;
            payload(row, acked)
        }
        Payload::Last(last) => {
            row.end_bytes()?;
            tail(row, last)
        }
    }
}

#[cycle(frame)]
fn tail<'a>(row: &mut Row<'a>, it: &'a Tail) -> Result<(), AllocError> {
    match it {
        Tail::Stop => Ok(()),
        Tail::Again(next) => {
            row.text.push(" Sr");
            frame(row, next)
        }
    }
}

impl<'a> Row<'a> {
    fn header(&mut self, address: &Address, direction: &'static str) -> Result<(), AllocError> {
        let words = address_words(self.alloc, address, direction)?;
        self.text.push(" ");
        self.text.push(words.as_str());
        self.text.push(" A");
        Ok(())
    }

    // So many bytes are read.
    fn count(&mut self, count: &Count) {
        self.text.push(" (");
        self.text.push_number(u64::from(count.least()));
        if count.least() != count.greatest() {
            self.text.push("..");
            self.text.push_number(u64::from(count.greatest()));
        }
        self.text.push(" read) NA");
    }

    fn byte(&mut self, bits: &Pattern) -> Result<(), AllocError> {
        let is_alike = match &self.last {
            Some(last) => *last == *bits,
            None => false,
        };
        if !is_alike {
            self.end_bytes()?;
            self.last = Some(*bits);
        }
        self.times = self.times.saturating_add(1);
        Ok(())
    }

    // Writes the bytes that are alike.
    fn end_bytes(&mut self) -> Result<(), AllocError> {
        if let Some(bits) = self.last {
            let words = byte_words(self.alloc, &bits)?;
            self.text.push(" ");
            self.text.push(words.as_str());
            if 1 < self.times {
                self.text.push("*");
                self.text.push_number(self.times);
            }
            self.text.push(" A");
        }
        self.last = None;
        self.times = 0;
        Ok(())
    }

    // What is done after a refusal of this.
    fn turn(&mut self, words: String, refused: &'a Tail) -> Result<(), AllocError> {
        let Tail::Again(next) = refused else {
            return Ok(());
        };
        if MOST <= self.turns.len() {
            return Ok(());
        }
        let mut text = Text::new(self.alloc);
        text.push("  ");
        text.push(words.as_str());
        text.push(" NA Sr");
        let turn = Turn {
            words: text.finish()?,
            next,
        };
        match self.turns.push(turn) {
            Ok(()) => Ok(()),
            Err(_) => Err(AllocError),
        }
    }
}

// An address with its direction: in hexadecimal digits where all its bits are known.
fn address_words(
    alloc: Global,
    address: &Address,
    direction: &'static str,
) -> Result<String, AllocError> {
    let mut bits = Bits::new(alloc);
    for k in 0..7u8 {
        bits.add(address.bit(k));
    }
    let mut words = bits.words();
    words.push(direction);
    words.finish()
}

fn byte_words(alloc: Global, byte: &Pattern) -> Result<String, AllocError> {
    let mut bits = Bits::new(alloc);
    for k in 0..8u8 {
        bits.add(byte.bit(k));
    }
    bits.words().finish()
}

// Bits, the first one first.
#[derive(Drop)]
struct Bits {
    alloc: Global,
    text: Text,
    value: u8,
    has_open: bool,
    has_known: bool,
}

impl Bits {
    fn new(alloc: Global) -> Bits {
        Bits {
            alloc,
            text: Text::new(alloc),
            value: 0,
            has_open: false,
            has_known: false,
        }
    }

    fn add(&mut self, bit: Bit) {
        let doubled = (self.value & 0x7f) << 1;
        match bit {
            Bit::Zero => {
                self.value = doubled;
                self.has_known = true;
                self.text.push("0");
            }
            Bit::One => {
                self.value = doubled | 1;
                self.has_known = true;
                self.text.push("1");
            }
            Bit::Either => {
                self.value = doubled;
                self.has_open = true;
                self.text.push("x");
            }
        }
    }

    fn words(self) -> Text {
        if !self.has_open {
            let mut digits = Text::new(self.alloc);
            digits.push_hex(self.value);
            return digits;
        }
        if !self.has_known {
            let mut any = Text::new(self.alloc);
            any.push("any");
            return any;
        }
        self.text
    }
}
