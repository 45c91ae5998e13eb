// Slots as bytes.

use capture_check::Mark;
use growing_text::Text;
use message_tree::{Bit, Item};
use std::alloc::{AllocError, Global};

/// What a bus or a participant does from a START on, as a text of words with a blank between them.
#[derive(Drop)]
pub struct Bytes {
    text: String,
    // what the words have up to each of them
    ends: Vec<Extent>,
}

/// How many columns words have, and how many bytes end with one of them, their acknowledge.
#[derive(Clone, Copy)]
pub struct Extent {
    pub columns: usize,
    pub bytes: usize,
}

impl Bytes {
    /// The text.
    pub fn as_str(&self) -> &str {
        self.text.as_str()
    }

    /// How many words there are.
    pub fn count(&self) -> usize {
        self.ends.len()
    }

    /// What so many words at the beginning have, and all where there are not as many.
    pub fn first(&self, words: usize) -> Extent {
        let ends = self.ends.as_slice();
        match ends.get(..words).unwrap_or(ends).last() {
            Some(end) => *end,
            None => Extent {
                columns: 0,
                bytes: 0,
            },
        }
    }

    /// The word with this number, from 0 on.
    pub fn word(&self, number: usize) -> &str {
        let from = match number {
            0 => 0,
            _ => self.first(number).columns.saturating_add(1),
        };
        let end = self.first(number.saturating_add(1)).columns;
        self.as_str().get(from..end).unwrap_or("")
    }

    /// So many words at the beginning, and after them how many bytes come then.
    ///
    /// # Errors
    ///
    /// Where an allocation fails.
    pub fn until(&self, alloc: Global, words: usize, more: usize) -> Result<Bytes, AllocError> {
        let mut shown = Words::of_byte(alloc, false);
        shown.is_row = true;
        let end = self.first(words).columns;
        shown.text.push(self.as_str().get(..end).unwrap_or(""));
        for end in self.ends.iter().take(words) {
            shown.push_end(*end);
        }
        shown.word(" ..");
        shown.text.push(" ");
        shown.text.push_number(more as u64);
        shown.end_word();
        shown.word(" bytes");
        shown.word(" more");
        shown.row()
    }
}

/// What a bus or a participant does from a START on, byte by byte.
#[derive(Drop)]
pub struct Words {
    text: Text,
    // of a row, what its words have up to each of them
    ends: Vec<Extent>,
    is_row: bool,
    // how many bytes have ended
    bytes: usize,
    // Of the bits since the last whole byte: their values, and a 1 for each that is open.
    value: u8,
    open: u8,
    bits: u32,
    // whether they are those of an address with its direction
    is_header: bool,
}

/// The bytes of a transaction: a byte without its acknowledge is cut short.
///
/// # Errors
///
/// Where an allocation fails.
pub fn bytes_of(alloc: Global, marks: &[Mark]) -> Result<String, AllocError> {
    with_bytes(alloc, Text::new(alloc), marks).finish()
}

/// The text with the bytes of a transaction after it.
pub fn with_bytes(alloc: Global, text: Text, marks: &[Mark]) -> Text {
    let mut words = Words::of_byte(alloc, true);
    words.text = text;
    words.word("S");
    words.marks(marks);
    let Words { text, .. } = words;
    text
}

/// The bytes of a transaction in a row.
///
/// # Errors
///
/// Where an allocation fails.
pub fn row_of_marks(alloc: Global, marks: &[Mark]) -> Result<Bytes, AllocError> {
    let mut words = Words::new(alloc);
    words.marks(marks);
    words.row()
}

impl Words {
    /// A START, of a row.
    pub fn new(alloc: Global) -> Words {
        let mut words = Words::of_byte(alloc, true);
        words.is_row = true;
        words.word("S");
        words
    }

    /// No START: a single byte follows.
    pub fn of_byte(alloc: Global, is_header: bool) -> Words {
        Words {
            text: Text::new(alloc),
            ends: Vec::new(alloc),
            is_row: false,
            bytes: 0,
            value: 0,
            open: 0,
            bits: 0,
            is_header,
        }
    }

    // All that a recorded wire showed after its START.
    fn marks(&mut self, marks: &[Mark]) {
        for mark in marks {
            self.mark(*mark);
        }
        self.end_byte(true);
    }

    // A word, after the blank before it.
    fn word(&mut self, word: &str) {
        self.text.push(word);
        self.end_word();
    }

    // The text is at the end of a word.
    fn end_word(&mut self) {
        if self.is_row {
            let end = self.extent();
            self.push_end(end);
        }
    }

    // What it has.
    fn extent(&self) -> Extent {
        Extent {
            columns: self.text.len(),
            bytes: self.bytes,
        }
    }

    fn push_end(&mut self, end: Extent) {
        if self.ends.push(end).is_err() {
            self.text.cut();
        }
    }

    /// A bit of a byte, or the acknowledge after eight of them.
    pub fn bit(&mut self, bit: Bit) {
        if self.bits == 8 {
            self.end_byte(false);
            self.is_header = false;
            self.bytes = self.bytes.saturating_add(1);
            self.word(acknowledge(bit));
            return;
        }
        self.value = self.value << 1 | u8::from(bit == Bit::One);
        self.open = self.open << 1 | u8::from(bit == Bit::Either);
        self.bits = self.bits.saturating_add(1);
    }

    /// A repeated START.
    pub fn again(&mut self) {
        self.end_byte(true);
        self.is_header = true;
        self.word(" Sr");
    }

    /// A STOP.
    pub fn stop(&mut self) {
        self.end_byte(true);
        self.word(" P");
    }

    /// An interrupt waits for the answer to its header.
    pub fn claim(&mut self) {
        self.end_byte(false);
        self.word(" (waits)");
    }

    /// What a slot of a wire has.
    pub fn item(&mut self, item: Item) {
        match item {
            Item::Sent(bit) | Item::Heard(bit) => self.bit(known(bit)),
            Item::Again => self.again(),
            Item::Stop => self.stop(),
            Item::Claim => self.claim(),
        }
    }

    /// What a recorded wire showed.
    pub fn mark(&mut self, mark: Mark) {
        match mark {
            Mark::Level(bit) => self.bit(known(bit)),
            Mark::Again => self.again(),
            Mark::Stop => self.stop(),
        }
    }

    /// Whether a byte is begun and not all its eight bits are there.
    pub fn is_within_byte(&self) -> bool {
        self.bits != 0 && self.bits != 8
    }

    /// All words, of what may go on, in a row.
    pub fn row(mut self) -> Result<Bytes, AllocError> {
        self.end_byte(false);
        Ok(Bytes {
            text: self.text.finish()?,
            ends: self.ends,
        })
    }

    /// All words, of what may go on.
    pub fn finish(mut self) -> Result<String, AllocError> {
        self.end_byte(false);
        self.text.finish()
    }

    // A byte that is cut short is written as `0b10(cut)`, and as `d4(cut)` where it lacks its acknowledge alone.
    fn end_byte(&mut self, is_cut: bool) {
        if self.bits == 0 {
            return;
        }
        if !self.text.is_empty() {
            self.text.push(" ");
        }
        if is_cut && self.bits != 8 {
            self.text.push("0b");
        }
        if self.is_header && self.bits == 8 {
            self.push_bits(self.value >> 1, self.open >> 1, 7);
            self.end_word();
            self.text
                .push(if self.value & 1 == 1 { " Rd" } else { " Wr" });
        } else {
            self.push_bits(self.value, self.open, self.bits);
        }
        if is_cut {
            self.text.push("(cut)");
        }
        self.end_word();
        self.value = 0;
        self.open = 0;
        self.bits = 0;
    }

    // In hexadecimal digits where they are those of a byte or an address, and all are known.
    fn push_bits(&mut self, value: u8, open: u8, bits: u32) {
        if open == 0 && self.bits == 8 {
            return self.text.push_hex(value);
        }
        for k in (0..bits.min(8)).rev() {
            let place = 1u8 << k;
            self.text.push(if open & place != 0 {
                "x"
            } else if value & place != 0 {
                "1"
            } else {
                "0"
            });
        }
    }
}

/// The bit as one that is known.
pub fn known(bit: bool) -> Bit {
    if bit { Bit::One } else { Bit::Zero }
}

fn acknowledge(bit: Bit) -> &'static str {
    match bit {
        Bit::Zero => " A",
        Bit::One => " NA",
        Bit::Either => " A/NA",
    }
}
