// Bits and counts as texts have them.

use growing_text::Text;
use message_tree::{Bit, Count};
use std::alloc::{AllocError, Global};

/// The bits of an address or of a data byte, each as the digit of a number in which that bit alone is 1.
#[derive(Clone, Copy, PartialEq, Eq)]
pub struct Bits {
    /// Those that are open.
    pub open: u8,
    /// Those that are known to be 1.
    pub ones: u8,
    /// The first one that is sent.
    pub first: u8,
}

impl Bits {
    /// Those of an address or of a data byte, in the order of sending.
    pub fn of(bits: &[Bit]) -> Bits {
        let mut all = Bits {
            open: 0,
            ones: 0,
            first: 0,
        };
        for bit in bits {
            all = all.and(*bit);
        }
        all
    }

    fn and(self, bit: Bit) -> Bits {
        let (open, one) = match bit {
            Bit::Zero => (0u8, 0u8),
            Bit::One => (0, 1),
            Bit::Either => (1, 0),
        };
        Bits {
            open: self.open.wrapping_mul(2) | open,
            ones: self.ones.wrapping_mul(2) | one,
            first: self.first.wrapping_mul(2).max(1),
        }
    }

    /// Those that are known to be 0.
    pub fn zeros(self) -> u8 {
        !(self.open | self.ones)
    }

    /// The same with this one known.
    pub fn with(self, bit: u8, value: bool) -> Bits {
        let ones = if value {
            self.ones | bit
        } else {
            self.ones & !bit
        };
        Bits {
            open: self.open & !bit,
            ones,
            ..self
        }
    }
}

/// Bits as a plan text has them, or as a brief: there as two hex digits where all are known.
///
/// # Errors
///
/// Where an allocation fails.
pub fn spelled_bits(alloc: Global, bits: Bits, is_plan: bool) -> Result<String, AllocError> {
    let mut text = Text::new(alloc);
    push_bits(alloc, &mut text, bits, is_plan);
    text.finish()
}

pub(crate) fn push_bits(alloc: Global, text: &mut Text, bits: Bits, is_plan: bool) {
    if bits.open == 0 && !is_plan {
        let number = bits.ones;
        return text.push_made(format!(in alloc; "0x{number:02X}"));
    }
    if !is_plan {
        text.push("0b");
    }
    let mut bit = bits.first;
    for _ in 0..8 {
        if bit != 0 {
            text.push(digit_of(bits, bit));
        }
        bit /= 2;
    }
}

fn digit_of(bits: Bits, bit: u8) -> &'static str {
    if bits.open & bit != 0 {
        "x"
    } else if bits.ones & bit != 0 {
        "1"
    } else {
        "0"
    }
}

/// How many bytes are read, as both languages have it.
///
/// # Errors
///
/// Where an allocation fails.
pub fn spelled_count(alloc: Global, count: Count) -> Result<String, AllocError> {
    let mut text = Text::new(alloc);
    text.push_number(u64::from(count.least()));
    if count.least() != count.greatest() {
        text.push("..");
        text.push_number(u64::from(count.greatest()));
    }
    text.finish()
}
