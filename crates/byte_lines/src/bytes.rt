// What a transaction shows, byte by byte.

ghost use Rattle.std.specs.Prelude.{◌≡◌, ◌≤◌, ◌++◌, List, [], ◌∷◌, length, string_bytes, OnOk};
ghost use Rattle.byte_lines.specs.Bytes.{acknowledge, bits_text, byte_text, bytes_text, cut_text, marks_text, number};
ghost use Rattle.capture_check.specs.declared.listening.Mark.{Mark};
ghost use Rattle.capture_check.specs.declared.listening.Mark.TheVariants.{Level};
ghost use Rattle.growing_text.specs.Texts.{two_digits};

use capture_check::Mark;
use std::alloc::{AllocError, Global};

/// Adds the bytes of a transaction, from its START on.
pub(crate) fn push_bytes(alloc: Global, text: &mut String, marks: &[Mark]) -> Result<(), AllocError>
    ensures { OnOk result (string_bytes text.new ≡ string_bytes text.old ++ bytes_text marks.now) }
{
    text.push_str("S")?;
    let mut byte = Byte {
        bits: Vec::with_capacity(alloc, 8)?,
        is_address: true,
    };
    for mark in marks {
        byte.mark(text, *mark)?;
    }
    byte.cut(text)
}

// What has come of a byte.
#[derive(Drop)]
struct Byte {
    bits: Vec<bool>,
    // whether it is an address with its direction
    is_address: bool,
}

impl Byte {
    // The next thing that the wire showed.
    fn mark(&mut self, text: &mut String, mark: Mark) -> Result<(), AllocError>
        ensures { OnOk result ((rest : List Mark) →
            string_bytes text.new ++ marks_text self.new.is_address self.new.bits.items rest
            ≡ string_bytes text.old ++ marks_text self.old.is_address self.old.bits.items (mark ∷ rest)) }
    {
        match mark {
            Mark::Level(level) => self.level(text, level),
            Mark::Again => {
                self.cut(text)?;
                self.is_address = true;
                text.push_str(" Sr")
            }
            Mark::Stop => {
                self.cut(text)?;
                text.push_str(" P")
            }
        }
    }

    // One more bit, or the acknowledge after eight of them.
    fn level(&mut self, text: &mut String, level: bool) -> Result<(), AllocError>
        ensures { OnOk result ((rest : List Mark) →
            string_bytes text.new ++ marks_text self.new.is_address self.new.bits.items rest
            ≡ string_bytes text.old ++ marks_text self.old.is_address self.old.bits.items (Level level ∷ rest)) }
    {
        if self.bits.len() != 8 {
            self.bits.push(level)?;
            return Ok(());
        }
        text.push_str(" ")?;
        push_byte(text, self.is_address, &self.bits)?;
        text.push_str(acknowledge(level))?;
        self.bits.clear();
        self.is_address = false;
        Ok(())
    }

    // The byte ends before its acknowledge.
    #[tactic(auto, unfolding(crate::specs::Bytes::cut_text))]
    fn cut(&mut self, text: &mut String) -> Result<(), AllocError>
        ensures text { OnOk result (string_bytes text.new ≡
            string_bytes text.old ++ cut_text self.old.is_address self.old.bits.items) }
        ensures bits { OnOk result (self.new.bits.items ≡ []) }
        ensures is_address { self.new.is_address ≡ self.old.is_address }
    {
        if self.bits.is_empty() {
            return Ok(());
        }
        text.push_str(" ")?;
        if self.bits.len() == 8 {
            push_byte(text, self.is_address, &self.bits)?;
        } else {
            text.push_str("0b")?;
            push_bits(text, &self.bits)?;
        }
        text.push_str("(cut)")?;
        self.bits.clear();
        Ok(())
    }
}

fn acknowledge(level: bool) -> &'static str
    ensures { result.now ≡ acknowledge level }
{
    if level { " NA" } else { " A" }
}

// Eight bits, of an address with its direction or of a data byte.
#[tactic(auto, unfolding(crate::specs::Bytes::byte_text))]
fn push_byte(text: &mut String, is_address: bool, bits: &[bool]) -> Result<(), AllocError>
    requires { length bits.now ≡ 8 }
    ensures { OnOk result (string_bytes text.new ≡ string_bytes text.old ++ byte_text is_address bits.now) }
{
    let number = number(bits);
    if !is_address {
        return push_hex(text, number);
    }
    push_hex(text, number / 2)?;
    text.push_str(if number % 2 == 0 { " Wr" } else { " Rd" })
}

// A byte as two hexadecimal digits.
fn push_hex(text: &mut String, byte: u8) -> Result<(), AllocError>
    ensures { OnOk result (string_bytes text.new ≡ string_bytes text.old ++ two_digits byte) }
{
    write!(text, "{byte:02x}")?;
    Ok(())
}

// The number of which these bits are the digits.
fn number(bits: &[bool]) -> u8
    requires { length bits.now ≤ 8 }
    ensures { result ≡ number bits.now }
{
    let mut number = 0u8;
    for bit in bits {
        number = 2 * number + u8::from(*bit);
    }
    number
}

// Each bit as 0 or 1.
fn push_bits(text: &mut String, bits: &[bool]) -> Result<(), AllocError>
    ensures { OnOk result (string_bytes text.new ≡ string_bytes text.old ++ bits_text bits.now) }
{
    for bit in bits {
        text.push_str(if *bit { "1" } else { "0" })?;
    }
    Ok(())
}
