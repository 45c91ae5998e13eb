// Who is told what a dump says, beside the two lines of the bus: of its tokens, or what further lines are. Nothing is
// proved of either but that it is safe.

use crate::probes::{Probe, Sought};
use crate::samples::{Further, Level};
use crate::words::{code_number, level_at, level_of};
use std::alloc::{AllocError, Global};

// How many lines can be followed: a bit of a mask for each.
const MOST: u32 = 32;

// How many bytes there are.
const BYTES: usize = 256;

/// Who is told of the tokens of a dump as they are read, of each that is not refused.
pub trait Tokens {
    /// The next token.
    #[inline(always)]
    fn token(&mut self, _token: &[u8]) {}
}

/// Nobody is told.
#[derive(Drop)]
pub struct Nobody;

impl Tokens for Nobody {}

/// Who is told of the changes in a dump as it takes them, and of its signals.
pub(crate) trait Bystander {
    /// A `$var` of one bit, or of another number, has this reference and this code.
    fn declare(&mut self, one_bit: bool, reference: &[u8], code: &[u8]);

    /// A change of one value: the whole token.
    fn change(&mut self, token: &[u8], time: u64);

    /// The digits of a vector, whose code comes next.
    fn digits(&mut self, digits: &[u8]);

    /// The code of a vector.
    fn change_of_vector(&mut self, code: &[u8], time: u64);
}

impl Bystander for Nobody {
    #[inline(always)]
    fn declare(&mut self, _one_bit: bool, _reference: &[u8], _code: &[u8]) {}

    #[inline(always)]
    fn change(&mut self, _token: &[u8], _time: u64) {}

    #[inline(always)]
    fn digits(&mut self, _digits: &[u8]) {}

    #[inline(always)]
    fn change_of_vector(&mut self, _code: &[u8], _time: u64) {}
}

// One line: how its `$var` is found, the code that this gives it (empty until it has come) and the number of that, if it has
// one, and its bit.
#[derive(Drop)]
struct Line {
    sought: Sought,
    code: Vec<u8>,
    number: u32,
    bit: u32,
}

impl Line {
    // Whether it has this code, which has this number, or 0.
    #[inline(always)]
    fn has(&self, code: &[u8], number: u32) -> bool {
        number == self.number && (number != 0 || code == self.code.as_slice())
    }
}

// The levels of all lines: those in neither mask are high.
#[derive(Clone, Copy, PartialEq, Eq)]
struct Levels {
    low: u32,
    unknown: u32,
}

const HIGH: Levels = Levels { low: 0, unknown: 0 };

impl Levels {
    // The lines with these bits have this level now.
    #[inline(always)]
    fn put(&mut self, bits: u32, level: Level) {
        let low = if level == Level::Low { bits } else { 0 };
        let unknown = if level == Level::Unknown { bits } else { 0 };
        self.low = self.low & !bits | low;
        self.unknown = self.unknown & !bits | unknown;
    }
}

/// Further lines, and what they have been.
///
/// Few tokens of a dump are changes of these lines, so nothing is done at any other but to see that: a time stamp is closed
/// where a line changes after it, or what was read is asked for.
pub(crate) struct FurtherLines {
    lines: Vec<Line>,
    // which bytes end the code of a line: a change of another signal is mostly passed over by this alone
    ends: [bool; BYTES],
    // which lines have a code of this one character
    of_byte: [u32; BYTES],
    // the levels before the time stamp in which a line changed last, and since then
    before: Levels,
    now: Levels,
    time: u64,
    // the last digit of the vector whose code comes next, and all of them where a line is not the rightmost one of its signal
    digit: u8,
    digits: Vec<u8>,
    is_wide: bool,
    pub(crate) given: Vec<Further>,
}

// Written out, so that one call lets it go.
impl Drop for FurtherLines {
    fn drop(self) {
        let Self {
            lines: _,
            ends: _,
            of_byte: _,
            before: _,
            now: _,
            time: _,
            digit: _,
            digits: _,
            is_wide: _,
            given: _,
        } = self;
    }
}

impl FurtherLines {
    /// The lines of these probes, before the first token.
    pub(crate) fn new(alloc: Global, probes: &[Probe<'_>]) -> Result<FurtherLines, AllocError> {
        let mut lines = Vec::new(alloc);
        let mut unknown = HIGH;
        let mut is_wide = false;
        for (number, probe) in probes.iter().enumerate() {
            let bit = bit_of(number);
            unknown.put(bit, Level::Unknown);
            let sought = Sought::new(alloc, *probe)?;
            is_wide = is_wide || sought.place() != 0;
            lines.push(Line {
                sought,
                code: Vec::new(alloc),
                number: 0,
                bit,
            })?;
        }
        Ok(FurtherLines {
            lines,
            ends: [false; BYTES],
            of_byte: [0; BYTES],
            before: unknown,
            now: unknown,
            time: 0,
            digit: b'x',
            digits: Vec::new(alloc),
            is_wide,
            given: Vec::new(alloc),
        })
    }

    /// Makes room for all that a piece of so many bytes can leave, where no token has more than so many. A failure changes
    /// nothing.
    pub(crate) fn reserve(&mut self, bytes: usize, token: usize) -> Result<(), AllocError> {
        for line in self.lines.iter_mut() {
            if line.code.is_empty() {
                line.code.reserve(token)?;
            }
        }
        self.digits.reserve(token)?;
        // a change has two bytes at least, and the end of the piece or of the dump gives one more
        self.given.reserve((bytes / 2).saturating_add(2))
    }

    /// The time stamp in which a line changed last is closed.
    pub(crate) fn end(&mut self) {
        if self.now != self.before {
            let Levels { low, unknown } = self.now;
            self.before = self.now;
            // (there is room)
            let _ = self.given.push(Further {
                time: self.time,
                low,
                unknown,
            });
        }
    }

    /// The dump has come to this time: a later one closes the time stamp.
    #[inline(always)]
    pub(crate) fn reach(&mut self, time: u64) {
        if time != self.time {
            self.end();
            self.time = time;
        }
    }

    // Whether a line has a code that ends as this token does.
    #[inline(always)]
    fn may_change(&self, token: &[u8]) -> bool {
        match token.last() {
            Some(last) => self.ends[*last as usize],
            None => false,
        }
    }

    // The lines that have this code.
    #[inline(always)]
    fn bits_of(&self, code: &[u8]) -> u32 {
        match code {
            [byte] => self.of_byte[*byte as usize],
            _ => self.bits_of_longer(code),
        }
    }

    // The same of a code of several characters.
    fn bits_of_longer(&self, code: &[u8]) -> u32 {
        let number = code_number(code);
        let mut bits = 0u32;
        for line in self.lines.iter() {
            if line.has(code, number) {
                bits |= line.bit;
            }
        }
        bits
    }

    // A change of one value, where a line may have the code.
    #[inline(never)]
    fn put_value(&mut self, token: &[u8], time: u64) {
        if let Some((value, code)) = token.split_first()
            && let Some(level) = level_of(*value)
        {
            let bits = self.bits_of(code);
            if bits != 0 {
                self.reach(time);
                self.now.put(bits, level);
            }
        }
    }

    // The lines with this code have the levels that the digits say of them.
    #[inline(never)]
    fn put_digits(&mut self, code: &[u8], time: u64) {
        let bits = self.bits_of(code);
        if bits == 0 {
            return;
        }
        self.reach(time);
        for line in self.lines.iter() {
            if bits & line.bit != 0 {
                let place = line.sought.place();
                let level = level_in(place, self.digit, self.digits.as_slice());
                self.now.put(line.bit, level);
            }
        }
    }
}

impl Bystander for FurtherLines {
    #[inline(never)]
    fn declare(&mut self, one_bit: bool, reference: &[u8], code: &[u8]) {
        for line in self.lines.iter_mut() {
            if line.code.is_empty() && line.sought.is_declared_by(one_bit, reference, code) {
                // (there is room)
                let _ = line.code.extend_from_slice(code);
                line.number = code_number(code);
                if let Some(last) = code.last() {
                    self.ends[*last as usize] = true;
                }
                if let [byte] = code {
                    self.of_byte[*byte as usize] |= line.bit;
                }
            }
        }
    }

    #[inline(always)]
    fn change(&mut self, token: &[u8], time: u64) {
        if self.may_change(token) {
            self.put_value(token, time);
        }
    }

    #[inline(always)]
    fn digits(&mut self, digits: &[u8]) {
        if let Some(last) = digits.last() {
            self.digit = *last;
        }
        if self.is_wide {
            self.digits.clear();
            // (there is room)
            let _ = self.digits.extend_from_slice(digits);
        }
    }

    #[inline(always)]
    fn change_of_vector(&mut self, code: &[u8], time: u64) {
        if self.may_change(code) {
            self.put_digits(code, time);
        }
    }
}

// What a vector says of the bit that stands so many places to the left of the rightmost, whose digit this is. Where all lines are
// the rightmost ones of their signals, no more digits are kept.
fn level_in(place: u32, last: u8, digits: &[u8]) -> Level {
    if place == 0 {
        level_at(0, &[last])
    } else {
        level_at(place, digits)
    }
}

fn bit_of(number: usize) -> u32 {
    match u32::try_from(number) {
        Ok(number) if number < MOST => 1u32.wrapping_shl(number),
        _ => 0,
    }
}
