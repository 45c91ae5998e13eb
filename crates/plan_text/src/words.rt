// What the words of addresses, data bytes and counts say, each by its form alone.

ghost use Rattle.std.specs.Prelude.{◌≡◌, ◌<◌, ◌≤◌, ◌^◌, length, map, is_some, IfSome, MatchOption, nat_le, true};
ghost use Rattle.std.specs.List.{list_all};
ghost use Rattle.message_tree.specs.Bits.{bit_from, bits_below};
ghost use Rattle.plan_text.specs.Symbols.{bit_symbol, address_word, pattern_word, interrupt_word};
ghost use Rattle.plan_text.specs.Words.{is_bit, is_pattern, is_known_address, is_digits, number, around_dots};
ghost use Rattle.plan_text.specs.Words.{count_ends};

use message_tree::{Address, Count, Pattern};
use std::simd::prelude::*;

/// The eight bits of a data byte: `0`, `1` or `x`.
pub fn pattern(word: &[u8]) -> Option<Pattern>
    ensures form { is_some result ≡ is_pattern 8 word.now }
    ensures bits { IfSome result (λ p. pattern_word p ≡ word.now) }
{
    if word.len() != 8 {
        return None;
    }
    let bits = eight_bits(word)?;
    Some(Pattern::new(bits.known, bits.value))
}

/// The seven bits of an address: `0`, `1` or `x`.
pub fn address(word: &[u8]) -> Option<Address>
    ensures form { is_some result ≡ is_pattern 7 word.now }
    ensures bits { IfSome result (λ a. address_word a ≡ word.now) }
{
    if word.len() != 7 {
        return None;
    }
    let bits = bits(word)?;
    Some(Address::new(bits.known, bits.value))
}

/// The seven bits of an interrupt's address: `0` or `1`.
pub(crate) fn known_address(word: &[u8]) -> Option<u8>
    ensures form { is_some result ≡ is_known_address word.now }
    ensures bits { IfSome result (λ a. (interrupt_word a ≡ word.now) × (a < 128)) }
{
    if word.len() != 7 {
        return None;
    }
    let bits = bits(word)?;
    if bits.known == 0x7f {
        Some(bits.value)
    } else {
        None
    }
}

/// The ends of a count, each of digits alone: both are the word itself, or they stand around `..`.
pub fn count_ends(word: &[u8]) -> Option<CountEnds<'_>>
    ensures { MatchOption result (count_ends word.now ≡ None)
        (λ e. count_ends word.now ≡ Some (e.least.now, e.greatest.now)) }
{
    if is_digits(word) {
        return Some(CountEnds {
            least: word,
            greatest: word,
        });
    }
    let (least, greatest) = around_dots(word)?;
    if is_digits(least) && is_digits(greatest) {
        Some(CountEnds { least, greatest })
    } else {
        None
    }
}

/// The ends of a count, as they are written.
#[derive(Clone, Copy)]
pub struct CountEnds<'a> {
    least: &'a [u8],
    greatest: &'a [u8],
    ghost least_digits: { is_digits least.now ≡ true },
    ghost greatest_digits: { is_digits greatest.now ≡ true },
}

impl CountEnds<'_> {
    ghost use Rattle.message_tree.specs.Counts.{least_of, greatest_of};
    ghost use Rattle.plan_text.specs.Words.{in_range};

    /// The count, where both ends are 1 to 255 and in order.
    pub fn count(&self) -> Option<Count>
        ensures form { is_some result ≡ in_range (self.now.least.now, self.now.greatest.now) }
        ensures value { IfSome result (λ c. (least_of c ≡ number self.now.least.now) ×
            (greatest_of c ≡ number self.now.greatest.now)) }
    {
        Count::between(number(self.least)?, number(self.greatest)?)
    }
}

// The bits of a word, those of the last character lowest. `known` has a 1 where the word has `0` or `1`.
#[derive(Clone, Copy)]
struct Mask {
    known: u8,
    value: u8,
}

fn bits(word: &[u8]) -> Option<Mask>
    requires { length word.now ≤ 8 }
    ensures form { is_some result ≡ list_all is_bit word.now }
    ensures bits { IfSome result (λ m. map bit_symbol (bits_below (length word.now) m.known m.value) ≡ word.now) }
    ensures known { IfSome result (λ m. m.known < 2 ^ length word.now) }
    ensures value { IfSome result (λ m. m.value < 2 ^ length word.now) }
{
    let mut bits = Mask { known: 0, value: 0 };
    for byte in word {
        let last = bit(*byte)?;
        bits = Mask {
            known: bits.known * 2 + last.known,
            value: bits.value * 2 + last.value,
        };
    }
    Some(bits)
}

// The same of eight characters, which are looked at all at once.
#[inline(always)]
fn eight_bits(word: &[u8]) -> Option<Mask>
    requires { length word.now ≡ 8 }
    ensures form { is_some result ≡ list_all is_bit word.now }
    ensures bits { IfSome result (λ m. map bit_symbol (bits_below 8 m.known m.value) ≡ word.now) }
{
    let lowest_first = u8x8::from_slice(word).reverse();
    let ones = lowest_first.simd_eq(u8x8::splat(b'1'));
    let known = ones | lowest_first.simd_eq(u8x8::splat(b'0'));
    let bits = known | lowest_first.simd_eq(u8x8::splat(b'x'));
    if bits.to_bitmask() == 0xff {
        Some(Mask {
            known: known.to_bitmask() as u8,
            value: ones.to_bitmask() as u8,
        })
    } else {
        None
    }
}

// The bit of a single character.
fn bit(byte: u8) -> Option<Mask>
    ensures form { is_some result ≡ is_bit byte }
    ensures bit { IfSome result (λ m. bit_symbol (bit_from m.known m.value) ≡ byte) }
    ensures known { IfSome result (λ m. m.known < 2) }
    ensures value { IfSome result (λ m. m.value < 2) }
{
    let (known, value) = match byte {
        b'0' => (1, 0),
        b'1' => (1, 1),
        b'x' => (0, 0),
        _ => return None,
    };
    Some(Mask { known, value })
}

// What stands before and after the first `.`, where another `.` follows it directly.
fn around_dots(word: &[u8]) -> Option<(&[u8], &[u8])>
    ensures { MatchOption result (around_dots word.now ≡ None)
        (λ ends. around_dots word.now ≡ Some (ends.0.now, ends.1.now)) }
{
    let dot = word.iter().position(|byte| *byte == b'.')?;
    let (before, rest) = word.split_at(dot);
    match rest {
        [b'.', b'.', after @ ..] => Some((before, after)),
        _ => None,
    }
}

/// Whether the word is of digits alone, and has one.
pub fn is_digits(word: &[u8]) -> bool
    ensures { result ≡ is_digits word.now }
{
    !word.is_empty() && word.iter().all(|byte| byte.is_ascii_digit())
}

/// The number that the digits write, where it is at most 255.
pub fn number(digits: &[u8]) -> Option<u8>
    requires { is_digits digits.now ≡ true }
    ensures form { is_some result ≡ nat_le (number digits.now) 255 }
    ensures value { IfSome result (λ n. n ≡ number digits.now) }
{
    let mut number = 0u8;
    for digit in digits {
        number = number
            .checked_mul(10)?
            .checked_add(digit.checked_sub(b'0')?)?;
    }
    Some(number)
}
