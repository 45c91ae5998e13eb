// What a word says by itself: an address or a data byte, what stands after `*`, and the halves of a label.

ghost use Rattle.std.specs.Prelude.{◌≡◌, ◌≢◌, ◌<◌, ◌≤◌, ◌++◌, ℕ, List, map, length, IfSome, MatchOption, None, Some};
ghost use Rattle.std.specs.List.{prefix_len};
ghost use Rattle.std.specs.Option.{option_map};
ghost use Rattle.message_tree.specs.Bits.{bits_below};
ghost use Rattle.message_tree.specs.Patterns.{address_bits, pattern_bits};
ghost use Rattle.plan_text.specs.Symbols.{bit_symbol};
ghost use Rattle.plan_text.specs.Words.{around_dots};
ghost use Rattle.brief_text.specs.Reading.{repetition_said};
ghost use Rattle.brief_text.specs.Words.{data_by, address_by, digit_bits, hex_bits, known_number, repetition_by, range_by};
ghost use Rattle.brief_text.specs.Words.{around_slash, is_no_slash, known_byte_by};

use crate::numbers::{Digits, digits_of};
use message_tree::{Address, Bit, Pattern};
use plan_text::words;

/// The eight bits of a data byte.
pub(crate) fn data(word: &[u8]) -> Option<Pattern>
    ensures { result ≡ data_by word.now }
{
    if let Some(bits) = after(b"0b", word) {
        return words::pattern(bits);
    }
    let digits = after(b"0x", word)?;
    let bits = byte(digits)?;
    Some(Pattern::new(bits.known, bits.value))
}

/// The seven bits of an address.
pub(crate) fn address(word: &[u8]) -> Option<Address>
    ensures { result ≡ address_by word.now }
{
    if let Some(bits) = after(b"0b", word) {
        return words::address(bits);
    }
    let digits = after(b"0x", word)?;
    let bits = byte(digits)?;
    if bits.known >= 128 && bits.value >= 128 {
        return None;
    }
    Some(Address::new(bits.known, bits.value))
}

/// The number of an address that is known in all bits.
pub(crate) fn known_address(address: &Address) -> Option<u8>
    ensures read { result ≡ known_number 0 (address_bits address.now) }
    ensures small { IfSome result (λ it. it < 128) }
{
    let mut number = 0u8;
    for place in 0..7u8 {
        number = match address.bit(place) {
            Bit::Zero => number * 2,
            Bit::One => number * 2 + 1,
            Bit::Either => return None,
        };
    }
    Some(number)
}

/// The number of a data byte that is known in all bits.
pub(crate) fn known_byte(bits: &Pattern) -> Option<u8>
    ensures read { result ≡ known_number 0 (pattern_bits bits.now) }
{
    let mut number = 0u8;
    for place in 0..8u8 {
        number = match bits.bit(place) {
            Bit::Zero => number * 2,
            Bit::One => number * 2 + 1,
            Bit::Either => return None,
        };
    }
    Some(number)
}

/// The number of the data byte that a word spells out, where all its bits are known.
pub(crate) fn known_data(word: &[u8]) -> Option<u8>
    ensures { result ≡ known_byte_by word.now }
{
    let bits = data(word)?;
    known_byte(&bits)
}

/// The symbol of a bit in a plan text.
pub(crate) fn symbol(bit: Bit) -> u8
    ensures { result ≡ bit_symbol bit }
{
    match bit {
        Bit::Zero => b'0',
        Bit::One => b'1',
        Bit::Either => b'x',
    }
}

// What follows these two bytes at the front of a word.
fn after<'a>(front: &[u8; 2], word: &'a [u8]) -> Option<&'a [u8]>
    ensures { MatchOption result ((rest : List ℕ) → front.now ++ rest ≢ word.now) (λ it. front.now ++ it.now ≡ word.now) }
{
    word.strip_prefix(front.as_slice())
}

// Bits, of which some are known: there `known` has a 1.
#[derive(Clone, Copy)]
struct Mask {
    known: u8,
    value: u8,
}

// The bits of two digits.
fn byte(digits: &[u8]) -> Option<Mask>
    ensures known { IfSome result (λ it. it.known < 256) }
    ensures value { IfSome result (λ it. it.value < 256) }
    ensures bits { MatchOption result (hex_bits digits.now ≡ None)
        (λ it. hex_bits digits.now ≡ Some (map bit_symbol (bits_below 8 it.known it.value))) }
{
    let [high, low] = digits else {
        return None;
    };
    let high = digit(*high)?;
    let low = digit(*low)?;
    Some(Mask {
        known: high.known * 16 + low.known,
        value: high.value * 16 + low.value,
    })
}

// The four bits of a digit.
#[tactic(auto, unfolding(crate::specs::Words::digit_bits))]
fn digit(byte: u8) -> Option<Mask>
    ensures bits { MatchOption result (digit_bits byte ≡ None)
        (λ it. digit_bits byte ≡ Some (map bit_symbol (bits_below 4 it.known it.value))) }
    ensures known { IfSome result (λ it. it.known < 16) }
    ensures value { IfSome result (λ it. it.value < 16) }
{
    if byte == b'X' {
        return Some(Mask { known: 0, value: 0 });
    }
    let value = (byte as char).to_digit(16)?;
    Some(Mask {
        known: 15,
        value: value as u8,
    })
}

/// What stands after `*`: a number, or the ends of a range.
#[derive(Clone, Copy)]
pub(crate) enum Repetition<'a> {
    Number(Digits<'a>),
    Range(Digits<'a>, Digits<'a>),
}

/// What a word says after `*`.
#[tactic(auto, unfolding(crate::specs::Words::repetition_by))]
pub(crate) fn repetition_of(word: &[u8]) -> Option<Repetition<'_>>
    ensures { option_map repetition_said result ≡ repetition_by word.now }
{
    match digits_of(word) {
        Some(number) => Some(Repetition::Number(number)),
        None => range(word),
    }
}

// Two numbers around `..`.
fn range(word: &[u8]) -> Option<Repetition<'_>>
    ensures { option_map repetition_said result ≡ range_by (around_dots word.now) }
{
    let (least, greatest) = around_dots(word)?;
    match (digits_of(least), digits_of(greatest)) {
        (Some(least), Some(greatest)) => Some(Repetition::Range(least, greatest)),
        _ => None,
    }
}

// What stands before and after the first `.`, where another `.` follows it directly.
fn around_dots(word: &[u8]) -> Option<(&[u8], &[u8])>
    ensures { MatchOption result (around_dots word.now ≡ None)
        (λ ends. around_dots word.now ≡ Some (ends.0.now, ends.1.now)) }
{
    let dot = word.iter().position(|byte| *byte == b'.')?;
    let (before, rest) = word.split_at(dot);
    match rest {
        [b'.', b'.', after @ ..] => Some((before, after)),
        _ => None,
    }
}

/// What stands before and after the first `/`.
#[tactic(auto, unfolding(crate::specs::Words::around_slash))]
pub(crate) fn around_slash(word: &[u8]) -> Option<(&[u8], &[u8])>
    ensures { MatchOption result (around_slash word.now ≡ None)
        (λ halves. around_slash word.now ≡ Some (halves.0.now, halves.1.now)) }
{
    let slash = slash_of(word);
    if slash < word.len() {
        Some((&word[..slash], &word[slash + 1..]))
    } else {
        None
    }
}

// How many bytes stand before the first `/`.
fn slash_of(word: &[u8]) -> usize
    ensures place { result ≡ prefix_len is_no_slash word.now }
    ensures within { result ≤ length word.now }
{
    word.iter().take_while(|byte| **byte != b'/').count()
}
