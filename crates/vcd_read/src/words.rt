// What a single token says.

ghost use Rattle.std.specs.Int.Digits.{number_from_digits, AllBelowBase};
ghost use Rattle.std.specs.Prelude.{◌≡◌, ◌==◌, ◌<◌, ◌^◌, List, ◌∷◌, ℕ, length, is_some, IfSome};
ghost use Rattle.std.specs.List.{list_all};
ghost use Rattle.std.specs.Simd.Lanes.{number_l};
ghost use Rattle.vcd_read.specs.Words.{command_of, named_command, is_end, level_of, is_value, is_vector, level_at, extended, level_or_unknown};
ghost use Rattle.vcd_read.specs.Words.{is_code, is_code_byte, code_number, binary_level_of, is_digit, number_from, time_of};

use crate::samples::Level;
use std::simd::prelude::*;

/// What a token that begins with `$` is.
#[derive(Clone, Copy, PartialEq, Eq)]
pub(crate) enum Command {
    Var,
    EndDefinitions,
    /// `$dumpvars`, `$dumpall`, `$dumpoff` or `$dumpon`: value changes follow.
    Changes,
    End,
    /// A comment or any other command: what follows is skipped.
    Other,
}

/// The command that a token is.
pub(crate) fn command_of(token: &[u8]) -> Option<Command>
    ensures { result ≡ command_of token.now }
{
    let (first, _) = token.split_first()?;
    if *first == b'$' {
        Some(named_command(token))
    } else {
        None
    }
}

fn named_command(token: &[u8]) -> Command
    ensures { result ≡ named_command token.now }
{
    if is_end(token) {
        Command::End
    } else if token == b"$var".as_slice() {
        Command::Var
    } else if token == b"$enddefinitions".as_slice() {
        Command::EndDefinitions
    } else if token == b"$dumpvars".as_slice()
        || token == b"$dumpall".as_slice()
        || token == b"$dumpoff".as_slice()
        || token == b"$dumpon".as_slice()
    {
        Command::Changes
    } else {
        Command::Other
    }
}

/// Whether a token is `$end`.
pub(crate) fn is_end(token: &[u8]) -> bool
    ensures { result ≡ is_end token.now }
{
    token == b"$end".as_slice()
}

/// The level that a value stands for.
#[inline(always)]
pub(crate) fn level_of(value: u8) -> Option<Level>
    ensures { result ≡ level_of value }
{
    if let Some(level) = binary_level_of(value) {
        return Some(level);
    }
    match value {
        b'z' | b'Z' => Some(Level::High),
        b'x' | b'X' => Some(Level::Unknown),
        _ => None,
    }
}

/// The level that `0` or `1` stands for.
#[inline(always)]
pub(crate) fn binary_level_of(value: u8) -> Option<Level>
    ensures { result ≡ binary_level_of value }
{
    if value < b'0' || b'1' < value {
        return None;
    }
    // no branch, since none would be foreseen
    let levels = [Level::Low, Level::High];
    Some(levels[(value == b'1') as usize])
}

/// Whether these are the digits of a vector.
pub(crate) fn is_vector(digits: &[u8]) -> bool
    ensures { result ≡ is_vector digits.now }
{
    !digits.is_empty() && digits.iter().all(|digit| is_value(*digit))
}

#[inline(always)]
fn is_value(digit: u8) -> bool
    ensures { result ≡ is_value digit }
{
    (b'0' <= digit && digit <= b'1') || level_of(digit).is_some()
}

/// What the digits of a vector say of the bit that stands so many places to the left of the rightmost.
pub(crate) fn level_at(place: u32, digits: &[u8]) -> Level
    ensures { result ≡ level_at place digits.now }
{
    let place = place as usize;
    if place < digits.len() {
        level_or_unknown(digits[digits.len() - 1 - place])
    } else {
        extended(digits)
    }
}

fn level_or_unknown(digit: u8) -> Level
    ensures { result ≡ level_or_unknown (level_of digit) }
{
    match level_of(digit) {
        Some(level) => level,
        None => Level::Unknown,
    }
}

// The level of each bit to the left of the digits.
fn extended(digits: &[u8]) -> Level
    ensures { result ≡ extended digits.now }
{
    match digits.split_first() {
        Some((b'1', _)) => Level::Low,
        Some((digit, _)) => level_or_unknown(*digit),
        None => Level::Unknown,
    }
}

/// Whether these bytes are an identifier code.
#[inline(always)]
pub(crate) fn is_code(bytes: &[u8]) -> bool
    ensures { result ≡ is_code bytes.now }
{
    !bytes.is_empty() && bytes.iter().all(|byte| is_code_byte(*byte))
}

#[inline(always)]
fn is_code_byte(byte: u8) -> bool
    ensures { result ≡ is_code_byte byte }
{
    b'!' <= byte && byte <= b'~'
}

/// The number of an identifier code of at most three characters, and 0 for any other and for what is no code.
#[inline(always)]
pub(crate) fn code_number(code: &[u8]) -> u32
    ensures { result ≡ code_number code.now }
{
    match code {
        [a] if is_code_byte(*a) => u32::from(*a),
        [a, b] if is_code_byte(*a) && is_code_byte(*b) => u32::from(*a) + 256 * u32::from(*b),
        [a, b, c] if is_code_byte(*a) && is_code_byte(*b) && is_code_byte(*c) => {
            u32::from(*a) + 256 * (u32::from(*b) + 256 * u32::from(*c))
        }
        _ => 0,
    }
}

/// The time of a token that is `#` and digits.
#[inline(always)]
pub(crate) fn stamp_time(token: &[u8]) -> Option<u64>
    ensures { (digits : List ℕ) → token.now ≡ 35 ∷ digits → result ≡ time_of digits }
{
    if token.len() == 8 {
        // seven digits, with a zero in the place of `#`
        let zero_first = u8x8::from_array([b'0' - b'#', 0, 0, 0, 0, 0, 0, 0]);
        return eight_digits(u8x8::from_slice(token) + zero_first);
    }
    let (_, digits) = token.split_first()?;
    time_of(digits)
}

// The time that the digits write.
#[inline(always)]
fn time_of(digits: &[u8]) -> Option<u64>
    ensures { result ≡ time_of digits.now }
{
    if digits.len() < 20 {
        short_time_of(digits)
    } else {
        long_time_of(digits)
    }
}

// The same where there are so few digits that the time fits.
#[inline(always)]
fn short_time_of(digits: &[u8]) -> Option<u64>
    requires { length digits.now < 20 }
    ensures { result ≡ time_of digits.now }
{
    if digits.is_empty() {
        return None;
    }
    if digits.len() < 8 {
        return number_from(0, digits);
    }
    let first = eight_digits(u8x8::from_slice(digits))?;
    number_from(first, &digits[8..])
}

// The number that the digits write after a number.
#[inline(always)]
fn number_from(number: u64, digits: &[u8]) -> Option<u64>
    requires eight { number < 10 ^ 8 }
    requires few { length digits.now < 12 }
    ensures number { result ≡ number_from number digits.now }
    ensures fits { IfSome result (λ n. n < 2 ^ 64) }
{
    let mut number = number;
    for digit in digits {
        if *digit < b'0' || b'9' < *digit {
            return None;
        }
        number = number * 10 + u64::from(*digit - b'0');
    }
    Some(number)
}

// The number that eight digits write.
#[inline(always)]
fn eight_digits(bytes: u8x8) -> Option<u64>
    ensures number { result ≡ number_from 0 bytes }
    ensures fits { IfSome result (λ n. n < 10 ^ 8) }
{
    if others_than_digits(bytes) != 0 {
        return None;
    }
    let values = bytes - u8x8::splat(b'0');
    let [word] = u64x1::from_le_bytes(values).to_array();
    Some(value_of_eight(word))
}

// A mask of eight bytes that is 0 where all are digits.
#[inline(always)]
fn others_than_digits(bytes: u8x8) -> u64
    ensures { (result == 0) ≡ list_all is_digit bytes }
{
    let values = bytes - u8x8::splat(b'0');
    values.simd_gt(u8x8::splat(9)).to_bitmask()
}

// The number that eight digits write, each a byte, the lowest first.
#[inline(always)]
fn value_of_eight(word: u64) -> u64
    ensures { (digits : List ℕ) → length digits ≡ 8 → AllBelowBase 10 digits → word ≡ number_l 256 digits → result ≡ number_from_digits 10 digits }
{
    let pairs = word.wrapping_mul(10).wrapping_add(word >> 8);
    let odd = (pairs & 0x0000_00ff_0000_00ff).wrapping_mul(100 + (1_000_000 << 32));
    let even = ((pairs >> 16) & 0x0000_00ff_0000_00ff).wrapping_mul(1 + (10_000 << 32));
    odd.wrapping_add(even) >> 32
}

// The same of any digits.
#[inline(never)]
fn long_time_of(digits: &[u8]) -> Option<u64>
    ensures { result ≡ time_of digits.now }
{
    if digits.is_empty() {
        return None;
    }
    let mut time = 0u64;
    for digit in digits {
        if *digit < b'0' || b'9' < *digit {
            return None;
        }
        time = time.checked_mul(10)?.checked_add(u64::from(*digit - b'0'))?;
    }
    Some(time)
}
