// Times as people write them.

use crate::scales::told;
use crate::units::Unit;
use std::alloc::{AllocError, Global};

/// A time: so many steps of a dump, or so many femtoseconds.
#[derive(Clone, Copy, PartialEq, Eq)]
pub enum Time {
    Steps(u64),
    Span(u128),
}

impl Time {
    /// Reads digits, which count steps of a dump; or a decimal number and a unit, directly after it or after a blank, as
    /// `538.7 us`. None for anything else, for a number whose digits before the point are not below 2 to the power 64, and for
    /// a part of a femtosecond.
    pub fn read(text: &str) -> Option<Time> {
        let (whole, rest) = digits_of(text)?;
        let number = whole.parse::<u64>().ok()?;
        if rest.is_empty() {
            return Some(Time::Steps(number));
        }
        let (decimals, unit) = match rest.strip_prefix(".") {
            Some(after) => decimals_of(after)?,
            None => ("", rest),
        };
        let unit = Unit::of(unit.strip_prefix(" ").unwrap_or(unit))?.femtoseconds();
        let whole = u128::from(number).saturating_mul(unit);
        Some(Time::Span(whole.saturating_add(part_of(unit, decimals)?)))
    }

    /// As it is written: steps as they are, and else in the greatest unit, as `538.7 us`.
    pub fn told(self, alloc: Global) -> Result<String, AllocError> {
        match self {
            Time::Steps(steps) => format!(in alloc; "{steps}"),
            Time::Span(femtoseconds) => told(alloc, femtoseconds),
        }
    }

    /// Whether it has a unit.
    pub fn has_unit(self) -> bool {
        matches!(self, Time::Span(_))
    }
}

// The digits with which a text begins, and what follows them.
fn digits_of(text: &str) -> Option<(&str, &str)> {
    let digits = text
        .bytes()
        .take_while(|byte| byte.is_ascii_digit())
        .count();
    text.split_at_checked(digits)
}

// The same where there is one at least.
fn decimals_of(text: &str) -> Option<(&str, &str)> {
    let (digits, rest) = digits_of(text)?;
    if digits.is_empty() {
        return None;
    }
    Some((digits, rest))
}

// So many parts of a unit, where none of them is less than a femtosecond.
fn part_of(unit: u128, decimals: &str) -> Option<u128> {
    let mut part = unit;
    let mut sum = 0u128;
    for byte in decimals.bytes() {
        if part.checked_rem(10)? != 0 {
            return None;
        }
        part = part.checked_div(10)?;
        let digit = u128::from(byte.saturating_sub(b'0'));
        sum = sum.saturating_add(part.saturating_mul(digit));
    }
    Some(sum)
}
