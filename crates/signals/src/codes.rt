// Signals, found again by their codes.

use std::alloc::{AllocError, Global};
use std::collections::BTreeMap;

// How many codes of up to three characters there are, with the gaps that make their numbers quick to find.
const SHORT: usize = 95 * 95 * 95;

/// The number of each code, in the order in which the codes first came.
#[derive(Drop)]
pub(crate) struct Codes {
    // of each short code its number and one, or 0
    short: Vec<u32>,
    long: BTreeMap<Vec<u8>, u32>,
    count: u32,
}

impl Codes {
    /// No code yet.
    pub(crate) fn new(alloc: Global) -> Result<Codes, AllocError> {
        Ok(Codes {
            short: vec![in alloc; 0u32; SHORT]?,
            long: BTreeMap::new(alloc),
            count: 0,
        })
    }

    /// How many codes there are.
    pub(crate) fn count(&self) -> u32 {
        self.count
    }

    /// The number of this code.
    pub(crate) fn number(&self, code: &[u8]) -> Option<u32> {
        match place_of(code) {
            Some(place) => self.short.get(place)?.checked_sub(1),
            None => self.long.get(code).copied(),
        }
    }

    /// The number of this code, which it gets now where it had none.
    pub(crate) fn add(&mut self, alloc: Global, code: &[u8]) -> Result<u32, AllocError> {
        if let Some(number) = self.number(code) {
            return Ok(number);
        }
        let number = self.count;
        self.count = self.count.saturating_add(1);
        match place_of(code) {
            Some(place) => {
                if let Some(short) = self.short.get_mut(place) {
                    *short = self.count;
                }
            }
            None => {
                let code = code.to_vec(alloc)?;
                if self.long.insert(code, number).is_err() {
                    return Err(AllocError);
                }
            }
        }
        Ok(number)
    }
}

// Where a code of up to three characters has its number.
fn place_of(code: &[u8]) -> Option<usize> {
    if code.is_empty() || code.len() > 3 {
        return None;
    }
    let mut place = 0usize;
    for byte in code {
        let digit = usize::from(byte.checked_sub(b' ')?);
        if digit == 0 || digit > 94 {
            return None;
        }
        place = place.saturating_mul(95).saturating_add(digit);
    }
    Some(place)
}
