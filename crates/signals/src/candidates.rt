// The signals among which pairs are looked for that look like the two lines of a bus: 256 at most, and first those with names
// as `scl` and `sda`.

use crate::masks::MOST;
use std::alloc::{AllocError, Global};

/// The numbers of the candidates, in order.
#[derive(Drop)]
pub(crate) struct Candidates {
    numbers: Vec<usize>,
    // for each number its place among them
    places: Vec<Option<usize>>,
}

impl Candidates {
    /// How many there are.
    pub(crate) fn count(&self) -> usize {
        self.numbers.len()
    }

    /// The number of the candidate at this place.
    pub(crate) fn number(&self, place: usize) -> usize {
        self.numbers.get(place).copied().unwrap_or(0)
    }

    /// The place of the signal with this number, where it is one of them.
    pub(crate) fn place(&self, number: usize) -> Option<usize> {
        *self.places.get(number)?
    }
}

/// Signals, as they are chosen.
#[derive(Drop)]
pub(crate) struct Choosing {
    are_chosen: Vec<bool>,
    count: usize,
}

impl Choosing {
    /// None of so many signals is chosen.
    pub(crate) fn new(alloc: Global, signals: usize) -> Result<Choosing, AllocError> {
        Ok(Choosing {
            are_chosen: vec![in alloc; false; signals]?,
            count: 0,
        })
    }

    /// Chooses a signal, where there is room for it.
    pub(crate) fn choose(&mut self, number: usize) {
        if let Some(is_chosen) = self.are_chosen.get_mut(number)
            && !*is_chosen
            && self.count < MOST
        {
            *is_chosen = true;
            self.count = self.count.saturating_add(1);
        }
    }

    /// All that were chosen.
    pub(crate) fn finish(self, alloc: Global) -> Result<Candidates, AllocError> {
        let mut numbers = Vec::new(alloc);
        let mut places = Vec::new(alloc);
        for (number, is_chosen) in self.are_chosen.iter().enumerate() {
            if *is_chosen {
                places.push(Some(numbers.len()))?;
                numbers.push(number)?;
            } else {
                places.push(None)?;
            }
        }
        Ok(Candidates { numbers, places })
    }
}

/// Whether a name has that of one of the lines in it, in letters of either case.
pub(crate) fn is_like_line(name: &[u8]) -> bool {
    for from in 0..name.len() {
        let end = from.saturating_add(3);
        let part = name.get(from..end).unwrap_or(&[]);
        if part.eq_ignore_ascii_case(b"scl") || part.eq_ignore_ascii_case(b"sda") {
            return true;
        }
    }
    false
}
