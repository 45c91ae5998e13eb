// What is told of paths that are in no message.

use crate::paths::NoPath;
use crate::seen::{Odd, Sight, Sights, add_odd};
use std::alloc::{AllocError, Global};

/// What is told beside the messages of a brief.
#[derive(Drop)]
pub(crate) struct Told {
    /// The numbers of the paths of which no message tells, though there is one that has them: headers alone that were not
    /// acknowledged.
    pub(crate) alone: Vec<usize>,
    /// What is in no message, by its reasons: what is no path, and paths that are left out.
    pub(crate) odd: Vec<Odd>,
    /// By the number of a path, the number of the message that it was put into, unless it is left out.
    pub(crate) placed: Vec<Option<usize>>,
}

/// Paths that are in no message: how often they were seen, and when first.
#[derive(Drop)]
pub(crate) struct Outside {
    times: u64,
    first: u64,
}

impl Outside {
    pub(crate) fn none() -> Outside {
        Outside { times: 0, first: 0 }
    }

    pub(crate) fn add(&mut self, sight: &Sight) {
        if self.times == 0 {
            self.first = sight.first;
        }
        self.times = self.times.saturating_add(sight.times);
    }

    /// Those of the paths with these numbers that are not among the others: they are left out.
    pub(crate) fn add_others(
        &mut self,
        seen: &Sights<'_>,
        placed: &mut Vec<Option<usize>>,
        numbers: &[usize],
        had: &[usize],
    ) {
        for number in numbers {
            if let Some(sight) = seen.sights.get(*number)
                && !had.contains(number)
            {
                self.add(sight);
                if let Some(place) = placed.get_mut(*number) {
                    *place = None;
                }
            }
        }
    }

    pub(crate) fn tell(self, odds: &mut Vec<Odd>, why: NoPath) -> Result<(), AllocError> {
        if self.times > 0 {
            add_odd(odds, why, self.times, self.first)?;
        }
        Ok(())
    }
}

/// Nothing is in a message, though there was room for it.
pub(crate) fn all_lost(alloc: Global, seen: &Sights<'_>) -> Result<Told, AllocError> {
    let mut lost = Outside::none();
    for sight in seen.sights.iter() {
        lost.add(sight);
    }
    let mut odd = seen.odd.as_slice().to_vec(alloc)?;
    lost.tell(&mut odd, NoPath::Lost)?;
    Ok(Told {
        alone: Vec::new(alloc),
        odd,
        placed: Vec::new(alloc),
    })
}
