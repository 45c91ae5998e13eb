// How pairs end: each different way once, and pairs that end alike in runs, since many do.

use indexmap::IndexSet;
use order::{Order, Outcomes, Slots};
use serde::Serialize;
use std::alloc::{AllocError, Global};

/// The earliest and the latest slot in which both end, the first wins, and the second wins.
#[derive(Clone, Copy, PartialEq, Eq, Hash, Serialize)]
pub(crate) struct Way {
    #[serde(skip_serializing_if = "Option::is_none")]
    both: Option<(u32, u32)>,
    #[serde(skip_serializing_if = "Option::is_none")]
    first: Option<(u32, u32)>,
    #[serde(skip_serializing_if = "Option::is_none")]
    second: Option<(u32, u32)>,
}

/// The ways of all pairs.
#[derive(Drop)]
pub(crate) struct Ways {
    /// Each different one, in the order in which it is met.
    pub(crate) different: Vec<Way>,
    /// The pairs, in the order of their numbers.
    pub(crate) runs: Vec<Run>,
}

/// Pairs of one participant with others whose numbers follow one another, which all end alike.
#[derive(Clone, Copy)]
pub(crate) struct Run {
    /// The participant, and the first of the others.
    pub(crate) pair: (u32, u32),
    /// How many pairs they are.
    pub(crate) len: u32,
    /// Which of the different ways they end in. `None` where they have faults.
    pub(crate) way: Option<usize>,
    outcomes: Option<Outcomes>,
}

impl Ways {
    /// Those of a plan in which this is who wins.
    pub(crate) fn new(alloc: Global, order: &Order) -> Result<Ways, AllocError> {
        let mut known = IndexSet::new(alloc);
        let mut ways = Ways {
            different: Vec::new(alloc),
            runs: Vec::new(alloc),
        };
        for (pair, outcomes) in order.pairs.iter().zip(&order.ways) {
            if !ways.goes_on(*pair, outcomes) {
                ways.begin(&mut known, *pair, *outcomes)?;
            }
        }
        Ok(ways)
    }

    // Whether the last run goes on with this pair, which then counts to it.
    fn goes_on(&mut self, pair: (u32, u32), outcomes: &Option<Outcomes>) -> bool {
        match self.runs.last_mut() {
            Some(run) => run.goes_on(pair, outcomes),
            None => false,
        }
    }

    // Begins a run with this pair.
    fn begin(
        &mut self,
        known: &mut IndexSet<Way>,
        pair: (u32, u32),
        outcomes: Option<Outcomes>,
    ) -> Result<(), AllocError> {
        let way = match &outcomes {
            Some(outcomes) => Some(number_of(known, &mut self.different, way_of(outcomes))?),
            None => None,
        };
        self.runs.push(Run {
            pair,
            len: 1,
            way,
            outcomes,
        })?;
        Ok(())
    }
}

impl Run {
    fn goes_on(&mut self, pair: (u32, u32), outcomes: &Option<Outcomes>) -> bool {
        let goes_on = self.next() == pair && self.outcomes == *outcomes;
        if goes_on {
            self.len = self.len.saturating_add(1);
        }
        goes_on
    }

    // The pair that comes after these.
    fn next(&self) -> (u32, u32) {
        (self.pair.0, self.pair.1.saturating_add(self.len))
    }
}

// The number of a way, which is listed where it has not been met.
fn number_of(
    known: &mut IndexSet<Way>,
    different: &mut Vec<Way>,
    way: Way,
) -> Result<usize, AllocError> {
    match known.insert_full(way) {
        Ok((number, is_new)) => {
            if is_new {
                different.push(way)?;
            }
            Ok(number)
        }
        Err(_) => Err(AllocError),
    }
}

fn way_of(outcomes: &Outcomes) -> Way {
    Way {
        both: ends(outcomes.both),
        first: ends(outcomes.first),
        second: ends(outcomes.second),
    }
}

fn ends(slots: Option<Slots>) -> Option<(u32, u32)> {
    let Slots { earliest, latest } = slots?;
    Some((earliest, latest))
}
