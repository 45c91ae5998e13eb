// How often the participants of a plan win against each side: against a controller, or an interrupt.

use crate::orders::Order;
use arbitration::Outcomes;
use std::alloc::{AllocError, Global};

/// How pairs end for one of their two: in how many it alone can win, in how many either can, and in how many only the other;
/// in how many nobody can, since both end together; and how many are unsafe.
#[derive(Clone, Copy)]
pub struct Score {
    pub wins: u32,
    pub may_win: u32,
    pub loses: u32,
    pub alike: u32,
    pub unsafe_pairs: u32,
}

// No pair.
const NONE: Score = Score {
    wins: 0,
    may_win: 0,
    loses: 0,
    alike: 0,
    unsafe_pairs: 0,
};

impl Score {
    /// How many pairs there are.
    pub fn pairs(self) -> u32 {
        self.wins
            .saturating_add(self.may_win)
            .saturating_add(self.loses)
            .saturating_add(self.alike)
            .saturating_add(self.unsafe_pairs)
    }

    /// Whether the other can win, and this one cannot.
    pub fn never_wins(self) -> bool {
        self.wins == 0 && self.may_win == 0 && self.loses != 0
    }

    /// The same for the other of the two.
    pub fn exchanged(self) -> Score {
        Score {
            wins: self.loses,
            loses: self.wins,
            ..self
        }
    }

    // These pairs and further ones.
    fn and(self, more: Score) -> Score {
        Score {
            wins: self.wins.saturating_add(more.wins),
            may_win: self.may_win.saturating_add(more.may_win),
            loses: self.loses.saturating_add(more.loses),
            alike: self.alike.saturating_add(more.alike),
            unsafe_pairs: self.unsafe_pairs.saturating_add(more.unsafe_pairs),
        }
    }
}

/// The scores of each participant of a plan against each side.
#[derive(Drop)]
pub struct Scores {
    // by the number of the participant: that of its side
    sides: Vec<usize>,
    // how many sides there are
    count: usize,
    // by the number of the participant, and then by that of the side
    scores: Vec<Score>,
}

/// The scores of the participants of a plan. For each of them stands the number of its side, of which there are so many.
///
/// # Errors
///
/// Where an allocation fails.
pub fn scores_of(
    alloc: Global,
    order: &Order,
    sides: &[usize],
    count: usize,
) -> Result<Scores, AllocError> {
    let mut scores = Scores::new(alloc, sides, count)?;
    for (both, outcomes) in order.pairs.iter().zip(&order.ways) {
        scores.add_pair(*both, score_of(*outcomes));
    }
    Ok(scores)
}

// A pair with these outcomes, for the first of its two.
fn score_of(outcomes: Option<Outcomes>) -> Score {
    let Some(Outcomes { first, second, .. }) = outcomes else {
        return Score {
            unsafe_pairs: 1,
            ..NONE
        };
    };
    match (first.is_some(), second.is_some()) {
        (true, true) => Score { may_win: 1, ..NONE },
        (true, false) => Score { wins: 1, ..NONE },
        (false, true) => Score { loses: 1, ..NONE },
        (false, false) => Score { alike: 1, ..NONE },
    }
}

impl Scores {
    // No pair has been counted.
    fn new(alloc: Global, sides: &[usize], count: usize) -> Result<Scores, AllocError> {
        let mut own = Vec::with_capacity(alloc, sides.len())?;
        for side in sides {
            own.push(*side)?;
        }
        let scores = vec![in alloc; NONE; sides.len().saturating_mul(count)]?;
        Ok(Scores {
            sides: own,
            count,
            scores,
        })
    }

    fn add_pair(&mut self, both: (u32, u32), score: Score) {
        let (x, y) = (both.0 as usize, both.1 as usize);
        let (first, second) = (self.side_of(x), self.side_of(y));
        self.add(x, second, score);
        self.add(y, first, score.exchanged());
    }

    fn add(&mut self, p: usize, side: usize, score: Score) {
        let place = self.place(p, side);
        if let Some(sum) = self.scores.get_mut(place) {
            let before = *sum;
            *sum = before.and(score);
        }
    }

    fn place(&self, p: usize, side: usize) -> usize {
        p.saturating_mul(self.count).saturating_add(side)
    }

    fn side_of(&self, p: usize) -> usize {
        match self.sides.get(p) {
            Some(side) => *side,
            None => self.count,
        }
    }

    /// How many participants there are.
    pub fn participants(&self) -> usize {
        self.sides.len()
    }

    /// How many sides there are.
    pub fn sides(&self) -> usize {
        self.count
    }

    /// Whether a participant is of this side.
    pub fn is_of(&self, p: usize, side: usize) -> bool {
        self.side_of(p) == side
    }

    /// The score of a participant against a side.
    pub fn against(&self, p: usize, side: usize) -> Score {
        match self.scores.get(self.place(p, side)) {
            Some(score) => *score,
            None => NONE,
        }
    }

    /// The score of a participant against all sides.
    pub fn total(&self, p: usize) -> Score {
        let mut sum = NONE;
        for side in 0..self.count {
            sum = sum.and(self.against(p, side));
        }
        sum
    }

    /// The score of a side against another one.
    pub fn between(&self, one: usize, other: usize) -> Score {
        let mut sum = NONE;
        for p in 0..self.sides.len() {
            if self.is_of(p, one) {
                sum = sum.and(self.against(p, other));
            }
        }
        sum
    }
}
