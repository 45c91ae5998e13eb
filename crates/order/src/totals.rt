// How often each participant wins arbitration.

ghost use Rattle.std.specs.Prelude.{◌≡◌, ◌==◌, ◌&&◌, ℕ, ◌<◌, ◌^◌, Some, length, replicate, slice_get, IfOk};
ghost use Rattle.std.specs.List.{zip};
ghost use Rattle.order.specs.Counting.{AllHaveRoom, HasRoom, HasRoomAt, grown, more, none, with_meeting};
ghost use Rattle.order.specs.Totals.{first_can, second_can, totals_below};

use arbitration::Outcomes;
use std::alloc::{AllocError, Global};

/// In how many pairs a participant is the only one that can win, in how many either can, and in how many only the other.
#[derive(Clone, Copy)]
pub struct Total {
    pub wins: u32,
    pub may_win: u32,
    pub loses: u32,
}

impl Total {
    /// Whether the participant is in no pair in which somebody can win alone.
    pub fn is_empty(&self) -> bool
        ensures { result ≡ (self.now.wins == 0 && (self.now.may_win == 0 && self.now.loses == 0)) }
    {
        self.wins == 0 && self.may_win == 0 && self.loses == 0
    }

    // One more pair, in which this one can win or not, and the other. Where both can only end together, nobody wins and
    // nobody loses.
    fn and(self, can: bool, other_can: bool) -> Total
        requires { HasRoom self }
        ensures { result ≡ more can other_can self }
    {
        let Total {
            wins,
            may_win,
            loses,
        } = self;
        match (can, other_can) {
            (true, true) => Total {
                wins,
                may_win: may_win + 1,
                loses,
            },
            (true, false) => Total {
                wins: wins + 1,
                may_win,
                loses,
            },
            (false, true) => Total {
                wins,
                may_win,
                loses: loses + 1,
            },
            (false, false) => self,
        }
    }
}

/// The totals of so many participants, by their numbers, where these pairs of them end in these ways.
pub(crate) fn totals_of(
    alloc: Global,
    participants: u32,
    pairs: &[(u32, u32)],
    ways: &[Option<Outcomes>],
) -> Result<Vec<Total>, AllocError>
    requires all { length ways.now ≡ length pairs.now }
    requires few { length pairs.now < 2 ^ 32 }
    requires within { (k x y : ℕ) → slice_get pairs.now k ≡ Some (x, y) → (x < y) × (y < participants) }
    ensures { IfOk result (λ totals. totals.items ≡ totals_below participants (zip pairs.now ways.now)) }
{
    let mut totals = none_of(alloc, participants as usize)?;
    for k in 0..pairs.len() {
        count(&mut totals, pairs[k], ways[k]);
    }
    Ok(totals)
}

// No pair has been counted.
fn none_of(alloc: Global, participants: usize) -> Result<Vec<Total>, AllocError>
    ensures { IfOk result (λ totals. totals.items ≡ replicate participants none) }
{
    let nothing = Total {
        wins: 0,
        may_win: 0,
        loses: 0,
    };
    let mut totals = Vec::with_capacity(alloc, participants)?;
    for _ in 0..participants {
        totals.push(nothing)?;
    }
    Ok(totals)
}

// One more pair.
fn count(totals: &mut Vec<Total>, pair: (u32, u32), way: Option<Outcomes>)
    requires within { pair.1 < length totals.old.items }
    requires two { pair.0 < pair.1 }
    requires room { AllHaveRoom totals.old.items }
    ensures { totals.new.items ≡ with_meeting totals.old.items (pair, way) }
{
    let (first, second) = winners(way);
    grow(totals, pair.0 as usize, first, second);
    grow(totals, pair.1 as usize, second, first);
}

// Whether the first can win, and whether the second can.
fn winners(way: Option<Outcomes>) -> (bool, bool)
    ensures first { result.0 ≡ first_can way }
    ensures second { result.1 ≡ second_can way }
{
    match way {
        Some(outcomes) => (outcomes.first.is_some(), outcomes.second.is_some()),
        None => (false, false),
    }
}

// One more pair of this participant.
fn grow(totals: &mut Vec<Total>, p: usize, can: bool, other_can: bool)
    requires within { p < length totals.old.items }
    requires room { HasRoomAt totals.old.items p }
    ensures { totals.new.items ≡ grown totals.old.items p can other_can }
{
    let total = totals[p];
    totals[p] = total.and(can, other_can);
}
