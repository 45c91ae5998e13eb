// The `never` items that keep unsafe pairs apart.

use crate::keeping::{self, Kept, kept_by};
use plan_core::Plan;
use plan_words::PlanWords;
use remedies::{both_of, controller_of, is_never, pairs_of};
use std::alloc::{AllocError, Global};

/// A `never` item: what it keeps apart, as it is written. Of a plan text these are controllers, and of a brief a controller may
/// be one, or what one sends.
#[derive(Drop)]
pub struct Never {
    pub first: String,
    pub second: String,
}

/// What keeps these unsafe pairs apart, which have no interrupt. None where that leaves nothing of the plan to check.
pub fn kept_in(
    alloc: Global,
    words: PlanWords<'_>,
    sides: &keeping::Groups,
    pairs: &[u32],
) -> Result<Kept, AllocError> {
    let kept = match kept_by(alloc, words, sides, pairs)? {
        Some(kept) => kept,
        None => {
            let between = between_of(alloc, words.plan(), pairs)?;
            by_controllers(alloc, words, between.as_slice())?
        }
    };
    Ok(kept.unless_all(alloc, words.plan()))
}

// Each two controllers that have one of these pairs.
fn between_of(alloc: Global, plan: &Plan, pairs: &[u32]) -> Result<Vec<(u32, u32)>, AllocError> {
    let mut between: Vec<(u32, u32)> = Vec::new(alloc);
    for pair in pairs {
        let (x, y) = both_of(plan, *pair);
        if let (Some(c), Some(d)) = (controller_of(plan, x), controller_of(plan, y)) {
            if !is_named(between.as_slice(), c, d) {
                between.push((c, d))?;
            }
        }
    }
    Ok(between)
}

// Whether these two are among them. Pairs come in the order of their controllers, so they are looked for from the end.
fn is_named(between: &[(u32, u32)], c: u32, d: u32) -> bool {
    between.iter().rev().any(|both| both.0 == c && both.1 == d)
}

// ---- what keeps the pairs apart

// Whether this controller of the plan is one of the brief, of which no label is named.
pub fn is_whole(words: PlanWords<'_>, c: u32) -> bool {
    for d in 0..words.plan().controllers() {
        if c != d && words.is_one(c, d) {
            return false;
        }
    }
    !words.is_part(c)
}

// Items for controllers, or for parts of them.
fn by_controllers(
    alloc: Global,
    words: PlanWords<'_>,
    between: &[(u32, u32)],
) -> Result<Kept, AllocError> {
    let mut nevers = Vec::new(alloc);
    for never in between {
        if !is_said_by(words, between, *never) {
            nevers.push(Never {
                first: words.side(alloc, never.0)?,
                second: words.side(alloc, never.1)?,
            })?;
        }
    }
    let unchecked = left_out_by(words, between);
    Ok(Kept { nevers, unchecked })
}

// Whether another one of these items means this one too.
fn is_said_by(words: PlanWords<'_>, between: &[(u32, u32)], never: (u32, u32)) -> bool {
    let (c, d) = never;
    between.iter().any(|other| {
        (other.0 != c || other.1 != d) && names_both(words, *other, c, d)
    })
}

// How many pairs these items would leave out that no other one does.
fn left_out_by(words: PlanWords<'_>, between: &[(u32, u32)]) -> u64 {
    let plan = words.plan();
    let mut pairs = 0u64;
    for c in 0..plan.controllers() {
        for d in 0..c {
            let is_new = !is_never(plan, c, d) && !words.is_one(c, d);
            if is_new && between.iter().any(|never| names_both(words, *never, c, d)) {
                pairs = pairs.saturating_add(pairs_of(plan, c, d));
            }
        }
    }
    pairs
}

fn names_both(words: PlanWords<'_>, never: (u32, u32), c: u32, d: u32) -> bool {
    let (one, other) = never;
    words.means(one, c) && words.means(other, d) || words.means(one, d) && words.means(other, c)
}

// Interrupts come after all sendings, so where a pair has one its second participant is one.
pub fn has_interrupt(plan: &Plan, pair: u32) -> bool {
    let (_, second) = both_of(plan, pair);
    controller_of(plan, second).is_none()
}
