// Who the two of a pair are, and what the `never` items of a plan leave out.

use plan_core::{Participant, Plan};
use plan_words::PlanWords;

/// The two of a pair.
pub fn both_of(plan: &Plan, pair: u32) -> (u32, u32) {
    if pair < plan.pair_count() {
        plan.pair(pair)
    } else {
        (0, 0)
    }
}

/// The controller of a participant that is no interrupt.
pub fn controller_of(plan: &Plan, p: u32) -> Option<u32> {
    if plan.participants() <= p {
        return None;
    }
    match plan.participant(p) {
        Participant::Sending { controller, .. } => Some(controller),
        Participant::Interrupt(_) => None,
    }
}

/// How many pairs of sendings some `never` of the plan leaves out, but for those of one controller, which a brief may split.
pub fn kept_apart(words: PlanWords<'_>) -> u64 {
    let plan = words.plan();
    let mut pairs = 0u64;
    for c in 0..plan.controllers() {
        for d in 0..c {
            if is_never(plan, c, d) && !words.is_one(c, d) {
                pairs = pairs.saturating_add(pairs_of(plan, c, d));
            }
        }
    }
    pairs
}

/// How many pairs of sendings two controllers have.
pub fn pairs_of(plan: &Plan, c: u32, d: u32) -> u64 {
    sendings(plan, c).saturating_mul(sendings(plan, d))
}

/// How many messages a controller lists.
pub fn sendings(plan: &Plan, c: u32) -> u64 {
    if c < plan.controllers() {
        plan.controller_messages(c).len() as u64
    } else {
        0
    }
}

/// Whether a `never` of the plan names these two controllers.
pub fn is_never(plan: &Plan, c: u32, d: u32) -> bool {
    for k in 0..plan.nevers() {
        let (first, second) = plan.never(k);
        if (first == c && second == d) || (first == d && second == c) {
            return true;
        }
    }
    false
}
