// How the pairs of a safe plan are kept apart, and what the plan leaves out.

use crate::apart::kept_apart;
use certificate::Cert;
use pair_walk::{Outcome, walk};
use plan_core::Plan;
use plan_words::PlanWords;
use std::alloc::{AllocError, Global};

// How many nodes a path of a proof has at most, as a certificate may have (C3).
const DEPTH: u32 = 512;

/// How the pairs of a safe plan are kept apart, and what the plan leaves out.
#[derive(Drop)]
pub struct Safety {
    pub decided: Decided,
    /// How many pairs of two controllers the `never` items of the plan leave out.
    pub kept_apart: u64,
}

/// How many pairs are decided where, while targets acknowledge: in the first byte, later, at the end of a read, or never,
/// since both may end together.
#[derive(Clone, Copy)]
pub struct Decided {
    pub header: u64,
    pub later: u64,
    pub read: u64,
    pub alike: u64,
}

/// How the pairs of the plan, which is safe, are kept apart.
///
/// # Errors
///
/// Where an allocation fails.
pub fn safety_of(alloc: Global, words: PlanWords<'_>) -> Result<Safety, AllocError> {
    let plan = words.plan();
    let decided = decided_in(alloc, plan)?;
    Ok(Safety {
        decided,
        kept_apart: kept_apart(words),
    })
}

// Where a pair is decided.
#[derive(Clone, Copy)]
enum Where {
    Header,
    Later,
    Read,
    Never,
}

impl Decided {
    fn count(&mut self, place: Where) {
        let count = match place {
            Where::Header => &mut self.header,
            Where::Later => &mut self.later,
            Where::Read => &mut self.read,
            Where::Never => &mut self.alike,
        };
        *count = count.saturating_add(1);
    }
}

// It depends on the two senders alone, so it is found once for each two.
fn decided_in(alloc: Global, plan: &Plan) -> Result<Decided, AllocError> {
    let mut known = vec![in alloc; None; plan.sender_places()]?;
    let mut decided = Decided {
        header: 0,
        later: 0,
        read: 0,
        alike: 0,
    };
    for pair in 0..plan.pair_count() {
        if let Some(known) = known.get_mut(plan.sender_place(pair)) {
            let place = match *known {
                Some(place) => place,
                None => where_decided(alloc, plan, pair)?,
            };
            *known = Some(place);
            decided.count(place);
        }
    }
    Ok(decided)
}

fn where_decided(alloc: Global, plan: &Plan, pair: u32) -> Result<Where, AllocError> {
    if plan.pair_count() <= pair {
        return Ok(Where::Never);
    }
    let verdict = walk(alloc, plan, pair)?;
    Ok(match &verdict.outcome {
        Outcome::Safe(proof) => end_of(proof),
        // (no pair of a safe plan)
        Outcome::Unsafe(_) => Where::Never,
    })
}

// Where the path of a proof ends on which each byte is acknowledged.
fn end_of(proof: &Cert) -> Where {
    let mut node = proof;
    let mut is_first = true;
    for _ in 0..DEPTH {
        match node {
            Cert::Part(_) if is_first => return Where::Header,
            Cert::Part(_) => return Where::Later,
            Cert::Short => return Where::Read,
            Cert::Alike => return Where::Never,
            Cert::Again(next) | Cert::Byte(next, _) | Cert::Read(next, _) => node = &**next,
        }
        is_first = false;
    }
    Where::Never
}
