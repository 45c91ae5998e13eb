// Offers that go together: the list that mends as many groups as possible.

ghost use Rattle.std.specs.Prelude.{IfOk, IfSome, OnOk};
ghost use Rattle.given_plans.specs.Sources.{bytes_of};
ghost use Rattle.offers.specs.Offered.{IsTogether};
ghost use Rattle.offers.specs.Tried.{IsTried};
ghost use Rattle.plan_core.specs.PlanContents.{plan_contents};
ghost use Rattle.verdicts.specs.Faults.{AreFaults, fault_list};

use crate::found::Offer;
use crate::mended::mended_by;
use crate::proposals::Change;
use crate::tries::{Outcome, Tries, Unedited};
use edits::{Edit, joined};
use remedies::Grouped;
use std::alloc::{AllocError, Global};

/// Offers that mend as many groups as possible.
pub struct Together {
    /// Their places among all.
    pub places: Vec<usize>,
    /// What comes of all of them. None where there are none.
    pub outcome: Option<Outcome>,
    /// Those of all of them, in the order of the texts.
    pub edits: Vec<Edit>,
}

// Written out, so that one call lets it go.
impl Drop for Together {
    fn drop(self) {
        let Self {
            places: _,
            outcome: _,
            edits: _,
        } = self;
    }
}

/// Offers that go together: each time one more, as far as it mends a further group.
///
/// # Errors
///
/// Where an allocation fails.
pub fn together_of(
    alloc: Global,
    was: Unedited<'_>,
    groups: &Grouped,
    offers: &[Offer],
    tries: &mut Tries,
) -> Result<Together, AllocError>
    requires { AreFaults (plan_contents was.plan.now) (fault_list was.faults.now) }
    ensures { IfOk result (λ list. IsTogether (bytes_of was.entry.texts.now) (plan_contents was.entry.plan.now)
        (fault_list was.entry.faults.now) list) }
{
    let mut list = Together {
        places: Vec::new(alloc),
        outcome: None,
        edits: Vec::new(alloc),
    };
    let mut open = vec![in alloc; true; groups.len()]?;
    let mut unused = vec![in alloc; true; offers.len()]?;
    for _ in 0..offers.len() {
        let Some(best) = best_of(groups, offers, unused.as_slice(), open.as_slice()) else {
            return Ok(list);
        };
        if let (Some(offer), Some(is_unused)) = (offers.get(best), unused.get_mut(best)) {
            *is_unused = false;
            list.take(
                alloc,
                was,
                groups,
                tries,
                (best, offer),
                open.as_mut_slice(),
            )?;
        }
    }
    Ok(list)
}

// Edits of several offers, and what comes of them.
#[derive(Drop)]
struct TriedList {
    edits: Vec<Edit>,
    outcome: Outcome,
}

impl Together {
    // With one more, where its edits overlap with none of these, and it still mends what it mends alone.
    fn take(
        &mut self,
        alloc: Global,
        was: Unedited<'_>,
        groups: &Grouped,
        tries: &mut Tries,
        further: (usize, &Offer),
        open: &mut [bool],
    ) -> Result<(), AllocError>
        requires faults { AreFaults (plan_contents was.plan.now) (fault_list was.faults.now) }
        requires before { IsTogether (bytes_of was.texts.now) (plan_contents was.plan.now)
            (fault_list was.faults.now) self.old }
        ensures { OnOk result (IsTogether (bytes_of was.entry.texts.now) (plan_contents was.entry.plan.now)
            (fault_list was.entry.faults.now) self.new) }
    {
        let (place, offer) = further;
        let own = offer.proposal.edits.as_slice();
        let tried = tried_with(alloc, was, tries, self.edits.as_slice(), own)?;
        if let Some(tried) = tried {
            if mends_all(alloc, groups, &tried.outcome, open, offer)? {
                close(open, offer);
                self.places.push(place)?;
                let TriedList { edits, outcome } = tried;
                self.edits = edits;
                self.outcome = Some(outcome);
            }
        }
        Ok(())
    }
}

// What comes of these edits and of further ones. None where they overlap, and where they cannot be offered.
fn tried_with(
    alloc: Global,
    was: Unedited<'_>,
    tries: &mut Tries,
    edits: &[Edit],
    own: &[Edit],
) -> Result<Option<TriedList>, AllocError>
    requires { AreFaults (plan_contents was.plan.now) (fault_list was.faults.now) }
    ensures { IfOk result (λ found. IfSome found (λ tried. IsTried (bytes_of was.entry.texts.now)
        (plan_contents was.entry.plan.now) (fault_list was.entry.faults.now) tried.edits.items tried.outcome)) }
{
    let Some(edits) = joined(alloc, edits, own)? else {
        return Ok(None);
    };
    match tries.outcome(alloc, was, edits.as_slice())? {
        Some(outcome) => Ok(Some(TriedList { edits, outcome })),
        None => Ok(None),
    }
}

// Whether there is something to check then, and no pair is left of what is not open, or of what the offer mends.
fn mends_all(
    alloc: Global,
    groups: &Grouped,
    outcome: &Outcome,
    open: &[bool],
    offer: &Offer,
) -> Result<bool, AllocError> {
    let mended = mended_by(alloc, groups, outcome.left.as_slice())?;
    Ok(outcome.pairs != 0 && are_mended(mended.as_slice(), open, offer))
}

// Of the offers that mend open groups the one with the least price, of several the one that mends the most pairs of open groups, and of
// these the first.
fn best_of(groups: &Grouped, offers: &[Offer], unused: &[bool], open: &[bool]) -> Option<usize> {
    let mut best = None;
    let mut least = u64::MAX;
    let mut most = 0usize;
    for (place, (offer, is_unused)) in offers.iter().zip(unused.iter()).enumerate() {
        let price = price_of(offer);
        let gain = gain_of(groups, offer, open);
        if *is_unused && 0 < gain && (price < least || price == least && most < gain) {
            least = price;
            most = gain;
            best = Some(place);
        }
    }
    best
}

// How many pairs an offer leaves out. One that warns comes after all others.
fn price_of(offer: &Offer) -> u64 {
    match offer.proposal.change {
        Change::Pointer => u64::MAX,
        _ => u64::from(offer.outcome.price),
    }
}

// How many pairs the open groups have that an offer mends.
fn gain_of(groups: &Grouped, offer: &Offer, open: &[bool]) -> usize {
    let mut gain = 0usize;
    for g in offer.groups.as_slice() {
        if let (Some(true), Some(group)) = (open.get(*g), groups.group(*g)) {
            gain = gain.saturating_add(group.pairs);
        }
    }
    gain
}

fn close(open: &mut [bool], offer: &Offer) {
    for g in offer.groups.as_slice() {
        if let Some(is_open) = open.get_mut(*g) {
            *is_open = false;
        }
    }
}

// Whether all groups are mended that are not open, and those that the offer mends.
fn are_mended(mended: &[usize], open: &[bool], offer: &Offer) -> bool {
    for (g, is_open) in open.iter().enumerate() {
        let is_wanted = !*is_open || offer.groups.contains(&g);
        if is_wanted && !mended.contains(&g) {
            return false;
        }
    }
    true
}
