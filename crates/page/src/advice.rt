// What is offered to mend unsafe pairs, as the page has it: in the words of a report.

use offers::{Advice, Offers, Shown, advice_for_all, advice_for_group};
use plan_words::PlanWords;
use serde::Serialize;
use std::alloc::{AllocError, Global};

/// An offer: what is said, and the lines below it.
#[derive(Drop, Serialize)]
pub(crate) struct Offered {
    said: String,
    lines: Vec<String>,
}

impl Offered {
    // An offer, whose sentence is a text.
    fn of(alloc: Global, advice: Advice) -> Result<Offered, AllocError> {
        let Advice { said, lines } = advice;
        Ok(Offered {
            said: said.text(alloc)?,
            lines,
        })
    }
}

// The page explains all groups.
const EXPLAINED: Shown = Shown::Explained(usize::MAX);

/// What is offered to mend all unsafe pairs of a plan: nothing of a safe one.
pub(crate) fn all_offered(
    alloc: Global,
    words: PlanWords<'_>,
    offers: Option<&Offers>,
) -> Result<Vec<Offered>, AllocError> {
    match offers {
        Some(offers) => texts_of(alloc, advice_for_all(alloc, words, offers, EXPLAINED)?),
        None => Ok(Vec::new(alloc)),
    }
}

/// What is offered to mend the group with this number.
pub(crate) fn offered_for(
    alloc: Global,
    words: PlanWords<'_>,
    offers: Option<&Offers>,
    g: usize,
) -> Result<Vec<Offered>, AllocError> {
    match offers {
        Some(offers) => texts_of(alloc, advice_for_group(alloc, words, offers, g, EXPLAINED)?),
        None => Ok(Vec::new(alloc)),
    }
}

fn texts_of(alloc: Global, advice: Vec<Advice>) -> Result<Vec<Offered>, AllocError> {
    let mut offered = Vec::new(alloc);
    for one in advice {
        offered.push(Offered::of(alloc, one)?)?;
    }
    Ok(offered)
}
