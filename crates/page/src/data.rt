// What a page shows, as JSON.

use crate::advice::{Offered, all_offered};
use crate::groups::Groups;
use crate::pages::Page;
use crate::pairs::{Pairs, Unsafe};
use crate::parties::{Controllers, Interrupts, Messages, Nevers, Participants};
use crate::recording::Recorded;
use crate::ways::{Way, Ways};
use serde::Serialize;
use std::alloc::{AllocError, Global};
use verdicts::Checked;

// All of it. Messages, controllers, interrupts, participants and pairs have their numbers in the plan, from 0.
#[derive(Clone, Copy, Serialize)]
struct Data<'a> {
    verdict: Verdict,
    messages: Messages<'a>,
    controllers: Controllers<'a>,
    interrupts: Interrupts<'a>,
    nevers: Nevers<'a>,
    participants: Participants<'a>,
    ways: &'a [Way],
    pairs: Pairs<'a>,
    faults: Unsafe<'a>,
    groups: Groups<'a>,
    offers: &'a [Offered],
    #[serde(skip_serializing_if = "Option::is_none")]
    capture: Option<Recorded<'a>>,
}

// Whether the plan is safe, and how many pairs it has and how many of them are not.
#[derive(Clone, Copy, Serialize)]
struct Verdict {
    safe: bool,
    pairs: u32,
    unsafe_pairs: usize,
}

/// What was found of a plan, as JSON on one line.
pub(crate) fn data_of(alloc: Global, page: &Page<'_>) -> Result<String, AllocError> {
    let ways = Ways::new(alloc, page.order)?;
    let offers = all_offered(alloc, page.words, page.offers)?;
    let data = Data {
        capture: match page.recording {
            Some(recording) => Some(recording.recorded()),
            None => None,
        },
        ..all_of(alloc, page, &ways, offers.as_slice())
    };
    match serde_json::to_string(alloc, &data) {
        Ok(text) => Ok(text),
        // (out of memory: every key is a text, and no number is wide)
        Err(_) => Err(AllocError),
    }
}

fn all_of<'a>(
    alloc: Global,
    page: &'a Page<'a>,
    ways: &'a Ways,
    offers: &'a [Offered],
) -> Data<'a> {
    let Checked { plan, faults } = page.checked;
    let (words, order, groups) = (page.words, page.order, page.groups);
    Data {
        verdict: Verdict {
            safe: faults.is_safe(),
            pairs: plan.pair_count(),
            unsafe_pairs: faults.len(),
        },
        messages: Messages {
            alloc,
            plan,
            groups,
        },
        controllers: Controllers { alloc, words },
        interrupts: Interrupts { alloc, plan },
        nevers: Nevers(words),
        participants: Participants {
            alloc,
            words,
            order,
            groups,
        },
        ways: ways.different.as_slice(),
        pairs: Pairs(ways.runs.as_slice()),
        faults: Unsafe {
            alloc,
            faults,
            groups,
        },
        groups: Groups {
            alloc,
            checked: page.checked,
            words,
            groups,
            offers: page.offers,
        },
        offers,
        capture: None,
    }
}
