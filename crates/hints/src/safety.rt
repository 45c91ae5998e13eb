// After a plan that was checked: what is likely a mistake in its briefs, and of a safe one what was not checked.

use crate::lines::Lines;
use crate::odd::push_oddities;
use crate::summaries::push_summary;
use crate::values::Hints;
use lint::{Oddity, is_sent};
use plan_core::Plan;
use plan_words::PlanWords;
use std::alloc::{AllocError, Global};

// The most names that are told.
const MOST: u32 = 10;

/// What to say of a plan that is safe, in these words of it: the messages that no controller lists, the pairs that `never` leaves
/// out, of which there are so many, and that there are no pairs, where there are none.
pub fn on_safe(alloc: Global, words: PlanWords<'_>, kept_apart: u64) -> Result<Hints, AllocError> {
    let mut lines = Lines::new(alloc);
    push_unsent(&mut lines, words.plan());
    push_left_out(&mut lines, words, kept_apart);
    lines.finish()
}

/// What was found of a plan.
#[derive(Clone, Copy)]
pub struct Found {
    /// How many pairs are unsafe.
    pub unsafe_pairs: usize,
    /// In how many groups they are, where that is to be said.
    pub groups: Option<usize>,
    /// Whether the report is explained: it has told what was not looked at.
    pub is_explained: bool,
    /// How many pairs `never` leaves out.
    pub kept_apart: u64,
}

/// What to say of a plan that was checked, in these words of it: what is likely a mistake in its briefs, and where it is safe
/// also what `on_safe` says. What an explained report has told is not said again. Of many unsafe pairs it says how they are seen in
/// groups.
pub fn on_checked(
    alloc: Global,
    words: PlanWords<'_>,
    odd: &[Oddity<'_>],
    found: Found,
) -> Result<Hints, AllocError> {
    let mut lines = Lines::new(alloc);
    push_oddities(alloc, &mut lines, words, odd, found.is_explained)?;
    if found.unsafe_pairs == 0 && !found.is_explained {
        // (of briefs it is among the likely mistakes)
        if !words.has_briefs() {
            push_unsent(&mut lines, words.plan());
        }
        push_left_out(&mut lines, words, found.kept_apart);
    }
    if let Some(groups) = found.groups {
        push_summary(alloc, &mut lines, words.files(), found.unsafe_pairs, groups)?;
    }
    lines.finish()
}

// The pairs that were not looked at, and that there are none. The items of a plan text stand in the plan. Those of
// briefs do not, where they name labels.
fn push_left_out(lines: &mut Lines, words: PlanWords<'_>, kept_apart: u64) {
    if !words.has_briefs() {
        push_nevers(lines, words.plan());
    } else if kept_apart != 0 {
        lines.say(format_args!("the 'never' items leave out pairs: {kept_apart}"));
    }
    if words.plan().pair_count() == 0 {
        lines.say(
            "the plan has no two participants that may start together: no pair was looked at",
        );
    }
}

fn push_unsent(lines: &mut Lines, plan: &Plan) {
    let count = unsent_count(plan);
    if count == 0 {
        return;
    }
    lines.part(format_args!(
        "messages that no controller lists, which were not looked at: {count}:"
    ));
    let mut told = 0;
    for k in 0..plan.messages() {
        if told < MOST && !is_sent(plan, k) {
            let name = plan.message_name(k).as_str();
            lines.part(format_args!(" {name}"));
            told += 1;
        }
    }
    lines.say(if count > MOST { " .." } else { "" });
}

fn unsent_count(plan: &Plan) -> u32 {
    let mut count = 0u32;
    for k in 0..plan.messages() {
        if !is_sent(plan, k) {
            count = count.saturating_add(1);
        }
    }
    count
}

fn push_nevers(lines: &mut Lines, plan: &Plan) {
    for k in 0..plan.nevers() {
        if k < MOST {
            let (one, other) = plan.never(k);
            let count = sendings(plan, one).saturating_mul(sendings(plan, other));
            let one = plan.controller_name(one).as_str();
            let other = plan.controller_name(other).as_str();
            lines.say(format_args!("'never {one} {other} ;' leaves out pairs: {count}"));
        }
    }
    let more = plan.nevers().saturating_sub(MOST);
    if more != 0 {
        lines.say(format_args!("and {more} more items 'never'"));
    }
}

fn sendings(plan: &Plan, controller: u32) -> usize {
    if controller >= plan.controllers() {
        return 0;
    }
    plan.controller_messages(controller).len()
}
