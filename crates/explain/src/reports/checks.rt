// The report of a check, explained.

use crate::commands::command_for_all;
use crate::faults::below_unsafe;
use crate::group_lines::{above_rest, of_group, of_rest, offers_for};
use crate::plans::below_safe;
use crate::reports::{BLOCK, write_block};
use crate::unchecked::below_checked;
use bus_rows::{Paint, meeting_of};
use certificate::Fault;
use growing_text::Text;
use offers::{Offers, Reasons, Shown, advice_for_all};
use plan_core::Plan;
use plan_findings::Detail;
use plan_words::PlanWords;
use remedies::{Grouped, both_of};
use report::{push_count, push_fault};
use run_parts::{Output, RunError};
use std::alloc::{AllocError, Global};
use std::mem;
use verdicts::{Checked, Faults};

/// Writes the report of a check. The words are those of its plan. Where there are reasons, they stand at its end with what was
/// not checked, and before its last line an example of each group of unsafe pairs, with the bytes of both participants.
///
/// # Errors
///
/// `Write` where the writer failed or took no bytes, and `NoMemory`. A part of the report may have been written.
pub fn explain_check<O: Output>(
    alloc: Global,
    checked: &Checked,
    words: PlanWords<'_>,
    reasons: Option<&Reasons>,
    detail: Detail,
    paint: Paint,
    out: &mut O,
) -> Result<(), RunError> {
    let Checked { plan, faults } = checked;
    let mut text = Text::new(alloc);
    if detail.pairs {
        write_pairs(alloc, plan, faults, &mut text, out)?;
    }
    if let Some(Reasons::Unsafe(groups, offers)) = reasons {
        let groups = (groups, offers);
        write_groups(alloc, words, faults, groups, detail.groups, &mut text, out)?;
    }
    let shown = Shown::Explained(detail.groups as usize);
    push_end(alloc, &mut text, checked, words, reasons, shown, paint);
    write_block(text, out)
}

/// Writes what is offered to mend each group of the unsafe pairs of a check: all of it, group by group, and then the last lines of its
/// report. Of a safe plan there are no reasons, and the last line alone is written.
///
/// # Errors
///
/// `Write` where the writer failed or took no bytes, and `NoMemory`. A part of the lines may have been written.
pub fn explain_offers<O: Output>(
    alloc: Global,
    checked: &Checked,
    words: PlanWords<'_>,
    reasons: Option<&Reasons>,
    paint: Paint,
    out: &mut O,
) -> Result<(), RunError> {
    let mut text = Text::new(alloc);
    if let Some(Reasons::Unsafe(groups, offers)) = reasons {
        for g in 0..groups.len() {
            text.push_made(offers_for(alloc, words, (groups, offers), g));
            write_full(alloc, &mut text, out)?;
        }
    }
    push_end(alloc, &mut text, checked, words, reasons, Shown::All, paint);
    write_block(text, out)
}

fn write_pairs<O: Output>(
    alloc: Global,
    plan: &Plan,
    faults: &Faults,
    text: &mut Text,
    out: &mut O,
) -> Result<(), RunError> {
    for k in 0..faults.len() {
        let (pair, fault) = faults.get(k);
        text.push_made(line_of(alloc, plan, pair, fault));
        write_full(alloc, text, out)?;
    }
    Ok(())
}

// So many groups, and a line of each further one.
fn write_groups<O: Output>(
    alloc: Global,
    words: PlanWords<'_>,
    faults: &Faults,
    unsafe_groups: (&Grouped, &Offers),
    most: u32,
    text: &mut Text,
    out: &mut O,
) -> Result<(), RunError> {
    let (groups, _) = unsafe_groups;
    let explained = groups.len().min(most as usize);
    for g in 0..explained {
        text.push_made(example_of(alloc, words, faults, unsafe_groups, g));
        write_full(alloc, text, out)?;
    }
    if explained < groups.len() {
        text.push_made(above_rest(alloc, groups.len()));
    }
    for g in explained..groups.len() {
        text.push_made(of_rest(alloc, groups, g));
        write_full(alloc, text, out)?;
    }
    Ok(())
}

// Writes what was gathered, where that is much.
fn write_full<O: Output>(alloc: Global, text: &mut Text, out: &mut O) -> Result<(), RunError> {
    if BLOCK <= text.len() || !text.is_whole() {
        write_block(mem::replace(text, Text::new(alloc)), out)?;
    }
    Ok(())
}

// The last line, and below it the reasons, where this is shown of offers, and what was not checked.
fn push_end(
    alloc: Global,
    text: &mut Text,
    checked: &Checked,
    words: PlanWords<'_>,
    reasons: Option<&Reasons>,
    shown: Shown,
    paint: Paint,
) {
    let Checked { plan, faults } = checked;
    let is_safe = faults.is_safe();
    let word = (0, if is_safe { 4 } else { 6 });
    paint.push_verdict(text, last_line(alloc, plan, faults.len()), word, is_safe);
    match reasons {
        Some(Reasons::Safe(safety)) => text.push_made(below_safe(alloc, safety)),
        Some(Reasons::Unsafe(_, offers)) => {
            text.push_made(offered(alloc, words, offers, shown));
        }
        None => return,
    }
    text.push_made(below_checked(alloc, words));
}

// What is offered to mend all unsafe pairs, where this is shown, and the command that makes these edits.
fn offered(
    alloc: Global,
    words: PlanWords<'_>,
    offers: &Offers,
    shown: Shown,
) -> Result<String, AllocError> {
    let advice = advice_for_all(alloc, words, offers, shown)?;
    let command = if offers.together.places.is_empty() {
        None
    } else {
        command_for_all(alloc, words.files())?
    };
    below_unsafe(alloc, advice.as_slice(), command)
}

// The line of an unsafe pair.
fn line_of(alloc: Global, plan: &Plan, pair: u32, fault: &Fault) -> Result<String, AllocError> {
    let mut line = String::new(alloc);
    if pair < plan.pair_count() {
        push_fault(alloc, &mut line, plan, pair, fault)?;
    }
    Ok(line)
}

// The lines of a group.
fn example_of(
    alloc: Global,
    words: PlanWords<'_>,
    faults: &Faults,
    unsafe_groups: (&Grouped, &Offers),
    g: usize,
) -> Result<String, AllocError> {
    let plan = words.plan();
    let (groups, _) = unsafe_groups;
    match groups.group(g) {
        Some(group) if group.example < faults.len() => {
            let (pair, fault) = faults.get(group.example);
            let both = both_of(plan, pair);
            let meeting = meeting_of(alloc, plan, both, fault.wire.as_slice())?;
            of_group(alloc, words, unsafe_groups, g, (pair, both), &meeting)
        }
        _ => Ok(String::new(alloc)),
    }
}

fn last_line(alloc: Global, plan: &Plan, unsafe_pairs: usize) -> Result<String, AllocError> {
    let mut line = String::new(alloc);
    push_count(&mut line, plan.pair_count(), unsafe_pairs)?;
    Ok(line)
}
