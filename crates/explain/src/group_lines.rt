// Lines of a group of unsafe pairs, and of one pair by itself.

use crate::faults::{tell_advice, tell_pair};
use bus_rows::{Meeting, meeting_of, say, say_all};
use causes::Group;
use certificate::Fault;
use growing_text::{Lines, Part, Sentence};
use offers::{Offers, Shown, advice_for_group};
use plan_findings::why_unsafe;
use plan_words::PlanWords;
use remedies::Grouped;
use std::alloc::{AllocError, Global};

/// What is said of an unsafe pair that stands by itself: its number, what is said of it, and why it is unsafe.
pub(crate) fn tell_alone(
    alloc: Global,
    lines: &mut Lines,
    words: PlanWords<'_>,
    pair: (u32, (u32, u32)),
    fault: &Fault,
) -> Result<(), AllocError> {
    let (number, both) = pair;
    say(lines, "pair {}:", &[Part::Number(u64::from(number))]);
    let meeting = meeting_of(alloc, words.plan(), both, fault.wire.as_slice())?;
    tell_pair(alloc, lines, words, both, &meeting)?;
    tell_two(
        alloc,
        lines,
        words,
        both,
        why_unsafe(fault.first, fault.second),
    )
}

/// Between which two this stands.
pub(crate) fn tell_two(
    alloc: Global,
    lines: &mut Lines,
    words: PlanWords<'_>,
    both: (u32, u32),
    said: &'static str,
) -> Result<(), AllocError> {
    let first = words.label(alloc, both.0)?;
    let second = words.label(alloc, both.1)?;
    let parts = [
        Part::Name(first.as_str()),
        Part::Name(second.as_str()),
        Part::Words(said),
    ];
    say(lines, "{} × {}: {}", &parts);
    Ok(())
}

// How many of those who meet are named.
const NAMED: usize = 4;

// What is shown of a group that is explained.
const EXPLAINED: Shown = Shown::Explained(usize::MAX);

/// What is said of a group: its number and that of its example, what is said of that one, how many pairs are like it, and
/// between whom, and what mends them.
pub(crate) fn of_group(
    alloc: Global,
    words: PlanWords<'_>,
    unsafe_groups: (&Grouped, &Offers),
    g: usize,
    example: (u32, (u32, u32)),
    meeting: &Meeting,
) -> Result<String, AllocError> {
    let (groups, offers) = unsafe_groups;
    let (pair, both) = example;
    let mut lines = Lines::new(alloc);
    if let Some(group) = groups.group(g) {
        tell_title(&mut lines, g, group, pair);
        tell_pair(alloc, &mut lines, words, both, meeting)?;
        tell_alike(alloc, &mut lines, groups, g, group);
    }
    for advice in &advice_for_group(alloc, words, offers, g, EXPLAINED)? {
        tell_advice(&mut lines, advice);
    }
    lines.finish()
}

// `group 0, 16 pairs, such as pair 289:`, and of one pair alone `group 0, pair 289:`.
fn tell_title(lines: &mut Lines, g: usize, group: Group, pair: u32) {
    let (g, pair) = (Part::Number(g as u64), Part::Number(u64::from(pair)));
    if group.pairs == 1 {
        say(lines, "group {}, pair {}:", &[g, pair]);
    } else {
        let pairs = Part::Number(group.pairs as u64);
        say(
            lines,
            "group {}, {} pairs, such as pair {}:",
            &[g, pairs, pair],
        );
    }
}

// Who meets in the group, how many pairs it has, and why they are unsafe.
fn tell_alike(alloc: Global, lines: &mut Lines, groups: &Grouped, g: usize, group: Group) {
    let mut said = Sentence::new(alloc);
    tell_like(&mut said, groups, g, group);
    say_all(lines, &said);
}

fn tell_like(said: &mut Sentence, groups: &Grouped, g: usize, group: Group) {
    tell_meets(said, groups, g);
    let parts = [
        Part::Number(group.pairs as u64),
        Part::Words(if group.pairs == 1 { "pair" } else { "pairs" }),
        Part::Words(why_unsafe(group.cause.first.kind, group.cause.second.kind)),
    ];
    said.tell(": {} {}, {}", &parts);
}

fn tell_meets(said: &mut Sentence, groups: &Grouped, g: usize) {
    let all = groups.meets(g);
    for i in 0..all.min(NAMED) {
        let (first, second) = groups.meet(g, i);
        let template = if i == 0 { "{} × {}" } else { ", {} × {}" };
        said.tell(template, &[Part::Name(first), Part::Name(second)]);
    }
    if NAMED < all {
        let more = all.saturating_sub(NAMED) as u64;
        said.tell(" and {} more", &[Part::Number(more)]);
    }
}

/// All that is offered to mend a group, below its number and who meets in it.
pub(crate) fn offers_for(
    alloc: Global,
    words: PlanWords<'_>,
    unsafe_groups: (&Grouped, &Offers),
    g: usize,
) -> Result<String, AllocError> {
    let (groups, offers) = unsafe_groups;
    let mut lines = Lines::new(alloc);
    if let Some(group) = groups.group(g) {
        let mut said = Sentence::of(alloc, "group {}: ", &[Part::Number(g as u64)]);
        tell_like(&mut said, groups, g, group);
        say_all(&mut lines, &said);
    }
    for advice in &advice_for_group(alloc, words, offers, g, Shown::All)? {
        tell_advice(&mut lines, advice);
    }
    lines.finish()
}

/// What stands above the groups that are not explained, where there are so many groups in all.
pub(crate) fn above_rest(alloc: Global, groups: usize) -> Result<String, AllocError> {
    let mut lines = Lines::new(alloc);
    let groups = [Part::Number(groups as u64)];
    say(
        &mut lines,
        "not explained (--most {} explains all groups):",
        &groups,
    );
    lines.finish()
}

/// What is said of a group that is not explained.
pub(crate) fn of_rest(alloc: Global, groups: &Grouped, g: usize) -> Result<String, AllocError> {
    let mut lines = Lines::new(alloc);
    if let Some(group) = groups.group(g) {
        tell_alike(alloc, &mut lines, groups, g, group);
    }
    lines.finish()
}
