// Objects of who wins.

use crate::fields::{add_both_at, add_numbers, add_one_at, add_words};
use bus_rows::labels_of;
use object_lines::ObjectLines;
use order::{Order, Outcomes, Score, Scores, Slots, Total};
use plan_words::PlanWords;
use run_parts::{Output, RunError};
use std::alloc::Global;

/// Writes an object for each two sides that have pairs, where the sides have these names.
///
/// # Errors
///
/// `Write` where the writer failed or took no bytes, and `NoMemory`. A part of the objects may have been written.
pub fn write_scores<O: Output>(
    alloc: Global,
    scores: &Scores,
    names: &[String],
    out: &mut O,
) -> Result<(), RunError> {
    let mut lines = ObjectLines::new(alloc);
    for (one, first) in names.iter().enumerate() {
        for (other, second) in names.iter().enumerate() {
            if one < other {
                let score = scores.between(one, other);
                add_arbitration(&mut lines, &score, first.as_str(), second.as_str());
            }
        }
    }
    lines.write_rest(out)
}

// How the pairs of two controllers end, or of one and an interrupt, or of two interrupts: how many each of the two wins, how many
// either may win, and so on.
fn add_arbitration(lines: &mut ObjectLines, score: &Score, first: &str, second: &str) {
    if score.pairs() == 0 {
        return;
    }
    lines.begin("arbitration");
    add_words(lines, "between", first, second);
    lines.number("pairs", score.pairs() as u64);
    add_numbers(lines, "wins", score.wins, score.loses);
    lines.number("may_win", score.may_win as u64);
    lines.number("alike", score.alike as u64);
    lines.number("unsafe_pairs", score.unsafe_pairs as u64);
    lines.end();
}

/// Writes an object for each pair of the plan of these words, and one for each participant that can win or lose.
///
/// # Errors
///
/// `Write` where the writer failed or took no bytes, and `NoMemory`. A part of the objects may have been written.
pub fn write_order<O: Output>(
    alloc: Global,
    words: PlanWords<'_>,
    order: &Order,
    out: &mut O,
) -> Result<(), RunError> {
    let plan = words.plan();
    let labels = labels_of(alloc, plan)?;
    let mut lines = ObjectLines::new(alloc);
    for pair in 0..plan.pair_count() {
        if let Some(outcomes) = order.ways.get(pair as usize) {
            let (x, y) = plan.pair(pair);
            lines.begin("order");
            lines.number("pair", pair as u64);
            add_words(&mut lines, "participants", labels.of(x), labels.of(y));
            add_both_at(&mut lines, words, (x, y));
            add_outcomes(&mut lines, outcomes);
            lines.end();
        }
        lines.write_block(out)?;
    }
    for p in 0..plan.participants() {
        if let Some(total) = order.totals.get(p as usize) {
            add_total(&mut lines, words, p, labels.of(p), total);
        }
    }
    lines.write_rest(out)
}

// In which slots both of a pair end, the first wins and the second wins, where they can: the earliest and the latest of each.
fn add_outcomes(lines: &mut ObjectLines, outcomes: &Option<Outcomes>) {
    match outcomes {
        Some(outcomes) => {
            add_slots(lines, "both", outcomes.both);
            add_slots(lines, "first", outcomes.first);
            add_slots(lines, "second", outcomes.second);
        }
        None => lines.flag("unsafe", true),
    }
}

fn add_slots(lines: &mut ObjectLines, name: &str, slots: Option<Slots>) {
    if let Some(Slots { earliest, latest }) = slots {
        add_numbers(lines, name, earliest, latest);
    }
}

// How often a participant wins.
fn add_total(
    lines: &mut ObjectLines,
    words: PlanWords<'_>,
    p: u32,
    participant: &str,
    total: &Total,
) {
    if total.is_empty() {
        return;
    }
    lines.begin("total");
    lines.word("participant", participant);
    add_one_at(lines, words, p);
    lines.number("wins", total.wins as u64);
    lines.number("may_win", total.may_win as u64);
    lines.number("loses", total.loses as u64);
    lines.end();
}
