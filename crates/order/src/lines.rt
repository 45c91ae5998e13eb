// The lines of the report.

ghost use Rattle.std.specs.Prelude.{◌≡◌, ◌&&◌, ◌++◌, codes, is_none, string_bytes, IfOk, OnOk};
ghost use Rattle.std.specs.Fmt.{decimal};
ghost use Rattle.order.specs.Labels.{AreLabels};
ghost use Rattle.order.specs.Lines.{slots_text, ways_text, pair_text, pair_lines, counts_text, total_text, total_lines, order_lines};
ghost use Rattle.order.specs.WayParts.{way_part};
ghost use Rattle.plan_core.specs.Contents.{Contents};
ghost use Rattle.plan_core.specs.Labels.{label_of};
ghost use Rattle.plan_core.specs.PlanContents.{plan_contents};

use crate::orders::Order;
use crate::totals::Total;
use arbitration::{Outcomes, Slots};
use plan_core::Plan;
use std::alloc::{AllocError, Global};

/// A line for each pair of the plan, in the order of the pairs, and then one for each participant that can win or lose.
///
/// # Errors
///
/// Where an allocation fails.
pub fn order_report(alloc: Global, plan: &Plan, order: &Order) -> Result<String, AllocError>
    ensures { IfOk result (λ report. string_bytes report ≡
        order_lines (plan_contents plan.now) order.now.pairs.items order.now.ways.items order.now.totals.items) }
{
    let labels = labels_of(alloc, plan)?;
    let mut report = String::new(alloc);
    push_pairs(&mut report, &labels, &order.pairs, &order.ways)?;
    push_totals(&mut report, &labels, &order.totals)?;
    Ok(report)
}

// The labels of all participants.
fn labels_of(alloc: Global, plan: &Plan) -> Result<Vec<String>, AllocError>
    ensures { IfOk result (λ labels. AreLabels (plan_contents plan.now) labels.items) }
{
    let mut labels = Vec::with_capacity(alloc, plan.participants() as usize)?;
    for p in 0..plan.participants() {
        labels.push(plan.label(alloc, p)?)?;
    }
    Ok(labels)
}

fn label_at(labels: &[String], p: usize) -> &str
    ensures { (plan : Contents) → AreLabels plan labels.now → result.now ≡ label_of plan p }
{
    match labels.get(p) {
        Some(label) => label.as_str(),
        None => "",
    }
}

// ---- pairs

fn push_pairs(
    report: &mut String,
    labels: &[String],
    pairs: &[(u32, u32)],
    ways: &[Option<Outcomes>],
) -> Result<(), AllocError>
    ensures { OnOk result ((plan : Contents) → AreLabels plan labels.now →
        string_bytes report.new ≡ string_bytes report.old ++ pair_lines plan 0 pairs.now ways.now) }
{
    for k in 0..pairs.len().min(ways.len()) {
        let (x, y) = pairs[k];
        let first = label_at(labels, x as usize);
        let second = label_at(labels, y as usize);
        push_pair(report, k, first, second, &ways[k])?;
    }
    Ok(())
}

// The line of pair i.
#[tactic(auto, unfolding(crate::specs::Lines::pair_text))]
fn push_pair(
    report: &mut String,
    i: usize,
    first: &str,
    second: &str,
    way: &Option<Outcomes>,
) -> Result<(), AllocError>
    ensures { OnOk result (
        string_bytes report.new ≡ string_bytes report.old ++ pair_text i first.now second.now way.now) }
{
    push_names(report, i, first, second)?;
    report.push_str(": ")?;
    push_ways(report, first, second, way)?;
    report.push_str("\n")
}

// Which pair it is.
fn push_names(report: &mut String, i: usize, first: &str, second: &str) -> Result<(), AllocError>
    ensures { OnOk result (string_bytes report.new ≡ string_bytes report.old ++
        (codes "pair " ++ (decimal i ++ (codes " " ++ (first.now ++ (codes " " ++ second.now)))))) }
{
    push_counted(report, "pair ", i as u64)?;
    report.push_str(" ")?;
    report.push_str(first)?;
    report.push_str(" ")?;
    report.push_str(second)
}

// In which slots both end, the first wins, the second wins, where they can.
fn push_ways(
    report: &mut String,
    first: &str,
    second: &str,
    way: &Option<Outcomes>,
) -> Result<(), AllocError>
    ensures { OnOk result (
        string_bytes report.new ≡ string_bytes report.old ++ ways_text first.now second.now way.now) }
{
    let Some(outcomes) = way else {
        return report.push_str("unsafe");
    };
    let Outcomes {
        both,
        first: first_wins,
        second: second_wins,
    } = *outcomes;
    push_way(report, true, "both", both)?;
    push_way(report, both.is_none(), first, first_wins)?;
    push_way(report, neither(both, first_wins), second, second_wins)
}

// Whether neither can happen.
fn neither(a: Option<Slots>, b: Option<Slots>) -> bool
    ensures { result ≡ (is_none a && is_none b) }
{
    a.is_none() && b.is_none()
}

// One way, where it can happen, with a comma before it unless it is the first.
fn push_way(
    report: &mut String,
    is_first: bool,
    who: &str,
    slots: Option<Slots>,
) -> Result<(), AllocError>
    ensures { OnOk result (
        string_bytes report.new ≡ string_bytes report.old ++ way_part is_first who.now slots) }
{
    let Some(slots) = slots else {
        return Ok(());
    };
    if !is_first {
        report.push_str(", ")?;
    }
    report.push_str(who)?;
    report.push_str(" ")?;
    push_slots(report, slots)
}

#[tactic(auto, unfolding(crate::specs::Lines::slots_text))]
fn push_slots(report: &mut String, slots: Slots) -> Result<(), AllocError>
    ensures { OnOk result (string_bytes report.new ≡ string_bytes report.old ++ slots_text slots) }
{
    let Slots { earliest, latest } = slots;
    push_number(report, earliest as u64)?;
    if earliest == latest {
        return Ok(());
    }
    report.push_str("..")?;
    push_number(report, latest as u64)
}

// A number, after these words.
fn push_counted(report: &mut String, before: &str, number: u64) -> Result<(), AllocError>
    ensures { OnOk result (
        string_bytes report.new ≡ string_bytes report.old ++ (before.now ++ decimal number)) }
{
    report.push_str(before)?;
    push_number(report, number)
}

// (there are so many numbers that they are not left to `write!`, which takes three times as long)
fn push_number(report: &mut String, number: u64) -> Result<(), AllocError>
    ensures { OnOk result (string_bytes report.new ≡ string_bytes report.old ++ decimal number) }
{
    report.push_str(itoa::Buffer::new().format(number))
}

// ---- totals

fn push_totals(report: &mut String, labels: &[String], totals: &[Total]) -> Result<(), AllocError>
    ensures { OnOk result ((plan : Contents) → AreLabels plan labels.now →
        string_bytes report.new ≡ string_bytes report.old ++ total_lines plan 0 totals.now) }
{
    for p in 0..totals.len() {
        push_total(report, label_at(labels, p), &totals[p])?;
    }
    Ok(())
}

// The line of a participant, if it is in a pair in which somebody can win.
#[tactic(auto, unfolding(crate::specs::Lines::total_text))]
fn push_total(report: &mut String, label: &str, total: &Total) -> Result<(), AllocError>
    ensures { OnOk result (
        string_bytes report.new ≡ string_bytes report.old ++ total_text label.now total.now) }
{
    if total.is_empty() {
        return Ok(());
    }
    report.push_str("total ")?;
    report.push_str(label)?;
    push_counts(report, total)
}

fn push_counts(report: &mut String, total: &Total) -> Result<(), AllocError>
    ensures { OnOk result (string_bytes report.new ≡ string_bytes report.old ++ counts_text total.now) }
{
    push_counted(report, ": wins ", total.wins as u64)?;
    push_counted(report, ", may win ", total.may_win as u64)?;
    push_counted(report, ", loses ", total.loses as u64)?;
    report.push_str("\n")
}
