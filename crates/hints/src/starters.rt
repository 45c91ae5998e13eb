// After starters of a bench that are refused.

use crate::likeness::Nearest;
use crate::lines::Lines;
use crate::marking::push_name;
use crate::values::Hints;
use plan_core::{Participant, Plan};
use plan_words::PlanWords;
use plays::RefusedStarters;
use std::alloc::{AllocError, Global};

/// What to say of starters of this plan, for which no bench is opened.
///
/// # Errors
///
/// Where an allocation fails.
pub fn on_starters(
    alloc: Global,
    words: PlanWords<'_>,
    refused: &RefusedStarters,
) -> Result<Hints, AllocError> {
    let mut lines = Lines::new(alloc);
    let plan = words.plan();
    match refused {
        RefusedStarters::Nobody => push_none(alloc, &mut lines, plan),
        RefusedStarters::Unknown(label) => push_unknown(alloc, &mut lines, words, label.as_str()),
        RefusedStarters::OneController(one, other) => {
            push_two(alloc, &mut lines, plan, *one, *other);
            lines.say("a controller starts one message at a time");
        }
        RefusedStarters::Apart(one, other) if words.has_briefs() => {
            push_apart(alloc, &mut lines, words, *one, *other);
        }
        RefusedStarters::Apart(one, other) => push_item(&mut lines, plan, *one, *other),
    }
    lines.finish()
}

fn push_none(alloc: Global, lines: &mut Lines, plan: &Plan) {
    lines.say("no starter is named: give labels, joined by commas");
    push_nearest(alloc, lines, plan, "");
}

// A label that the plan does not have, and what the plan calls it where it is one of the briefs, or else those that are like it.
fn push_unknown(alloc: Global, lines: &mut Lines, words: PlanWords<'_>, label: &str) {
    lines.part("no participant of the plan has the label '");
    push_name(lines, label.as_bytes());
    lines.say("'");
    let plan = words.plan();
    match called_so(alloc, words, label) {
        Ok(Some(i)) => {
            lines.part("this is its label in the briefs; the plan calls it ");
            push_label(alloc, lines, plan, i);
            lines.end();
        }
        Ok(None) => push_nearest(alloc, lines, plan, label),
        Err(_) => lines.fail(),
    }
}

// The participant that briefs call so.
fn called_so(alloc: Global, words: PlanWords<'_>, wanted: &str) -> Result<Option<u32>, AllocError> {
    for i in 0..words.plan().participants() {
        let label = words.label(alloc, i)?;
        if label.as_str() == wanted {
            return Ok(Some(i));
        }
    }
    Ok(None)
}

fn push_nearest(alloc: Global, lines: &mut Lines, plan: &Plan, wanted: &str) {
    if plan.participants() == 0 {
        lines.say("the plan has no participants");
        return;
    }
    if wanted.is_empty() {
        lines.say("labels of the plan:");
    } else {
        lines.say("labels of the plan, the nearest first:");
    }
    let mut nearest = Nearest::new(alloc, wanted.as_bytes());
    for i in 0..plan.participants() {
        if add_label(alloc, &mut nearest, plan, i).is_err() {
            lines.fail();
        }
    }
    nearest.tell(lines);
}

fn add_label(
    alloc: Global,
    nearest: &mut Nearest<'_>,
    plan: &Plan,
    i: u32,
) -> Result<(), AllocError> {
    if i < plan.participants() {
        let label = plan.label(alloc, i)?;
        nearest.add(alloc, label.as_bytes())?;
    }
    Ok(())
}

// Two starters of one controller, or one that stands there twice.
fn push_two(alloc: Global, lines: &mut Lines, plan: &Plan, first: u32, second: u32) {
    push_label(alloc, lines, plan, first);
    if first == second {
        lines.say(" stands there twice");
        return;
    }
    lines.part(" and ");
    push_label(alloc, lines, plan, second);
    lines.say(" are of one controller");
}

// The label of a participant in quotation marks.
fn push_label(alloc: Global, lines: &mut Lines, plan: &Plan, i: u32) {
    if i >= plan.participants() {
        return;
    }
    match plan.label(alloc, i) {
        Ok(label) => {
            let label = label.as_str();
            lines.part(format_args!("'{label}'"));
        }
        Err(_) => lines.fail(),
    }
}

// In the words of briefs, in which the item may not stand as the plan has it: it may be one between the parts of a
// controller.
fn push_apart(alloc: Global, lines: &mut Lines, words: PlanWords<'_>, first: u32, second: u32) {
    push_called(alloc, lines, words, first);
    lines.part(" and ");
    push_called(alloc, lines, words, second);
    if are_of_one(words, first, second) {
        lines.say(" are of one controller, which starts one message at a time");
    } else {
        lines.say(" never start together: a 'never' keeps them apart");
    }
}

// What briefs call a participant, in quotation marks.
fn push_called(alloc: Global, lines: &mut Lines, words: PlanWords<'_>, i: u32) {
    match words.label(alloc, i) {
        Ok(label) => {
            let label = label.as_str();
            lines.part(format_args!("'{label}'"));
        }
        Err(_) => lines.fail(),
    }
}

// Whether the controllers of the two are one controller of a brief, or parts of one.
fn are_of_one(words: PlanWords<'_>, first: u32, second: u32) -> bool {
    match (
        controller_of(words.plan(), first),
        controller_of(words.plan(), second),
    ) {
        (Some(one), Some(other)) => words.is_one(one, other),
        _ => false,
    }
}

// The item that keeps these two apart.
fn push_item(lines: &mut Lines, plan: &Plan, first: u32, second: u32) {
    for k in 0..plan.nevers() {
        let (one, other) = plan.never(k);
        if is_of(plan, first, one) && is_of(plan, second, other)
            || is_of(plan, first, other) && is_of(plan, second, one)
        {
            let one = plan.controller_name(one).as_str();
            let other = plan.controller_name(other).as_str();
            lines.say(format_args!(
                "the plan has 'never {one} {other} ;': these two never start together"
            ));
            return;
        }
    }
}

// Whether this participant is a sending of this controller.
fn is_of(plan: &Plan, i: u32, wanted: u32) -> bool {
    controller_of(plan, i) == Some(wanted)
}

// The controller of a participant that is no interrupt.
fn controller_of(plan: &Plan, i: u32) -> Option<u32> {
    if i >= plan.participants() {
        return None;
    }
    match plan.participant(i) {
        Participant::Sending { controller, .. } => Some(controller),
        Participant::Interrupt(_) => None,
    }
}
