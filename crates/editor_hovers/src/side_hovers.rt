// What is said of a controller, and of an interrupt.

use crate::hover_counts::{Senders, Side, is_in_never, push_tally, sides_in, tally_of};
use crate::hover_words::{end_list, push_against, push_byte, push_code, push_counted, push_listed};
use crate::never_hovers::push_never_side;
use editor_texts::{Known, ReadPlan, Reading};
use growing_text::Text;
use order::{Order, Scores, scores_of};
use origins::{Kind, NameAt, NamedTexts, Role};
use plan_core::{Participant, Plan};
use plan_words::{PlanWords, Sides, sides_of};
use std::alloc::{AllocError, Global};

// So many lines say who wins, and so many whom a controller never meets.
const MOST: usize = 10;

/// What is said of a controller: what it sends, in how many pairs that is, whom it never meets, and who wins. Where texts are
/// refused it is what the controller lists.
///
/// # Errors
///
/// Where an allocation fails.
pub(crate) fn controller_hover(
    alloc: Global,
    known: &Known,
    names: &NamedTexts<'_>,
    name: &[u8],
) -> Result<Option<String>, AllocError> {
    let further = known.further_names(alloc)?;
    match (&known.reading, known.words(further.as_slice())) {
        (Reading::Plan(read), Some(words)) => {
            let mut text = Text::new(alloc);
            push_controller(alloc, &mut text, read, words, known.order(), names, name)?;
            Ok(Some(text.finish()?))
        }
        _ => listed_by(alloc, names, name),
    }
}

// ---- what a controller lists

// None where nobody gives it a name.
fn listed_by(
    alloc: Global,
    names: &NamedTexts<'_>,
    name: &[u8],
) -> Result<Option<String>, AllocError> {
    if names.given(Kind::Controller, name).is_none() {
        return Ok(None);
    }
    let mut text = begun(alloc, "controller", name);
    let mut count = 0usize;
    // whether the item is one of this controller
    let mut is_own = false;
    for at in names.names() {
        if at.kind == Kind::Controller {
            is_own = !is_in_never(names, *at) && names.word(*at) == name;
        } else if is_own && at.kind == Kind::Message && at.role == Role::Used {
            text.push(if count == 0 { "lists " } else { "" });
            push_listed(&mut text, count, names.word(*at));
            count = count.saturating_add(1);
        } else {
            is_own = false;
        }
    }
    if count == 0 {
        text.push("lists no message");
    }
    end_list(&mut text, count);
    Ok(Some(text.finish()?))
}

fn begun(alloc: Global, what: &'static str, name: &[u8]) -> Text {
    let mut text = Text::new(alloc);
    text.push(what);
    text.push(" ");
    push_code(&mut text, name);
    text.push(": ");
    text
}

// ---- a controller of a plan

fn push_controller(
    alloc: Global,
    text: &mut Text,
    read: &ReadPlan,
    words: PlanWords<'_>,
    order: Option<&Order>,
    names: &NamedTexts<'_>,
    name: &[u8],
) -> Result<(), AllocError> {
    let side = Side {
        controller: name,
        label: None,
    };
    let own = Senders::of_side(alloc, words, read.provenance.origins.as_ref(), side)?;
    text.push("controller ");
    push_code(text, name);
    text.push(": ");
    push_sent(text, words, &own);
    text.push("\n\n");
    push_tally(text, tally_of(&read.checked, &own));
    text.push("\n\n");
    push_nevers(text, names, name);
    match order {
        Some(order) => push_scores(alloc, text, words, order, &own),
        None => Ok(()),
    }
}

// What it sends: how many messages, and which.
fn push_sent(text: &mut Text, words: PlanWords<'_>, own: &Senders) {
    let count = own.count();
    if count == 0 {
        return text.push("sends no message");
    }
    text.push("sends ");
    push_counted(text, count, "message", "messages");
    text.push(": ");
    own.push_messages(text, words);
}

// Whom it never meets, as the items say it.
fn push_nevers(text: &mut Text, names: &NamedTexts<'_>, name: &[u8]) {
    let mut count = 0usize;
    for at in names.names() {
        if is_side(names, *at, name) {
            if count < MOST {
                push_never(text, names, at.item, name);
            }
            count = count.saturating_add(1);
        }
    }
    push_more(text, count);
}

// Whether a controller of this name stands there as a side of a `never`.
fn is_side(names: &NamedTexts<'_>, at: NameAt, name: &[u8]) -> bool {
    at.kind == Kind::Controller && is_in_never(names, at) && names.word(at) == name
}

// Its own side stands first.
fn push_never(text: &mut Text, names: &NamedTexts<'_>, item: usize, name: &[u8]) {
    let Some((first, second)) = sides_in(names, item) else {
        return;
    };
    let (own, other) = if first.controller == name {
        (first, second)
    } else {
        (second, first)
    };
    text.push("- ");
    push_never_side(text, own);
    text.push(" never meets ");
    push_never_side(text, other);
    text.push("\n");
}

// How many more lines there were than are shown.
fn push_more(text: &mut Text, count: usize) {
    let more = count.saturating_sub(MOST);
    if more != 0 {
        text.push("- and ");
        text.push_number(more as u64);
        text.push(" more\n");
    }
}

// ---- who wins

// Against each other side how its pairs end, and which of its messages never win there where some others do.
fn push_scores(
    alloc: Global,
    text: &mut Text,
    words: PlanWords<'_>,
    order: &Order,
    own: &Senders,
) -> Result<(), AllocError> {
    let sides = sides_of(alloc, words)?;
    let scores = scores_of(alloc, order, sides.numbers.as_slice(), sides.names.len())?;
    let Some(side) = side_of(&sides, own) else {
        return Ok(());
    };
    let mut count = 0usize;
    for (other, name) in sides.names.iter().enumerate() {
        let score = scores.between(side, other);
        if score.pairs() != 0 {
            if count < MOST {
                push_against(text, side_name(&sides, side), name.as_str(), score);
            }
            count = count.saturating_add(1);
            if !score.never_wins() {
                count = push_losers(
                    alloc,
                    text,
                    words,
                    &scores,
                    own,
                    (other, name.as_str()),
                    count,
                )?;
            }
        }
    }
    push_more(text, count);
    Ok(())
}

// The number of the side of all of these.
fn side_of(sides: &Sides, own: &Senders) -> Option<usize> {
    sides.numbers.get(own.first()?).copied()
}

fn side_name(sides: &Sides, side: usize) -> &str {
    match sides.names.get(side) {
        Some(name) => name.as_str(),
        None => "",
    }
}

// Those that never win against another side, after so many lines. How many lines there are then.
fn push_losers(
    alloc: Global,
    text: &mut Text,
    words: PlanWords<'_>,
    scores: &Scores,
    own: &Senders,
    other: (usize, &str),
    before: usize,
) -> Result<usize, AllocError> {
    let mut count = before;
    for p in 0..words.plan().participants() {
        let score = scores.against(p as usize, other.0);
        if own.has(p) && score.never_wins() {
            if count < MOST {
                let label = words.label(alloc, p)?;
                push_against(text, label.as_str(), other.1, score);
            }
            count = count.saturating_add(1);
        }
    }
    Ok(count)
}

// ---- an interrupt

/// What is said of an interrupt: its address, in how many pairs it is, and who wins. None where the texts give no plan.
///
/// # Errors
///
/// Where an allocation fails.
pub(crate) fn interrupt_hover(
    alloc: Global,
    known: &Known,
    name: &[u8],
) -> Result<Option<String>, AllocError> {
    let further = known.further_names(alloc)?;
    let (Reading::Plan(read), Some(words)) = (&known.reading, known.words(further.as_slice()))
    else {
        return Ok(None);
    };
    let Some(p) = interrupting(words.plan(), name) else {
        return Ok(None);
    };
    let own = Senders::one(alloc, words, p)?;
    let mut text = begun(alloc, "interrupt", name);
    push_address(&mut text, words.plan(), p);
    text.push("\n\n");
    push_tally(&mut text, tally_of(&read.checked, &own));
    text.push("\n\n");
    if let Some(order) = known.order() {
        push_ends(alloc, &mut text, words, order, p)?;
    }
    Ok(Some(text.finish()?))
}

// The participant that is the interrupt of this name.
fn interrupting(plan: &Plan, name: &[u8]) -> Option<u32> {
    for p in 0..plan.participants() {
        if let Participant::Interrupt(k) = plan.participant(p) {
            if plan.interrupt_name(k).as_str().as_bytes() == name {
                return Some(p);
            }
        }
    }
    None
}

fn push_address(text: &mut Text, plan: &Plan, p: u32) {
    if plan.participants() <= p {
        return;
    }
    if let Participant::Interrupt(k) = plan.participant(p) {
        let address = plan.interrupt_address(k);
        text.push("address ");
        push_byte(text, address);
        text.push(", bits `");
        for place in 0..7u8 {
            let is_one = address >> (6 - place) & 1 == 1;
            text.push(if is_one { "1" } else { "0" });
        }
        text.push("`");
    }
}

// How its pairs with each side end.
fn push_ends(
    alloc: Global,
    text: &mut Text,
    words: PlanWords<'_>,
    order: &Order,
    p: u32,
) -> Result<(), AllocError> {
    let sides = sides_of(alloc, words)?;
    let scores = scores_of(alloc, order, sides.numbers.as_slice(), sides.names.len())?;
    let label = words.label(alloc, p)?;
    let mut count = 0usize;
    for (other, name) in sides.names.iter().enumerate() {
        let score = scores.against(p as usize, other);
        if score.pairs() != 0 {
            if count < MOST {
                push_against(text, label.as_str(), name.as_str(), score);
            }
            count = count.saturating_add(1);
        }
    }
    push_more(text, count);
    Ok(())
}
