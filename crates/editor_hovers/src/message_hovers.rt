// What is said of a message: its frames, what is unsafe of it, and who wins.

use crate::frame_rows::push_rows;
use crate::unsafe_hovers::push_unsafe;
use crate::winners::push_winners;
use editor_texts::{Known, Reading};
use growing_text::Text;
use order::{Order, scores_of};
use origins::NamedTexts;
use plan_core::Plan;
use plan_words::{PlanWords, Sides, sides_of};
use std::alloc::{AllocError, Global};

// The rows of so many messages of a family are shown.
const MOST: usize = 3;

/// What is said of a message. None where the texts give no plan, or it was not put in order.
///
/// # Errors
///
/// Where an allocation fails.
pub(crate) fn message_hover(
    alloc: Global,
    known: &Known,
    names: &NamedTexts<'_>,
    name: &[u8],
) -> Result<Option<String>, AllocError> {
    let further = known.further_names(alloc)?;
    match (known.words(further.as_slice()), known.order()) {
        (Some(words), Some(order)) => hover_in_plan(alloc, known, names, words, order, name),
        _ => Ok(None),
    }
}

fn hover_in_plan(
    alloc: Global,
    known: &Known,
    names: &NamedTexts<'_>,
    words: PlanWords<'_>,
    order: &Order,
    name: &[u8],
) -> Result<Option<String>, AllocError> {
    let messages = named_so(alloc, words, name)?;
    if messages.is_empty() {
        return Ok(None);
    }
    let messages = messages.as_slice();
    let mut text = begun(alloc, words, messages, name)?;
    if let Reading::Plan(read) = &known.reading {
        let wrong = known.wrong.as_slice();
        push_unsafe(
            alloc,
            &mut text,
            &read.checked,
            words,
            names,
            wrong,
            messages,
        )?;
    }
    push_order(alloc, &mut text, words, order, messages)?;
    Ok(Some(text.finish()?))
}

// The messages of the plan with this name, or those of the family with it.
fn named_so(alloc: Global, words: PlanWords<'_>, name: &[u8]) -> Result<Vec<u32>, AllocError> {
    let mut messages = Vec::new(alloc);
    let plan = words.plan();
    for message in 0..plan.messages() {
        if plan.message_name(message).as_str().as_bytes() == name
            || words.message_name(message).as_bytes() == name
        {
            messages.push(message)?;
        }
    }
    Ok(messages)
}

// Its name and its frames.
fn begun(
    alloc: Global,
    words: PlanWords<'_>,
    messages: &[u32],
    name: &[u8],
) -> Result<Text, AllocError> {
    let mut text = Text::new(alloc);
    text.push("message `");
    text.push(str::from_utf8(name).unwrap_or(""));
    text.push("`\n\n```text\n");
    push_frames(alloc, &mut text, words.plan(), messages)?;
    text.push("```\n");
    Ok(text)
}

// The frames of the first of these messages, and how many more there are.
fn push_frames(
    alloc: Global,
    text: &mut Text,
    plan: &Plan,
    messages: &[u32],
) -> Result<(), AllocError> {
    for message in messages.iter().take(MOST) {
        if *message < plan.messages() {
            push_rows(alloc, text, plan.message(*message))?;
        }
    }
    let more = messages.len().saturating_sub(MOST);
    if more != 0 {
        text.push("and ");
        text.push_number(more as u64);
        text.push(" more of the family\n");
    }
    Ok(())
}

fn push_order(
    alloc: Global,
    text: &mut Text,
    words: PlanWords<'_>,
    order: &Order,
    messages: &[u32],
) -> Result<(), AllocError> {
    let sides = sides_of(alloc, words)?;
    push_scores(alloc, text, words, order, &sides, messages)
}

fn push_scores(
    alloc: Global,
    text: &mut Text,
    words: PlanWords<'_>,
    order: &Order,
    sides: &Sides,
    messages: &[u32],
) -> Result<(), AllocError> {
    let scores = scores_of(alloc, order, sides.numbers.as_slice(), sides.names.len())?;
    push_winners(alloc, text, words, sides, &scores, messages)
}
