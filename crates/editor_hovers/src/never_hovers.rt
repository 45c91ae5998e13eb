// What is said of a `never`.

use crate::hover_counts::{Senders, Side, sides_in};
use crate::hover_words::{push_code, push_counted};
use editor_texts::{Known, Reading};
use growing_text::Text;
use origins::NamedTexts;
use plan_words::PlanWords;
use std::alloc::{AllocError, Global};

/// What is said of the item with this number, which is a `never`: how many pairs it leaves unchecked, and of which messages, where
/// it does not name a controller. None where the texts give no plan.
///
/// # Errors
///
/// Where an allocation fails.
pub(crate) fn never_hover(
    alloc: Global,
    known: &Known,
    names: &NamedTexts<'_>,
    item: usize,
) -> Result<Option<String>, AllocError> {
    let further = known.further_names(alloc)?;
    let (Reading::Plan(read), Some(words)) = (&known.reading, known.words(further.as_slice()))
    else {
        return Ok(None);
    };
    let Some((one, other)) = sides_in(names, item) else {
        return Ok(None);
    };
    let origins = read.provenance.origins.as_ref();
    let first = Senders::of_side(alloc, words, origins, one)?;
    let second = Senders::of_side(alloc, words, origins, other)?;
    let mut text = Text::new(alloc);
    push_never_side(&mut text, one);
    text.push(" never meets ");
    push_never_side(&mut text, other);
    text.push(": ");
    let pairs = first.count().saturating_mul(second.count());
    push_counted(&mut text, pairs, "pair is", "pairs are");
    text.push(" not checked\n\n");
    push_labelled(&mut text, words, one, &first);
    push_labelled(&mut text, words, other, &second);
    Ok(Some(text.finish()?))
}

/// Adds a side, as a `never` names it.
pub(crate) fn push_never_side(text: &mut Text, side: Side<'_>) {
    match side.label {
        Some(label) => {
            text.push("`");
            text.push(str::from_utf8(side.controller).unwrap_or(""));
            text.push("/");
            text.push(str::from_utf8(label).unwrap_or(""));
            text.push("`");
        }
        None => push_code(text, side.controller),
    }
}

// Which messages a label means.
fn push_labelled(text: &mut Text, words: PlanWords<'_>, side: Side<'_>, senders: &Senders) {
    if side.label.is_some() {
        text.push("- of ");
        push_code(text, side.controller);
        text.push(" only ");
        senders.push_messages(text, words);
        text.push("\n");
    }
}
