// What is said of a name, or of another token, as Markdown.

use crate::message_hovers::message_hover;
use crate::never_hovers::never_hover;
use crate::side_hovers::{controller_hover, interrupt_hover};
use crate::token_hovers::{item_at, token_hover};
use editor_texts::{Document, Known, Word};
use growing_text::Text;
use origins::{ItemKind, Kind, NameAt, NamedTexts, Role};
use std::alloc::{AllocError, Global};

/// What is said of what stands at this place of a document: of a name what has it, and of another token what it does. None of what
/// says nothing, and of most where the texts give no plan, or it was not put in order.
///
/// # Errors
///
/// Where an allocation fails.
pub fn hover_of(
    alloc: Global,
    known: &Known,
    document: &Document,
    offset: usize,
) -> Result<Option<String>, AllocError> {
    let word = known
        .reading
        .word_at(alloc, &known.given, document, offset)?;
    let names = known.reading.names(alloc, known.given.parts.as_slice())?;
    let place = match known.given.number_of(document.uri.as_str()) {
        Some(file) => item_at(known.reading.spans(), file, offset),
        None => None,
    };
    match (word, place) {
        (Some(word), Some(place)) if place.item.kind == ItemKind::Never => {
            let said = name_hover(alloc, known, &names, word)?;
            let more = never_hover(alloc, known, &names, place.number)?;
            joined(alloc, said, more)
        }
        (Some(word), _) => name_hover(alloc, known, &names, word),
        (None, Some(place)) => token_hover(alloc, known, &names, place),
        (None, None) => Ok(None),
    }
}

// Both, one below the other.
fn joined(
    alloc: Global,
    said: Option<String>,
    more: Option<String>,
) -> Result<Option<String>, AllocError> {
    let (Some(said), Some(more)) = (&said, &more) else {
        return Ok(said.or(more));
    };
    let mut text = Text::new(alloc);
    text.push(said.as_str());
    text.push("\n");
    text.push(more.as_str());
    Ok(Some(text.finish()?))
}

fn name_hover(
    alloc: Global,
    known: &Known,
    names: &NamedTexts<'_>,
    name: Word<'_>,
) -> Result<Option<String>, AllocError> {
    match name.kind {
        Kind::Message => message_hover(alloc, known, names, name.bytes),
        Kind::Controller => controller_hover(alloc, known, names, name.bytes),
        Kind::Interrupt => interrupt_hover(alloc, known, name.bytes),
        Kind::Device => value_hover(alloc, names, name, "device", "address"),
        Kind::Byte => value_hover(alloc, names, name, "byte", "bits"),
    }
}

// ---- devices and bytes

fn value_hover(
    alloc: Global,
    names: &NamedTexts<'_>,
    name: Word<'_>,
    what: &'static str,
    value: &'static str,
) -> Result<Option<String>, AllocError> {
    let Some(given) = names.given(name.kind, name.bytes) else {
        return Ok(None);
    };
    let mut text = Text::new(alloc);
    if names.is_group(given) {
        push_group(&mut text, names, given);
        return Ok(Some(text.finish()?));
    }
    text.push(what);
    text.push(" `");
    text.push(str::from_utf8(name.bytes).unwrap_or(""));
    text.push("`: ");
    text.push(value);
    text.push(" `");
    text.push(str::from_utf8(names.value(given)).unwrap_or(""));
    text.push("`");
    Ok(Some(text.finish()?))
}

// The devices of a group, which gets its name there.
fn push_group(text: &mut Text, names: &NamedTexts<'_>, given: NameAt) {
    text.push("group `");
    text.push(str::from_utf8(names.word(given)).unwrap_or(""));
    text.push("`:");
    for at in names.names() {
        if at.item == given.item && at.role == Role::Used {
            text.push(" `");
            text.push(str::from_utf8(names.word(*at)).unwrap_or(""));
            text.push("`");
        }
    }
}
