// Where what has a name is named, and the edits that give it another one.

use crate::publishing::{Location, Marked, location_of};
use editor_texts::{Range, definition_in, json};
use growing_text::Text;
use origins::{Kind, NameAt, NamedTexts, Role, Span, Spans};
use serde::Serialize;
use std::alloc::{AllocError, Global};

/// Where a name stands for what gets it at one place: those bytes that are the name. Of a member of a family these are the first ones,
/// and of a message that a group makes, where a device is meant, those of the device.
///
/// # Errors
///
/// Where an allocation fails.
pub fn uses_of(
    alloc: Global,
    names: &NamedTexts<'_>,
    spans: &Spans,
    definition: NameAt,
) -> Result<Vec<Span>, AllocError> {
    let mut uses = Vec::new(alloc);
    for at in names.names() {
        if let Some(span) = use_at(names, spans, definition, *at) {
            uses.push(span)?;
        }
    }
    Ok(uses)
}

fn use_at(names: &NamedTexts<'_>, spans: &Spans, definition: NameAt, at: NameAt) -> Option<Span> {
    let name = names.word(definition);
    let word = names.word(at);
    if at.kind == definition.kind && (word == name || is_member(names, spans, definition, at)) {
        let end = at.span.start.saturating_add(name.len());
        return Some(Span { end, ..at.span });
    }
    if definition.kind == Kind::Device && at.kind == Kind::Message {
        return device_in(names, spans, name, at);
    }
    None
}

// Whether a message that is named there is one that the message of this place makes.
fn is_member(names: &NamedTexts<'_>, spans: &Spans, definition: NameAt, at: NameAt) -> bool {
    if at.kind != Kind::Message || !names.word(at).starts_with(names.word(definition)) {
        return false;
    }
    match definition_in(names, spans, Kind::Message, names.word(at)) {
        Some(found) => found.span == definition.span,
        None => false,
    }
}

// Where this device stands in the name of a message that a group makes.
fn device_in(names: &NamedTexts<'_>, spans: &Spans, device: &[u8], at: NameAt) -> Option<Span> {
    let made = definition_in(names, spans, Kind::Message, names.word(at))?;
    if made.span == at.span || !has_group_with(names, made, device) {
        return None;
    }
    let front = names.word(made).len().saturating_add(1);
    let rest = names.word(at).get(front..)?.strip_prefix(device)?;
    if !rest.is_empty() && rest.first() != Some(&b'_') {
        return None;
    }
    let start = at.span.start.saturating_add(front);
    Some(Span {
        start,
        end: start.saturating_add(device.len()),
        ..at.span
    })
}

// Whether a message names a group with this device.
fn has_group_with(names: &NamedTexts<'_>, message: NameAt, device: &[u8]) -> bool {
    for at in names.names() {
        if at.item == message.item && at.kind == Kind::Device {
            if let Some(group) = names.group(names.word(*at)) {
                return is_in_group(names, group, device);
            }
        }
    }
    false
}

fn is_in_group(names: &NamedTexts<'_>, group: NameAt, device: &[u8]) -> bool {
    for at in names.names() {
        if at.item == group.item && at.role == Role::Used && names.word(*at) == device {
            return true;
        }
    }
    false
}

/// These places, as the protocol has them: with the one that gives the name, or without it.
///
/// # Errors
///
/// Where an allocation fails.
pub fn locations_of(
    alloc: Global,
    marks: &[Marked<'_>],
    uses: &[Span],
    without: Option<Span>,
) -> Result<String, AllocError> {
    let mut all: Vec<Location<'_>> = Vec::new(alloc);
    for span in uses {
        if without != Some(*span) {
            all.push(location_of(marks, *span))?;
        }
    }
    json(alloc, &all)
}

#[derive(Clone, Copy, Serialize)]
struct Highlight {
    range: Range,
    kind: u8,
}

// A place where something is read, and one where it is written.
const READ: u8 = 2;

const WRITE: u8 = 3;

/// Those of these places that stand in the text of this number. One of them gives the name.
///
/// # Errors
///
/// Where an allocation fails.
pub fn highlights_of(
    alloc: Global,
    marks: &[Marked<'_>],
    uses: &[Span],
    given: Span,
    file: u32,
) -> Result<String, AllocError> {
    let mut all = Vec::new(alloc);
    for span in uses {
        if span.file == file {
            all.push(Highlight {
                range: location_of(marks, *span).range,
                kind: if *span == given { WRITE } else { READ },
            })?;
        }
    }
    json(alloc, &all)
}

/// The texts with this name in these places.
///
/// # Errors
///
/// Where an allocation fails.
pub(crate) fn renamed(
    alloc: Global,
    names: &NamedTexts<'_>,
    uses: &[Span],
    texts: usize,
    name: &str,
) -> Result<Vec<Vec<u8>>, AllocError> {
    let mut all = Vec::with_capacity(alloc, texts)?;
    let mut file = 0u32;
    for _ in 0..texts {
        let text = names.text(file);
        let mut new = Vec::new(alloc);
        let mut kept = 0usize;
        for span in uses {
            if span.file == file {
                new.extend_from_slice(text.get(kept..span.start).unwrap_or(&[]))?;
                new.extend_from_slice(name.as_bytes())?;
                kept = span.end;
            }
        }
        new.extend_from_slice(text.get(kept..).unwrap_or(&[]))?;
        all.push(new)?;
        file = file.saturating_add(1);
    }
    Ok(all)
}
