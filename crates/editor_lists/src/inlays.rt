// What is shown between the words of a document: addresses and bits of what is named, and the numbers of a family.

use editor_texts::{Lines, Position, json};
use growing_text::Text;
use origins::{ItemKind, Kind, NameAt, NamedTexts, Role, Span};
use serde::Serialize;
use std::alloc::{AllocError, Global};

#[derive(Clone, Copy, Serialize)]
#[serde(rename_all = "camelCase")]
struct Inlay<'a> {
    position: Position,
    label: &'a str,
    padding_left: bool,
}

/// What is shown after the names that stand in this part of a text, as the protocol has it.
///
/// # Errors
///
/// Where an allocation fails.
pub fn inlays_in(
    alloc: Global,
    names: &NamedTexts<'_>,
    part: Span,
    lines: &Lines<'_>,
) -> Result<String, AllocError> {
    let mut text = Text::new(alloc);
    let mut before = "[";
    for at in names.names() {
        let is_inside = part.start <= at.span.start && at.span.end <= part.end;
        if at.span.file == part.file && is_inside && at.role == Role::Used {
            if let Some(label) = label_of(names, *at) {
                let inlay = Inlay {
                    position: lines.position(at.span.end),
                    label,
                    padding_left: true,
                };
                text.push(before);
                text.push_made(json(alloc, &inlay));
                before = ",";
            }
        }
    }
    text.push(if before == "[" { "[]" } else { "]" });
    text.finish()
}

// What a name stands for, where it is one of a device or a byte, or of a whole family.
fn label_of<'a>(names: &NamedTexts<'a>, at: NameAt) -> Option<&'a str> {
    let value = match at.kind {
        Kind::Device if !is_in_group(names, at) => names.value(names.given(
            at.kind,
            names.word(at),
        )?),
        Kind::Byte => names.value(names.given(at.kind, names.word(at))?),
        Kind::Message => names.range(names.given(at.kind, names.word(at))?),
        _ => return None,
    };
    match str::from_utf8(value) {
        Ok(label) if !label.is_empty() => Some(label),
        _ => None,
    }
}

fn is_in_group(names: &NamedTexts<'_>, at: NameAt) -> bool {
    match names.item(at) {
        Some(item) => item.kind == ItemKind::Groups,
        None => false,
    }
}
