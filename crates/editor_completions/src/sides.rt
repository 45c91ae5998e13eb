// What `never` items name: controllers, and labels of what these send.

use editor_texts::names_of_item;
use origins::{ItemKind, Kind, NameAt, NamedTexts, Role, Span, Spans, halves};
use std::alloc::{AllocError, Global};

/// One of the two that a `never` names.
#[derive(Clone, Copy)]
pub(crate) struct Side<'a> {
    /// The word: a controller or a label.
    pub(crate) word: &'a [u8],
    // how many items stand before its own
    item: usize,
}

/// The sides of all `never` items, in the order of the texts.
///
/// # Errors
///
/// Where an allocation fails.
pub(crate) fn all_sides<'a>(
    alloc: Global,
    names: &NamedTexts<'a>,
    spans: &Spans,
) -> Result<Vec<Side<'a>>, AllocError> {
    let mut sides = Vec::new(alloc);
    for (number, item) in spans.items().iter().enumerate() {
        if item.kind == ItemKind::Never {
            push_sides(&mut sides, names, names_of_item(spans, number))?;
        }
    }
    Ok(sides)
}

fn push_sides<'a>(
    sides: &mut Vec<Side<'a>>,
    names: &NamedTexts<'a>,
    own: &[NameAt],
) -> Result<(), AllocError> {
    for (place, at) in own.iter().enumerate() {
        if at.kind == Kind::Controller {
            let end = end_of_side(*at, own.get(place.saturating_add(1)));
            let span = Span { end, ..at.span };
            sides.push(Side {
                word: span.of(names.text(span.file)),
                item: at.item,
            })?;
        }
    }
    Ok(())
}

// Where the word ends that begins with the name of a controller: with the other half of a label, where that follows.
fn end_of_side(at: NameAt, next: Option<&NameAt>) -> usize {
    match next {
        Some(next) if next.role == Role::Label => next.span.end,
        _ => at.span.end,
    }
}

/// The first side of the item of this number.
pub(crate) fn first_side<'a>(sides: &[Side<'a>], item: usize) -> Option<&'a [u8]> {
    for side in sides {
        if side.item == item {
            return Some(side.word);
        }
    }
    None
}

/// The controller that a side names, or of which it names what it sends.
pub(crate) fn controller_of(word: &[u8]) -> &[u8] {
    match halves(word) {
        Some((controller, _)) => controller,
        None => word,
    }
}

/// Whether a side names this controller or a label of it.
pub(crate) fn has_side_of(sides: &[Side<'_>], controller: &[u8]) -> bool {
    for side in sides {
        if controller_of(side.word) == controller {
            return true;
        }
    }
    false
}

/// Whether a `never` names these two, in either order.
pub(crate) fn has_pair(sides: &[Side<'_>], one: &[u8], other: &[u8]) -> bool {
    for (place, first) in sides.iter().enumerate() {
        if let Some(second) = sides.get(place.saturating_add(1)) {
            if first.item == second.item && are(*first, *second, one, other) {
                return true;
            }
        }
    }
    false
}

fn are(first: Side<'_>, second: Side<'_>, one: &[u8], other: &[u8]) -> bool {
    first.word == one && second.word == other || first.word == other && second.word == one
}

/// Whether the part of a label has a name that another one has taken: a controller with one of these names, or another label.
pub(crate) fn is_part_taken(sides: &[Side<'_>], controllers: &[&[u8]], label: &[u8]) -> bool {
    for side in sides {
        if side.word == label {
            return false;
        }
    }
    for side in sides {
        if halves(side.word).is_some() && has_name_of(label, side.word) {
            return true;
        }
    }
    for controller in controllers {
        if has_name_of(label, controller) {
            return true;
        }
    }
    false
}

// Whether the part of a label has the name of that of another one, or of a controller.
fn has_name_of(label: &[u8], other: &[u8]) -> bool {
    label.len() == other.len()
        && label
            .iter()
            .zip(other)
            .all(|(one, other)| in_name(*one) == in_name(*other))
}

// What stands in the name of a part for this byte of a label.
fn in_name(byte: u8) -> u8 {
    if byte == b'/' { b'_' } else { byte }
}
