// The changes that an editor makes in a document.

use crate::rpc::{number_in, text_in};
use editor_texts::{Lines, Position, Units};
use growing_text::Text;
use serde_json::Value;
use std::alloc::{AllocError, Global};

/// The text after these changes, which were made one after another: each in a range, or of the whole text. None where one of them
/// cannot be made.
///
/// # Errors
///
/// Where an allocation fails.
pub(crate) fn changed_text(
    alloc: Global,
    text: &str,
    changes: &[Value],
    units: Units,
) -> Result<Option<String>, AllocError> {
    let mut changed = String::from_str(alloc, text)?;
    for change in changes {
        match changed_once(alloc, changed.as_str(), change, units)? {
            Some(next) => changed = next,
            None => return Ok(None),
        }
    }
    Ok(Some(changed))
}

fn changed_once(
    alloc: Global,
    text: &str,
    change: &Value,
    units: Units,
) -> Result<Option<String>, AllocError> {
    let Some(new) = text_in(change, "text") else {
        return Ok(None);
    };
    match change.get("range") {
        None => Ok(Some(String::from_str(alloc, new)?)),
        Some(range) => match range_in(range) {
            Some(places) => put_between(alloc, text, places, new, units),
            None => Ok(None),
        },
    }
}

// A text with another one in the place of what stands between these.
fn put_between(
    alloc: Global,
    text: &str,
    places: (Position, Position),
    new: &str,
    units: Units,
) -> Result<Option<String>, AllocError> {
    let lines = Lines::of(alloc, text.as_bytes(), units)?;
    let (start, end) = (lines.offset(places.0), lines.offset(places.1));
    let (Some(before), Some(after)) = (text.get(..start), text.get(end..)) else {
        return Ok(None);
    };
    if end < start {
        return Ok(None);
    }
    let mut changed = Text::new(alloc);
    changed.push(before);
    changed.push(new);
    changed.push(after);
    Ok(Some(changed.finish()?))
}

/// Two places.
pub(crate) fn range_in(range: &Value) -> Option<(Position, Position)> {
    Some((
        position_in(range.get("start")?)?,
        position_in(range.get("end")?)?,
    ))
}

/// A place.
pub(crate) fn position_in(position: &Value) -> Option<Position> {
    Some(Position {
        line: number_in(position, "line")?,
        character: number_in(position, "character")?,
    })
}
