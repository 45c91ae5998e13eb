// What mends what is likely a mistake in briefs: an item is taken out that nobody needs, or a byte is written by `wr` or `rd`.

use crate::items::Items;
use crate::values::{Fix, Span};
use hints::made_byte;
use lint::Oddity;
use origins::{Device, Item, Kind};
use std::alloc::{AllocError, Global};

/// What mends this. Nothing of what needs more than an edit.
pub(crate) fn mends_of(
    alloc: Global,
    oddity: Oddity<'_>,
    items: &Items<'_>,
) -> Result<Vec<Fix>, AllocError> {
    let mut fixes = Vec::new(alloc);
    if let Some(fix) = mend_of(alloc, oddity, items)? {
        fixes.push(fix)?;
    }
    Ok(fixes)
}

fn mend_of(
    alloc: Global,
    oddity: Oddity<'_>,
    items: &Items<'_>,
) -> Result<Option<Fix>, AllocError> {
    match oddity {
        Oddity::UnusedDevice(device) => {
            unused(alloc, items, Kind::Device, "device", device.name.as_str())
        }
        Oddity::UnusedGroup { name, .. } => unused(alloc, items, Kind::Device, "group", name),
        Oddity::UnusedByte(byte) => unused(alloc, items, Kind::Byte, "byte", byte.name.as_str()),
        Oddity::IdleNever { at, .. } => {
            let title = format!(in alloc; "remove this 'never'")?;
            without(alloc, items, items.item_at(at.span), title)
        }
        Oddity::AddressByte {
            device,
            is_read,
            at,
        } => made_of(alloc, items, device, is_read, at.span),
        _ => Ok(None),
    }
}

// Takes out the item that gives this name, where no other item has it.
fn unused(
    alloc: Global,
    items: &Items<'_>,
    kind: Kind,
    what: &'static str,
    name: &str,
) -> Result<Option<Fix>, AllocError> {
    if items.is_used(kind, name) {
        return Ok(None);
    }
    let title = format!(in alloc; "remove {what} '{name}'")?;
    without(alloc, items, items.giving(kind, name), title)
}

fn without(
    alloc: Global,
    items: &Items<'_>,
    item: Option<Item>,
    title: String,
) -> Result<Option<Fix>, AllocError> {
    let Some(Item { span, .. }) = item else {
        return Ok(None);
    };
    let span = with_lines(items.text(span.file), span);
    Ok(Some(Fix::of(alloc, title, span, String::new(alloc))?))
}

// The bytes of an item, and the rest of its lines where nothing else stands in them.
fn with_lines(text: &[u8], span: Span) -> Span {
    let before = last_line(text.get(..span.start).unwrap_or(&[]));
    let after = text.get(span.end..).unwrap_or(&[]);
    let rest = first_line(after);
    if !is_blank(before) || !is_blank(rest) {
        return span;
    }
    // (with the line feed, where there is one)
    let length = rest.len().saturating_add(1).min(after.len());
    Span {
        start: span.start.saturating_sub(before.len()),
        end: span.end.saturating_add(length),
        ..span
    }
}

// Writes the header of the device in the place of its byte.
fn made_of(
    alloc: Global,
    items: &Items<'_>,
    device: &Device,
    is_read: bool,
    at: Span,
) -> Result<Option<Fix>, AllocError> {
    if !can_be_made(items, device.name.as_str(), at) {
        return Ok(None);
    }
    match made_byte(alloc, device, is_read)? {
        Some(made) => {
            let word = made.as_str();
            let title = format!(in alloc; "write '{word}' here")?;
            Ok(Some(Fix::of(alloc, title, at, made)?))
        }
        None => Ok(None),
    }
}

// Whether `wr` or `rd` of a device can stand in the place of a byte: in a brief of the second version, after the device, and where
// the byte is neither repeated nor left out of any others.
fn can_be_made(items: &Items<'_>, device: &str, at: Span) -> bool {
    let text = items.text(at.file);
    items.is_second(at.file)
        && stands_before(items.named(Kind::Device, device), at)
        && !ends_in_but(text.get(..at.start).unwrap_or(&[]))
        && !after_comments(text.get(at.end..).unwrap_or(&[])).starts_with(b"*")
}

fn stands_before(name: Option<Span>, at: Span) -> bool {
    match name {
        Some(name) => name.file < at.file || name.file == at.file && name.start < at.start,
        None => false,
    }
}

// Whether `but` is the last word of a text, before blanks and comments.
fn ends_in_but(text: &[u8]) -> bool {
    for line in text.rsplit(is_line_feed) {
        let words = line.split(is_hash).next().unwrap_or(&[]);
        if !is_blank(words) {
            return words.trim_ascii_end().ends_with(b"but");
        }
    }
    false
}

// What stands after blanks and comments.
fn after_comments(text: &[u8]) -> &[u8] {
    let mut rest = text.trim_ascii_start();
    for _ in 0..text.len() {
        if !rest.starts_with(b"#") {
            break;
        }
        let comment = first_line(rest);
        rest = rest.get(comment.len()..).unwrap_or(&[]).trim_ascii_start();
    }
    rest
}

fn last_line(text: &[u8]) -> &[u8] {
    text.rsplit(is_line_feed).next().unwrap_or(&[])
}

fn first_line(text: &[u8]) -> &[u8] {
    text.split(is_line_feed).next().unwrap_or(&[])
}

fn is_blank(text: &[u8]) -> bool {
    text.trim_ascii_start().is_empty()
}

fn is_line_feed(byte: &u8) -> bool {
    *byte == b'\n'
}

fn is_hash(byte: &u8) -> bool {
    *byte == b'#'
}
