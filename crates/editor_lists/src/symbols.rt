// What stands in a document: its items, and which lines may be folded.

use editor_texts::{Lines, Range, json, names_of_item};
use origins::{Item, ItemKind, Kind, NameAt, NamedTexts, Role, Spans};
use serde::Serialize;
use std::alloc::{AllocError, Global};

#[derive(Clone, Copy, Serialize)]
#[serde(rename_all = "camelCase")]
struct Symbol<'a> {
    name: &'a str,
    detail: &'static str,
    kind: u8,
    range: Range,
    selection_range: Range,
}

// Kinds of symbols, as the protocol numbers them.
const MODULE: u8 = 2;

const ENUM: u8 = 10;

const FUNCTION: u8 = 12;

const CONSTANT: u8 = 14;

const OBJECT: u8 = 19;

const EVENT: u8 = 24;

const OPERATOR: u8 = 25;

/// The items of the text of this number, as the protocol has them.
///
/// # Errors
///
/// Where an allocation fails.
pub fn symbols_in(
    alloc: Global,
    spans: &Spans,
    names: &NamedTexts<'_>,
    file: u32,
    lines: &Lines<'_>,
) -> Result<String, AllocError> {
    let mut symbols = Vec::new(alloc);
    for (number, item) in spans.items().iter().enumerate() {
        if item.span.file == file {
            if let Some(symbol) = symbol_of(names, names_of_item(spans, number), *item, lines) {
                symbols.push(symbol)?;
            }
        }
    }
    json(alloc, &symbols)
}

// An item by its name, and a `never` by all of its words.
fn symbol_of<'a>(
    names: &NamedTexts<'a>,
    own: &[NameAt],
    item: Item,
    lines: &Lines<'_>,
) -> Option<Symbol<'a>> {
    let (detail, kind) = look_of(item.kind);
    let named = named_in(own, item.kind);
    let shown = match named {
        Some(at) => at.span,
        None => item.span,
    };
    let name = str::from_utf8(shown.of(names.text(shown.file))).ok()?;
    // (a client takes no symbol without a name)
    let name = name.trim_end_matches(';').trim();
    if name.is_empty() {
        return None;
    }
    Some(Symbol {
        name,
        detail,
        kind,
        range: lines.range(item.span.start, item.span.end),
        selection_range: lines.range(shown.start, shown.end),
    })
}

fn look_of(kind: ItemKind) -> (&'static str, u8) {
    match kind {
        ItemKind::Gives(Kind::Message) => ("message", FUNCTION),
        ItemKind::Gives(Kind::Controller) => ("controller", MODULE),
        ItemKind::Gives(Kind::Interrupt) => ("interrupt", EVENT),
        ItemKind::Gives(Kind::Device) => ("device", OBJECT),
        ItemKind::Gives(Kind::Byte) => ("byte", CONSTANT),
        ItemKind::Groups => ("group", ENUM),
        ItemKind::Extends => ("extend", MODULE),
        ItemKind::Never => ("never", OPERATOR),
    }
}

// The name that stands for an item.
fn named_in(own: &[NameAt], kind: ItemKind) -> Option<NameAt> {
    match kind {
        ItemKind::Never => None,
        ItemKind::Extends => own.first().copied(),
        _ => own.iter().find(|at| at.role == Role::Given).copied(),
    }
}

// ---- folding

#[derive(Clone, Copy, Serialize)]
#[serde(rename_all = "camelCase")]
struct Fold {
    start_line: u64,
    end_line: u64,
    kind: &'static str,
}

/// Which lines of the text of this number may be folded: an item of several lines, and several lines of comments.
///
/// # Errors
///
/// Where an allocation fails.
pub fn folds_in(
    alloc: Global,
    spans: &Spans,
    text: &[u8],
    file: u32,
    lines: &Lines<'_>,
) -> Result<String, AllocError> {
    let mut folds = Vec::new(alloc);
    for item in spans.items() {
        let range = lines.range(item.span.start, item.span.end);
        if item.span.file == file && range.start.line < range.end.line {
            folds.push(Fold {
                start_line: range.start.line,
                end_line: range.end.line,
                kind: "region",
            })?;
        }
    }
    push_comments(&mut folds, text)?;
    json(alloc, &folds)
}

fn push_comments(folds: &mut Vec<Fold>, text: &[u8]) -> Result<(), AllocError> {
    let mut line = 0u64;
    let mut begun = None;
    for words in text.split(|byte| *byte == b'\n') {
        let is_comment = words.trim_ascii_start().first() == Some(&b'#');
        match begun {
            None if is_comment => begun = Some(line),
            Some(start) if !is_comment => {
                push_comment(folds, start, line)?;
                begun = None;
            }
            _ => {}
        }
        line = line.saturating_add(1);
    }
    match begun {
        Some(start) => push_comment(folds, start, line),
        None => Ok(()),
    }
}

// The lines of comments from one on, up to the one before another.
fn push_comment(folds: &mut Vec<Fold>, start: u64, after: u64) -> Result<(), AllocError> {
    let end_line = after.saturating_sub(1);
    if start < end_line {
        folds.push(Fold {
            start_line: start,
            end_line,
            kind: "comment",
        })?;
    }
    Ok(())
}
