// Edits, the texts that come of them, and the lines that are others then.

ghost use Rattle.std.specs.Prelude.{◌≡◌, ◌<◌, ◌+◌, ◌^◌, ◌++◌, length, IfOk, OnOk};
ghost use Rattle.edits.specs.Edited.{between, bytes_of, edited_from, edited_texts, edited_texts_from};

use origins::Span;
use std::alloc::{AllocError, Global};

/// Bytes of one of the texts, and what stands in their place.
#[derive(Drop)]
pub struct Edit {
    pub span: Span,
    pub text: String,
}

impl Edit {
    fn copied(&self, alloc: Global) -> Result<Edit, AllocError> {
        Ok(Edit {
            span: self.span,
            text: String::from_str(alloc, self.text.as_str())?,
        })
    }

    fn is(&self, other: &Edit) -> bool {
        self.span == other.span && self.text.as_str() == other.text.as_str()
    }
}

/// An item that is edited.
#[derive(Drop)]
pub struct EditedItem {
    /// The name that it gives.
    pub name: String,
    /// The counts, or the values of the byte or the address, that it no longer sends, in words. Nothing for other edits.
    pub gone: String,
}

/// Edits that are gathered item by item, and whether each item could have its own.
#[derive(Drop)]
pub struct Edits {
    edits: Vec<Edit>,
    items: Vec<EditedItem>,
    is_possible: bool,
    is_whole: bool,
}

impl Edits {
    /// None yet.
    pub fn new(alloc: Global) -> Edits {
        Edits {
            edits: Vec::new(alloc),
            items: Vec::new(alloc),
            is_possible: true,
            is_whole: true,
        }
    }

    /// One more.
    pub fn add(&mut self, span: Span, text: Result<String, AllocError>) {
        let is_added = match text {
            Ok(text) => self.edits.push(Edit { span, text }).is_ok(),
            Err(_) => false,
        };
        self.is_whole = self.is_whole && is_added;
    }

    /// The item that gives this name is edited.
    pub fn name(&mut self, alloc: Global, name: &str, gone: Result<String, AllocError>) {
        let is_added = match (String::from_str(alloc, name), gone) {
            (Ok(name), Ok(gone)) => self.items.push(EditedItem { name, gone }).is_ok(),
            _ => false,
        };
        self.is_whole = self.is_whole && is_added;
    }

    /// An item cannot be edited so.
    pub fn refuse(&mut self) {
        self.is_possible = false;
    }

    /// The items, and all edits in the order of the texts. None where an item could not be edited, and where nothing is.
    ///
    /// # Errors
    ///
    /// Where an allocation has failed.
    pub fn finish(self) -> Result<Option<(Vec<EditedItem>, Vec<Edit>)>, AllocError> {
        let Self {
            edits,
            items,
            is_possible,
            is_whole,
        } = self;
        if !is_whole {
            return Err(AllocError);
        }
        if !is_possible || edits.is_empty() {
            return Ok(None);
        }
        Ok(Some((items, sorted(edits)?)))
    }
}

fn sorted(mut edits: Vec<Edit>) -> Result<Vec<Edit>, AllocError> {
    edits.sort_by_key(|edit| (edit.span.file, edit.span.start, edit.span.end))?;
    Ok(edits)
}

/// Two lists of edits as one, in which what both have stands once. None where two of them overlap.
///
/// # Errors
///
/// Where an allocation fails.
pub fn joined(
    alloc: Global,
    first: &[Edit],
    second: &[Edit],
) -> Result<Option<Vec<Edit>>, AllocError> {
    let mut both = Vec::with_capacity(alloc, first.len())?;
    push_new(alloc, &mut both, first)?;
    push_new(alloc, &mut both, second)?;
    let both = sorted(both)?;
    Ok(if are_apart(both.as_slice()) {
        Some(both)
    } else {
        None
    })
}

fn push_new(alloc: Global, edits: &mut Vec<Edit>, more: &[Edit]) -> Result<(), AllocError> {
    for edit in more {
        if !edits.iter().any(|other| other.is(edit)) {
            edits.push(edit.copied(alloc)?)?;
        }
    }
    Ok(())
}

// Whether none of these overlaps the next one.
fn are_apart(edits: &[Edit]) -> bool {
    let mut file = 0u32;
    let mut end = 0usize;
    for edit in edits {
        let Span {
            file: of,
            start,
            end: to,
        } = edit.span;
        if of == file && start < end {
            return false;
        }
        file = of;
        end = to;
    }
    true
}

/// The texts with these edits, which are in the order of the texts and do not overlap.
///
/// # Errors
///
/// Where an allocation fails.
pub fn edited_texts(
    alloc: Global,
    texts: &[Vec<u8>],
    edits: &[Edit],
) -> Result<Vec<Vec<u8>>, AllocError>
    ensures { IfOk result (λ it. bytes_of it.items ≡ edited_texts (bytes_of texts.now) edits.now) }
{
    let mut edited = Vec::with_capacity(alloc, texts.len())?;
    push_edited(alloc, &mut edited, 0, texts, edits)?;
    Ok(edited)
}

// Adds these texts with their edits. The first one has this number.
fn push_edited(
    alloc: Global,
    edited: &mut Vec<Vec<u8>>,
    number: usize,
    texts: &[Vec<u8>],
    edits: &[Edit],
) -> Result<(), AllocError>
    requires { number + length texts.now < 2 ^ 64 }
    ensures { OnOk result (bytes_of edited.new.items ≡
        bytes_of edited.old.items ++ edited_texts_from number (bytes_of texts.now) edits.now) }
{
    match texts {
        [] => Ok(()),
        [text, rest @ ..] => {
            edited.push(edited_text(alloc, number, text.as_slice(), edits)?)?;
            push_edited(alloc, edited, number + 1, rest, edits)
        }
    }
}

// The text with this number, with those of the edits that are of it.
fn edited_text(
    alloc: Global,
    number: usize,
    text: &[u8],
    edits: &[Edit],
) -> Result<Vec<u8>, AllocError>
    ensures { IfOk result (λ it. it.items ≡ edited_from number text.now 0 edits.now) }
{
    let mut edited = Vec::new(alloc);
    let mut kept = 0usize;
    let mut left = edits;
    while let [edit, rest @ ..] = left {
        if edit.span.file as usize == number {
            edited.extend_from_slice(between(text, kept, edit.span.start))?;
            edited.extend_from_slice(edit.text.as_bytes())?;
            kept = edit.span.end;
        }
        left = rest;
    }
    edited.extend_from_slice(between(text, kept, text.len()))?;
    Ok(edited)
}

fn between(text: &[u8], start: usize, end: usize) -> &[u8]
    ensures { result.now ≡ between text.now start end }
{
    if start <= end && end <= text.len() {
        &text[start..end]
    } else {
        &[]
    }
}

/// A line of an edited text that stood there otherwise, or not at all.
#[derive(Drop)]
pub struct ChangedLine {
    /// The number of its text, from 0 on.
    pub file: u32,
    /// From 1 on.
    pub line: u64,
    /// As it stands now. Bytes that are no UTF-8 are U+FFFD.
    pub text: String,
}

/// The lines of edited texts that are not as they were.
///
/// # Errors
///
/// Where an allocation fails.
pub fn changed_lines(
    alloc: Global,
    before: &[Vec<u8>],
    after: &[Vec<u8>],
) -> Result<Vec<ChangedLine>, AllocError> {
    let mut lines = Vec::new(alloc);
    let mut file = 0u32;
    for (old, new) in before.iter().zip(after.iter()) {
        push_lines(alloc, &mut lines, file, old.as_slice(), new.as_slice())?;
        file = file.saturating_add(1);
    }
    Ok(lines)
}

fn push_lines(
    alloc: Global,
    lines: &mut Vec<ChangedLine>,
    file: u32,
    old: &[u8],
    new: &[u8],
) -> Result<(), AllocError> {
    let mut olds = old.split(is_line_feed);
    let mut line = 0u64;
    for words in new.split(is_line_feed) {
        line = line.saturating_add(1);
        if olds.next().unwrap_or(&[]) != words {
            let text = String::from_utf8_lossy(alloc, words)?;
            lines.push(ChangedLine { file, line, text })?;
        }
    }
    Ok(())
}

fn is_line_feed(byte: &u8) -> bool {
    *byte == b'\n'
}
