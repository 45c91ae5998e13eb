// Edits of several documents, as the protocol has them.

use crate::publishing::{Marked, location_of};
use editor_texts::{Edit, json};
use growing_text::Text;
use origins::Span;
use std::alloc::{AllocError, Global};

/// What stands in the place of which bytes.
#[derive(Clone, Copy)]
pub struct Rewrite<'a> {
    pub span: Span,
    pub text: &'a str,
}

/// These edits, document by document.
///
/// # Errors
///
/// Where an allocation fails.
pub fn rewriting_of(
    alloc: Global,
    marks: &[Marked<'_>],
    rewrites: &[Rewrite<'_>],
) -> Result<String, AllocError> {
    let mut text = Text::new(alloc);
    text.push("{\"changes\":{");
    let mut file = 0u32;
    let mut is_first = true;
    for marked in marks {
        let edits = edits_in(alloc, marks, rewrites, file)?;
        if !edits.is_empty() {
            text.push(if is_first { "" } else { "," });
            text.push_made(json(alloc, &marked.uri()));
            text.push(":");
            text.push_made(json(alloc, &edits));
            is_first = false;
        }
        file = file.saturating_add(1);
    }
    text.push("}}");
    text.finish()
}

fn edits_in<'r>(
    alloc: Global,
    marks: &[Marked<'_>],
    rewrites: &[Rewrite<'r>],
    file: u32,
) -> Result<Vec<Edit<'r>>, AllocError> {
    let mut edits = Vec::new(alloc);
    for rewrite in rewrites {
        if rewrite.span.file == file {
            edits.push(Edit {
                range: location_of(marks, rewrite.span).range,
                new_text: rewrite.text,
            })?;
        }
    }
    Ok(edits)
}

/// The edits that put this in all of these places.
///
/// # Errors
///
/// Where an allocation fails.
pub fn rewrites_to<'n>(
    alloc: Global,
    places: &[Span],
    text: &'n str,
) -> Result<Vec<Rewrite<'n>>, AllocError> {
    let mut rewrites = Vec::new(alloc);
    for span in places {
        rewrites.push(Rewrite { span: *span, text })?;
    }
    Ok(rewrites)
}
