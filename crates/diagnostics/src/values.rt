// What is wrong, and where.

use growing_text::Text;
use hints::{Hint, Hints};
pub use origins::Span;
use std::alloc::{AllocError, Global};

/// How bad it is: an error is why a run has another status than 0.
#[derive(Clone, Copy, PartialEq, Eq)]
pub enum Severity {
    Error,
    Warning,
}

/// The beginning of the first text.
pub(crate) const BEGINNING: Span = Span {
    file: 0,
    start: 0,
    end: 0,
};

/// Something that is wrong.
#[derive(Drop)]
pub struct Diagnostic {
    pub severity: Severity,
    /// `P1` to `P8`, `unsafe`, `no pair`, or the name of what is likely a mistake.
    pub code: &'static str,
    pub span: Span,
    /// One line.
    pub message: String,
    /// Further places, which have to do with it.
    pub related: Vec<Related>,
    /// What mends it: each of these does.
    pub fixes: Vec<Fix>,
    pub about: About,
}

/// What it is about, for whoever has more to say of that.
#[derive(Clone, Copy, PartialEq, Eq)]
pub enum About {
    /// The group of unsafe pairs with this number.
    Group(usize),
    /// What nobody uses or lists.
    Unused,
    Other,
}

/// A way to mend it: what it does in a few words, and the edits of the texts.
#[derive(Drop)]
pub struct Fix {
    pub title: String,
    pub edits: Vec<Edit>,
}

/// What is put in the place of these bytes of a text, or between two where there are none.
#[derive(Drop)]
pub struct Edit {
    pub span: Span,
    pub puts: String,
}

impl Fix {
    /// One that is one edit.
    pub(crate) fn of(
        alloc: Global,
        title: String,
        span: Span,
        puts: String,
    ) -> Result<Fix, AllocError> {
        let mut edits = Vec::new(alloc);
        edits.push(Edit { span, puts })?;
        Ok(Fix { title, edits })
    }
}

/// Another place, and what stands there.
#[derive(Drop)]
pub struct Related {
    pub span: Span,
    pub message: String,
}

/// What hints say, on one line: sentences, and what belongs to one after it.
pub(crate) fn one_line(alloc: Global, hints: &Hints) -> Result<String, AllocError> {
    let mut text = Text::new(alloc);
    let mut before = Before::Nothing;
    for hint in hints.all() {
        let now = match hint {
            Hint::Sentence(_) => Before::Sentence,
            Hint::Item(_) | Hint::Detail(_) => Before::Item,
            Hint::Marks { .. } => continue,
        };
        text.push(between(before, now));
        text.push_made(hint.text(alloc));
        before = now;
    }
    text.finish()
}

/// The first thing that hints say, on one line, with what belongs to it: of a refusal that is its reason. Where they show a place
/// that is left out.
///
/// # Errors
///
/// Where an allocation fails.
pub fn reason_of(alloc: Global, hints: &Hints) -> Result<String, AllocError> {
    let mut text = Text::new(alloc);
    let mut goes_on = true;
    for hint in hints.all() {
        match hint {
            Hint::Sentence(_) if !goes_on => break,
            Hint::Sentence(_) | Hint::Item(_) | Hint::Detail(_) => {
                let words = hint.text(alloc)?;
                if !text.is_empty() {
                    text.push(if goes_on { " " } else { ", " });
                }
                text.push(words.as_str());
                goes_on = words.as_str().ends_with(':');
            }
            Hint::Marks { .. } => {
                text = Text::new(alloc);
                goes_on = true;
            }
        }
    }
    text.finish()
}

// What stands before a hint on its line.
#[derive(Clone, Copy)]
enum Before {
    Nothing,
    Sentence,
    Item,
}

fn between(before: Before, now: Before) -> &'static str {
    match (before, now) {
        (Before::Nothing, _) => "",
        // (a sentence that has items ends in a colon)
        (Before::Sentence, Before::Item) => " ",
        (Before::Item, Before::Item) => ", ",
        _ => "; ",
    }
}
