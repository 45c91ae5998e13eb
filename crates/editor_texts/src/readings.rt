// The texts that give a plan, as they were read: the plan where they give one, and the names in all of them.

use crate::documents::Document;
use crate::plans::{Given, Part};
use brief_tokens::record;
use given_plans::Provenance;
use origins::{Kind, NameAt, NamedTexts, Spans};
use run_values::RefusedSource;
use std::alloc::{AllocError, Global};
use verdicts::Checked;

/// A name, and what it is the name of.
#[derive(Clone, Copy)]
pub struct Word<'a> {
    pub kind: Kind,
    pub bytes: &'a [u8],
}

/// What was read.
#[derive(Drop)]
pub enum Reading {
    Plan(ReadPlan),
    /// A text is refused: the names in all of them.
    Refused(Spans),
}

/// A plan that was checked, and what gave it.
#[derive(Drop)]
pub struct ReadPlan {
    pub checked: Checked,
    pub provenance: Provenance,
}

impl Reading {
    /// The names that were read.
    pub fn spans(&self) -> &Spans {
        match self {
            Reading::Plan(read) => &read.provenance.spans,
            Reading::Refused(spans) => spans,
        }
    }

    /// The name at this place of a document: around it, or right before it. One that is none of these parts is looked at alone.
    ///
    /// # Errors
    ///
    /// Where an allocation fails, or failed for the names.
    pub fn word_at<'d>(
        &self,
        alloc: Global,
        given: &Given,
        document: &'d Document,
        offset: usize,
    ) -> Result<Option<Word<'d>>, AllocError> {
        let text = document.text.as_bytes();
        let found = match given.number_of(document.uri.as_str()) {
            Some(file) => name_at(self.spans(), file, offset)?,
            None => name_alone(alloc, text, offset)?,
        };
        match found {
            Some(at) => Ok(Some(Word {
                kind: at.kind,
                bytes: at.span.of(text),
            })),
            None => Ok(None),
        }
    }

    /// The names in these parts, which are those that were read.
    ///
    /// # Errors
    ///
    /// Where an allocation fails, or failed for the names.
    pub fn names<'a>(
        &'a self,
        alloc: Global,
        parts: &'a [Part],
    ) -> Result<NamedTexts<'a>, AllocError> {
        names_in(alloc, self.spans(), parts)
    }
}

/// The names of these in these parts.
///
/// # Errors
///
/// Where an allocation fails, or failed for the names.
pub fn names_in<'a>(
    alloc: Global,
    spans: &'a Spans,
    parts: &'a [Part],
) -> Result<NamedTexts<'a>, AllocError> {
    let mut names = NamedTexts::new(alloc, spans)?;
    for part in parts {
        names.add(part.text.as_slice())?;
    }
    Ok(names)
}

/// The names up to the text that is refused, and those of the parts after it, which no reader has come to.
pub(crate) fn names_after(source: RefusedSource, parts: &[Part]) -> Spans {
    let refused = source.refused;
    let read = refused.before.len().saturating_add(1);
    let mut spans = refused.spans;
    for part in parts.iter().skip(read) {
        record(part.text.as_slice(), &mut spans);
    }
    spans
}

fn name_at(spans: &Spans, file: u32, offset: usize) -> Result<Option<NameAt>, AllocError> {
    spans.check()?;
    Ok(spans.name_at(file, offset))
}

fn name_alone(alloc: Global, text: &[u8], offset: usize) -> Result<Option<NameAt>, AllocError> {
    let mut spans = Spans::new(alloc);
    record(text, &mut spans);
    name_at(&spans, 0, offset)
}

/// The names in the item of this number.
pub fn names_of_item(spans: &Spans, item: usize) -> &[NameAt] {
    let names = spans.names();
    let start = names.partition_point(|at| at.item < item);
    let end = names.partition_point(|at| at.item <= item);
    names.get(start..end).unwrap_or(&[])
}
