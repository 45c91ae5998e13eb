// What else is refused, after a text that is refused: in that text, and in those after it.

use crate::names::NamedSources;
use crate::refusals::{RefusedNamed, earlier_at};
use brief_text::{Slip, Slips, slips_in};
use diagnostics::{Diagnostic, diagnose_refusal};
use hints::{Earlier, Hints, RefusedIn, missing_semicolon_at, on_further_text};
use plan_text::{Language, PlanError, Refused};
use refusal_objects::{Detail, TextDetail, refusal_object};
use run_parts::RunError;
use run_values::RefusedSource;
use std::alloc::{AllocError, Global};

/// The refusals that are not the answer of the run, and the texts in which they stand.
#[derive(Drop)]
pub struct Further<'a> {
    // with the names of their files, where there are several
    texts: Vec<Earlier<'a>>,
    slips: Slips,
}

/// One of them, in the text of this number.
#[derive(Clone, Copy)]
pub struct FurtherOne<'a> {
    file: u32,
    refused: RefusedIn<'a>,
}

impl<'a> Further<'a> {
    /// Those after this one. Of a plan there are none.
    ///
    /// # Errors
    ///
    /// Where an allocation fails.
    pub fn after(alloc: Global, answer: RefusedNamed<'a>) -> Result<Further<'a>, AllocError> {
        let RefusedNamed {
            error,
            source,
            named,
        } = answer;
        let texts = texts_of(alloc, source, named)?;
        let mut bytes = Vec::new(alloc);
        if let Language::Brief = source.refused.language {
            for one in texts.iter() {
                bytes.push(one.text)?;
            }
        }
        let mut slips = slips_in(alloc, bytes.as_slice())?;
        if !begins_with(&slips, error, source) {
            slips.all.truncate(0);
        }
        Ok(Further { texts, slips })
    }

    /// All of them, in the order of the texts.
    pub fn all<'s>(
        &'s self,
        alloc: Global,
        named: NamedSources<'s>,
    ) -> Result<Vec<FurtherOne<'s>>, AllocError> {
        let mut all = Vec::new(alloc);
        for slip in self.slips.all.iter().skip(1) {
            if let Some(one) = self.one(*slip, named) {
                all.push(one)?;
            }
        }
        Ok(all)
    }

    fn one<'s>(&'s self, slip: Slip, named: NamedSources<'s>) -> Option<FurtherOne<'s>> {
        let Slip {
            file,
            refused: Refused { error, place },
        } = slip;
        let number = file as usize;
        Some(FurtherOne {
            file,
            refused: RefusedIn {
                error,
                place: place?,
                language: Language::Brief,
                text: self.texts.get(number)?.text,
                file: named.path(file),
                earlier: self.texts.get(..number)?,
                spans: &self.slips.spans,
                takes_either: false,
            },
        })
    }
}

// Whether the first of these is the answer of the run.
fn begins_with(slips: &Slips, error: PlanError, source: &RefusedSource) -> bool {
    match slips.all.first() {
        Some(first) => {
            first.file == source.refused.file()
                && first.refused.error == error
                && first.refused.place == Some(source.refused.place)
        }
        None => false,
    }
}

// The texts that give the plan, as far as they were read.
fn texts_of<'a>(
    alloc: Global,
    source: &'a RefusedSource,
    named: NamedSources<'a>,
) -> Result<Vec<Earlier<'a>>, AllocError> {
    let mut texts = Vec::new(alloc);
    for text in source.refused.before.iter() {
        push_text(&mut texts, text.as_slice(), named)?;
    }
    push_text(&mut texts, source.refused.text.as_slice(), named)?;
    for text in source.later.iter() {
        push_text(&mut texts, text.as_slice(), named)?;
    }
    Ok(texts)
}

fn push_text<'a>(
    texts: &mut Vec<Earlier<'a>>,
    text: &'a [u8],
    named: NamedSources<'a>,
) -> Result<(), AllocError> {
    let number = u32::try_from(texts.len()).unwrap_or(u32::MAX);
    let file = named.path(number).unwrap_or("");
    texts.push(Earlier { text, file })?;
    Ok(())
}

impl<'a> FurtherOne<'a> {
    /// What is wrong there, as a value with its place.
    ///
    /// # Errors
    ///
    /// Where an allocation fails.
    pub fn diagnose(self, alloc: Global) -> Result<Diagnostic, AllocError> {
        diagnose_refusal(alloc, self.refused, self.file)
    }

    /// What hints say of it.
    ///
    /// # Errors
    ///
    /// Where an allocation fails.
    pub fn hints(self, alloc: Global) -> Result<Hints, AllocError> {
        on_further_text(alloc, self.refused)
    }

    /// Its object.
    ///
    /// # Errors
    ///
    /// Where an allocation fails.
    pub fn object(self, alloc: Global, named: NamedSources<'_>) -> Result<String, AllocError> {
        let refused = self.refused;
        let detail = TextDetail {
            place: refused.place,
            file: refused.file,
            semicolon: missing_semicolon_at(refused),
            earlier: earlier_at(alloc, refused, named),
            is_further: true,
        };
        let reason = self.diagnose(alloc)?.message;
        refusal_object(
            alloc,
            RunError::Plan(refused.error),
            Detail::Text(detail),
            reason.as_str(),
        )
    }
}
