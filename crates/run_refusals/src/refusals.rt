// The refusal that is the answer of a run: in which text it stands, and what is known of it.

use crate::further::Further;
use crate::names::NamedSources;
use diagnostics::{Diagnostic, diagnose_refusal};
use hints::{Earlier, Hints, RefusedIn, first_stand, missing_semicolon_at, on_text};
use plan_text::PlanError;
use refusal_objects::{EarlierAt, TextDetail};
use run_values::{RefusedSource, Takes};
use std::alloc::{AllocError, Global};

/// A text of a plan or of a brief that is refused so, and what the command line calls the files of the run.
#[derive(Clone, Copy)]
pub struct RefusedNamed<'a> {
    pub error: PlanError,
    pub source: &'a RefusedSource,
    pub named: NamedSources<'a>,
}

impl<'a> RefusedNamed<'a> {
    // The name of its file, where several give the plan.
    fn file(self) -> Option<&'a str> {
        self.named.path(self.source.refused.file())
    }

    // The texts before it, with the names of their files.
    fn earlier(self, alloc: Global) -> Result<Vec<Earlier<'a>>, AllocError> {
        let mut earlier = Vec::new(alloc);
        let mut number = 0u32;
        for text in self.source.refused.before.iter() {
            if let Some(file) = self.named.path(number) {
                earlier.push(Earlier {
                    text: text.as_slice(),
                    file,
                })?;
            }
            number = number.saturating_add(1);
        }
        Ok(earlier)
    }

    // The same for hints, after these texts.
    fn after<'e>(self, earlier: &'e [Earlier<'e>]) -> RefusedIn<'e>
    where
        'a: 'e,
    {
        let refused = &self.source.refused;
        RefusedIn {
            error: self.error,
            place: refused.place,
            language: refused.language,
            text: refused.text.as_slice(),
            file: self.file(),
            earlier,
            spans: &refused.spans,
            takes_either: self.source.takes == Takes::Either,
        }
    }

    /// What is wrong with it, as a value with its place.
    ///
    /// # Errors
    ///
    /// Where an allocation fails.
    pub fn diagnose(self, alloc: Global) -> Result<Diagnostic, AllocError> {
        let earlier = self.earlier(alloc)?;
        let refused = self.after(earlier.as_slice());
        diagnose_refusal(alloc, refused, self.source.refused.file())
    }

    /// The same of what else is wrong, in it and in the texts after it.
    ///
    /// # Errors
    ///
    /// Where an allocation fails.
    pub fn diagnose_further(self, alloc: Global) -> Result<Vec<Diagnostic>, AllocError> {
        let further = Further::after(alloc, self)?;
        let mut all = Vec::new(alloc);
        for one in further.all(alloc, self.named)? {
            all.push(one.diagnose(alloc)?)?;
        }
        Ok(all)
    }

    /// What hints say of it.
    ///
    /// # Errors
    ///
    /// Where an allocation fails.
    pub fn hints(self, alloc: Global) -> Result<Hints, AllocError> {
        let earlier = self.earlier(alloc)?;
        on_text(alloc, self.after(earlier.as_slice()))
    }

    /// What is known of it. Where there is no memory for what stands already, that is not told.
    pub fn detail(self, alloc: Global) -> TextDetail<'a> {
        let mut detail = TextDetail {
            place: self.source.refused.place,
            file: self.file(),
            semicolon: None,
            earlier: None,
            is_further: false,
        };
        if let Ok(earlier) = self.earlier(alloc) {
            let refused = self.after(earlier.as_slice());
            detail.semicolon = missing_semicolon_at(refused);
            detail.earlier = earlier_at(alloc, refused, self.named);
        }
        detail
    }
}

/// The line on which that stands already which may stand once, and the name of its file. Where there is no memory for it, that is
/// not told.
pub(crate) fn earlier_at<'a>(
    alloc: Global,
    refused: RefusedIn<'_>,
    named: NamedSources<'a>,
) -> Option<EarlierAt<'a>> {
    let spot = first_stand(alloc, refused).ok()??;
    Some(EarlierAt {
        file: named.path(spot.file),
        line: spot.line,
    })
}
