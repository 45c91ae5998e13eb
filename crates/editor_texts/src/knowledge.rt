// What is known of the texts that give a plan: they are read and checked once for each of their states, and all that is asked of
// them is answered by that.

use crate::checking::{Wrong, names_after_first, offered_in, read_and_checked};
use crate::heads::members_of;
use crate::lasting::{Lasting, lasting_of};
use crate::plans::Given;
use crate::readings::Reading;
use diagnostics::Diagnostic;
use offers::Offers;
use order::{Order, order_of};
use plan_words::{BriefFiles, PlanWords};
use run_values::words_of;
use std::alloc::{AllocError, Global};
use std::mem;
use std::thread::Threads;

/// What is known of a plan, and of the texts that give it.
#[derive(Drop)]
pub struct Known {
    pub given: Given,
    /// The URI of the text with which the plan begins. None where the further files stand alone.
    pub head: Option<String>,
    /// The URIs of its texts, and of those that a head named before it could no longer be followed.
    pub members: Vec<String>,
    pub reading: Reading,
    /// What is wrong with it.
    pub wrong: Vec<Diagnostic>,
    /// What was unsafe when the texts gave a plan the last time.
    pub lasting: Vec<Lasting>,
    // who wins arbitration, and what mends it, as soon as somebody has asked for that
    order: Option<Order>,
    offered: Option<Offered>,
}

/// What mends an unsafe plan.
#[derive(Drop)]
pub struct Offered {
    pub offers: Offers,
    /// What each of them does, in words.
    pub titles: Vec<String>,
}

impl Known {
    /// What is known of these texts: `before` is what was known of the texts before the last change.
    ///
    /// # Errors
    ///
    /// Where an allocation fails.
    pub fn of<R: AllocGlobal + Threads + Sync>(
        rt: &R,
        given: Given,
        head: Option<String>,
        before: Option<Known>,
    ) -> Result<Known, AllocError> {
        let alloc = rt.alloc();
        let members = members_of(alloc, &given, before.as_ref())?;
        let Wrong { reading, all } = read_and_checked(rt, alloc, &given)?;
        let lasting = match &reading {
            Reading::Plan(_) => lasting_of(alloc, &given, all.as_slice())?,
            Reading::Refused(_) => lasting_before(alloc, before),
        };
        Ok(Known {
            given,
            head,
            members,
            reading,
            wrong: all,
            lasting,
            order: None,
            offered: None,
        })
    }

    /// Whether the plan begins with this document.
    pub fn begins_with(&self, uri: &str) -> bool {
        match &self.head {
            Some(head) => head.as_str() == uri,
            None => false,
        }
    }

    /// Whether a document is one of its texts.
    pub fn has(&self, uri: &str) -> bool {
        self.given.number_of(uri).is_some()
    }

    /// Whether what is wrong with a document is told by this plan.
    pub fn tells(&self, uri: &str) -> bool {
        let parts = self.given.parts.as_slice();
        parts
            .iter()
            .any(|part| part.is_told && part.uri.as_str() == uri)
    }

    /// Whether the texts give a plan. What is wrong with it is wrong between two places.
    pub fn is_plan(&self) -> bool {
        match &self.reading {
            Reading::Plan(_) => true,
            Reading::Refused(_) => false,
        }
    }

    /// What people call the texts after the first one.
    ///
    /// # Errors
    ///
    /// Where an allocation fails.
    pub fn further_names(&self, alloc: Global) -> Result<Vec<&str>, AllocError> {
        names_after_first(alloc, self.given.parts.as_slice())
    }

    /// The plan in the words of people, who call the texts after the first one so. None where they give none.
    pub fn words<'k>(&'k self, further: &'k [&'k str]) -> Option<PlanWords<'k>> {
        let Reading::Plan(read) = &self.reading else {
            return None;
        };
        let files = BriefFiles {
            first: self
                .given
                .parts
                .first()
                .map_or("", |part| part.name.as_str()),
            further,
        };
        Some(words_of(files, &read.checked.plan, &read.provenance))
    }

    /// Who wins arbitration. None where `put_in_order` was not called, or the texts give no plan.
    pub fn order(&self) -> Option<&Order> {
        self.order.as_ref()
    }

    /// Finds out who wins arbitration, where that was not asked before.
    ///
    /// # Errors
    ///
    /// Where an allocation fails.
    pub fn put_in_order(&mut self, alloc: Global) -> Result<(), AllocError> {
        if let (Reading::Plan(read), None) = (&self.reading, &self.order) {
            self.order = Some(order_of(alloc, &read.checked.plan, &read.checked.faults)?);
        }
        Ok(())
    }

    /// What mends it. None where `seek_offers` was not called, or nothing is unsafe.
    pub fn offered(&self) -> Option<&Offered> {
        self.offered.as_ref()
    }

    /// Finds out what mends an unsafe plan, where that was not asked before.
    ///
    /// # Errors
    ///
    /// Where an allocation fails.
    pub fn seek_offers<R: AllocGlobal + Threads + Sync>(
        &mut self,
        rt: &R,
    ) -> Result<(), AllocError> {
        if self.offered.is_none() && self.has_faults() {
            self.offered = offered_in(rt, rt.alloc(), self.given.parts.as_slice())?;
        }
        Ok(())
    }

    fn has_faults(&self) -> bool {
        match &self.reading {
            Reading::Plan(read) => !read.checked.faults.is_safe(),
            Reading::Refused(_) => false,
        }
    }
}

fn lasting_before(alloc: Global, before: Option<Known>) -> Vec<Lasting> {
    match before {
        Some(mut known) => mem::replace(&mut known.lasting, Vec::new(alloc)),
        None => Vec::new(alloc),
    }
}
