// What can be done about what is wrong: quick fixes, and offers that mend an unsafe plan.

use crate::joining::joinings;
use crate::publishing::{Marked, own_json};
use crate::rewriting::{Rewrite, rewriting_of};
use diagnostics::{About, Diagnostic, Fix};
use editor_texts::{Known, Offered, json};
use edits::Edit;
use growing_text::Text;
use offers::{Offers, Shown};
use origins::Span;
use std::alloc::{AllocError, Global};

/// What can be done about what is wrong in this part of a text, as the protocol has it. What its plan does not know other plans may.
///
/// # Errors
///
/// Where an allocation fails.
pub fn actions_in(
    alloc: Global,
    known: &Known,
    plans: &[Known],
    marks: &[Marked<'_>],
    part: Span,
) -> Result<String, AllocError> {
    let mut actions = Actions {
        alloc,
        marks,
        text: Text::new(alloc),
        count: 0,
    };
    let mut groups = Vec::new(alloc);
    for diagnostic in known.wrong.iter() {
        if is_in(diagnostic, part) {
            actions.add_fixes(
                diagnostic,
                diagnostic.fixes.as_slice(),
                diagnostic.fixes.len() == 1,
            )?;
            let others = joinings(alloc, known, plans, diagnostic)?;
            actions.add_fixes(diagnostic, others.as_slice(), false)?;
            match diagnostic.about {
                About::Group(g) if !groups.contains(&g) => groups.push(g)?,
                _ => {}
            }
        }
    }
    if let (false, Some(offered)) = (groups.is_empty(), known.offered()) {
        for g in groups.iter() {
            actions.add_offers(offered, *g)?;
        }
        actions.add_together(&offered.offers)?;
    }
    actions.finish()
}

// Whether something is wrong there. What is unsafe is so between two places.
fn is_in(diagnostic: &Diagnostic, part: Span) -> bool {
    if touch(diagnostic.span, part) {
        return true;
    }
    match (diagnostic.about, diagnostic.related.first()) {
        (About::Group(_), Some(other)) => touch(other.span, part),
        _ => false,
    }
}

fn touch(one: Span, other: Span) -> bool {
    one.file == other.file && one.start <= other.end && other.start <= one.end
}

#[derive(Drop)]
struct Actions<'m, 'a> {
    alloc: Global,
    marks: &'m [Marked<'a>],
    text: Text,
    count: usize,
}

impl Actions<'_, '_> {
    fn add_fixes(
        &mut self,
        diagnostic: &Diagnostic,
        fixes: &[Fix],
        is_preferred: bool,
    ) -> Result<(), AllocError> {
        for fix in fixes {
            self.add_fix(diagnostic, fix, is_preferred)?;
        }
        Ok(())
    }

    fn add_fix(
        &mut self,
        diagnostic: &Diagnostic,
        fix: &Fix,
        is_preferred: bool,
    ) -> Result<(), AllocError> {
        let mut rewrites = Vec::new(self.alloc);
        for edit in fix.edits.iter() {
            rewrites.push(Rewrite {
                span: edit.span,
                text: edit.puts.as_str(),
            })?;
        }
        self.begin(fix.title.as_str());
        self.text.push(",\"diagnostics\":[");
        self.text
            .push_made(own_json(self.alloc, diagnostic, self.marks));
        self.text.push("]");
        if is_preferred {
            self.text.push(",\"isPreferred\":true");
        }
        self.end(rewrites.as_slice());
        Ok(())
    }

    // Those that `check --explain` shows of a group.
    fn add_offers(&mut self, offered: &Offered, g: usize) -> Result<(), AllocError> {
        let offers = &offered.offers;
        for (place, offer) in offers.all.iter().enumerate() {
            if offer.group == g && offers.shows(offer, Shown::Explained(usize::MAX)) {
                let title = match offered.titles.get(place) {
                    Some(title) => title.as_str(),
                    None => "",
                };
                self.add_edits(title, offer.proposal.edits.as_slice())?;
            }
        }
        Ok(())
    }

    // All offers that mend most together, where these are several.
    fn add_together(&mut self, offers: &Offers) -> Result<(), AllocError> {
        let together = &offers.together;
        let (true, Some(outcome)) = (1 < together.places.len(), &together.outcome) else {
            return Ok(());
        };
        let all = outcome.left.len();
        let left = outcome.left.iter().filter(|is_left| **is_left).count();
        let mut title = Text::new(self.alloc);
        title.push("mend ");
        title.push_number(all.saturating_sub(left) as u64);
        title.push(" of ");
        title.push_number(all as u64);
        title.push(" unsafe pairs by ");
        for (k, place) in together.places.iter().enumerate() {
            if let Some(offer) = offers.all.get(*place) {
                title.push(if k == 0 { "" } else { ", " });
                title.push_number(offer.group as u64);
                title.push(".");
                title.push_number(offer.number as u64);
            }
        }
        let title = title.finish()?;
        self.add_edits(title.as_str(), together.edits.as_slice())
    }

    fn add_edits(&mut self, title: &str, edits: &[Edit]) -> Result<(), AllocError> {
        let mut rewrites = Vec::new(self.alloc);
        for edit in edits {
            rewrites.push(Rewrite {
                span: edit.span,
                text: edit.text.as_str(),
            })?;
        }
        self.begin(title);
        self.end(rewrites.as_slice());
        Ok(())
    }

    fn begin(&mut self, title: &str) {
        self.text.push(if self.count == 0 { "{" } else { ",{" });
        self.count = self.count.saturating_add(1);
        self.text.push("\"title\":");
        self.text.push_made(json(self.alloc, &title));
        self.text.push(",\"kind\":\"quickfix\"");
    }

    fn end(&mut self, rewrites: &[Rewrite<'_>]) {
        self.text.push(",\"edit\":");
        self.text
            .push_made(rewriting_of(self.alloc, self.marks, rewrites));
        self.text.push("}");
    }

    fn finish(self) -> Result<String, AllocError> {
        let Self { alloc, text, .. } = self;
        let mut list = Text::new(alloc);
        list.push("[");
        list.push_made(text.finish());
        list.push("]");
        list.finish()
    }
}
