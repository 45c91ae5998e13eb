// The groups of the unsafe pairs, as the page has them.

use crate::advice::{Offered, offered_for};
use bus_rows::{Meeting, deed, meeting_of};
use causes::Group;
use offers::Offers;
use plan_findings::why_unsafe;
use plan_words::PlanWords;
use remedies::Grouped;
use serde::{Described, Serialize, Serializer};
use std::alloc::{AllocError, Global};
use verdicts::Checked;

/// The groups of the unsafe pairs of a plan, in the order of their numbers.
#[derive(Clone, Copy)]
pub(crate) struct Groups<'a> {
    pub(crate) alloc: Global,
    pub(crate) checked: &'a Checked,
    pub(crate) words: PlanWords<'a>,
    pub(crate) groups: &'a Grouped,
    pub(crate) offers: Option<&'a Offers>,
}

// A group: how many pairs it has, the number of the one that stands for it, what the two of that one do where they meet, why
// that is unsafe, between whom the group is, and what is offered to mend it.
#[derive(Drop, Serialize)]
struct Alike<'a> {
    pairs: usize,
    example: u32,
    meets: (&'static str, &'static str),
    why: &'static str,
    between: Vec<(&'a str, &'a str)>,
    offers: Vec<Offered>,
}

impl Described for Groups<'_> {}

impl Serialize for Groups<'_> {
    fn serialize<S: Serializer>(&self, out: &mut S) -> Result<(), S::Error> {
        out.begin_seq(None)?;
        for g in 0..self.groups.len() {
            match self.alike(g) {
                Ok(alike) => alike.serialize(out)?,
                Err(_) => return Err(out.custom("out of memory")),
            }
        }
        out.end_seq()
    }
}

impl<'a> Groups<'a> {
    // The group with this number. There is one.
    fn alike(&self, g: usize) -> Result<Option<Alike<'a>>, AllocError> {
        match self.groups.group(g) {
            Some(group) => self.alike_as(g, group),
            None => Ok(None),
        }
    }

    fn alike_as(&self, g: usize, group: Group) -> Result<Option<Alike<'a>>, AllocError> {
        let Checked { plan, faults } = self.checked;
        if faults.len() <= group.example {
            return Ok(None);
        }
        let (pair, fault) = faults.get(group.example);
        if plan.pair_count() <= pair {
            return Ok(None);
        }
        let meeting = meeting_of(self.alloc, plan, plan.pair(pair), fault.wire.as_slice())?;
        Ok(Some(Alike {
            pairs: group.pairs,
            example: pair,
            meets: deeds_of(&meeting),
            why: why_unsafe(group.cause.first.kind, group.cause.second.kind),
            between: self.between(g)?,
            offers: offered_for(self.alloc, self.words, self.offers, g)?,
        }))
    }

    fn between(&self, g: usize) -> Result<Vec<(&'a str, &'a str)>, AllocError> {
        let count = self.groups.meets(g);
        let mut between = Vec::with_capacity(self.alloc, count)?;
        for i in 0..count {
            between.push(self.groups.meet(g, i))?;
        }
        Ok(between)
    }
}

fn deeds_of(meeting: &Meeting) -> (&'static str, &'static str) {
    (deed(meeting.first.next), deed(meeting.second.next))
}
