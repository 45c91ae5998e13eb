// Numbers that wait, each once at most: the first that came is the first to go, and each can be taken out before.

use std::alloc::{AllocError, Global};

// The numbers that came just before one that waits, and just after it.
#[derive(Clone, Copy)]
struct Link {
    before: Option<u32>,
    after: Option<u32>,
}

const ALONE: Link = Link {
    before: None,
    after: None,
};

/// Those that wait, of numbers below a count.
#[derive(Drop)]
pub(crate) struct Waiting {
    links: Vec<Link>,
    first: Option<u32>,
    last: Option<u32>,
}

impl Waiting {
    /// None of so many waits.
    pub(crate) fn new(alloc: Global, count: usize) -> Result<Waiting, AllocError> {
        Ok(Waiting {
            links: vec![in alloc; ALONE; count]?,
            first: None,
            last: None,
        })
    }

    /// The first of them.
    pub(crate) fn first(&self) -> Option<u32> {
        self.first
    }

    /// This one waits from now on, after all others.
    pub(crate) fn push(&mut self, number: u32) {
        let last = self.last;
        if let Some(link) = self.links.get_mut(number as usize) {
            *link = Link {
                before: last,
                after: None,
            };
            self.set_after(last, Some(number));
            self.last = Some(number);
        }
    }

    /// This one, which waits, does so no more.
    pub(crate) fn remove(&mut self, number: u32) {
        if let Some(Link { before, after }) = self.links.get(number as usize).copied() {
            self.set_after(before, after);
            self.set_before(after, before);
        }
    }

    // Which one comes after this one; after none it is the first.
    fn set_after(&mut self, number: Option<u32>, after: Option<u32>) {
        let Some(number) = number else {
            self.first = after;
            return;
        };
        if let Some(link) = self.links.get_mut(number as usize) {
            link.after = after;
        }
    }

    // Which one comes before this one; before none it is the last.
    fn set_before(&mut self, number: Option<u32>, before: Option<u32>) {
        let Some(number) = number else {
            self.last = before;
            return;
        };
        if let Some(link) = self.links.get_mut(number as usize) {
            link.before = before;
        }
    }
}
