// Paths put together into messages.

use crate::paths::{Sent, Step};
use std::alloc::{AllocError, Global};

/// How far data bytes after the register of a write make messages differ.
#[derive(Clone, Copy, PartialEq, Eq)]
pub enum Likeness {
    /// As they were seen.
    Exact,
    /// Not at all, and the bits that differ are open.
    Merged,
    /// Not at all, and all their bits are open. Neighbouring lengths make families.
    Widened,
}

impl Likeness {
    /// What two options ask for, of which the second asks for more.
    pub fn of(merge: bool, widen: bool) -> Likeness {
        if widen {
            Likeness::Widened
        } else if merge {
            Likeness::Merged
        } else {
            Likeness::Exact
        }
    }
}

/// What was done after an acknowledge, or after a refusal.
#[derive(Clone, Copy, PartialEq, Eq)]
pub(crate) enum After {
    /// It never came to that.
    Unseen,
    Stop,
    /// What stands at this place of the message.
    On(usize),
}

/// One place of a message: what is sent there, with those bits known of a data byte, in how many transactions, and what
/// follows.
#[derive(Clone, Copy)]
pub(crate) struct Node {
    pub(crate) sent: Sent,
    pub(crate) known: u8,
    pub(crate) times: u64,
    pub(crate) acked: After,
    pub(crate) refused: After,
}

/// Data bytes that end a message if all is acknowledged: the place of the first, and how many there are.
#[derive(Clone, Copy)]
pub(crate) struct Run {
    pub(crate) start: Option<usize>,
    pub(crate) length: u64,
}

/// A message: its places, of which the first is its beginning, and the paths that were put into it.
#[derive(Drop)]
pub(crate) struct Tree {
    pub(crate) likeness: Likeness,
    /// Which controllers its paths are of, where lines of theirs were followed: the same for all of them.
    pub(crate) by: u32,
    pub(crate) nodes: Vec<Node>,
    pub(crate) paths: Vec<usize>,
}

// The most places of a message.
const MOST_NODES: usize = 4_096;

impl Tree {
    /// No path yet.
    pub(crate) fn new(alloc: Global, likeness: Likeness, by: u32) -> Tree {
        Tree {
            likeness,
            by,
            nodes: Vec::new(alloc),
            paths: Vec::new(alloc),
        }
    }

    /// Whether the path can be one of this message.
    pub(crate) fn takes(&self, path: &[Step]) -> bool {
        if self.nodes.len().saturating_add(path.len()) > MOST_NODES {
            return false;
        }
        let mut at = if self.nodes.is_empty() {
            After::Unseen
        } else {
            After::On(0)
        };
        for step in path {
            let After::On(place) = at else {
                return at == After::Unseen;
            };
            let Some(node) = self.nodes.get(place) else {
                return false;
            };
            if !are_alike(node.sent, step.sent, self.likeness) {
                return false;
            }
            at = if step.refused {
                node.refused
            } else {
                node.acked
            };
        }
        matches!(at, After::Unseen | After::Stop)
    }

    /// Whether it ends with its first header, as far as was seen.
    pub(crate) fn is_header_alone(&self) -> bool {
        match self.nodes.as_slice().first() {
            Some(node) => !matches!(node.acked, After::On(_)),
            None => false,
        }
    }

    /// Puts in a path that the message takes, which has this number and was seen so often.
    pub(crate) fn put(
        &mut self,
        path: &[Step],
        number: usize,
        times: u64,
    ) -> Result<(), AllocError> {
        let mut at = if self.nodes.is_empty() { None } else { Some(0) };
        let mut last: Option<(usize, bool)> = None;
        for step in path {
            let place = match at {
                Some(place) => place,
                None => self.grow(step.sent, last)?,
            };
            at = self.pass(place, step, times);
            last = Some((place, step.refused));
        }
        if let Some((place, refused)) = last {
            self.lead(place, refused, After::Stop);
        }
        self.paths.push(number)?;
        Ok(())
    }

    // A new place, to which what was last sent leads.
    fn grow(&mut self, sent: Sent, last: Option<(usize, bool)>) -> Result<usize, AllocError> {
        let place = self.nodes.len();
        let known = self.known(sent);
        self.nodes.push(Node {
            sent,
            known,
            times: 0,
            acked: After::Unseen,
            refused: After::Unseen,
        })?;
        if let Some((from, refused)) = last {
            self.lead(from, refused, After::On(place));
        }
        Ok(place)
    }

    // Which bits of what is sent at a new place are known.
    fn known(&self, sent: Sent) -> u8 {
        match (sent, self.likeness) {
            (Sent::Data(_), Likeness::Widened) => 0,
            _ => 0xff,
        }
    }

    fn lead(&mut self, from: usize, refused: bool, to: After) {
        if let Some(node) = self.nodes.get_mut(from) {
            if refused {
                node.refused = to;
            } else {
                node.acked = to;
            }
        }
    }

    // What the path sends at this place is one of what the message sends there. Where it goes on, if something is there.
    fn pass(&mut self, place: usize, step: &Step, times: u64) -> Option<usize> {
        let node = self.nodes.get_mut(place)?;
        node.times = node.times.saturating_add(times);
        match (node.sent, step.sent) {
            (Sent::Data(one), Sent::Data(other)) => node.known &= !(one ^ other),
            (Sent::Read(_, None), count) => node.sent = count,
            _ => {}
        }
        match if step.refused {
            node.refused
        } else {
            node.acked
        } {
            After::On(place) => Some(place),
            _ => None,
        }
    }

    /// The data bytes that end the message.
    pub(crate) fn run(&self) -> Run {
        let mut start = None;
        let mut length = 0u64;
        let mut place = 0usize;
        for _ in 0..self.nodes.len() {
            let Some(node) = self.nodes.get(place) else {
                break;
            };
            if self.is_of_run(node) {
                start = Some(start.unwrap_or(place));
                length = length.saturating_add(1);
            } else {
                start = None;
                length = 0;
            }
            match node.acked {
                After::On(next) => place = next,
                _ => break,
            }
        }
        Run { start, length }
    }

    // Whether what stands here is written together with the like of it.
    fn is_of_run(&self, node: &Node) -> bool {
        self.likeness == Likeness::Widened
            && matches!(node.sent, Sent::Data(_))
            && !matches!(node.refused, After::On(_))
    }

    /// What stands at this place and is written once: so many data bytes with the last of them, or one of anything else.
    pub(crate) fn together(&self, place: usize) -> Option<(u64, Node)> {
        let mut last = *self.nodes.get(place)?;
        let mut count = 1u64;
        for _ in 0..self.nodes.len() {
            let Some(next) = self.next_of_run(&last) else {
                break;
            };
            last = next;
            count = count.saturating_add(1);
        }
        Some((count, last))
    }

    // What follows in the same run.
    fn next_of_run(&self, node: &Node) -> Option<Node> {
        let After::On(place) = node.acked else {
            return None;
        };
        let next = self.nodes.get(place)?;
        if self.is_of_run(node) && self.is_of_run(next) {
            Some(*next)
        } else {
            None
        }
    }
}

fn are_alike(one: Sent, other: Sent, likeness: Likeness) -> bool {
    match (one, other) {
        (Sent::Data(_), Sent::Data(_)) if likeness != Likeness::Exact => true,
        (Sent::Read(one, None), Sent::Read(other, _)) => one == other,
        (Sent::Read(one, _), Sent::Read(other, None)) => one == other,
        _ => one == other,
    }
}
