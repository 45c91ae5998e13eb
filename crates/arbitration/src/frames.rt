// The frames of a plan's messages by number: one that is found again keeps its number, and each is written in terms of the
// numbers of those that follow in it. So the outcome of a frame against itself is found once.

ghost use Rattle.std.specs.Prelude.{◌≡◌, ◌≤◌, true, [], List, OnOk, IfOk};
ghost use Rattle.std.specs.Bool.{OnTrue};
ghost use Rattle.message_tree.specs.Drops.{refused_of};
ghost use Rattle.message_tree.specs.Texts.{message};
ghost use Rattle.message_tree.specs.Trees.{FrameTree};
ghost use Rattle.arbitration.specs.Frames.{AreFrames, IsFrame, IsTold, Names, Grows};
ghost use Rattle.arbitration.specs.Frames.{frame_of, frame_height, write_of, read_of, next_tree, next_height, trees_of};
ghost use Rattle.arbitration.specs.Choices.{AreChoices};
ghost use Rattle.arbitration.specs.Ways.{header_of};

use crate::bits::Choices;
use crate::likeness::likeness;
use crate::rows::{Next, Row, is_same_next, same_rows};
use crate::spans::Outcomes;
use message_tree::{Address, Count};
use std::alloc::{AllocError, Global};
use std::collections::HashMap;

/// A header for a write, and what follows each answer to it.
#[derive(Drop)]
pub(crate) struct NumberedWrite {
    pub(crate) address: Address,
    pub(crate) header: Choices,
    pub(crate) acked: Row,
    pub(crate) refused: Next,
}

/// A header for a read, and what follows the last byte, or a NACK of the header.
#[derive(Clone, Copy)]
pub(crate) struct NumberedRead {
    pub(crate) address: Address,
    pub(crate) header: Choices,
    pub(crate) count: Count,
    pub(crate) after: Next,
    pub(crate) refused: Next,
}

/// A frame, in which those that follow are numbers.
#[derive(Drop)]
pub(crate) enum NumberedFrame {
    Write(NumberedWrite),
    Read(NumberedRead),
}

impl NumberedFrame {
    /// The choices in the bits of the header.
    pub(crate) fn header(&self) -> Choices
        ensures { (known : List FrameTree) → IsTold self.now →
            AreChoices (header_of (message (frame_of known self.now))) result }
    {
        match self {
            NumberedFrame::Write(w) => w.header,
            NumberedFrame::Read(r) => r.header,
        }
    }

    /// What follows a NACK of the header.
    pub(crate) fn refused(&self) -> Next
        ensures tree { (known : List FrameTree) → next_tree known result ≡ refused_of (frame_of known self.now) }
        ensures height { next_height result ≤ frame_height self.now }
    {
        match self {
            NumberedFrame::Write(w) => w.refused,
            NumberedFrame::Read(r) => r.refused,
        }
    }
}

/// A frame, and its outcome against itself.
#[derive(Drop)]
pub(crate) struct Entry {
    pub(crate) frame: NumberedFrame,
    pub(crate) alone: Outcomes,
}

/// Frames by their numbers.
#[derive(Drop)]
pub(crate) struct Frames {
    pub(crate) entries: Vec<Entry>,
    // the last number of each likeness
    seen: HashMap<u64, u32>,
}

impl Frames {
    /// No frame has a number.
    pub(crate) fn new(alloc: Global) -> Frames
        ensures { result.entries.items ≡ [] }
    {
        Frames {
            entries: Vec::new(alloc),
            seen: HashMap::new(alloc),
        }
    }

    /// The number of this frame: that of an equal one where it is found, and else a new one.
    pub(crate) fn put(&mut self, frame: NumberedFrame) -> Result<u32, AllocError>
        requires frames { AreFrames self.old.entries.items }
        requires frame { IsFrame self.old.entries.items frame }
        ensures frames { OnOk result (AreFrames self.new.entries.items) }
        ensures grows { OnOk result (Grows self.old.entries.items self.new.entries.items) }
        ensures named { IfOk result (λ n. Names (trees_of self.new.entries.items) n
            (frame_of (trees_of self.old.entries.items) frame)) }
    {
        let likeness = likeness(&frame);
        if let Some(k) = self.seen.get(&likeness).copied() {
            if self.has_at(k, &frame) {
                return Ok(k);
            }
        }
        let k = number(self.entries.len())?;
        let alone = self.frames(&frame, &frame);
        self.entries.push(Entry { frame, alone })?;
        self.seen.insert(likeness, k)?;
        Ok(k)
    }

    // Whether this frame has this number.
    fn has_at(&self, k: u32, frame: &NumberedFrame) -> bool
        requires { AreFrames self.now.entries.items }
        ensures { OnTrue result (Names (trees_of self.now.entries.items) k
            (frame_of (trees_of self.now.entries.items) frame.now)) }
    {
        let k = k as usize;
        k < self.entries.len() && same_frames(&self.entries[k].frame, frame)
    }
}

// Whether two are the same, with the same numbers.
fn same_frames(first: &NumberedFrame, second: &NumberedFrame) -> bool
    ensures { OnTrue result ((known : List FrameTree) → frame_of known first.now ≡ frame_of known second.now) }
{
    match first {
        NumberedFrame::Write(v) => match second {
            NumberedFrame::Write(w) => same_writes(v, w),
            NumberedFrame::Read(_) => false,
        },
        NumberedFrame::Read(r) => match second {
            NumberedFrame::Write(_) => false,
            NumberedFrame::Read(s) => same_reads(r, s),
        },
    }
}

fn same_writes(first: &NumberedWrite, second: &NumberedWrite) -> bool
    ensures { OnTrue result ((known : List FrameTree) → write_of known first.now ≡ write_of known second.now) }
{
    same_addresses(&first.address, &second.address)
        && is_same_next(&first.refused, &second.refused)
        && same_rows(&first.acked, &second.acked)
}

fn same_reads(first: &NumberedRead, second: &NumberedRead) -> bool
    ensures { OnTrue result ((known : List FrameTree) → read_of known first.now ≡ read_of known second.now) }
{
    same_addresses(&first.address, &second.address)
        && same_counts(&first.count, &second.count)
        && is_same_next(&first.after, &second.after)
        && is_same_next(&first.refused, &second.refused)
}

fn same_addresses(a: &Address, b: &Address) -> bool
    ensures { result ≡ true → a.now ≡ b.now }
{
    a == b
}

fn same_counts(c: &Count, d: &Count) -> bool
    ensures { result ≡ true → c.now ≡ d.now }
{
    c == d
}

// More frames than a u32 has numbers for are answered as out of memory.
fn number(n: usize) -> Result<u32, AllocError>
    ensures { IfOk result (λ k. k ≡ n) }
{
    if n <= u32::MAX as usize {
        Ok(n as u32)
    } else {
        Err(AllocError)
    }
}
