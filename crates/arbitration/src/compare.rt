// The outcomes of two frames, by their numbers.

ghost use Rattle.std.specs.Prelude.{◌≡◌, ◌<◌, ◌≤◌, ◌^◌, ◌+◌, ◌*◌, min, length};
ghost use Rattle.message_tree.specs.Bits.{NeverSplit};
ghost use Rattle.message_tree.specs.Counts.{greatest_of};
ghost use Rattle.message_tree.specs.Sizes.{payload_slots, tail_slots};
ghost use Rattle.message_tree.specs.Texts.{message, ReadThen, FrameText, PayloadText, TailText};
ghost use Rattle.message_tree.specs.Trees.{FrameTree};
ghost use Rattle.arbitration.specs.Frames.{AreFrames, IsFrame, IsRow, IsEnded, IsInside, IsSameFrom, Names};
ghost use Rattle.arbitration.specs.Frames.{frame_of, next_tree, row_tree, rest_after, trees_of};
ghost use Rattle.arbitration.specs.Ways.{AreOutcomes, AllHaveRoom, AckedText, Answered, Way, span_of, header_of};

use crate::beginnings::in_byte;
use crate::frames::{Frames, NumberedFrame, NumberedRead};
use crate::reads::{reads_apart, reads_met};
use crate::rows::{Next, Row, same_bytes, same_from};
use crate::spans::Outcomes;

impl Frames {
    /// What two may come to who send the frames with these numbers. Where both send one, that stands with it.
    #[cycle(compare)]
    pub(crate) fn numbers(&self, first: u32, second: u32) -> Outcomes
        requires frames { AreFrames self.now.entries.items }
        requires first { first < length self.now.entries.items }
        requires second { second < length self.now.entries.items }
        ensures { (f g : FrameTree) → Names (trees_of self.now.entries.items) first f →
            Names (trees_of self.now.entries.items) second g → AreOutcomes (FrameText f) (FrameText g) result }
    {
        let entry = &self.entries[first as usize];
        if first == second {
            return entry.alone;
        }
        self.frames(&entry.frame, &self.entries[second as usize].frame)
    }

    /// What two frames may come to, from their headers on.
    #[cycle(compare)]
    pub(crate) fn frames(&self, first: &NumberedFrame, second: &NumberedFrame) -> Outcomes
        requires frames { AreFrames self.now.entries.items }
        requires first { IsFrame self.now.entries.items first.now }
        requires second { IsFrame self.now.entries.items second.now }
        ensures { AreOutcomes (FrameText (frame_of (trees_of self.now.entries.items) first.now))
            (FrameText (frame_of (trees_of self.now.entries.items) second.now)) result }
    {
        let first_bits = first.header();
        let second_bits = second.header();
        let parted = first_bits.partings(second_bits);
        if first_bits.always_part(second_bits) {
            return parted;
        }
        let acked = self.acked(first, second);
        let refused = self.nexts(first.refused(), second.refused());
        answered(parted, acked, refused)
    }

    // What they come to after an acknowledge. A write and a read have parted.
    #[cycle(compare)]
    fn acked(&self, first: &NumberedFrame, second: &NumberedFrame) -> Outcomes
        requires frames { AreFrames self.now.entries.items }
        requires first { IsFrame self.now.entries.items first.now }
        requires second { IsFrame self.now.entries.items second.now }
        requires together { NeverSplit (header_of (message (frame_of (trees_of self.now.entries.items) first.now)))
            (header_of (message (frame_of (trees_of self.now.entries.items) second.now))) }
        ensures { AreOutcomes (AckedText (frame_of (trees_of self.now.entries.items) first.now))
            (AckedText (frame_of (trees_of self.now.entries.items) second.now)) result }
    {
        match first {
            NumberedFrame::Write(v) => match second {
                NumberedFrame::Write(w) => self.rows(&v.acked, &w.acked),
                NumberedFrame::Read(_) => Outcomes::none(),
            },
            NumberedFrame::Read(r) => match second {
                NumberedFrame::Write(_) => Outcomes::none(),
                NumberedFrame::Read(s) => self.reads(r, s),
            },
        }
    }

    // Two reads, from the first byte on.
    #[cycle(compare)]
    fn reads(&self, first: &NumberedRead, second: &NumberedRead) -> Outcomes
        requires frames { AreFrames self.now.entries.items }
        requires first { IsInside self.now.entries.items first.now.after }
        requires second { IsInside self.now.entries.items second.now.after }
        requires slots { tail_slots (next_tree (trees_of self.now.entries.items) first.now.after) +
            9 * greatest_of first.now.count < 2 ^ 32 }
        ensures { AreOutcomes
            (ReadThen first.now.count (TailText (next_tree (trees_of self.now.entries.items) first.now.after)))
            (ReadThen second.now.count (TailText (next_tree (trees_of self.now.entries.items) second.now.after))) result }
    {
        if first.count.meets(&second.count) {
            let ended = self.nexts(first.after, second.after);
            reads_met(&first.count, &second.count, ended)
        } else {
            reads_apart(&first.count, &second.count)
        }
    }

    // Two rows of bytes: those that they begin with in common at once, then byte by byte, and those that they end with in
    // common at once.
    #[cycle(compare)]
    fn rows(&self, first: &Row, second: &Row) -> Outcomes
        requires frames { AreFrames self.now.entries.items }
        requires first { IsRow self.now.entries.items first.now }
        requires second { IsRow self.now.entries.items second.now }
        requires ended { IsEnded (trees_of self.now.entries.items) first.now }
        requires slots { payload_slots (row_tree (trees_of self.now.entries.items) first.now) < 2 ^ 32 }
        ensures { AreOutcomes (PayloadText (row_tree (trees_of self.now.entries.items) first.now))
            (PayloadText (row_tree (trees_of self.now.entries.items) second.now)) result }
    {
        let alike = same_bytes(first, second);
        let mut met = first.beginning(alike);
        let end = same_from(first, second, alike);
        for k in alike..end {
            let a = &first.bytes[k];
            let b = &second.bytes[k];
            let parted = a.choices.partings(b.choices);
            if a.choices.always_part(b.choices) {
                return met.followed_by(parted);
            }
            let refused = self.nexts(a.refused, b.refused);
            met = met.and(in_byte(parted, refused));
        }
        met.followed_by(self.ends(first, second, end))
    }

    // What follows from this place on, where they are the same, or one of them ends.
    #[cycle(compare)]
    fn ends(&self, first: &Row, second: &Row, place: usize) -> Outcomes
        requires frames { AreFrames self.now.entries.items }
        requires first { IsInside self.now.entries.items first.now.last }
        requires second { IsInside self.now.entries.items second.now.last }
        requires ended { IsEnded (trees_of self.now.entries.items) first.now }
        requires within { place ≤ min (length first.now.bytes.items) (length second.now.bytes.items) }
        requires same { place < min (length first.now.bytes.items) (length second.now.bytes.items) →
            IsSameFrom place first.now second.now }
        ensures { AreOutcomes
            (PayloadText (rest_after place (trees_of self.now.entries.items) first.now))
            (PayloadText (rest_after place (trees_of self.now.entries.items) second.now)) result }
    {
        if place < first.bytes.len().min(second.bytes.len()) {
            return first.ending(place);
        }
        if first.bytes.len() == second.bytes.len() {
            self.nexts(first.last, second.last)
        } else {
            Outcomes::none()
        }
    }

    /// How two messages go on after their last byte, or after a refusal.
    #[cycle(compare)]
    pub(crate) fn nexts(&self, first: Next, second: Next) -> Outcomes
        requires frames { AreFrames self.now.entries.items }
        requires first { IsInside self.now.entries.items first }
        requires second { IsInside self.now.entries.items second }
        ensures { AreOutcomes (TailText (next_tree (trees_of self.now.entries.items) first))
            (TailText (next_tree (trees_of self.now.entries.items) second)) result }
    {
        match first {
            Next::Stop => match second {
                Next::Stop => Outcomes::end_at_once(),
                Next::Again(_) => Outcomes::none(),
            },
            Next::Again(m) => match second {
                Next::Stop => Outcomes::none(),
                Next::Again(n) => self.numbers(m, n).after(1),
            },
        }
    }
}

// Eight bits may part two, and slot 8 is the answer to them.
fn answered(parted: Outcomes, acked: Outcomes, refused: Outcomes) -> Outcomes
    requires acked { AllHaveRoom 9 acked }
    requires refused { AllHaveRoom 9 refused }
    ensures { (way : Way) → Answered (span_of way parted) (span_of way acked) (span_of way refused)
        (span_of way result) }
{
    parted.union(acked.after(9)).union(refused.after(9))
}
