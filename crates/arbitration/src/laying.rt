// Frames are interned bottom-up: what follows first, and then the frame in terms of its numbers.

ghost use Rattle.std.specs.Prelude.{◌≡◌, ◌+◌, ◌*◌, ◌<◌, ◌≤◌, ◌^◌, length, OnOk, IfOk};
ghost use Rattle.message_tree.specs.Sizes.{frame_slots, payload_slots, tail_slots};
ghost use Rattle.message_tree.specs.Trees.{frame_tree, payload_tree, tail_tree};
ghost use Rattle.arbitration.specs.Frames.{AreFrames, IsFrame, IsRow, Names, Grows, IsInside};
ghost use Rattle.arbitration.specs.Frames.{frame_of, next_tree, steps_of, row_tree, trees_of};
ghost use Rattle.arbitration.specs.Ways.{with_bytes};

use crate::beginnings::in_byte;
use crate::bits::Choices;
use crate::frames::{Frames, NumberedFrame, NumberedRead, NumberedWrite};
use crate::rows::{Next, NumberedByte, Row};
use message_tree::{Bit, Frame, Payload, Tail};
use std::alloc::{AllocError, Global};

impl Frames {
    /// The number of this frame.
    #[cycle(laying)]
    pub(crate) fn lay(&mut self, alloc: Global, frame: &Frame) -> Result<u32, AllocError>
        requires frames { AreFrames self.old.entries.items }
        requires slots { frame_slots (frame_tree frame.now) < 2 ^ 32 }
        ensures frames { OnOk result (AreFrames self.new.entries.items) }
        ensures grows { OnOk result (Grows self.old.entries.items self.new.entries.items) }
        ensures named { IfOk result (λ n. Names (trees_of self.new.entries.items) n (frame_tree frame.now)) }
    {
        let numbered = self.numbered(alloc, frame)?;
        self.put(numbered)
    }

    // The frame in terms of those that follow, which have numbers then.
    #[cycle(laying)]
    fn numbered(&mut self, alloc: Global, frame: &Frame) -> Result<NumberedFrame, AllocError>
        requires frames { AreFrames self.old.entries.items }
        requires slots { frame_slots (frame_tree frame.now) < 2 ^ 32 }
        ensures frames { OnOk result (AreFrames self.new.entries.items) }
        ensures grows { OnOk result (Grows self.old.entries.items self.new.entries.items) }
        ensures frame { IfOk result (λ numbered. IsFrame self.new.entries.items numbered) }
        ensures tree { IfOk result (λ numbered. frame_of (trees_of self.new.entries.items) numbered ≡ frame_tree frame.now) }
    {
        match frame {
            Frame::Write {
                address,
                acked,
                refused,
            } => {
                let refused = self.lay_tail(alloc, refused)?;
                let mut row = Row::new(alloc);
                self.lay_payload(alloc, &mut row, acked)?;
                row.endings = self.endings(alloc, &row)?;
                Ok(NumberedFrame::Write(NumberedWrite {
                    address: *address,
                    header: Choices::of_header(address, Bit::Zero),
                    acked: row,
                    refused,
                }))
            }
            Frame::Read {
                address,
                count,
                after,
                refused,
            } => {
                let after = self.lay_tail(alloc, after)?;
                let refused = self.lay_tail(alloc, refused)?;
                Ok(NumberedFrame::Read(NumberedRead {
                    address: *address,
                    header: Choices::of_header(address, Bit::One),
                    count: *count,
                    after,
                    refused,
                }))
            }
        }
    }

    // The bytes that a message goes on with, after those that are in the row.
    #[cycle(laying)]
    fn lay_payload(
        &mut self,
        alloc: Global,
        row: &mut Row,
        payload: &Payload,
    ) -> Result<(), AllocError>
        requires frames { AreFrames self.old.entries.items }
        requires row { IsRow self.old.entries.items row.old }
        requires slots { 9 * length row.old.bytes.items + payload_slots (payload_tree payload.now) < 2 ^ 32 }
        ensures frames { OnOk result (AreFrames self.new.entries.items) }
        ensures grows { OnOk result (Grows self.old.entries.items self.new.entries.items) }
        ensures row { OnOk result (IsRow self.new.entries.items row.new) }
        ensures tree { OnOk result (row_tree (trees_of self.new.entries.items) row.new ≡
            with_bytes (steps_of (trees_of self.old.entries.items) row.old) (payload_tree payload.now)) }
    {
        match payload {
            Payload::Byte {
                bits,
                acked,
                refused,
            } => {
                let refused = self.lay_tail(alloc, refused)?;
                let choices = Choices::of_byte(bits);
                let here = in_byte(choices.partings(choices), self.nexts(refused, refused));
                let byte = NumberedByte {
                    bits: *bits,
                    choices,
                    refused,
                };
                row.push(byte, here)?;
                self.lay_payload(alloc, row, acked)
            }
            Payload::Last(tail) => {
                row.last = self.lay_tail(alloc, tail)?;
                Ok(())
            }
        }
    }

    // How a message goes on, by number.
    #[cycle(laying)]
    fn lay_tail(&mut self, alloc: Global, tail: &Tail) -> Result<Next, AllocError>
        requires frames { AreFrames self.old.entries.items }
        requires slots { tail_slots (tail_tree tail.now) < 2 ^ 32 }
        ensures frames { OnOk result (AreFrames self.new.entries.items) }
        ensures grows { OnOk result (Grows self.old.entries.items self.new.entries.items) }
        ensures inside { IfOk result (λ next. IsInside self.new.entries.items next) }
        ensures tree { IfOk result (λ next. next_tree (trees_of self.new.entries.items) next ≡ tail_tree tail.now) }
    {
        match tail {
            Tail::Stop => Ok(Next::Stop),
            Tail::Again(frame) => {
                let number = self.lay(alloc, frame)?;
                Ok(Next::Again(number))
            }
        }
    }
}
