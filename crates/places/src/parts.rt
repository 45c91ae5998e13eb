// The parts of what a participant sends, and how one leads to the next.

ghost use Rattle.std.specs.Prelude.{◌<◌};
ghost use Rattle.message_tree.specs.Counts.{greatest_of};

use crate::bytes::Byte;
use crate::offers::Offered;
use message_tree::{Bit, Count, Frame, Item, Payload, Tail};
use plan_core::Sends;

/// What comes next of what a participant sends.
#[derive(Clone, Copy, Drop)]
pub(crate) enum Part<'a> {
    /// Bits of a byte.
    Byte(Outgoing<'a>),
    /// What follows the bits of a byte.
    Then(Then<'a>),
    /// Bits of a byte that is read, or its acknowledge.
    Read(Incoming<'a>),
    /// A repeated START or a STOP.
    Tail(&'a Tail),
    /// Nothing.
    End,
}

/// A byte that is sent bit by bit.
#[derive(Clone, Copy, Drop)]
pub(crate) struct Outgoing<'a> {
    byte: Byte,
    /// How many of its bits have been sent.
    sent: u8,
    then: Then<'a>,
    ghost unfinished: { sent < 8 },
}

/// What follows the bits of a byte.
#[derive(Clone, Copy, Drop)]
pub(crate) enum Then<'a> {
    /// A target acknowledges the byte by 0, or refuses it by 1 (UM10204, 3.1.6).
    Answer { acked: Acked<'a>, refused: &'a Tail },
    /// An interrupt waits for the answer to its header (our profile).
    Claim,
}

/// What follows an acknowledge.
#[derive(Clone, Copy, Drop)]
pub(crate) enum Acked<'a> {
    /// Bytes that are written.
    Payload(&'a Payload),
    /// Bytes that are read.
    Read { count: Count, after: &'a Tail },
}

/// A byte that is read bit by bit, and then acknowledged (UM10204, 3.1.6).
#[derive(Clone, Copy, Drop)]
pub(crate) struct Incoming<'a> {
    count: Count,
    /// How many bytes have been read before, and have all been acknowledged.
    done: u8,
    /// How many bits of the byte are left to be heard.
    left: u8,
    /// What follows the last byte.
    after: &'a Tail,
    ghost wanted: { done < greatest_of count },
}

impl<'a> Part<'a> {
    ghost use Rattle.std.specs.Prelude.{◌≡◌, ◌↔◌, List, [], ◌∷◌};
    ghost use Rattle.message_tree.specs.declared.items.Item.{Item};
    ghost use Rattle.message_tree.specs.Texts.{FrameText, PayloadText, SenderText, SentThen};
    ghost use Rattle.message_tree.specs.Trees.{frame_tree, payload_tree};
    ghost use Rattle.plan_core.specs.Senders.{what_is_sent};
    ghost use Rattle.places.specs.Offers.{Begins, MayPut};
    ghost use Rattle.places.specs.Parts.{PartText, ThenText, bits_of};

    /// The beginning of what a participant sends.
    pub(crate) fn start(sends: Sends<'a>) -> Part<'a>
        ensures { (u : List Item) → PartText result u ↔ SenderText (what_is_sent sends.entry) u }
    {
        match sends {
            Sends::Message(frame) => Part::frame(frame),
            Sends::Interrupt(address) => Part::byte(Byte::ReadHeader(address), Then::Claim),
        }
    }

    // The header of a frame, and what follows it (UM10204, 3.1.10).
    fn frame(frame: &'a Frame) -> Part<'a>
        ensures { (u : List Item) → PartText result u ↔ FrameText (frame_tree frame.now) u }
    {
        match frame {
            Frame::Write {
                address,
                acked,
                refused,
            } => Part::byte(
                Byte::WriteHeader(*address),
                Then::Answer {
                    acked: Acked::Payload(acked),
                    refused,
                },
            ),
            Frame::Read {
                address,
                count,
                after,
                refused,
            } => Part::byte(
                Byte::ReadHeader(*address),
                Then::Answer {
                    acked: Acked::Read {
                        count: *count,
                        after,
                    },
                    refused,
                },
            ),
        }
    }

    // What is written after an acknowledge.
    fn payload(payload: &'a Payload) -> Part<'a>
        ensures { (u : List Item) → PartText result u ↔ PayloadText (payload_tree payload.now) u }
    {
        match payload {
            Payload::Byte {
                bits,
                acked,
                refused,
            } => Part::byte(
                Byte::Data(*bits),
                Then::Answer {
                    acked: Acked::Payload(acked),
                    refused,
                },
            ),
            Payload::Last(tail) => Part::Tail(tail),
        }
    }

    // A byte from its first bit on.
    fn byte(byte: Byte, then: Then<'a>) -> Part<'a>
        ensures { (u : List Item) → PartText result u ↔ SentThen (bits_of byte) (ThenText then.entry) u }
    {
        Part::Byte(Outgoing {
            byte,
            sent: 0,
            then,
        })
    }

    /// What may come next.
    pub(crate) fn offered(&self) -> Offered
        ensures items { (x : Item) → Begins (PartText self.now) x ↔ MayPut result x }
        ensures end { PartText self.now [] ↔ (result ≡ Offered.Nothing) }
    {
        match self {
            Part::Byte(outgoing) => Offered::Bit(outgoing.bit()),
            Part::Then(then) => match then {
                Then::Answer { .. } => Offered::Listen,
                Then::Claim => Offered::Claim,
            },
            Part::Read(incoming) => incoming.offered(),
            Part::Tail(tail) => match tail {
                Tail::Stop => Offered::Stop,
                Tail::Again(_) => Offered::Again,
            },
            Part::End => Offered::Nothing,
        }
    }

    /// What comes after this item.
    pub(crate) fn after(&self, item: Item) -> Part<'a>
        requires { Begins (PartText self.now) item }
        ensures { (u : List Item) → PartText result u ↔ PartText self.now (item ∷ u) }
    {
        match *self {
            Part::Byte(outgoing) => outgoing.after(),
            Part::Then(Then::Answer { acked, refused }) => match item {
                Item::Heard(false) => acked.start(),
                _ => Part::Tail(refused),
            },
            Part::Then(Then::Claim) => Part::End,
            Part::Read(incoming) => incoming.after(item),
            Part::Tail(tail) => match tail {
                Tail::Stop => Part::End,
                Tail::Again(frame) => Part::frame(frame),
            },
            Part::End => unreachable!(),
        }
    }
}

impl<'a> Outgoing<'a> {
    ghost use Rattle.std.specs.Prelude.{◌≡◌, ◌+◌, ◌↔◌, List, Some, drop, slice_get};
    ghost use Rattle.message_tree.specs.declared.items.Item.{Item};
    ghost use Rattle.message_tree.specs.Texts.{SentThen};
    ghost use Rattle.places.specs.Parts.{PartText, ThenText, bits_of};

    // The bit that comes next.
    fn bit(&self) -> Bit
        ensures { slice_get (bits_of self.now.byte) self.now.sent ≡ Some result }
    {
        self.byte.bit(self.sent)
    }

    // What comes after this bit.
    fn after(&self) -> Part<'a>
        ensures { (u : List Item) → PartText result u ↔
            SentThen (drop (self.now.sent + 1) (bits_of self.now.byte)) (ThenText self.now.then) u }
    {
        if self.sent < 7 {
            Part::Byte(Outgoing {
                byte: self.byte,
                sent: self.sent + 1,
                then: self.then,
            })
        } else {
            Part::Then(self.then)
        }
    }
}

impl<'a> Acked<'a> {
    ghost use Rattle.std.specs.Prelude.{◌↔◌, List};
    ghost use Rattle.message_tree.specs.declared.items.Item.{Item};
    ghost use Rattle.places.specs.Parts.{AckedText, PartText};

    // What comes after the acknowledge.
    fn start(&self) -> Part<'a>
        ensures { (u : List Item) → PartText result u ↔ AckedText self.now u }
    {
        match *self {
            Acked::Payload(payload) => Part::payload(payload),
            Acked::Read { count, after } => Part::Read(Incoming {
                count,
                done: 0,
                left: 8,
                after,
            }),
        }
    }
}

impl<'a> Incoming<'a> {
    ghost use Rattle.std.specs.Prelude.{◌≡◌, ◌+◌, ◌≤◌, ◌↔◌, List, [], ◌∷◌, true, false};
    ghost use Rattle.message_tree.specs.declared.items.Item.{Item};
    ghost use Rattle.message_tree.specs.Counts.{least_of};
    ghost use Rattle.message_tree.specs.Texts.{Allows};
    ghost use Rattle.places.specs.Offers.{Begins, MayPut};
    ghost use Rattle.places.specs.Parts.{PartText, IncomingText};

    // What may come next.
    fn offered(&self) -> Offered
        ensures items { (x : Item) → Begins (IncomingText self.now) x ↔ MayPut result x }
        ensures end { IncomingText self.now [] ↔ (result ≡ Offered.Nothing) }
    {
        if self.left == 0 {
            Offered::Bit(self.acknowledge())
        } else {
            Offered::Listen
        }
    }

    // The acknowledge of the byte: 0 asks for a further one, and 1 ends the read (UM10204, 3.1.6). It is open where the
    // byte may be the last or not.
    fn acknowledge(&self) -> Bit
        ensures more { Allows result false ↔ (self.now.done + 1 < greatest_of self.now.count) }
        ensures last { Allows result true ↔ (least_of self.now.count ≤ self.now.done + 1) }
    {
        let read = self.done + 1;
        if read < self.count.least() {
            Bit::Zero
        } else if read < self.count.greatest() {
            Bit::Either
        } else {
            Bit::One
        }
    }

    // What comes after this item.
    fn after(&self, item: Item) -> Part<'a>
        requires { Begins (IncomingText self.now) item }
        ensures { (u : List Item) → PartText result u ↔ IncomingText self.now (item ∷ u) }
    {
        if 0 < self.left {
            return Part::Read(Incoming {
                count: self.count,
                done: self.done,
                left: self.left - 1,
                after: self.after,
            });
        }
        match item {
            Item::Sent(false) => Part::Read(Incoming {
                count: self.count,
                done: self.done + 1,
                left: 8,
                after: self.after,
            }),
            _ => Part::Tail(self.after),
        }
    }
}
