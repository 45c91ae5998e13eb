// A message as a tree: each node is a header or a byte, with what follows each answer to it.

ghost use Rattle.std.specs.Prelude.{◌≡◌, ◌+◌, ◌*◌, ◌<◌, ◌≤◌, MatchOption};
ghost use Rattle.message_tree.specs.Trees.{frame_tree, payload_tree, tail_tree, stop, again, last};
ghost use Rattle.message_tree.specs.Drops.{frame_weight, payload_weight, tail_weight, refused_of, with_refused};
ghost use Rattle.message_tree.specs.Drops.{rest_of, HasNoRefused, IsBare};

use crate::bits::{Address, Pattern};
use crate::counts::Count;
use std::mem;

/// How a message goes on after its last byte, or after an answer that refuses.
#[cycle(message)]
pub enum Tail {
    /// A STOP (UM10204, 3.1.4), which ends the message.
    Stop,
    /// A repeated START and a further frame (UM10204, 3.1.10).
    Again(Box<Frame>),
}

/// A header, and what follows it (UM10204, 3.1.10).
#[cycle(message)]
#[derive(Drop)]
pub enum Frame {
    /// The address and the direction bit 0.
    Write {
        address: Address,
        /// After the target has acknowledged.
        acked: Box<Payload>,
        /// After it has not.
        refused: Tail,
    },
    /// The address and the direction bit 1. Once the target has acknowledged, it sends `count` bytes.
    Read {
        address: Address,
        count: Count,
        /// After the last byte.
        after: Tail,
        /// Where the target has not acknowledged the header.
        refused: Tail,
    },
}

/// What a controller writes after an acknowledge.
#[cycle(message)]
pub enum Payload {
    /// A data byte (UM10204, 3.1.5).
    Byte {
        bits: Pattern,
        /// After the target has acknowledged.
        acked: Box<Payload>,
        /// After it has not.
        refused: Tail,
    },
    /// No further byte.
    Last(Tail),
}

// A message is let go in loops that take no memory, however deep its tree is: a derived drop would call itself once for
// each level. The first frame in what follows the acknowledge becomes the outer one, and the frame that was outer hangs
// after its refusal, until nothing follows the acknowledge.

impl Drop for Tail {
    #[cycle(drops)]
    fn drop(mut self) {
        loop {
            match self {
                Tail::Stop => return,
                Tail::Again(frame) => self = less(frame),
            }
        }
    }
}

impl Drop for Payload {
    #[cycle(drops)]
    fn drop(mut self) {
        while let Some(frame) = self.unhook() {
            drop(Tail::Again(frame));
        }
        match self {
            Payload::Last(_) => {}
            Payload::Byte { .. } => unreachable!(),
        }
    }
}

// The frame turned by one step, or what follows its refusal where nothing follows its acknowledge.
#[cycle(drops)]
fn less(mut outer: Box<Frame>) -> Tail
    ensures { tail_weight (tail_tree result) < frame_weight (frame_tree outer.value) }
{
    match outer.unhook() {
        Some(mut inner) => {
            drop(inner.hang(Tail::Again(outer)));
            Tail::Again(inner)
        }
        None => outer_refused(outer),
    }
}

// What follows the refusal of a frame that has nothing after its acknowledge.
#[cycle(drops)]
fn outer_refused(outer: Box<Frame>) -> Tail
    requires { IsBare (frame_tree outer.value) }
    ensures { tail_tree result ≡ refused_of (frame_tree outer.value) }
{
    match Box::into_inner(outer) {
        Frame::Write { acked, refused, .. } => {
            drop(Box::into_inner(acked));
            refused
        }
        Frame::Read { refused, .. } => refused,
    }
}

impl Frame {
    // Takes the first frame out of what follows the acknowledge.
    #[cycle(drops)]
    fn unhook(&mut self) -> Option<Box<Frame>>
        ensures found { MatchOption result (IsBare (frame_tree self.new))
            (λ frame. refused_of (frame_tree frame.value) ≡ stop) }
        ensures refused { refused_of (frame_tree self.new) ≡ refused_of (frame_tree self.old) }
        ensures less { MatchOption result (frame_weight (frame_tree self.new) ≤ frame_weight (frame_tree self.old))
            (λ frame. frame_weight (frame_tree self.new) + 2 * frame_weight (frame_tree frame.value) ≤
            frame_weight (frame_tree self.old)) }
    {
        match self {
            Frame::Write { acked, .. } => acked.unhook(),
            Frame::Read { after, .. } => after.unhook(),
        }
    }

    // Hangs this after the refusal, and gives what hung there.
    fn hang(&mut self, refused: Tail) -> Tail
        ensures new { frame_tree self.new ≡ with_refused (frame_tree self.old) (tail_tree refused) }
        ensures old { tail_tree result ≡ refused_of (frame_tree self.old) }
    {
        match self {
            Frame::Write { refused: place, .. } => mem::replace(place, refused),
            Frame::Read { refused: place, .. } => mem::replace(place, refused),
        }
    }
}

impl Payload {
    // Takes the first frame out, and drops the bytes before it.
    #[cycle(drops)]
    fn unhook(&mut self) -> Option<Box<Frame>>
        ensures found { MatchOption result (payload_tree self.new ≡ last stop)
            (λ frame. refused_of (frame_tree frame.value) ≡ stop) }
        ensures less { MatchOption result (payload_weight (payload_tree self.new) ≤
            payload_weight (payload_tree self.old)) (λ frame.
            payload_weight (payload_tree self.new) + frame_weight (frame_tree frame.value) ≤
            payload_weight (payload_tree self.old)) }
    {
        loop {
            match self {
                Payload::Byte { acked, refused, .. } => {
                    if let Some(frame) = refused.unhook() {
                        return Some(frame);
                    }
                    let rest = mem::replace(self, Payload::Last(Tail::Stop)).rest();
                    *self = rest;
                }
                Payload::Last(tail) => return tail.unhook(),
            }
        }
    }

    // What follows the acknowledge of a byte that has nothing after its refusal.
    #[cycle(drops)]
    fn rest(self) -> Payload
        requires { HasNoRefused (payload_tree self) }
        ensures { payload_tree result ≡ rest_of (payload_tree self) }
    {
        match self {
            Payload::Byte {
                bits: _,
                acked,
                refused,
            } => {
                drop(refused);
                Box::into_inner(acked)
            }
            Payload::Last(tail) => Payload::Last(tail),
        }
    }
}

impl Tail {
    // Takes the frame out, and leaves what follows its refusal in its place.
    #[cycle(drops)]
    fn unhook(&mut self) -> Option<Box<Frame>>
        ensures found { MatchOption result (tail_tree self.new ≡ stop)
            (λ frame. refused_of (frame_tree frame.value) ≡ stop) }
        ensures less { MatchOption result (tail_tree self.new ≡ tail_tree self.old)
            (λ frame. tail_weight (tail_tree self.new) + frame_weight (frame_tree frame.value) ≡
            tail_weight (tail_tree self.old)) }
    {
        let mut frame = mem::replace(self, Tail::Stop).frame()?;
        let refused = frame.hang(Tail::Stop);
        *self = refused;
        Some(frame)
    }

    fn frame(self) -> Option<Box<Frame>>
        ensures { MatchOption result (tail_tree self ≡ stop)
            (λ frame. tail_tree self ≡ again (frame_tree frame.value)) }
    {
        match self {
            Tail::Stop => None,
            Tail::Again(frame) => Some(frame),
        }
    }
}
