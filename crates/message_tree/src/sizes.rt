// How large a message is.

ghost use Rattle.std.specs.Prelude.{◌≡◌, ◌+◌, ◌<◌, MatchOption};
ghost use Rattle.message_tree.specs.Texts.{FrameText};
ghost use Rattle.message_tree.specs.Trees.{frame_tree, payload_tree, tail_tree};
ghost use Rattle.message_tree.specs.Sizes.{frame_bytes, payload_bytes, tail_bytes, frame_nodes, payload_nodes};
ghost use Rattle.message_tree.specs.Sizes.{tail_nodes, frame_slots, payload_slots, tail_slots, capped, IsLongest};

use crate::tree::{Frame, Payload, Tail};

impl Frame {
    /// The bytes on the longest path: headers, written bytes, and as many read bytes as each range allows.
    /// For messages of at most 4,096 levels: each level is a call.
    #[cycle(longest)]
    pub fn longest(&self) -> u32
        ensures { result ≡ capped (frame_bytes (frame_tree self.now)) }
    {
        match self {
            Frame::Write { acked, refused, .. } => {
                acked.longest().max(refused.longest()).saturating_add(1)
            }
            Frame::Read {
                count,
                after,
                refused,
                ..
            } => after
                .longest()
                .saturating_add(count.greatest() as u32)
                .max(refused.longest())
                .saturating_add(1),
        }
    }

    /// The nodes of the message: headers and written bytes. For messages of at most 4,096 levels: each level is a call.
    #[cycle(nodes)]
    pub fn nodes(&self) -> u32
        ensures { result ≡ capped (frame_nodes (frame_tree self.now)) }
    {
        match self {
            Frame::Write { acked, refused, .. } => {
                acked
                    .nodes()
                    .saturating_add(refused.nodes())
                    .saturating_add(1)
            }
            Frame::Read { after, refused, .. } => {
                after
                    .nodes()
                    .saturating_add(refused.nodes())
                    .saturating_add(1)
            }
        }
    }

    /// What is left of `room` nodes once the message has taken its own, or `None` where it has more. It goes no deeper
    /// into the message than `room` nodes, so it may be asked of a message of any depth.
    #[cycle(room)]
    pub fn room_left(&self, room: u32) -> Option<u32>
        ensures { MatchOption result (room < frame_nodes (frame_tree self.now))
            (λ left. left + frame_nodes (frame_tree self.now) ≡ room) }
    {
        match self {
            Frame::Write { acked, refused, .. } => {
                let room = acked.room_left(room.checked_sub(1)?)?;
                refused.room_left(room)
            }
            Frame::Read { after, refused, .. } => {
                let room = after.room_left(room.checked_sub(1)?)?;
                refused.room_left(room)
            }
        }
    }

    /// The slots of the message's longest text. For messages of at most 4,096 levels: each level is a call.
    #[cycle(slots)]
    pub fn slots(&self) -> u32
        ensures value { result ≡ capped (frame_slots (frame_tree self.now)) }
        ensures longest { IsLongest (FrameText (frame_tree self.now)) (frame_slots (frame_tree self.now)) }
    {
        match self {
            Frame::Write { acked, refused, .. } => {
                acked.slots().max(refused.slots()).saturating_add(9)
            }
            Frame::Read {
                count,
                after,
                refused,
                ..
            } => after
                .slots()
                .saturating_add(9 * count.greatest() as u32)
                .max(refused.slots())
                .saturating_add(9),
        }
    }
}

impl Payload {
    #[cycle(room)]
    fn room_left(&self, room: u32) -> Option<u32>
        ensures { MatchOption result (room < payload_nodes (payload_tree self.now))
            (λ left. left + payload_nodes (payload_tree self.now) ≡ room) }
    {
        match self {
            Payload::Byte { acked, refused, .. } => {
                let room = acked.room_left(room.checked_sub(1)?)?;
                refused.room_left(room)
            }
            Payload::Last(tail) => tail.room_left(room),
        }
    }

    #[cycle(longest)]
    fn longest(&self) -> u32
        ensures { result ≡ capped (payload_bytes (payload_tree self.now)) }
    {
        match self {
            Payload::Byte { acked, refused, .. } => {
                acked.longest().max(refused.longest()).saturating_add(1)
            }
            Payload::Last(tail) => tail.longest(),
        }
    }

    #[cycle(nodes)]
    fn nodes(&self) -> u32
        ensures { result ≡ capped (payload_nodes (payload_tree self.now)) }
    {
        match self {
            Payload::Byte { acked, refused, .. } => {
                acked
                    .nodes()
                    .saturating_add(refused.nodes())
                    .saturating_add(1)
            }
            Payload::Last(tail) => tail.nodes(),
        }
    }

    #[cycle(slots)]
    fn slots(&self) -> u32
        ensures { result ≡ capped (payload_slots (payload_tree self.now)) }
    {
        match self {
            Payload::Byte { acked, refused, .. } => {
                acked.slots().max(refused.slots()).saturating_add(9)
            }
            Payload::Last(tail) => tail.slots(),
        }
    }
}

impl Tail {
    #[cycle(room)]
    fn room_left(&self, room: u32) -> Option<u32>
        ensures { MatchOption result (room < tail_nodes (tail_tree self.now))
            (λ left. left + tail_nodes (tail_tree self.now) ≡ room) }
    {
        match self {
            Tail::Stop => Some(room),
            Tail::Again(frame) => frame.room_left(room),
        }
    }

    #[cycle(longest)]
    fn longest(&self) -> u32
        ensures { result ≡ capped (tail_bytes (tail_tree self.now)) }
    {
        match self {
            Tail::Stop => 0,
            Tail::Again(frame) => frame.longest(),
        }
    }

    #[cycle(nodes)]
    fn nodes(&self) -> u32
        ensures { result ≡ capped (tail_nodes (tail_tree self.now)) }
    {
        match self {
            Tail::Stop => 0,
            Tail::Again(frame) => frame.nodes(),
        }
    }

    #[cycle(slots)]
    fn slots(&self) -> u32
        ensures { result ≡ capped (tail_slots (tail_tree self.now)) }
    {
        match self {
            Tail::Stop => 1,
            Tail::Again(frame) => frame.slots().saturating_add(1),
        }
    }
}
