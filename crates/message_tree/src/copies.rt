// A message copied into memory of its own.

ghost use Rattle.std.specs.Prelude.{◌≡◌, IfOk};
ghost use Rattle.message_tree.specs.Trees.{frame_tree, payload_tree, tail_tree};

use crate::tree::{Frame, Payload, Tail};
use std::alloc::{AllocError, Global};

impl Frame {
    /// The same message in memory of its own. For messages of at most 4,096 levels: each level is a call.
    #[cycle(copy)]
    pub fn copy(&self, alloc: Global) -> Result<Frame, AllocError>
        ensures { IfOk result (λ copy. frame_tree copy ≡ frame_tree self.now) }
    {
        match self {
            Frame::Write {
                address,
                acked,
                refused,
            } => Ok(Frame::Write {
                address: *address,
                acked: Box::new(alloc, acked.copy(alloc)?)?,
                refused: refused.copy(alloc)?,
            }),
            Frame::Read {
                address,
                count,
                after,
                refused,
            } => Ok(Frame::Read {
                address: *address,
                count: *count,
                after: after.copy(alloc)?,
                refused: refused.copy(alloc)?,
            }),
        }
    }
}

impl Payload {
    #[cycle(copy)]
    fn copy(&self, alloc: Global) -> Result<Payload, AllocError>
        ensures { IfOk result (λ copy. payload_tree copy ≡ payload_tree self.now) }
    {
        match self {
            Payload::Byte {
                bits,
                acked,
                refused,
            } => Ok(Payload::Byte {
                bits: *bits,
                acked: Box::new(alloc, acked.copy(alloc)?)?,
                refused: refused.copy(alloc)?,
            }),
            Payload::Last(tail) => Ok(Payload::Last(tail.copy(alloc)?)),
        }
    }
}

impl Tail {
    #[cycle(copy)]
    fn copy(&self, alloc: Global) -> Result<Tail, AllocError>
        ensures { IfOk result (λ copy. tail_tree copy ≡ tail_tree self.now) }
    {
        match self {
            Tail::Stop => Ok(Tail::Stop),
            Tail::Again(frame) => Ok(Tail::Again(Box::new(alloc, frame.copy(alloc)?)?)),
        }
    }
}
