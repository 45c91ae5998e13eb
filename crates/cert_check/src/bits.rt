// The bits of headers, in the order in which they are sent (UM10204, 3.1.10), and where two bytes part.

ghost use Rattle.std.specs.Prelude.{◌≡◌, ◌↔◌, [], ◌∷◌, IsTrue};
ghost use Rattle.message_tree.specs.Bits.{SplitAt};
ghost use Rattle.message_tree.specs.Trees.{frame_tree};
ghost use Rattle.certificate.specs.Proves.{frame_header, header_of};
ghost use Rattle.plan_core.specs.Senders.{what_is_sent};

use message_tree::{Bit, Frame};
use plan_core::Sends;

/// The eight bits of a frame's header: the direction bit is 0 for a write and 1 for a read.
pub(crate) fn frame_bits(frame: &Frame) -> [Bit; 8]
    ensures { result ≡ frame_header (frame_tree frame.now) }
{
    match frame {
        Frame::Write { address, .. } => address.header(Bit::Zero),
        Frame::Read { address, .. } => address.header(Bit::One),
    }
}

/// The eight bits of a participant's first header.
pub(crate) fn first_header(start: &Sends<'_>) -> [Bit; 8]
    ensures { result ≡ header_of (what_is_sent start.now) }
{
    match start {
        Sends::Message(frame) => frame_bits(frame),
        Sends::Interrupt(address) => address.header(Bit::One),
    }
}

/// Whether the bits at this place are known in both and different.
pub(crate) fn are_split_at(a: &[Bit; 8], b: &[Bit; 8], place: u8) -> bool
    ensures { IsTrue result ↔ SplitAt a.now b.now place }
{
    place < 8 && are_different(a[place as usize], b[place as usize])
}

fn are_different(b: Bit, c: Bit) -> bool
    ensures { IsTrue result ↔ SplitAt (b ∷ []) (c ∷ []) 0 }
{
    match (b, c) {
        (Bit::Zero, Bit::One) | (Bit::One, Bit::Zero) => true,
        _ => false,
    }
}
