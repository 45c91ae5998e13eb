// Headers alone: of two directions, or of a pair that has an interrupt.

ghost use Rattle.std.specs.Prelude.{◌≡◌};
ghost use Rattle.message_tree.specs.Bits.{IsFirstSplit};
ghost use Rattle.message_tree.specs.Patterns.{address_bits};
ghost use Rattle.message_tree.specs.Texts.{message, interrupt, write_header, read_header};
ghost use Rattle.message_tree.specs.Trees.{frame_tree};
ghost use Rattle.pair_walk.specs.Compare.{ComparesSenders, MeetsBehindReads};

use crate::halts::{Halt, behind, clash};
use crate::makes::Makes;
use crate::wires::header_items;
use message_tree::{Address, Frame, Kind};
use std::alloc::Global;

/// A message and an interrupt.
pub(crate) fn message_and_interrupt<M: Makes>(
    alloc: Global,
    f: &Frame,
    b: &Address,
) -> Result<M, Halt>
    ensures { ComparesSenders M.shows (message (frame_tree f.now)) (interrupt (address_bits b.now)) result }
{
    match f {
        Frame::Write { address: a, .. } => Ok(M::part(split_of_directions(a, b))),
        Frame::Read { address: a, .. } => two_read_headers(alloc, a, b, Kind::Heard, Kind::Claim),
    }
}

/// An interrupt and a message.
pub(crate) fn interrupt_and_message<M: Makes>(
    alloc: Global,
    a: &Address,
    g: &Frame,
) -> Result<M, Halt>
    ensures { ComparesSenders M.shows (interrupt (address_bits a.now)) (message (frame_tree g.now)) result }
{
    match g {
        Frame::Write { address: b, .. } => Ok(M::part(split_of_directions(a, b))),
        Frame::Read { address: b, .. } => two_read_headers(alloc, a, b, Kind::Claim, Kind::Heard),
    }
}

/// Two interrupts.
pub(crate) fn two_interrupts<M: Makes>(alloc: Global, a: &Address, b: &Address) -> Result<M, Halt>
    ensures { ComparesSenders M.shows (interrupt (address_bits a.now)) (interrupt (address_bits b.now)) result }
{
    two_read_headers(alloc, a, b, Kind::Claim, Kind::Claim)
}

/// Where two headers part of which one writes and the other reads: at the first bit of the addresses that is known in
/// both and different, or else at the direction.
pub(crate) fn split_of_directions(a: &Address, b: &Address) -> u8
    ensures write_first { IsFirstSplit (write_header a.now) (read_header b.now) result }
    ensures read_first { IsFirstSplit (read_header a.now) (write_header b.now) result }
{
    a.first_split(b).unwrap_or(7)
}

// Two headers that read, and the kinds of what follows them.
fn two_read_headers<M: Makes>(
    alloc: Global,
    a: &Address,
    b: &Address,
    first: Kind,
    second: Kind,
) -> Result<M, Halt>
    ensures { MeetsBehindReads M.shows a.now b.now first second result }
{
    match a.first_split(b) {
        Some(place) => Ok(M::part(place)),
        None => Err(behind(
            clash(alloc, first, second),
            &header_items(a, b, true, false)[..8],
        )),
    }
}
