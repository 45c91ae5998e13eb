// Whether a message of a plan has a path.

ghost use Rattle.std.specs.Prelude.{◌≡◌, IsTrue};
ghost use Rattle.message_tree.specs.Trees.{frame_tree, payload_tree, tail_tree};
ghost use Rattle.lessons.specs.Taken.{frame_takes, payload_takes, tail_takes, writes, reads, sends, has_count, never_split};
ghost use Rattle.message_tree.specs.Patterns.{address_bits};
ghost use Rattle.lessons.specs.Plans.{seven};

use crate::paths::{Sent, Step};
use message_tree::{Address, Count, Frame, Pattern, Payload, Tail};

/// Whether a message has a path, from node to node.
#[cycle(takes)]
pub(crate) fn frame_takes(frame: &Frame, path: &[Step]) -> bool
    ensures { result ≡ frame_takes (frame_tree frame.now) path.now }
{
    let Some((step, rest)) = path.split_first() else {
        return false;
    };
    match frame {
        Frame::Write {
            address,
            acked,
            refused,
        } => {
            if !writes(address, step.sent) {
                false
            } else if step.refused {
                tail_takes(refused, rest)
            } else {
                payload_takes(acked, rest)
            }
        }
        Frame::Read {
            address,
            count,
            after,
            refused,
        } => {
            if !reads(address, step.sent) {
                false
            } else if step.refused {
                tail_takes(refused, rest)
            } else {
                has_count(count, step.sent) && tail_takes(after, rest)
            }
        }
    }
}

#[cycle(takes)]
fn payload_takes(payload: &Payload, path: &[Step]) -> bool
    ensures { result ≡ payload_takes (payload_tree payload.now) path.now }
{
    match payload {
        Payload::Byte {
            bits,
            acked,
            refused,
        } => match path.split_first() {
            Some((step, rest)) => {
                if !sends(bits, step.sent) {
                    false
                } else if step.refused {
                    tail_takes(refused, rest)
                } else {
                    payload_takes(acked, rest)
                }
            }
            None => false,
        },
        Payload::Last(tail) => tail_takes(tail, path),
    }
}

#[cycle(takes)]
fn tail_takes(tail: &Tail, path: &[Step]) -> bool
    ensures { result ≡ tail_takes (tail_tree tail.now) path.now }
{
    match tail {
        Tail::Stop => path.is_empty(),
        Tail::Again(frame) => frame_takes(frame, path),
    }
}

fn writes(address: &Address, sent: Sent) -> bool
    ensures { result ≡ writes address.now sent }
{
    match sent {
        Sent::Write(to) => is_like(address, to),
        _ => false,
    }
}

fn reads(address: &Address, sent: Sent) -> bool
    ensures { result ≡ reads address.now sent }
{
    match sent {
        Sent::Read(from, _) => is_like(address, from),
        _ => false,
    }
}

// Whether the known bits of the address are those of this one.
#[tactic(auto, using(crate::proofs::SplitLemmas::split_test))]
fn is_like(address: &Address, other: u8) -> bool
    ensures { result ≡ never_split (address_bits address.now) (seven other) }
{
    address.first_split(&Address::new(0x7f, other)).is_none()
}

#[tactic(auto, using(crate::proofs::SplitLemmas::split_test))]
fn sends(bits: &Pattern, sent: Sent) -> bool
    ensures { result ≡ sends bits.now sent }
{
    match sent {
        Sent::Register(byte) | Sent::Data(byte) => {
            bits.first_split(&Pattern::new(0xff, byte)).is_none()
        }
        _ => false,
    }
}

// Whether a read of so many bytes is one of this range.
fn has_count(range: &Count, sent: Sent) -> bool
    ensures { result ≡ has_count range.now sent }
{
    match sent {
        Sent::Read(_, Some(count)) => range.least() <= count && count <= range.greatest(),
        _ => false,
    }
}
