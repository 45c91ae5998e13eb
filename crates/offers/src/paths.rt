// What messages and interrupts send where each byte is acknowledged, and how far that leads along a wire.

use edits::{Bits, Place};
use message_tree::{Address, Count, Frame, Item, Payload, Tail};
use std::alloc::{AllocError, Global};

// How many frames, and how many data bytes of one, are followed at most.
const BYTES: u32 = 512;

/// What a byte of a path is.
#[derive(Clone, Copy, PartialEq, Eq)]
pub enum Sent {
    /// The header of a write, or of an interrupt.
    Header,
    /// The header of a read, and how many bytes follow it.
    Read(Count),
    Data,
}

/// A byte of a path that the starter sends.
#[derive(Clone, Copy)]
pub struct Step {
    pub place: Place,
    pub sent: Sent,
    /// Those of the byte, or of the address in the header.
    pub bits: Bits,
}

/// The header of a frame.
pub fn header_of(frame: u32) -> Place {
    Place { frame, byte: None }
}

/// The bits of an address that is known.
pub fn known_address(address: u8) -> Bits {
    Bits {
        open: 0,
        ones: address,
        first: 0x40,
    }
}

/// What a path has in a place.
pub fn step_at(path: &[Step], place: Place) -> Option<Step> {
    for step in path {
        if step.place == place {
            return Some(*step);
        }
    }
    None
}

/// The path of a message.
pub fn path_of(alloc: Global, message: &Frame) -> Result<Vec<Step>, AllocError> {
    let mut path = Vec::new(alloc);
    let mut next = Some(message);
    for frame in 0..BYTES {
        next = match next {
            Some(Frame::Write { address, acked, .. }) => {
                path.push(header(frame, Sent::Header, Bits::of(&address.bits())))?;
                push_data(&mut path, frame, acked)?
            }
            Some(
                Frame::Read {
                    address,
                    count,
                    after,
                    ..
                },
            ) => {
                path.push(header(frame, Sent::Read(*count), Bits::of(&address.bits())))?;
                frame_in(after)
            }
            None => None,
        };
    }
    Ok(path)
}

/// A header with this address.
pub fn header(frame: u32, sent: Sent, bits: Bits) -> Step {
    Step {
        place: header_of(frame),
        sent,
        bits,
    }
}

// Adds the data bytes of a frame. The frame after them.
fn push_data<'m>(
    path: &mut Vec<Step>,
    frame: u32,
    payload: &'m Payload,
) -> Result<Option<&'m Frame>, AllocError> {
    let mut rest = payload;
    for byte in 0..BYTES {
        match rest {
            Payload::Byte { bits, acked, .. } => {
                path.push(Step {
                    place: Place {
                        frame,
                        byte: Some(byte),
                    },
                    sent: Sent::Data,
                    bits: Bits::of(&bits.bits()),
                })?;
                rest = &**acked;
            }
            Payload::Last(tail) => return Ok(frame_in(tail)),
        }
    }
    Ok(None)
}

fn frame_in(tail: &Tail) -> Option<&Frame> {
    match tail {
        Tail::Again(frame) => Some(&**frame),
        Tail::Stop => None,
    }
}

/// The places all of whose bits stand on this wire, up to the first NACK of a target on it.
pub fn places_on(alloc: Global, wire: &[Item]) -> Result<Vec<Place>, AllocError> {
    let mut places = Vec::new(alloc);
    let mut place = header_of(0);
    let mut bits = 0u8;
    for item in wire {
        match *item {
            Item::Again => {
                place = header_of(place.frame.saturating_add(1));
                bits = 0;
            }
            Item::Heard(true) if bits == 8 => return Ok(places),
            _ if bits == 8 => {
                place.byte = Some(next_byte(place));
                bits = 0;
            }
            _ => bits = bits.saturating_add(1),
        }
        // (the bytes of a read are heard)
        if bits == 8 && matches!(*item, Item::Sent(_)) {
            places.push(place)?;
        }
    }
    Ok(places)
}

fn next_byte(place: Place) -> u32 {
    match place.byte {
        Some(byte) => byte.saturating_add(1),
        None => 0,
    }
}

/// Whether some header of a message can have this address.
#[cycle(headers)]
pub fn can_have(frame: &Frame, address: u8) -> bool {
    match frame {
        Frame::Write {
            address: own,
            acked,
            refused,
        } => fits(own, address)
            || payload_can_have(acked, address)
            || tail_can_have(refused, address),
        Frame::Read {
            address: own,
            after,
            refused,
            ..
        } => fits(own, address) || tail_can_have(after, address) || tail_can_have(refused, address),
    }
}

#[cycle(headers)]
fn payload_can_have(payload: &Payload, address: u8) -> bool {
    match payload {
        Payload::Byte { acked, refused, .. } => {
            tail_can_have(refused, address) || payload_can_have(acked, address)
        }
        Payload::Last(tail) => tail_can_have(tail, address),
    }
}

#[cycle(headers)]
fn tail_can_have(tail: &Tail, address: u8) -> bool {
    match tail {
        Tail::Again(frame) => can_have(frame, address),
        Tail::Stop => false,
    }
}

fn fits(own: &Address, address: u8) -> bool {
    own.first_split(&Address::new(0x7F, address)).is_none()
}
