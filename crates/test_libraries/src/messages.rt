// Messages of any depth, by a table of shapes.

use message_tree::{Address, Count, Frame, Pattern, Payload, Tail};
use plan_core::{BuildError, Builder, Name};
use std::alloc::{AllocError, Global};

// The messages below are for 1001000, the address of a usual temperature sensor.
fn sensor() -> Address {
    Address::new(0x7f, 0b100_1000)
}

// A write with this after its header.
fn write(alloc: Global, acked: Payload, refused: Tail) -> Result<Frame, AllocError> {
    Ok(Frame::Write {
        address: sensor(),
        acked: Box::new(alloc, acked)?,
        refused,
    })
}

// A data byte with this after it.
fn byte(alloc: Global, acked: Payload, refused: Tail) -> Result<Payload, AllocError> {
    Ok(Payload::Byte {
        bits: Pattern::new(0xff, 1),
        acked: Box::new(alloc, acked)?,
        refused,
    })
}

#[derive(Clone, Copy)]
enum Shape {
    /// Repeated STARTs, each after the refusal of the header before it.
    BehindRefusals,
    /// The same, each after the acknowledge of the header before it.
    BehindAcknowledges,
    /// The same, each after the refusal of a data byte.
    BehindBytes,
    /// Data bytes, each after the acknowledge of the one before it.
    InBytes,
    /// Repeated STARTs, each after the last byte of the read before it.
    BehindReads,
}

// A message of this shape with so many levels below its first frame.
fn deep(alloc: Global, shape: Shape, n: u32) -> Result<Frame, AllocError> {
    match shape {
        Shape::InBytes => in_bytes(alloc, n),
        _ => linked(alloc, shape, chained(alloc, shape, n)?),
    }
}

fn in_bytes(alloc: Global, n: u32) -> Result<Frame, AllocError> {
    let mut payload = Payload::Last(Tail::Stop);
    for _ in 0..n {
        payload = byte(alloc, payload, Tail::Stop)?;
    }
    write(alloc, payload, Tail::Stop)
}

// So many repeated STARTs.
fn chained(alloc: Global, shape: Shape, n: u32) -> Result<Tail, AllocError> {
    let mut tail = Tail::Stop;
    for _ in 0..n {
        tail = again_linked(alloc, shape, tail)?;
    }
    Ok(tail)
}

fn again_linked(alloc: Global, shape: Shape, tail: Tail) -> Result<Tail, AllocError> {
    let frame = linked(alloc, shape, tail)?;
    Ok(Tail::Again(Box::new(alloc, frame)?))
}

// A frame of a chain, with this in the place where the chain goes on.
fn linked(alloc: Global, shape: Shape, tail: Tail) -> Result<Frame, AllocError> {
    match shape {
        Shape::BehindRefusals => write(alloc, Payload::Last(Tail::Stop), tail),
        Shape::BehindReads => Ok(Frame::Read {
            address: sensor(),
            count: Count::new(1).unwrap(),
            after: tail,
            refused: Tail::Stop,
        }),
        Shape::BehindBytes => {
            let payload = byte(alloc, Payload::Last(Tail::Stop), tail)?;
            write(alloc, payload, Tail::Stop)
        }
        _ => write(alloc, Payload::Last(tail), Tail::Stop),
    }
}

// ---- messages with a copy

// A copy and the sizes go down level by level: a caller's message may have 4,096 levels there. The numbers are those of
// levels below the first frame, of nodes, of bytes on the longest path, and of slots.
const SIZES: [(Shape, u32, [u32; 3]); 5] = [
    // 4,096 headers, with as many slots as 4,096 * 9 + 4,095 + 1
    (Shape::BehindRefusals, 4095, [4096, 4096, 40_960]),
    (Shape::BehindAcknowledges, 4095, [4096, 4096, 40_960]),
    // 2,048 headers and as many bytes: 4,096 * 9 + 2,047 + 1
    (Shape::BehindBytes, 2047, [4096, 4096, 38_912]),
    // a header and 4,095 bytes: 4,096 * 9 + 1
    (Shape::InBytes, 4095, [4096, 4096, 36_865]),
    // 4,096 headers, and a byte read after each: 8,192 * 9 + 4,095 + 1
    (Shape::BehindReads, 4095, [4096, 8192, 77_824]),
];

fn sizes(frame: &Frame) -> [u32; 3] {
    [frame.nodes(), frame.longest(), frame.slots()]
}

// Whether the message and a copy of it have these sizes.
fn have_sizes(alloc: Global, shape: Shape, n: u32, wanted: [u32; 3]) -> Result<bool, AllocError> {
    let frame = deep(alloc, shape, n)?;
    let copy = frame.copy(alloc)?;
    Ok(sizes(&frame) == wanted && sizes(&copy) == wanted)
}

#[test]
fn messages_of_4096_levels_have_sizes_and_copies(rt: HostRuntime) {
    for (shape, n, wanted) in &SIZES {
        assert!(rt; have_sizes(rt.alloc(), *shape, *n, *wanted) == Ok(true));
    }
}

// ---- messages of any depth

/// Far more levels than a thread has stack for, at one call a level.
const LEVELS: u32 = 3_000_000;

// Such a message has no room, and a builder refuses it, and then has none.
fn is_too_long(alloc: Global, shape: Shape) -> Result<bool, AllocError> {
    let message = deep(alloc, shape, LEVELS)?;
    if message.room_left(4096).is_some() {
        return Ok(false);
    }
    Ok(match Name::new(alloc, "m") {
        Ok(name) => is_refused(alloc, name, message),
        Err(_) => false,
    })
}

fn is_refused(alloc: Global, name: Name, message: Frame) -> bool {
    let mut builder = Builder::new(alloc);
    let refusal = builder.message(name, message);
    builder.finish().messages() == 0 && refusal == Err(BuildError::TooLong)
}

#[test]
fn messages_of_3_000_000_levels_are_measured_refused_and_dropped(rt: HostRuntime) {
    for (shape, _, _) in &SIZES {
        assert!(rt; is_too_long(rt.alloc(), *shape) == Ok(true));
    }
}
