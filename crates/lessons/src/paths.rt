// Transactions as paths through messages.

use capture_check::Mark;
use std::alloc::{AllocError, Global};

/// What a controller sends at one place: the header of a write, the first data byte after it, which is a register, a further
/// one, or the header of a read, after which it reads so many bytes (how many, only an acknowledged one tells).
#[derive(Clone, Copy, PartialEq, Eq)]
pub(crate) enum Sent {
    Write(u8),
    Register(u8),
    Data(u8),
    Read(u8, Option<u8>),
}

/// One place of a path, and whether what was sent there was refused. Data follows directly on what was acknowledged, and a
/// header after a repeated START.
#[derive(Clone, Copy, PartialEq, Eq)]
pub(crate) struct Step {
    pub(crate) sent: Sent,
    pub(crate) refused: bool,
}

/// Why a transaction is no path of a message.
#[derive(Clone, Copy, PartialEq, Eq)]
pub(crate) enum NoPath {
    /// A START, a repeated START or a STOP comes in the midst of a byte, or two of them with no byte between.
    Broken,
    /// A read has no byte, its last byte was acknowledged, or one before that was not.
    OddRead,
    /// Something was sent after a refusal.
    OnRefused,
    /// It has more than 256 bytes as it is written.
    Long,
    /// Controllers that go on to its STOP have sent different bits.
    Collision,
    /// The messages so far leave no room.
    NoRoom,
    /// What the controllers list so far leaves no room.
    NoSending,
    /// The controllers of the brief before it leave no room.
    NoController,
    /// It was put into a message, or taken for a path, that it does not have.
    Lost,
}

// The most bytes of a message's path.
const MOST_BYTES: usize = 256;

/// The path of a transaction that a STOP ended.
pub(crate) fn path_of(
    alloc: Global,
    marks: &[Mark],
) -> Result<Result<Vec<Step>, NoPath>, AllocError> {
    let mut path = Path {
        steps: Vec::new(alloc),
        bytes: 0,
        place: Place::Begun,
        byte: 0,
        bits: 0,
    };
    for mark in marks {
        if let Err(no) = path.mark(*mark)? {
            return Ok(Err(no));
        }
    }
    if path.written() > MOST_BYTES {
        return Ok(Err(NoPath::Long));
    }
    Ok(Ok(path.steps))
}

// Where in a frame the next byte stands.
#[derive(Clone, Copy)]
enum Place {
    // after a START or repeated START
    Begun,
    // after the header of a write
    Called,
    // after a data byte of a write
    Writing,
    // in a read of so many bytes so far
    Reading(u8),
    // after a refusal, or the last byte of a read
    Over,
}

// A path so far.
#[derive(Drop)]
struct Path {
    steps: Vec<Step>,
    bytes: usize,
    place: Place,
    byte: u8,
    bits: u32,
}

impl Path {
    // How many bytes the path has as a brief writes it: a read whose header was never acknowledged has one byte there.
    fn written(&self) -> usize {
        match self.steps.last() {
            Some(
                Step {
                    sent: Sent::Read(_, None),
                    ..
                },
            ) => self.bytes.saturating_add(1),
            _ => self.bytes,
        }
    }

    fn mark(&mut self, mark: Mark) -> Result<Result<(), NoPath>, AllocError> {
        match mark {
            Mark::Level(level) => return self.level(level),
            Mark::Again | Mark::Stop => {
                if self.bits != 0 {
                    return Ok(Err(NoPath::Broken));
                }
                match self.place {
                    Place::Begun => return Ok(Err(NoPath::Broken)),
                    Place::Reading(_) => return Ok(Err(NoPath::OddRead)),
                    Place::Called | Place::Writing | Place::Over => self.place = Place::Begun,
                }
            }
        }
        Ok(Ok(()))
    }

    fn level(&mut self, level: bool) -> Result<Result<(), NoPath>, AllocError> {
        if self.bits < 8 {
            self.byte = self.byte.wrapping_shl(1) | u8::from(level);
            self.bits = self.bits.saturating_add(1);
            return Ok(Ok(()));
        }
        self.bits = 0;
        self.bytes = self.bytes.saturating_add(1);
        self.whole(level)
    }

    // A byte and its acknowledge.
    fn whole(&mut self, refused: bool) -> Result<Result<(), NoPath>, AllocError> {
        let byte = self.byte;
        match self.place {
            Place::Begun => self.header(byte, refused)?,
            Place::Called => self.step(Sent::Register(byte), refused, Place::Writing)?,
            Place::Writing => self.step(Sent::Data(byte), refused, Place::Writing)?,
            Place::Reading(count) => return Ok(self.read(count, refused)),
            Place::Over => return Ok(Err(NoPath::OnRefused)),
        }
        Ok(Ok(()))
    }

    fn header(&mut self, byte: u8, refused: bool) -> Result<(), AllocError> {
        let address = byte / 2;
        if byte % 2 == 0 {
            return self.step(Sent::Write(address), refused, Place::Called);
        }
        self.step(Sent::Read(address, None), refused, Place::Reading(0))
    }

    // What is sent, and where the next byte stands if it is acknowledged.
    fn step(&mut self, sent: Sent, refused: bool, next: Place) -> Result<(), AllocError> {
        self.place = if refused { Place::Over } else { next };
        self.steps.push(Step { sent, refused })?;
        Ok(())
    }

    // A byte that a target sent: the controller refuses the last one.
    fn read(&mut self, count: u8, refused: bool) -> Result<(), NoPath> {
        let Some(count) = count.checked_add(1) else {
            return Err(NoPath::Long);
        };
        if !refused {
            self.place = Place::Reading(count);
            return Ok(());
        }
        self.place = Place::Over;
        if let Some(last) = self.steps.last_mut() {
            if let Sent::Read(address, _) = last.sent {
                last.sent = Sent::Read(address, Some(count));
            }
        }
        Ok(())
    }
}

/// Bytes by which equal paths are found.
pub(crate) fn key_of(alloc: Global, path: &[Step]) -> Result<Vec<u8>, AllocError> {
    let mut key = Vec::new(alloc);
    for step in path {
        let (kind, byte, count) = match step.sent {
            Sent::Write(address) => (0u8, address, 0u8),
            Sent::Register(byte) | Sent::Data(byte) => (1, byte, 0),
            Sent::Read(address, count) => (2, address, count.unwrap_or(0)),
        };
        key.extend_from_slice(&[kind, byte, count, u8::from(step.refused)])?;
    }
    Ok(key)
}
