// Frames of the protocol, from bytes that come in pieces.

use std::alloc::{AllocError, Global};

/// How many bytes the head of a frame has at most.
const MOST_HEAD: usize = 4_096;

/// How many bytes the body of a frame has at most: 16 MiB.
const MOST_BODY: u64 = 16_777_216;

/// The field of a head that every frame has.
const LENGTH: &[u8] = b"content-length";

/// The same with its colon, by which a next frame is found.
const MARK: &[u8] = b"content-length:";

/// What was read up to here.
#[derive(Clone, Copy, PartialEq, Eq)]
pub(crate) enum Ready {
    /// A whole frame, whose body is kept.
    Body,
    /// The head of a frame whose body is too long. It is passed over.
    TooLong,
    /// A head without a length. What follows is passed over, up to the next one that has the field.
    NoLength,
}

/// How many bytes were taken, and what was read with them.
#[derive(Clone, Copy)]
pub(crate) struct Taken {
    pub(crate) count: usize,
    pub(crate) ready: Option<Ready>,
}

// What is read now.
#[derive(Clone, Copy)]
enum Stage {
    Head,
    // so many bytes of the body are missing
    Body(u64),
    // so many bytes are passed over
    Passing(u64),
    // so many bytes of the field were read that begins the next head
    Lost(usize),
}

/// Frames, as they come.
#[derive(Drop)]
pub(crate) struct Frames {
    head: Vec<u8>,
    body: Vec<u8>,
    stage: Stage,
}

impl Frames {
    /// Before the first frame.
    pub(crate) fn new(alloc: Global) -> Frames {
        Frames {
            head: Vec::new(alloc),
            body: Vec::new(alloc),
            stage: Stage::Head,
        }
    }

    /// The body of the frame that was read last.
    pub(crate) fn body(&self) -> &[u8] {
        self.body.as_slice()
    }

    /// Whether all frames that were begun have ended.
    pub(crate) fn is_between(&self) -> bool {
        matches!(self.stage, Stage::Head) && self.head.is_empty()
    }

    /// Takes bytes from the front, up to the next thing that is ready.
    ///
    /// # Errors
    ///
    /// Where an allocation fails.
    pub(crate) fn take(&mut self, bytes: &[u8]) -> Result<Taken, AllocError> {
        match self.stage {
            Stage::Head => self.take_head(bytes),
            Stage::Body(left) => self.take_body(bytes, left),
            Stage::Passing(left) => Ok(self.pass(bytes, left)),
            Stage::Lost(matched) => self.search(bytes, matched),
        }
    }

    fn take_head(&mut self, bytes: &[u8]) -> Result<Taken, AllocError> {
        let mut count = 0usize;
        for byte in bytes {
            count = count.saturating_add(1);
            self.head.push(*byte)?;
            if ends_head(self.head.as_slice()) {
                let ready = self.end_head();
                return Ok(Taken { count, ready });
            }
            if MOST_HEAD <= self.head.len() {
                return Ok(Taken {
                    count,
                    ready: Some(self.lose()),
                });
            }
        }
        Ok(Taken { count, ready: None })
    }

    // A whole head was read. What is ready with it, if anything is.
    fn end_head(&mut self) -> Option<Ready> {
        let length = length_in(self.head.as_slice());
        self.head.clear();
        self.body.clear();
        match length {
            None => Some(self.lose()),
            Some(0) => Some(Ready::Body),
            Some(length) if length <= MOST_BODY => {
                self.stage = Stage::Body(length);
                None
            }
            Some(length) => {
                self.stage = Stage::Passing(length);
                Some(Ready::TooLong)
            }
        }
    }

    fn lose(&mut self) -> Ready {
        self.head.clear();
        self.stage = Stage::Lost(0);
        Ready::NoLength
    }

    fn take_body(&mut self, bytes: &[u8], left: u64) -> Result<Taken, AllocError> {
        let part = first_of(bytes, left);
        self.body.extend_from_slice(part)?;
        let count = part.len();
        let left = left.saturating_sub(count as u64);
        if left != 0 {
            self.stage = Stage::Body(left);
            return Ok(Taken { count, ready: None });
        }
        self.stage = Stage::Head;
        Ok(Taken {
            count,
            ready: Some(Ready::Body),
        })
    }

    fn pass(&mut self, bytes: &[u8], left: u64) -> Taken {
        let count = first_of(bytes, left).len();
        let left = left.saturating_sub(count as u64);
        self.stage = if left == 0 {
            Stage::Head
        } else {
            Stage::Passing(left)
        };
        Taken { count, ready: None }
    }

    // Passes over bytes up to the field of the next head.
    fn search(&mut self, bytes: &[u8], matched: usize) -> Result<Taken, AllocError> {
        let mut matched = matched;
        let mut count = 0usize;
        for byte in bytes {
            count = count.saturating_add(1);
            matched = after_byte(matched, *byte);
            if matched == MARK.len() {
                self.head.extend_from_slice(MARK)?;
                self.stage = Stage::Head;
                return Ok(Taken { count, ready: None });
            }
        }
        self.stage = Stage::Lost(matched);
        Ok(Taken { count, ready: None })
    }
}

// How many bytes of the mark have been read after this one, where so many were before it. Its first letter stands in it once.
fn after_byte(matched: usize, byte: u8) -> usize {
    let byte = byte.to_ascii_lowercase();
    if MARK.get(matched).copied() == Some(byte) {
        matched.saturating_add(1)
    } else if byte == b'c' {
        1
    } else {
        0
    }
}

// So many of these bytes, or all of them where they are fewer.
fn first_of(bytes: &[u8], most: u64) -> &[u8] {
    if most < bytes.len() as u64 {
        bytes.get(..most as usize).unwrap_or(bytes)
    } else {
        bytes
    }
}

// Whether these bytes end with an empty line.
fn ends_head(bytes: &[u8]) -> bool {
    match bytes {
        b"\n" | b"\r\n" => true,
        [.., b'\n', b'\n'] | [.., b'\n', b'\r', b'\n'] => true,
        _ => false,
    }
}

// The length that the head gives, where it gives one.
fn length_in(head: &[u8]) -> Option<u64> {
    let mut found = None;
    for line in head.split(is_line_feed) {
        if let Some(value) = value_in(line) {
            if found.is_some() {
                return None;
            }
            found = Some(number_of(value)?);
        }
    }
    found
}

fn is_line_feed(byte: &u8) -> bool {
    *byte == b'\n'
}

// What stands after the name of the field, where this line has it.
fn value_in(line: &[u8]) -> Option<&[u8]> {
    let colon = line.iter().position(is_colon)?;
    let name = line.get(..colon)?;
    if !name.trim_ascii().eq_ignore_ascii_case(LENGTH) {
        return None;
    }
    let value = line.get(colon.saturating_add(1)..)?;
    Some(value.trim_ascii())
}

fn is_colon(byte: &u8) -> bool {
    *byte == b':'
}

// A number of digits alone.
fn number_of(digits: &[u8]) -> Option<u64> {
    if digits.is_empty() {
        return None;
    }
    let mut number = 0u64;
    for digit in digits {
        if !digit.is_ascii_digit() {
            return None;
        }
        let value = u64::from(digit.saturating_sub(b'0'));
        number = number.checked_mul(10)?.checked_add(value)?;
    }
    Some(number)
}
