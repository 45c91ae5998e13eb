// Streams for tests, which fail where they are asked to.

ghost use Rattle.std.specs.Prelude.{◌≡◌, ◌+◌, ◌≤◌, false, [], IfOk, vec_len, vec_capacity};

use run_parts::{Input, Output};
use std::alloc::{AllocError, Global};
use std::io;
use std::io::{Error, ErrorKind};

/// A reader of some bytes, a piece in each call, that fails in one call. The call that fails reads nothing, and the next
/// one reads on.
#[derive(Drop)]
pub struct FaultyReader<'a> {
    /// The bytes that are left.
    pub rest: &'a [u8],
    /// The most bytes of one call, which gives one at least.
    pub piece: usize,
    /// Which call fails: 1 for the next one, and 0 for none.
    pub fails_in: u32,
    /// Whether the last call failed.
    pub has_failed: bool,
}

impl<'a> FaultyReader<'a> {
    /// A reader of these bytes whose call number `fails_at` fails. The first call has the number 1; 0 is none.
    pub fn new(bytes: &'a [u8], piece: usize, fails_at: u32) -> Self
        ensures rest { result.rest.now ≡ bytes.now }
        ensures piece { result.piece ≡ piece }
        ensures fails_in { result.fails_in ≡ fails_at }
        ensures sound { result.has_failed ≡ false }
    {
        FaultyReader {
            rest: bytes,
            piece,
            fails_in: fails_at,
            has_failed: false,
        }
    }
}

impl Input for FaultyReader<'_> {
    ghost use Rattle.report.specs.FaultyStreams.{faulty_reader};

    ghost reader = { faulty_reader };

    fn read(&mut self, buf: &mut [u8]) -> io::Result<usize> {
        self.has_failed = self.fails_in == 1;
        self.fails_in = self.fails_in.saturating_sub(1);
        if self.has_failed {
            return Err(Error::from(ErrorKind::Other));
        }
        let count = buf.len().min(self.piece.max(1)).min(self.rest.len());
        let (piece, rest) = self.rest.split_at(count);
        buf[..count].copy_from_slice(piece);
        self.rest = rest;
        Ok(count)
    }

    fn failed(&self) -> bool {
        self.has_failed
    }
}

/// A writer that keeps what it takes, and has room for so many bytes. Where no room is left each write fails, or takes no
/// bytes.
#[derive(Drop)]
pub struct FaultyWriter {
    /// The bytes that it has taken.
    pub taken: Vec<u8>,
    /// How many more it takes.
    pub room: usize,
    /// Whether a write fails where there is no room. Else it takes no bytes.
    pub fails: bool,
    /// Whether the last write failed.
    pub has_failed: bool,
    ghost fits: { vec_len taken + room ≤ vec_capacity taken },
}

impl FaultyWriter {
    /// A writer with room for so many bytes, which takes no memory later.
    pub fn new(alloc: Global, room: usize, fails: bool) -> Result<Self, AllocError>
        ensures taken { IfOk result (λ it. it.taken.items ≡ []) }
        ensures room { IfOk result (λ it. it.room ≡ room) }
        ensures fails { IfOk result (λ it. it.fails ≡ fails) }
        ensures sound { IfOk result (λ it. it.has_failed ≡ false) }
    {
        let taken = Vec::with_capacity(alloc, room)?;
        Ok(FaultyWriter {
            taken,
            room,
            fails,
            has_failed: false,
        })
    }
}

impl Output for FaultyWriter {
    ghost use Rattle.report.specs.FaultyStreams.{faulty_writer};

    ghost writer = { faulty_writer };

    fn write(&mut self, buf: &[u8]) -> io::Result<usize> {
        self.has_failed = self.fails && self.room == 0;
        if self.has_failed {
            return Err(Error::from(ErrorKind::Other));
        }
        let count = buf.len().min(self.room);
        self.room -= count;
        let _ = self.taken.extend_from_slice(&buf[..count]);
        Ok(count)
    }

    fn failed(&self) -> bool {
        self.has_failed
    }
}
