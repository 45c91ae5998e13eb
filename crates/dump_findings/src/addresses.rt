// How often each address of a recorded bus was called.

use crate::selecting::Selection;
use capture_check::{Mark, Transaction, Until};
use std::alloc::{AllocError, Global};

// How many headers there are: an address of seven bits, and a direction.
const HEADERS: usize = 256;

/// How often a header was seen, and how often nobody acknowledged it.
#[derive(Clone, Copy)]
pub struct Calls {
    /// The seven bits of the address, and below them 1 for a read.
    pub header: u8,
    pub times: u64,
    pub nacks: u64,
}

/// The headers of transactions with their acknowledges, counted, and those of them that no STOP ended.
#[derive(Drop)]
pub struct Addresses {
    calls: Vec<Calls>,
    pub cut: u64,
    pub unfinished: u64,
}

impl Addresses {
    /// No transaction, where transactions are counted, and not told.
    ///
    /// # Errors
    ///
    /// Where an allocation fails.
    pub fn wanted(alloc: Global, selection: &Selection) -> Result<Option<Addresses>, AllocError> {
        if selection.is_summary() {
            Ok(Some(Addresses::new(alloc)?))
        } else {
            Ok(None)
        }
    }

    fn new(alloc: Global) -> Result<Addresses, AllocError> {
        let mut calls = Vec::with_capacity(alloc, HEADERS)?;
        for header in 0u8..=255 {
            calls.push(Calls {
                header,
                times: 0,
                nacks: 0,
            })?;
        }
        Ok(Addresses {
            calls,
            cut: 0,
            unfinished: 0,
        })
    }

    /// One more transaction.
    pub fn count(&mut self, transaction: &Transaction) {
        match transaction.until {
            Until::Stopped(_) => {}
            Until::Cut(_) => self.cut = self.cut.saturating_add(1),
            Until::Unfinished => self.unfinished = self.unfinished.saturating_add(1),
        }
        let mut header = Header::new();
        for mark in transaction.marks.iter() {
            if let Some((byte, is_nack)) = header.next(*mark) {
                self.call(byte, is_nack);
            }
        }
    }

    fn call(&mut self, header: u8, is_nack: bool) {
        if let Some(calls) = self.calls.get_mut(header as usize) {
            calls.times = calls.times.saturating_add(1);
            calls.nacks = calls.nacks.saturating_add(u64::from(is_nack));
        }
    }

    /// All headers, in the order of their addresses.
    pub fn calls(&self) -> &[Calls] {
        self.calls.as_slice()
    }
}

// The bits of the header that goes on, if one does.
#[derive(Clone, Copy)]
struct Header {
    byte: u8,
    // more than nine where it has ended
    bits: u32,
}

impl Header {
    // After a START.
    fn new() -> Header {
        Header { byte: 0, bits: 0 }
    }

    // The header that the next mark acknowledges, and whether that is a NACK.
    fn next(&mut self, mark: Mark) -> Option<(u8, bool)> {
        let Mark::Level(level) = mark else {
            *self = Header::new();
            return None;
        };
        let bits = self.bits;
        self.bits = bits.saturating_add(1);
        if bits < 8 {
            self.byte = self.byte << 1 | u8::from(level);
        }
        if bits == 8 {
            Some((self.byte, level))
        } else {
            None
        }
    }
}
