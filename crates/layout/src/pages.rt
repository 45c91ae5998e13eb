// A text that is written byte by byte.

use std::alloc::{AllocError, Global};

/// What is written of a text. From the first part on for which an allocation failed, no more is added.
#[derive(Drop)]
pub(crate) struct Page {
    bytes: Vec<u8>,
    is_whole: bool,
}

impl Page {
    /// Nothing yet.
    pub(crate) fn new(alloc: Global) -> Page {
        Page {
            bytes: Vec::new(alloc),
            is_whole: true,
        }
    }

    /// These bytes.
    pub(crate) fn put(&mut self, part: &[u8]) {
        if self.is_whole && self.bytes.extend_from_slice(part).is_err() {
            self.is_whole = false;
        }
    }

    /// So many blanks.
    pub(crate) fn blanks(&mut self, count: usize) {
        for _ in 0..count {
            self.put(b" ");
        }
    }

    /// How many bytes there are.
    pub(crate) fn len(&self) -> usize {
        self.bytes.len()
    }

    /// So many of them from this place on.
    pub(crate) fn part(&self, start: usize, count: usize) -> &[u8] {
        let end = start.saturating_add(count);
        self.bytes.as_slice().get(start..end).unwrap_or(&[])
    }

    /// All of it.
    ///
    /// # Errors
    ///
    /// Where an allocation failed for one of its parts.
    pub(crate) fn finish(self) -> Result<Vec<u8>, AllocError> {
        if self.is_whole {
            Ok(self.bytes)
        } else {
            Err(AllocError)
        }
    }
}
