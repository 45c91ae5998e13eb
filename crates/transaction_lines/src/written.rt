// A text that is written as it grows.

use growing_text::Text;
use run_parts::{Output, RunError, write_report};
use std::alloc::Global;
use std::mem;

// How many bytes are gathered before they are written.
const BLOCK: usize = 65_536;

/// A text that is written block by block.
#[derive(Drop)]
pub(crate) struct Written<'a, O> {
    pub(crate) alloc: Global,
    /// What has not been written.
    pub(crate) text: Text,
    out: &'a mut O,
    // whether all that is there is written at each pause
    live: bool,
}

impl<'a, O: Output> Written<'a, O> {
    /// Nothing yet.
    pub(crate) fn new(alloc: Global, live: bool, out: &'a mut O) -> Written<'a, O> {
        Written {
            alloc,
            text: Text::new(alloc),
            out,
            live,
        }
    }

    /// Writes what was gathered, where that is much, or is to be seen at once.
    ///
    /// # Errors
    ///
    /// Those of `write`.
    pub(crate) fn pause(&mut self) -> Result<(), RunError> {
        if BLOCK <= self.text.len() || !self.text.is_whole() || self.live {
            self.write()
        } else {
            Ok(())
        }
    }

    /// Writes what was gathered.
    ///
    /// # Errors
    ///
    /// `Write` where the writer failed or took no bytes, and `NoMemory` where an allocation failed for the text.
    pub(crate) fn write(&mut self) -> Result<(), RunError> {
        let text = mem::replace(&mut self.text, Text::new(self.alloc)).finish()?;
        write_report(&mut *self.out, text.as_bytes())
    }
}
