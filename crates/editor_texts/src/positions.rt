// Places of a text, as the protocol counts them: lines from 0 on, and in a line units of UTF-16, or bytes where the client counts
// these.

use diagnostics::Span;
use serde::Serialize;
use std::alloc::{AllocError, Global};

/// What the characters of a line are counted in.
#[derive(Clone, Copy, PartialEq, Eq)]
pub enum Units {
    Utf8,
    Utf16,
}

impl Units {
    // How many a character has that begins with this byte of UTF-8. A byte that begins none has none of UTF-16, and the end of a
    // line has none at all.
    fn of(self, byte: u8) -> u64 {
        match (self, byte) {
            (_, b'\n' | b'\r') | (Units::Utf16, 0x80..=0xbf) => 0,
            (Units::Utf16, 0xf0..=0xff) => 2,
            _ => 1,
        }
    }

    fn of_all(self, bytes: &[u8]) -> u64 {
        let mut units = 0u64;
        for byte in bytes {
            units = units.saturating_add(self.of(*byte));
        }
        units
    }
}

/// A place of a text.
#[derive(Clone, Copy, PartialEq, Eq, Serialize)]
pub struct Position {
    pub line: u64,
    pub character: u64,
}

/// Two places of a text: where something begins, and where it ends.
#[derive(Clone, Copy, Serialize)]
pub struct Range {
    pub start: Position,
    pub end: Position,
}

/// What is to stand in the place of a part of a document.
#[derive(Clone, Copy, Serialize)]
#[serde(rename_all = "camelCase")]
pub struct Edit<'a> {
    pub range: Range,
    pub new_text: &'a str,
}

/// A text, and where its lines begin. A line ends with a line feed, a carriage return, or both.
#[derive(Drop)]
pub struct Lines<'a> {
    text: &'a [u8],
    units: Units,
    // how many bytes stand before each line
    starts: Vec<usize>,
}

impl<'a> Lines<'a> {
    /// Those of a text.
    ///
    /// # Errors
    ///
    /// Where an allocation fails.
    pub fn of(alloc: Global, text: &'a [u8], units: Units) -> Result<Lines<'a>, AllocError> {
        let mut starts = Vec::new(alloc);
        starts.push(0usize)?;
        let mut count = 0usize;
        let mut is_return = false;
        for byte in text {
            // a line feed after a carriage return belongs to it
            if is_return && *byte != b'\n' {
                starts.push(count)?;
            }
            count = count.saturating_add(1);
            is_return = *byte == b'\r';
            if *byte == b'\n' {
                starts.push(count)?;
            }
        }
        if is_return {
            starts.push(count)?;
        }
        Ok(Lines {
            text,
            units,
            starts,
        })
    }

    /// The place after so many bytes.
    pub fn position(&self, offset: usize) -> Position {
        let begun = self.starts.partition_point(|begins| *begins <= offset);
        let line = begun.saturating_sub(1);
        let start = self.starts.get(line).copied().unwrap_or(0);
        Position {
            line: line as u64,
            character: self
                .units
                .of_all(self.text.get(start..offset).unwrap_or(&[])),
        }
    }

    /// The places after so many bytes, and after so many.
    pub fn range(&self, start: usize, end: usize) -> Range {
        Range {
            start: self.position(start),
            end: self.position(end),
        }
    }

    /// The whole text.
    pub fn whole(&self) -> Range {
        self.range(0, self.text.len())
    }

    /// A line of those that line feeds end, from 1 on, up to the end of a line of the editor.
    pub fn line(&self, number: u64) -> Range {
        let mut line = 1u64;
        let mut start = 0usize;
        let mut end = self.text.len();
        for (place, byte) in self.text.iter().enumerate() {
            if line == number && matches!(*byte, b'\n' | b'\r') {
                end = place;
                break;
            }
            if *byte == b'\n' {
                line = line.saturating_add(1);
                start = place.saturating_add(1);
            }
        }
        self.range(start, end)
    }

    /// The first line, without its end, as bytes of the text of this number.
    pub fn first_span(&self, file: u32) -> Span {
        let after = Position {
            line: 0,
            character: u64::MAX,
        };
        Span {
            file,
            start: 0,
            end: self.offset(after),
        }
    }

    /// How many bytes stand before this place. One after the end of its line is that end.
    pub fn offset(&self, position: Position) -> usize {
        let Some(start) = self.starts.get(position.line as usize) else {
            return self.text.len();
        };
        let mut offset = *start;
        let mut units = 0u64;
        for byte in self.text.get(*start..).unwrap_or(&[]) {
            let is_reached = position.character <= units && !is_inner(*byte);
            if is_reached || matches!(*byte, b'\n' | b'\r') {
                break;
            }
            units = units.saturating_add(self.units.of(*byte));
            offset = offset.saturating_add(1);
        }
        offset
    }
}

// Whether this byte of UTF-8 begins no character.
fn is_inner(byte: u8) -> bool {
    matches!(byte, 0x80..=0xbf)
}
