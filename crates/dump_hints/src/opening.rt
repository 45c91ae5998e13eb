// The token that opened what the end of a dump leaves open, in a file that is read once more.

use dump_tokens::reading::{BLOCK, Reading, read_again};
use std::alloc::Global;
use std::io::{self, Read, Seek};
use vcd_read::Opened;

/// A token in its line.
#[derive(Drop)]
pub(crate) struct Opening {
    line: Vec<u8>,
    token: Span,
}

// Where a token begins and ends.
#[derive(Clone, Copy)]
struct Span {
    from: usize,
    to: usize,
}

impl Opening {
    /// What stands before it, the token, and what follows.
    pub(crate) fn parts(&self) -> (&[u8], &[u8], &[u8]) {
        let line = self.line.as_slice();
        let Span { from, to } = self.token;
        (
            line.get(..from).unwrap_or(&[]),
            line.get(from..to).unwrap_or(&[]),
            line.get(to..).unwrap_or(&[]),
        )
    }
}

/// The token that opened this on this line, where the file can be read once more.
pub(crate) fn find_opened<F: Read + Seek + Drop>(
    alloc: Global,
    file: Option<F>,
    line: u64,
    opened: Opened,
) -> Option<Opening> {
    let mut file = file?;
    let mut wanted = Line {
        left: line.saturating_sub(1),
        text: Vec::new(alloc),
    };
    read_again(alloc, &mut file, &mut wanted).ok()?;
    let Line { text: line, .. } = wanted;
    let token = last_opened(line.as_slice(), opened)?;
    Some(Opening { line, token })
}

// A line of a file, up to 64 KiB of it, before which there are so many.
#[derive(Drop)]
struct Line {
    left: u64,
    text: Vec<u8>,
}

impl Reading for Line {
    fn block(&mut self, block: &[u8]) -> io::Result<bool> {
        for byte in block {
            if *byte == b'\n' {
                if self.left == 0 {
                    return Ok(false);
                }
                self.left = self.left.saturating_sub(1);
            } else if self.left == 0 {
                if self.text.len() >= BLOCK {
                    return Ok(false);
                }
                self.text.push(*byte)?;
            }
        }
        Ok(true)
    }
}

// What the tokens of a line leave open: a command, a block of value changes, and a change, which is the last token.
#[derive(Clone, Copy)]
struct Open {
    command: Option<Span>,
    block: Option<Span>,
    last: Option<Span>,
}

fn last_opened(line: &[u8], opened: Opened) -> Option<Span> {
    let mut open = Open {
        command: None,
        block: None,
        last: None,
    };
    let mut from = 0usize;
    for to in 0..line.len().saturating_add(1) {
        let is_within = match line.get(to) {
            Some(byte) => !is_white(*byte),
            None => false,
        };
        if !is_within {
            open.go_on(line.get(from..to).unwrap_or(&[]), Span { from, to });
            from = to.saturating_add(1);
        }
    }
    match opened {
        Opened::Block => open.block,
        Opened::Change => open.last,
        Opened::Command | Opened::Var | Opened::EndDefinitions => open.command,
    }
}

fn is_white(byte: u8) -> bool {
    matches!(byte, b'\t'..=b'\r' | b' ')
}

impl Open {
    fn go_on(&mut self, token: &[u8], span: Span) {
        const BLOCKS: [&[u8]; 4] = [b"$dumpvars", b"$dumpall", b"$dumpoff", b"$dumpon"];
        if token.is_empty() {
            return;
        }
        self.last = Some(span);
        if token == b"$end".as_slice() {
            if self.command.is_none() {
                self.block = None;
            }
            self.command = None;
        } else if self.command.is_none() && BLOCKS.contains(&token) {
            self.block = Some(span);
        } else if self.command.is_none() && token.starts_with(b"$") {
            self.command = Some(span);
        }
    }
}
