// Where a dump was refused, and what could have stood there. None of it decides anything.

use crate::dumps::{Context, Dump};
use std::alloc::{AllocError, Global};

/// How many bytes of a line, or of a token, are kept.
const KEPT: usize = 65_536;

/// What can stand in the place of a token that was refused.
#[derive(Clone, Copy, PartialEq, Eq)]
pub enum Expected {
    /// Among the definitions: a command that declares something, or `$enddefinitions`.
    Command,
    /// In a `$var`: the type, size, code or name that it lacks.
    VarToken,
    /// The identifier code of a vector, real or string change.
    Code,
    /// A time that is not below this one, a value change, or a command. In a block of value changes that is also its
    /// `$end`, and out of one also another block.
    Change { time: u64, in_block: bool },
}

/// What a dump can end inside of.
#[derive(Clone, Copy, PartialEq, Eq)]
pub enum Opened {
    /// A command that is skipped, as a comment.
    Command,
    Var,
    EndDefinitions,
    /// A block of value changes, as `$dumpvars`.
    Block,
    /// A vector, real or string change whose code has not come.
    Change,
}

/// A token that was refused, in its line. Of a line or token of more than 65,536 bytes a part is kept.
#[derive(Drop)]
pub struct Place {
    /// How many bytes of the dump stand before the token.
    pub offset: u64,
    /// How many bytes of its line stand before it, and one.
    pub column: u64,
    pub expected: Expected,
    // the line, as far as it was read, and where in it the token begins and ends
    line: Vec<u8>,
    start: usize,
    end: usize,
}

impl Place {
    /// What stands before the token in its line.
    pub fn before(&self) -> &[u8] {
        self.line.as_slice().get(..self.start).unwrap_or(&[])
    }

    /// The token.
    pub fn token(&self) -> &[u8] {
        let line = self.line.as_slice();
        line.get(self.start..self.end).unwrap_or(&[])
    }

    /// What follows it in its line, as far as that was read.
    pub fn after(&self) -> &[u8] {
        self.line.as_slice().get(self.end..).unwrap_or(&[])
    }
}

/// What is wrong with a dump that is refused, beside the refusal. Of V1 there is nothing more to say.
#[derive(Drop)]
pub enum Wrong {
    /// V2 and V3: this token.
    Token(Place),
    /// V4: the dump ends inside this.
    Unended(Opened),
}

/// The line of a dump that has not ended.
#[derive(Drop)]
pub(crate) struct OpenLine {
    // what was fed of it, or its last part
    text: Vec<u8>,
    // how many bytes of it stand before that part
    left_out: u64,
    // how many bytes of the dump were fed
    fed: u64,
}

impl OpenLine {
    /// The first line, before the first byte.
    pub(crate) fn new(alloc: Global) -> OpenLine {
        OpenLine {
            text: Vec::new(alloc),
            left_out: 0,
            fed: 0,
        }
    }

    /// The dump goes on with this piece. Where memory is refused, less of the line is kept.
    pub(crate) fn go_on(&mut self, piece: &[u8]) {
        self.fed = self.fed.saturating_add(piece.len() as u64);
        let last = last_line(piece);
        if last.len() < piece.len() {
            self.text.clear();
            self.left_out = 0;
        }
        let len = self.text.len().saturating_add(last.len());
        if len > KEPT {
            let held = self.text.len();
            self.leave_out(held);
            self.text.clear();
        }
        let from = last.len().saturating_sub(KEPT);
        self.leave_out(from);
        let kept = last.get(from..).unwrap_or(&[]);
        if self.text.extend_from_slice(kept).is_err() {
            self.leave_out(len);
            self.text.clear();
        }
    }

    fn leave_out(&mut self, bytes: usize) {
        self.left_out = self.left_out.saturating_add(bytes as u64);
    }

    /// The place of a token, of which so many bytes of this piece are read at its end.
    pub(crate) fn place(
        &self,
        token: &[u8],
        piece: &[u8],
        read: usize,
        expected: Expected,
    ) -> Result<Place, AllocError> {
        let (read, rest) = piece.split_at_checked(read).unwrap_or((piece, &[]));
        let mut line = self.text.clone()?;
        let mut left_out = self.left_out;
        let last = last_line(read);
        if last.len() < read.len() {
            line.clear();
            left_out = 0;
        }
        line.extend_from_slice(last)?;
        let end = line.len();
        let start = end.saturating_sub(token.len());
        let rest = first_line(rest);
        line.extend_from_slice(rest.get(..KEPT).unwrap_or(rest))?;
        Ok(Place {
            offset: before(self.fed.saturating_add(read.len() as u64), token),
            column: before(left_out.saturating_add(end as u64), token).saturating_add(1),
            expected,
            line,
            start,
            end,
        })
    }
}

// How many of so many bytes stand before the token at their end.
fn before(bytes: u64, token: &[u8]) -> u64 {
    bytes.saturating_sub(token.len() as u64)
}

// The end of these bytes that stands on their last line.
fn last_line(bytes: &[u8]) -> &[u8] {
    let mut from = bytes.len();
    for byte in bytes.iter().rev() {
        if *byte == b'\n' {
            break;
        }
        from = from.saturating_sub(1);
    }
    bytes.get(from..).unwrap_or(bytes)
}

// The beginning of these bytes that stands on their first line.
fn first_line(bytes: &[u8]) -> &[u8] {
    let mut end = 0usize;
    for byte in bytes {
        if *byte == b'\n' {
            break;
        }
        end = end.saturating_add(1);
    }
    bytes.get(..end).unwrap_or(bytes)
}

impl Dump {
    /// What could stand in the place of a token that was refused.
    pub(crate) fn expected(&self) -> Expected {
        match self.context {
            Context::Var(_, _) => Expected::VarToken,
            Context::Change(_, _) => Expected::Code,
            _ if self.defined => Expected::Change {
                time: self.time,
                in_block: self.block.is_some(),
            },
            _ => Expected::Command,
        }
    }

    /// What is open, where something is: of two the first that began.
    pub(crate) fn opened(&self) -> Option<Opened> {
        if self.block.is_some() {
            return Some(Opened::Block);
        }
        Some(match self.context {
            Context::Nothing => return None,
            Context::Skipped(_) => Opened::Command,
            Context::Var(_, _) => Opened::Var,
            Context::EndDefinitions(_) => Opened::EndDefinitions,
            Context::Change(_, _) => Opened::Change,
        })
    }
}
