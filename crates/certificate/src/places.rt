//! Where the text of a certificate is refused, and what could stand there. None of it decides anything.

use crate::errors::{CertError, CertFault};
use crate::lines::{FIRST_PROOF, Standing};
use crate::read::front;
use crate::sources::Source;
use message_tree::Kind;
use std::alloc::{AllocError, Global};

/// The most bytes of a line that are handed out.
const LONGEST: usize = 65_536;

/// The most bytes that are handed out of the front of a text.
const FRONT: usize = 4_096;

/// What can stand at a place.
#[derive(Clone, Copy, PartialEq, Eq)]
pub enum Expected {
    /// The first line, `cert 1`.
    Version,
    /// `pairs` or `fault`
    Form,
    /// A number: decimal, without a sign or leading zeros, at most 4294967295.
    Number,
    /// A symbol of a wire: `0`, `1`, `l`, `h` or `r`.
    Symbol,
    /// The word of a kind, as `Kind::word` has it.
    Kind,
    /// A node of a proof: `P0` to `P7`, `R`, `.`, `S`, `B` or `D`.
    Node,
    /// The digit after `P`: the bit with this number, `0` to `7`.
    Bit,
    /// One space, and then this.
    Space(Next),
    /// The line feed after this.
    LineFeed(Last),
    /// The end of the text, after a fault.
    End,
}

/// What a space stands before.
#[derive(Clone, Copy, PartialEq, Eq)]
pub enum Next {
    /// The number of pairs, or of the pair that has the fault.
    Number,
    /// The wire of a fault.
    Wire,
    /// A kind of a fault.
    Kind,
    /// A proof below a node.
    Proof,
}

/// What the end of a line stands after.
#[derive(Clone, Copy, PartialEq, Eq)]
pub enum Last {
    /// `cert 1`
    Version,
    /// The number of pairs.
    Pairs,
    /// The second kind of a fault.
    Fault,
    /// A whole proof.
    Proof,
}

/// A token that was refused, a character that cannot stand in its place, or the end of a line that comes too early.
#[derive(Clone, Copy, PartialEq, Eq)]
pub struct Place {
    /// Its line, as `CertFault` has it.
    pub line: u64,
    /// How many bytes of its line stand before it, and one.
    pub column: usize,
    /// How many bytes of its line stand before it.
    pub start: usize,
    /// How many stand before what follows it: as many at the end of the line.
    pub end: usize,
    /// What could stand there. None where the path of a node has no room for it.
    pub expected: Option<Expected>,
}

/// The line that was refused, and where.
#[derive(Drop)]
pub struct Refusal {
    pub place: Place,
    /// The line without its line feed, 65,536 bytes of it at most.
    pub line: Vec<u8>,
    /// Whether these are all its bytes.
    pub is_whole: bool,
    /// Whether a line feed ends it.
    pub is_ended: bool,
    /// The first bytes of the text, 4,096 at most, where its first line is refused: they may tell what it is. Else there
    /// are none.
    pub front: Vec<u8>,
}

/// Where a text is refused for this fault. The text stands after the lines that were read before, if some were. None comes
/// for C2 and C5, which have no place.
///
/// The line is read once more, by the functions that refused it. So is what stands before it where nothing was read before.
pub fn refusal_of(
    alloc: Global,
    text: &[u8],
    before: Option<Standing>,
    fault: CertFault,
) -> Result<Option<Refusal>, AllocError> {
    let Some(line) = line_of(fault) else {
        return Ok(None);
    };
    match before {
        None => in_text(alloc, text, line),
        Some(standing) => in_proofs(alloc, text, standing.line(), line),
    }
}

fn line_of(fault: CertFault) -> Option<u64> {
    match fault {
        CertFault::Format(line) => Some(line),
        CertFault::TooDeep(line) => Some(line),
        CertFault::Count | CertFault::Pair(_) => None,
    }
}

// In a text from its beginning on.
fn in_text(alloc: Global, text: &[u8], line: u64) -> Result<Option<Refusal>, AllocError> {
    let mut source = Source::new(text);
    match front(alloc, &mut source) {
        Ok(_) => in_proofs(alloc, after_lines(text, FIRST_PROOF - 1), FIRST_PROOF, line),
        Err(error) => refused_at(alloc, text, &source, line, error),
    }
}

// In proofs, of which the first stands on this line of the text.
fn in_proofs(
    alloc: Global,
    text: &[u8],
    first: u64,
    line: u64,
) -> Result<Option<Refusal>, AllocError> {
    let text = after_lines(text, line.saturating_sub(first));
    let Some(mut source) = Source::at_line(text, line) else {
        return Ok(None);
    };
    match source.proof_line(alloc) {
        Ok(_) => Ok(None),
        Err(error) => refused_at(alloc, text, &source, line, error),
    }
}

// What stands after so many lines.
fn after_lines(text: &[u8], count: u64) -> &[u8] {
    let mut lines = 0u64;
    let mut size = 0usize;
    for byte in text {
        if lines == count {
            break;
        }
        if *byte == b'\n' {
            lines = lines.saturating_add(1);
        }
        size = size.saturating_add(1);
    }
    text.get(size..).unwrap_or(&[])
}

// Where the source of this text stopped.
fn refused_at(
    alloc: Global,
    text: &[u8],
    source: &Source<'_>,
    number: u64,
    error: CertError,
) -> Result<Option<Refusal>, AllocError> {
    let CertError::Wrong(fault) = error else {
        return Err(AllocError);
    };
    let stop = source.stop();
    let start = line_start(text, text.len().saturating_sub(stop.asked.left));
    let rest = text.get(start..).unwrap_or(&[]);
    let line = first_line(rest);
    Ok(Some(Refusal {
        place: stop.place(line, number, rest.len(), fault),
        line: first(alloc, line, LONGEST)?,
        is_whole: line.len() <= LONGEST,
        is_ended: line.len() < rest.len(),
        front: first(alloc, text, if number == 1 { FRONT } else { 0 })?,
    }))
}

// Where the line begins on which this place is.
fn line_start(text: &[u8], place: usize) -> usize {
    let mut start = place;
    for byte in text.get(..place).unwrap_or(text).iter().rev() {
        if *byte == b'\n' {
            break;
        }
        start = start.saturating_sub(1);
    }
    start
}

// The first line of a text, without its line feed.
fn first_line(text: &[u8]) -> &[u8] {
    let mut size = 0usize;
    for byte in text {
        if *byte == b'\n' {
            break;
        }
        size = size.saturating_add(1);
    }
    text.get(..size).unwrap_or(text)
}

// The first bytes of these, so many at most.
fn first(alloc: Global, bytes: &[u8], most: usize) -> Result<Vec<u8>, AllocError> {
    let mut kept = Vec::new(alloc);
    kept.extend_from_slice(bytes.get(..most).unwrap_or(bytes))?;
    Ok(kept)
}

/// What is asked for, and what follows where all of that stands there, before so many bytes of a text.
#[derive(Clone, Copy)]
pub(crate) struct Asked {
    pub(crate) expected: Expected,
    pub(crate) then: Expected,
    pub(crate) left: usize,
}

impl Asked {
    /// What a text of so many bytes is asked for first.
    pub(crate) fn first(left: usize) -> Asked {
        Asked {
            expected: Expected::Version,
            then: Expected::LineFeed(Last::Version),
            left,
        }
    }

    // What could stand in place of a byte that is refused after these, the first bytes of what is asked for. None is the end
    // of the line.
    fn expected_after(self, read: &[u8], refused: Option<u8>) -> Expected {
        match (self.expected, refused) {
            (Expected::Node, _) if !read.is_empty() => Expected::Bit,
            (expected, None | Some(b' ')) if is_complete(expected, read) => self.then,
            (expected, _) => expected,
        }
    }
}

// Whether these bytes are all of what is asked for. They are its first bytes.
fn is_complete(expected: Expected, read: &[u8]) -> bool {
    match expected {
        Expected::Version => read == b"cert 1".as_slice(),
        Expected::Form => read == b"pairs".as_slice() || read == b"fault".as_slice(),
        Expected::Number | Expected::Symbol => !read.is_empty(),
        Expected::Kind => is_kind(read),
        _ => false,
    }
}

fn is_kind(word: &[u8]) -> bool {
    const KINDS: [Kind; 5] = [
        Kind::Sent,
        Kind::Heard,
        Kind::Again,
        Kind::Stop,
        Kind::Claim,
    ];
    for kind in KINDS {
        if kind.word().as_bytes() == word {
            return true;
        }
    }
    false
}

/// Where the reading of a text stopped: what was asked for last, and how many bytes are left with the one that is refused,
/// and after all that was taken.
#[derive(Clone, Copy)]
pub(crate) struct Stop {
    pub(crate) asked: Asked,
    pub(crate) refused: usize,
    pub(crate) left: usize,
}

impl Stop {
    // The place in its line, which has this number. So many bytes are left from the beginning of the line on.
    fn place(self, line: &[u8], number: u64, left: usize, fault: CertFault) -> Place {
        let start = left.saturating_sub(self.asked.left);
        match fault {
            CertFault::TooDeep(_) => {
                place_of(number, start, left.saturating_sub(self.left), None)
            }
            _ => self.misplaced(line, number, start, left.saturating_sub(self.refused)),
        }
    }

    // The same, where what was asked for begins at `start`, and the byte that is refused stands at `refused`.
    fn misplaced(self, line: &[u8], number: u64, start: usize, refused: usize) -> Place {
        let read = line.get(start..refused).unwrap_or(&[]);
        let expected = self.asked.expected_after(read, line.get(refused).copied());
        let start = if expected == self.asked.expected && expected != Expected::Symbol {
            start
        } else {
            refused
        };
        place_of(number, start, end_of(line, start, expected), Some(expected))
    }
}

fn place_of(line: u64, start: usize, end: usize, expected: Option<Expected>) -> Place {
    Place {
        line,
        column: start.saturating_add(1),
        start,
        end,
        expected,
    }
}

// Where ends what begins here in a line, in the place of what was expected.
fn end_of(line: &[u8], start: usize, expected: Expected) -> usize {
    match expected {
        Expected::Version | Expected::End => line.len(),
        Expected::Symbol => end_of_run(line, start, false),
        _ => end_of_run(line, start, true),
    }
}

// Where a token ends, or a character, which may have several bytes that are not ASCII. It has one byte at least, except at the
// end of its line.
fn end_of_run(line: &[u8], start: usize, is_token: bool) -> usize {
    let mut end = start;
    for byte in line.get(start..).unwrap_or(&[]) {
        if *byte == b' ' || (byte.is_ascii() && !is_token) {
            break;
        }
        end = end.saturating_add(1);
    }
    end.max(start.saturating_add(1)).min(line.len())
}
