// A place of a file, shown in its line.

use crate::lines::Lines;
use crate::values::DETAIL;

// How many columns the place itself has, and what follows it at least, where there is so much of them.
const PLACE: usize = 30;

const AFTER: usize = 16;

// How many columns a quoted name has.
const QUOTED: usize = 70;

/// How many bytes before and after the beginning of a place are enough to show it.
pub const MARGIN: usize = 128;

// What stands where bytes are left out.
const CUT: &str = "..";

/// Shows the bytes of one line before the place, the place, and what follows it in the line, and below it what is meant.
/// What is too long for a terminal is cut, and what does not print is written as `\x` and two digits.
pub fn push_marked(lines: &mut Lines, before: &[u8], place: &[u8], after: &[u8]) {
    let after = after.trim_ascii_end();
    // (a place without bytes is marked by one column)
    let left = DETAIL.saturating_sub(columns(place).clamp(1, PLACE));
    let room = left.saturating_sub(columns(after).min(AFTER));
    let column = push_last(lines, before, room);
    let width = push_first(lines, place, PLACE);
    let left = DETAIL.saturating_sub(column.saturating_add(width));
    push_first(lines, after, left);
    lines.end_detail();
    lines.marks(column, width.max(1));
}

/// The bytes as a part of a line, cut where they are many.
pub fn push_name(lines: &mut Lines, bytes: &[u8]) {
    push_first(lines, bytes, QUOTED);
}

/// The bytes on a line of their own, cut where they are many.
pub fn push_quoted(lines: &mut Lines, bytes: &[u8]) {
    push_name(lines, bytes);
    lines.end_detail();
}

// The last of the bytes before a place, in so many columns. How many they took.
fn push_last(lines: &mut Lines, bytes: &[u8], most: usize) -> usize {
    let mut taken = columns(bytes);
    if taken <= most {
        push_all(lines, bytes);
        return taken;
    }
    let room = most.saturating_sub(CUT.len());
    let mut from = 0usize;
    for byte in bytes {
        if taken <= room {
            break;
        }
        taken = taken.saturating_sub(width(*byte));
        from = from.saturating_add(1);
    }
    lines.part(CUT);
    push_all(lines, bytes.get(from..).unwrap_or(&[]));
    taken.saturating_add(CUT.len())
}

// The first bytes of a place, or of what follows it, in so many columns. How many they took.
fn push_first(lines: &mut Lines, bytes: &[u8], most: usize) -> usize {
    let mut taken = columns(bytes);
    if taken <= most {
        push_all(lines, bytes);
        return taken;
    }
    let room = most.saturating_sub(CUT.len());
    let mut end = bytes.len();
    for byte in bytes.iter().rev() {
        if taken <= room {
            break;
        }
        taken = taken.saturating_sub(width(*byte));
        end = end.saturating_sub(1);
    }
    push_all(lines, bytes.get(..end).unwrap_or(&[]));
    lines.part(CUT);
    taken.saturating_add(CUT.len())
}

fn push_all(lines: &mut Lines, bytes: &[u8]) {
    for byte in bytes {
        match *byte {
            b' ' => lines.word(" "),
            b'!'..=b'~' => lines.part(char::from(*byte)),
            b'\t' => lines.part("\\t"),
            _ => lines.part(format_args!("\\x{byte:02x}")),
        }
    }
}

// How many columns the bytes take.
fn columns(bytes: &[u8]) -> usize {
    let mut sum = 0usize;
    for byte in bytes {
        sum = sum.saturating_add(width(*byte));
    }
    sum
}

fn width(byte: u8) -> usize {
    match byte {
        b' '..=b'~' => 1,
        b'\t' => 2,
        _ => 4,
    }
}

/// The end of these bytes that stands on their last line.
pub fn last_line(bytes: &[u8]) -> &[u8] {
    bytes.rsplit(is_feed).next().unwrap_or(bytes)
}

/// The beginning of these bytes that stands on their first line.
pub fn first_line(bytes: &[u8]) -> &[u8] {
    bytes.split(is_feed).next().unwrap_or(bytes)
}

fn is_feed(byte: &u8) -> bool {
    *byte == b'\n'
}
