// After the refusal of a dump.

use crate::converting::{format_of, push_format};
use crate::naming::{Names, push_names};
use crate::opening::find_opened;
use crate::wording::{push_broken_time, push_dump, push_token, push_unended};
use dump_tokens::reading::part;
use hints::{Hints, Kind, LOOKED_AT, Lines, is_binary, kind_of, push_kind, push_marked};
use std::alloc::{AllocError, Global};
use std::io::{Read, Seek};
use vcd_read::{Opened, Place, VcdError, Wrong};

/// What to say after the refusal of a dump, and of what is wrong with it, where that is known. The file is the one that was
/// refused, where it can be read once more.
pub fn on_dump<F: Read + Seek + Drop>(
    alloc: Global,
    mut file: Option<F>,
    names: Names<'_>,
    refusal: VcdError,
    wrong: Option<&Wrong>,
) -> Result<Hints, AllocError> {
    let mut lines = Lines::new(alloc);
    let front = front_of(alloc, &mut file, refusal, wrong)?;
    let head = front.bytes.as_slice();
    let kind = kind_of(head);
    if let Some(format) = format_of(kind, head) {
        push_format(&mut lines, format, front.file(names));
        return lines.finish();
    }
    if is_binary(kind) {
        // no line of it says more
    } else if let VcdError::NoSignal(signal) = refusal {
        push_names(alloc, &mut lines, file, names, signal);
    } else {
        match wrong {
            Some(Wrong::Token(place)) if breaks_off_in(alloc, &mut file, refusal, place) => {
                push_marked_place(&mut lines, refusal, place);
                push_broken_time(&mut lines, place);
            }
            Some(Wrong::Token(place)) => {
                push_marked_place(&mut lines, refusal, place);
                push_token(&mut lines, refusal, place);
            }
            Some(Wrong::Unended(opened)) => push_opened(alloc, &mut lines, file, refusal, *opened),
            None => push_dump(&mut lines, refusal),
        }
    }
    push_kind(&mut lines, kind, Kind::Dump);
    lines.finish()
}

// The first bytes of what was refused.
#[derive(Drop)]
struct Front {
    bytes: Vec<u8>,
    // whether they are those of a file that can be read once more
    is_of_file: bool,
}

impl Front {
    // The file, where a command can be given it.
    fn file<'a>(&self, names: Names<'a>) -> Option<&'a str> {
        self.is_of_file.then_some(names.vcd)
    }
}

// Where a file cannot be read once more its first line is known if that is refused.
fn front_of<F: Read + Seek>(
    alloc: Global,
    file: &mut Option<F>,
    refusal: VcdError,
    wrong: Option<&Wrong>,
) -> Result<Front, AllocError> {
    if let Some(bytes) = head_of_file(alloc, file) {
        return Ok(Front {
            bytes,
            is_of_file: true,
        });
    }
    let mut bytes = Vec::new(alloc);
    if let (VcdError::BadToken(1), Some(Wrong::Token(place))) = (refusal, wrong) {
        bytes.extend_from_slice(place.before())?;
        bytes.extend_from_slice(place.token())?;
        bytes.extend_from_slice(place.after())?;
    }
    Ok(Front {
        bytes,
        is_of_file: false,
    })
}

// The first bytes of a file, where it can be read once more.
fn head_of_file<F: Read + Seek>(alloc: Global, file: &mut Option<F>) -> Option<Vec<u8>> {
    let file = file.as_mut()?;
    part(alloc, file, 0, LOOKED_AT).ok()
}

// The token, marked in its line.
fn push_marked_place(lines: &mut Lines, refusal: VcdError, place: &Place) {
    push_line(lines, refusal);
    push_marked(lines, place.before(), place.token(), place.after());
}

// Whether the dump ends with a time that is too low, not even a blank after it, so that digits of it may be missing.
fn breaks_off_in<F: Read + Seek>(
    alloc: Global,
    file: &mut Option<F>,
    refusal: VcdError,
    place: &Place,
) -> bool {
    let VcdError::TimeBack(_) = refusal else {
        return false;
    };
    let Some(file) = file else {
        return false;
    };
    let end = place.offset.saturating_add(place.token().len() as u64);
    match part(alloc, file, end, 1) {
        Ok(rest) => rest.is_empty(),
        Err(_) => false,
    }
}

fn push_line(lines: &mut Lines, refusal: VcdError) {
    if let VcdError::BadToken(line) | VcdError::TimeBack(line) | VcdError::Unended(line) = refusal {
        lines.say(format_args!("line {line} of the capture:"));
    }
}

// The token that opened what has no end, marked in its line where the file can be read once more.
fn push_opened<F: Read + Seek + Drop>(
    alloc: Global,
    lines: &mut Lines,
    file: Option<F>,
    refusal: VcdError,
    opened: Opened,
) {
    let found = match refusal {
        VcdError::Unended(line) => find_opened(alloc, file, line, opened),
        _ => None,
    };
    let Some(found) = found else {
        return push_dump(lines, refusal);
    };
    push_line(lines, refusal);
    let (before, token, after) = found.parts();
    push_marked(lines, before, token, after);
    push_unended(lines, opened);
}
