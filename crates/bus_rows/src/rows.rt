// Rows that stand one below the other: the bytes on the bus, and those of participants.

use crate::below::{begin_titled, room_after};
use crate::sending::deed;
use crate::words::{Bytes, Extent};
use growing_text::{Lines, Part};
use places::Offered;

// How many columns titles have at most that stand beside the words of rows.
const BESIDE: usize = 24;

// How many they have where each longer one has a line of its own.
const ABOVE: usize = 5;

// How many words at the beginning of a row are never left out: START, address, direction and acknowledge.
const KEPT: usize = 4;

/// What is said of bytes that are left out, after how many they are, where all rows have them.
pub const ALIKE: &str = "bytes alike ..";

/// The same of other bytes.
pub const BYTES: &str = "bytes ..";

// What stands before what comes next.
const NEXT: &str = "next:";

/// A row: its title, its words, and what a participant does next.
#[derive(Clone, Copy)]
pub struct Row<'a> {
    pub title: &'a str,
    pub words: &'a Bytes,
    pub next: Option<&'static str>,
}

/// The row of the bytes on the bus.
pub fn bus_row(words: &Bytes) -> Row<'_> {
    Row {
        title: "bus",
        words,
        next: None,
    }
}

/// The row of a participant: what it sends, and what it offers next.
pub fn row_of<'a>(title: &'a str, words: &'a Bytes, next: Offered) -> Row<'a> {
    Row {
        title,
        words,
        next: Some(deed(next)),
    }
}

// How rows are written: in how many columns their titles stand, and which word is the first one after those that are left out,
// KEPT where none is.
#[derive(Clone, Copy)]
struct Shape {
    columns: usize,
    shown: usize,
}

// How many columns fewer a row has without these words, where a line says how many bytes they are.
fn gain(left: Extent) -> usize {
    let digits = left.bytes.checked_ilog10().unwrap_or(0) as usize;
    left.columns
        .saturating_sub(digits)
        .saturating_sub(".. 1 bytes alike .. ".len())
}

impl Row<'_> {
    // How many columns stand after its words.
    fn after(&self) -> usize {
        match self.next {
            Some(next) => next.len().saturating_add(NEXT.len()).saturating_add(3),
            None => 0,
        }
    }

    // The first word that is shown after those that are left out: that of all rows, and its own one where it ends before that.
    fn shown_in(&self, shape: Shape) -> usize {
        if self.words.count() < shape.shown {
            self.first_shown(room_after(shape.columns)).unwrap_or(KEPT)
        } else {
            shape.shown
        }
    }

    // How many columns its words have where some are left out up to this one.
    fn width(&self, shown: usize) -> usize {
        self.columns().saturating_sub(gain(self.left_out(shown)))
    }

    fn columns(&self) -> usize {
        self.words.as_str().len()
    }

    // What is left out of it up to this word.
    fn left_out(&self, shown: usize) -> Extent {
        let kept = self.words.first(KEPT);
        let end = self.words.first(shown);
        Extent {
            columns: end.columns.saturating_sub(kept.columns),
            bytes: end.bytes.saturating_sub(kept.bytes),
        }
    }

    // The first word after those that are left out, so that the row has room: KEPT where none is, and nothing where it never
    // has. Whole bytes are left out.
    fn first_shown(&self, room: usize) -> Option<usize> {
        let columns = self.columns().saturating_add(self.after());
        if columns <= room {
            return Some(KEPT);
        }
        let mut bytes = 0usize;
        for k in KEPT..self.words.count() {
            let left = self.left_out(k);
            if bytes < left.bytes && columns.saturating_sub(gain(left)) <= room {
                return Some(k);
            }
            bytes = left.bytes;
        }
        None
    }
}

/// The rows, each on one line, with their words beside the titles. Where one of them has no room, a count with this stands for
/// bytes after its first one, for the same ones in each row: what all send alike stays one below the other. Long titles have
/// lines of their own, and so have shorter ones where the rows have no room beside them.
pub fn tell_rows(lines: &mut Lines, rows: &[Row<'_>], said: &'static str) {
    let shape = shape_of(rows);
    let width = aligned(rows, shape);
    for row in rows {
        begin_titled(lines, row.title, shape.columns);
        tell_row(lines, *row, row.shown_in(shape), width, said);
    }
}

// After how many columns of words that stands which comes next: after the longest words, and right after its own ones in each
// row where there is no room for that.
fn aligned(rows: &[Row<'_>], shape: Shape) -> usize {
    let (mut width, mut after) = (0usize, 0usize);
    for row in rows {
        if row.next.is_some() {
            width = width.max(row.width(row.shown_in(shape)));
            after = after.max(row.after());
        }
    }
    if width.saturating_add(after) <= room_after(shape.columns) {
        width
    } else {
        0
    }
}

fn shape_of(rows: &[Row<'_>]) -> Shape {
    let columns = columns_for(rows);
    match shown_in(rows, room_after(columns)) {
        Some(shown) => Shape { columns, shown },
        None => Shape {
            columns: ABOVE,
            shown: shown_in(rows, room_after(ABOVE)).unwrap_or(KEPT),
        },
    }
}

fn columns_for(rows: &[Row<'_>]) -> usize {
    let mut longest = 0usize;
    for row in rows {
        longest = longest.max(row.title.len());
    }
    beside(longest, ABOVE, BESIDE)
}

/// The columns of titles of which the longest has so many, two blanks among them: so many at least, and as many where that
/// would be more than `most`.
pub fn beside(longest: usize, least: usize, most: usize) -> usize {
    let columns = longest.saturating_add(2).max(least);
    if columns <= most { columns } else { least }
}

// The first word that is shown in all rows after those that are left out, where each row has room.
fn shown_in(rows: &[Row<'_>], room: usize) -> Option<usize> {
    let mut shown = KEPT;
    for row in rows {
        shown = shown.max(row.first_shown(room)?);
    }
    Some(shown)
}

// A row, without the words up to the one that is shown. What comes next stands after so many columns of words.
fn tell_row(lines: &mut Lines, row: Row<'_>, shown: usize, width: usize, said: &'static str) {
    for k in 0..row.words.count() {
        if k < KEPT || shown <= k {
            lines.word(row.words.word(k));
        } else if k == KEPT {
            let bytes = row.left_out(shown).bytes as u64;
            lines.tell(".. {} {}", &[Part::Number(bytes), Part::Words(said)]);
        }
    }
    if let Some(next) = row.next {
        for _ in row.width(shown)..width {
            lines.word("");
        }
        lines.word("");
        lines.word(NEXT);
        lines.tell(next, &[]);
    }
    lines.end();
}
