// Lines below the wire of a rehearsal.

use crate::cells::{Cell, cells_of};
use bus_rows::{ALIKE, Labels, begin_titled, beside, pad, room_after, say};
use growing_text::{Lines, Part, Text};
use message_tree::Item;
use plan_findings::Track;
use std::alloc::{AllocError, Global};

// How many columns labels have at most that stand beside rows, and how many where each longer one has a line of its own.
const BESIDE: usize = 24;

const ABOVE: usize = 6;

/// What is said below the line `wire WIRE` in the report of a rehearsal: the slots in which bytes begin, the bytes, the
/// wire, and for each starter what it puts in each slot, with `.` where it listens, up to the slot in which it loses. Of a long
/// wire the parts in its middle are left out in which nobody loses.
pub(crate) fn below_wire(
    alloc: Global,
    labels: &Labels,
    wire: &[Item],
    tracks: &[Track],
) -> Result<String, AllocError> {
    let cells = cells_of(alloc, wire)?;
    let columns = columns_for(labels, tracks);
    let mut lines = Lines::new(alloc);
    let mut rest = cells.as_slice();
    let mut alike = 0usize;
    for _ in 0..cells.len() {
        if rest.is_empty() {
            break;
        }
        let count = fitting(rest, room_after(columns)).max(1).min(rest.len());
        let (block, after) = rest.split_at(count);
        let is_end = rest.len() == cells.len() || after.is_empty();
        if is_end || is_lost_in(tracks, block) {
            tell_alike(&mut lines, alike);
            alike = 0;
            tell_block(
                alloc,
                &mut lines,
                columns,
                labels,
                tracks,
                wire,
                block,
                after.is_empty(),
            );
        } else {
            alike = alike.saturating_add(bytes_in(block));
        }
        rest = after;
    }
    lines.finish()
}

// Whether a starter loses in the block.
fn is_lost_in(tracks: &[Track], block: &[Cell]) -> bool {
    tracks.iter().any(|track| is_lost(track, block))
}

fn is_lost(track: &Track, block: &[Cell]) -> bool {
    match (track.lost, block.first(), block.last()) {
        (Some(slot), Some(first), Some(last)) => first.from <= slot && slot < last.end(),
        _ => false,
    }
}

fn bytes_in(block: &[Cell]) -> usize {
    let mut bytes = 0usize;
    for cell in block {
        bytes = bytes.saturating_add(usize::from(cell.is_byte()));
    }
    bytes
}

// That blocks with so many bytes are left out, in which nobody loses.
fn tell_alike(lines: &mut Lines, bytes: usize) {
    if bytes != 0 {
        let parts = [Part::Number(bytes as u64), Part::Words(ALIKE)];
        say(lines, ".. {} {}", &parts);
    }
}

fn tell_block(
    alloc: Global,
    lines: &mut Lines,
    columns: usize,
    labels: &Labels,
    tracks: &[Track],
    wire: &[Item],
    block: &[Cell],
    is_last: bool,
) {
    tell_slots(alloc, lines, columns, block);
    tell_bytes(alloc, lines, columns, wire, block);
    tell_wire(alloc, lines, columns, wire, block);
    for track in tracks {
        let label = labels.of(track.participant);
        tell_track(alloc, lines, columns, label, track, block, is_last);
    }
}

fn columns_for(labels: &Labels, tracks: &[Track]) -> usize {
    let mut longest = 0usize;
    for track in tracks {
        longest = longest.max(labels.of(track.participant).len());
    }
    beside(longest, ABOVE, BESIDE)
}

// How many of the cells fit into so many columns.
fn fitting(cells: &[Cell], room: usize) -> usize {
    let mut left = room;
    let mut count = 0usize;
    for cell in cells {
        if left <= cell.width() {
            break;
        }
        left = left.saturating_sub(cell.width()).saturating_sub(1);
        count = count.saturating_add(1);
    }
    count
}

fn tell_slots(alloc: Global, lines: &mut Lines, columns: usize, block: &[Cell]) {
    let mut line = Text::new(alloc);
    let mut column = 0usize;
    for cell in block {
        if cell.is_byte() {
            pad(&mut line, column);
            line.push_number(cell.from as u64);
        }
        column = column.saturating_add(cell.width()).saturating_add(1);
    }
    begin_titled(lines, "slot", columns);
    lines.word_made(line.finish());
    lines.end();
}

fn tell_bytes(alloc: Global, lines: &mut Lines, columns: usize, wire: &[Item], block: &[Cell]) {
    let mut line = Text::new(alloc);
    let mut column = 0usize;
    for cell in block {
        cell.push_to(alloc, &mut line, column, wire);
        column = column.saturating_add(cell.width()).saturating_add(1);
    }
    begin_titled(lines, "bus", columns);
    lines.word_made(line.finish());
    lines.end();
}

fn tell_wire(alloc: Global, lines: &mut Lines, columns: usize, wire: &[Item], block: &[Cell]) {
    let mut line = Text::new(alloc);
    let mut column = 0usize;
    for cell in block {
        pad(&mut line, column);
        for item in cell.items(wire) {
            line.push_char(item.symbol());
        }
        column = column.saturating_add(cell.width()).saturating_add(1);
    }
    begin_titled(lines, "wire", columns);
    lines.word_made(line.finish());
    lines.end();
}

// The line of what a starter puts in the slots of the block, up to the one in which it loses. There is none where it has lost
// before.
fn tell_track(
    alloc: Global,
    lines: &mut Lines,
    columns: usize,
    label: &str,
    track: &Track,
    block: &[Cell],
    is_last: bool,
) {
    let mut line = Text::new(alloc);
    let mut column = 0usize;
    for cell in block {
        let puts = puts_in(track, cell);
        if !puts.is_empty() {
            pad(&mut line, column);
            line.push(puts);
        }
        column = column.saturating_add(cell.width()).saturating_add(1);
    }
    if line.is_empty() {
        return;
    }
    begin_titled(lines, label, columns);
    lines.word_made(line.finish());
    tell_fate(lines, track, block, is_last);
    lines.end();
}

// What is put in the slots of the cell.
fn puts_in<'a>(track: &'a Track, cell: &Cell) -> &'a str {
    track
        .puts
        .get(cell.from..cell.end().min(track.puts.len()))
        .unwrap_or("")
}

// That the starter loses in this block, or wins at its end.
fn tell_fate(lines: &mut Lines, track: &Track, block: &[Cell], is_last: bool) {
    match track.lost {
        Some(slot) if is_lost(track, block) => {
            lines.word("");
            lines.tell("lost in slot {}", &[Part::Number(slot as u64)]);
        }
        None if is_last => {
            lines.word("");
            lines.word("won");
        }
        _ => {}
    }
}
