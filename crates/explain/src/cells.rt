// The parts of a wire that stand side by side: bytes, acknowledges, and single slots.

use bus_rows::{Words, pad, put};
use growing_text::Text;
use message_tree::Item;
use std::alloc::{AllocError, Global};

// How many bits a byte has without its acknowledge.
const BITS: usize = 8;

/// Slots of a wire that belong together.
#[derive(Clone, Copy)]
pub(crate) struct Cell {
    pub(crate) from: usize,
    pub(crate) size: usize,
    part: Part,
}

// What a cell is: bits of an address with its direction, those of another byte, or one slot, and what is said of it.
#[derive(Clone, Copy)]
enum Part {
    Header,
    Data,
    Slot(&'static str),
}

impl Cell {
    /// The slot after the last one.
    pub(crate) fn end(&self) -> usize {
        self.from.saturating_add(self.size)
    }

    /// How many columns it takes: one for each slot, and as many as its word has.
    pub(crate) fn width(&self) -> usize {
        match self.part {
            Part::Header | Part::Data => self.size,
            Part::Slot(word) => self.size.max(word.len()),
        }
    }

    /// Whether these are the bits of a byte.
    pub(crate) fn is_byte(&self) -> bool {
        !matches!(self.part, Part::Slot(_))
    }

    /// The items of the wire there.
    pub(crate) fn items<'a>(&self, wire: &'a [Item]) -> &'a [Item] {
        wire.get(self.from..self.end().min(wire.len()))
            .unwrap_or(&[])
    }

    /// Adds what the bytes of the wire have there, in the columns after so many.
    pub(crate) fn push_to(&self, alloc: Global, line: &mut Text, column: usize, wire: &[Item]) {
        match self.part {
            Part::Header => push_byte(alloc, line, column, self.items(wire), true),
            Part::Data => push_byte(alloc, line, column, self.items(wire), false),
            Part::Slot(word) => put(line, column, word),
        }
    }
}

fn push_byte(alloc: Global, line: &mut Text, column: usize, items: &[Item], is_header: bool) {
    let mut words = Words::of_byte(alloc, is_header);
    for item in items {
        words.item(*item);
    }
    pad(line, column);
    line.push_made(words.finish());
}

/// The cells of a wire, in its order.
pub(crate) fn cells_of(alloc: Global, wire: &[Item]) -> Result<Vec<Cell>, AllocError> {
    let mut cells = Vec::new(alloc);
    let mut byte = Part::Header;
    for (from, item) in wire.iter().enumerate() {
        if let Some(part) = next_part(cells.last_mut(), *item, &mut byte) {
            let size = 1;
            cells.push(Cell { from, size, part })?;
        }
    }
    Ok(cells)
}

// What begins with the next item, and None where it belongs to the last cell. `byte` is what the next byte will be.
fn next_part(last: Option<&mut Cell>, item: Item, byte: &mut Part) -> Option<Part> {
    match item {
        Item::Sent(bit) | Item::Heard(bit) => next_bit(last, bit, byte),
        Item::Again => {
            *byte = Part::Header;
            Some(Part::Slot("Sr"))
        }
        Item::Stop => Some(Part::Slot("P")),
        Item::Claim => Some(Part::Slot("")),
    }
}

// One more bit: it belongs to the last cell where that is a byte that is not whole, acknowledges one that is, and else begins
// one.
fn next_bit(last: Option<&mut Cell>, bit: bool, byte: &mut Part) -> Option<Part> {
    match last {
        Some(cell) if cell.is_byte() && cell.size < BITS => {
            cell.size = cell.size.saturating_add(1);
            None
        }
        Some(cell) if cell.is_byte() => {
            *byte = Part::Data;
            Some(Part::Slot(if bit { "NA" } else { "A" }))
        }
        _ => Some(*byte),
    }
}
