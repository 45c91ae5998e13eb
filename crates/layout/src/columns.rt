// What stands in one column: the parts of neighbouring lines that are made equally wide.

/// A part of a line.
#[derive(Clone, Copy)]
pub(crate) struct Cell {
    /// How wide it is.
    pub(crate) own: usize,
    /// How wide the widest is of those that it stands with.
    pub(crate) width: usize,
    /// Whether one of these is to be made as wide as the others.
    pub(crate) is_wide: bool,
    /// Whether it stands with the one before it.
    pub(crate) joins: bool,
}

impl Cell {
    /// One that stands by itself.
    pub(crate) fn alone(own: usize) -> Cell {
        Cell {
            own,
            width: own,
            is_wide: false,
            joins: false,
        }
    }

    /// How many blanks make it as wide as the others.
    pub(crate) fn blanks(self) -> usize {
        self.width.saturating_sub(self.own)
    }

    // The same, where this one stands with it.
    fn beside(self, other: Cell) -> Cell {
        Cell {
            width: self.width.max(other.width),
            is_wide: self.is_wide || other.is_wide,
            ..self
        }
    }
}

/// Gives all cells that stand together the width of the widest one.
pub(crate) fn widen(cells: &mut [Cell]) {
    widen_down(cells);
    widen_up(cells);
}

// By those before it.
fn widen_down(cells: &mut [Cell]) {
    let mut above = Cell::alone(0);
    for cell in cells.iter_mut() {
        if cell.joins {
            *cell = cell.beside(above);
        }
        above = *cell;
    }
}

// By those after it.
fn widen_up(cells: &mut [Cell]) {
    let mut below = Cell::alone(0);
    for cell in cells.iter_mut().rev() {
        if below.joins {
            *cell = cell.beside(below);
        }
        below = *cell;
    }
}
