// Objects that are written as they come.

use dump_findings::Selection;
use object_lines::ObjectLines;
use run_parts::{Output, RunError};
use std::alloc::Global;

/// Objects, one a line, and where they are written.
#[derive(Drop)]
pub(crate) struct Written<'a, O> {
    pub(crate) lines: ObjectLines,
    out: &'a mut O,
    // whether all that is there is written at each pause
    live: bool,
}

impl<'a, O: Output> Written<'a, O> {
    ghost use Rattle.std.specs.Prelude.{◌≡◌, IfOk};

    /// Nothing yet.
    pub(crate) fn new(alloc: Global, live: bool, out: &'a mut O) -> Written<'a, O> {
        Written {
            lines: ObjectLines::new(alloc),
            out,
            live,
        }
    }

    /// Writes what was gathered, where that is much, or is to be seen at once.
    ///
    /// # Errors
    ///
    /// `Write` where the writer failed or took no bytes, and `NoMemory`.
    pub(crate) fn pause(&mut self) -> Result<(), RunError> {
        if self.live {
            self.lines.write_all(&mut *self.out)
        } else {
            self.lines.write_block(&mut *self.out)
        }
    }

    /// Writes what is left, and answers what the transactions that were told come to.
    ///
    /// # Errors
    ///
    /// Those of `pause`.
    pub(crate) fn finish(self, selection: Selection) -> Result<Selection, RunError>
        ensures { IfOk result (λ it. it ≡ selection) }
    {
        let Written { lines, out, .. } = self;
        lines.write_rest(out)?;
        Ok(selection)
    }
}
