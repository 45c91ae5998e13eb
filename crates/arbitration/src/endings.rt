// The outcomes of a row's suffixes against themselves.

ghost use Rattle.std.specs.Prelude.{◌≡◌, ◌+◌, ◌<◌, ◌^◌, length, IfOk};
ghost use Rattle.message_tree.specs.Sizes.{payload_slots};
ghost use Rattle.arbitration.specs.Frames.{AreFrames, AreEndings, IsRow, row_tree, trees_of};

use crate::beginnings::{Beginning, in_byte};
use crate::frames::Frames;
use crate::rows::Row;
use crate::spans::Outcomes;
use std::alloc::{AllocError, Global};

impl Frames {
    /// Outcomes for each suffix of the row against itself, shortest first: what follows the last byte alone, then with the
    /// last byte, with the last two, and so on.
    pub(crate) fn endings(&self, alloc: Global, row: &Row) -> Result<Vec<Outcomes>, AllocError>
        requires frames { AreFrames self.now.entries.items }
        requires row { IsRow self.now.entries.items row.now }
        requires slots { payload_slots (row_tree (trees_of self.now.entries.items) row.now) < 2 ^ 32 }
        ensures all { IfOk result (λ endings. length endings.items ≡ length row.now.bytes.items + 1) }
        ensures each { IfOk result (λ endings. AreEndings (trees_of self.now.entries.items) row.now endings.items) }
    {
        let count = row.bytes.len();
        let mut ending = self.nexts(row.last, row.last);
        let mut endings = Vec::new(alloc);
        endings.push(ending)?;
        for n in 0..count {
            let byte = row.bytes[count - 1 - n];
            let refused = self.nexts(byte.refused, byte.refused);
            let here = in_byte(byte.choices.partings(byte.choices), refused);
            ending = Beginning::none().and(here).followed_by(ending);
            endings.push(ending)?;
        }
        Ok(endings)
    }
}
