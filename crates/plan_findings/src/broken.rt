// What the two of a pair send up to a word of its proof.

use bus_rows::{Side, side_of};
use message_tree::Item;
use plan_core::Plan;
use std::alloc::{AllocError, Global};

/// What both of a pair send, each along a wire of its own: a proof need not say that they send alike. That an allocation
/// failed for one of their items is told by `sides`.
#[derive(Drop)]
pub(crate) struct Wires {
    first: Vec<Item>,
    second: Vec<Item>,
    is_whole: bool,
}

impl Wires {
    /// No slot yet.
    pub(crate) fn new(alloc: Global) -> Wires {
        Wires {
            first: Vec::new(alloc),
            second: Vec::new(alloc),
            is_whole: true,
        }
    }

    /// Puts these items into a slot, which is then the last one.
    pub(crate) fn put(&mut self, slot: u32, first: Item, second: Item) {
        self.truncate(slot);
        if self.first.push(first).is_err() || self.second.push(second).is_err() {
            self.is_whole = false;
        }
    }

    fn truncate(&mut self, slots: u32) {
        self.first.truncate(slots as usize);
        self.second.truncate(slots as usize);
    }

    /// What these two participants of the plan do along so many slots, and next.
    ///
    /// # Errors
    ///
    /// Where an allocation fails, or failed for one of the items.
    pub(crate) fn sides(
        mut self,
        alloc: Global,
        plan: &Plan,
        pair: (u32, u32),
        slots: u32,
    ) -> Result<(Side, Side), AllocError> {
        self.truncate(slots);
        if !self.is_whole {
            return Err(AllocError);
        }
        let first = side_of(alloc, plan, pair.0, self.first.as_slice())?;
        let second = side_of(alloc, plan, pair.1, self.second.as_slice())?;
        Ok((first, second))
    }
}
