// Where the two of an unsafe pair meet.

use crate::sending::{Followed, follow_wire};
use crate::words::{Bytes, Words};
use message_tree::Item;
use places::Offered;
use plan_core::Plan;
use std::alloc::{AllocError, Global};

/// Which rule says that the two may not meet as they do.
#[derive(Clone, Copy, PartialEq, Eq)]
pub enum Rule {
    /// UM10204, 3.1.8.
    Standard,
    /// The profile of interrupts.
    Interrupts,
}

/// One of the two along the wire: its bytes up to the end of the one in which the wire ends, the slots in which it
/// may send either bit, as first and last ones, and what it does next.
pub struct Side {
    pub bytes: Bytes,
    pub open: Vec<(usize, usize)>,
    pub next: Offered,
}

// Written out, so that one call lets it go.
impl Drop for Side {
    fn drop(self) {
        let Self {
            bytes: _,
            open: _,
            next: _,
        } = self;
    }
}

/// Where the two of an unsafe pair meet: in this slot, after these bytes on the bus.
pub struct Meeting {
    pub slot: usize,
    pub bus: Bytes,
    pub first: Side,
    pub second: Side,
}

// Written out, so that one call lets it go.
impl Drop for Meeting {
    fn drop(self) {
        let Self {
            slot: _,
            bus: _,
            first: _,
            second: _,
        } = self;
    }
}

impl Meeting {
    /// Which rule says that they may not.
    pub fn rule(&self) -> Rule {
        if self.first.next == Offered::Claim || self.second.next == Offered::Claim {
            Rule::Interrupts
        } else {
            Rule::Standard
        }
    }
}

/// Where these two participants of the plan meet after this wire.
///
/// # Errors
///
/// Where an allocation fails.
pub fn meeting_of(
    alloc: Global,
    plan: &Plan,
    participants: (u32, u32),
    wire: &[Item],
) -> Result<Meeting, AllocError> {
    let bus = bytes_of_wire(alloc, wire)?;
    let first = side_of(alloc, plan, participants.0, wire)?;
    let second = side_of(alloc, plan, participants.1, wire)?;
    Ok(Meeting {
        slot: wire.len(),
        bus,
        first,
        second,
    })
}

/// The bytes of a wire, from its START on.
pub fn bytes_of_wire(alloc: Global, wire: &[Item]) -> Result<Bytes, AllocError> {
    let mut words = Words::new(alloc);
    for item in wire {
        words.item(*item);
    }
    words.row()
}

/// What a participant does along this wire, and next.
pub fn side_of(alloc: Global, plan: &Plan, p: u32, wire: &[Item]) -> Result<Side, AllocError> {
    let mut words = Words::new(alloc);
    let Followed { open, next } = follow_wire(alloc, plan, p, wire, &mut words);
    let bytes = words.row()?;
    Ok(Side {
        bytes,
        open: open.finish()?,
        next,
    })
}
