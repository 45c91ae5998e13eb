// Why a put is refused, and why a bench is not finished.

use thiserror::Error;

/// Why a put is refused.
#[derive(Clone, Copy, Debug, Drop, PartialEq, Eq, Error)]
pub enum PutError {
    /// The seat has lost or ended.
    #[error("B7")]
    Over,
    /// The seat has put in this slot, and has not seen it complete.
    #[error("B6")]
    Early,
    /// What the seat plays doesn't offer this.
    #[error("B5")]
    NotOffered,
}

/// What a seat sees.
#[must_use]
#[derive(Clone, Copy, Drop, PartialEq, Eq)]
pub enum Sight {
    /// The seat has not put in this slot.
    NotPut,
    /// Another seat that is live has not put in this slot: ask again.
    Waiting,
    /// The slot is complete with this wire, and the seat is live. It goes to the next slot; after a STOP and a claim
    /// there is none.
    On(Item),
    /// The slot is complete with this wire, and the seat has lost arbitration (UM10204, 3.1.8).
    Lost(Item),
    /// The seat has lost or ended before.
    Ended,
}

use message_tree::Item;

/// Why a bench is not finished.
#[derive(Clone, Copy, Drop, PartialEq, Eq)]
pub enum FinishFault {
    /// The number of seats is not that of the starters.
    Missing,
    /// Some seat has neither lost nor ended.
    NotEnded,
    /// There was no memory.
    NoMemory,
}
