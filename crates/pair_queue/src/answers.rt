// What a thief is answered, and why a queue is not settled.

/// The answer to a thief.
#[must_use]
#[derive(Clone, Copy, Drop, PartialEq, Eq)]
pub enum Take {
    /// A number, of a pair or of two senders, which nobody else gets.
    Pair(u32),
    /// All numbers had been taken at one moment of the call. The thief has ended: each later answer is this one.
    Empty,
    /// Another seat took in the meantime, or may have: ask again.
    Busy,
}

/// Why a queue is not settled.
#[derive(Clone, Copy, Drop, PartialEq, Eq)]
pub enum SettleFault {
    /// The number of thieves is not the one that was opened.
    Missing,
    /// No seat has found the numbers used up yet.
    Left,
}
