// Why a text is no plan.

ghost use Rattle.std.specs.Prelude.{◌≡◌};
ghost use Rattle.plan_text.specs.declared.errors.PlanError.TheVariants.{NoMemory};

use std::alloc::{AllocError, AllocFailed};
use thiserror::Error;

/// The first refusal of a plan text, in text order. A line is one more than the number of line feeds before the place
/// of the refusal.
#[derive(Clone, Copy, Debug, PartialEq, Eq, Error)]
pub enum PlanError {
    /// P1: a byte of 128 or more.
    #[error("P1 line {0}")]
    NotAscii(u64),
    /// P2: the text does not begin with `plan 1` or `plan 2`.
    #[error("P2 line {0}")]
    Version(u64),
    /// P3: a token or a character that the grammar does not allow in its place, or the end of the text inside an item.
    #[error("P3 line {0}")]
    Unexpected(u64),
    /// P4: a count that is not 1 to 255, or a range whose first end is greater than its second.
    #[error("P4 line {0}")]
    BadCount(u64),
    /// P5: the address, data byte or count that makes a path longer than 256 bytes, or the 4,097th node of a message.
    #[error("P5 line {0}")]
    TooLong(u64),
    /// P6: the name of the 257th message, the 33rd controller or the 33rd interrupt, or the 513th sending.
    #[error("P6 line {0}")]
    TooMany(u64),
    /// P7: a name that its kind has already, or that stands twice where it may stand once.
    #[error("P7 line {0}")]
    Twice(u64),
    /// P8: a name that nothing before it has.
    #[error("P8 line {0}")]
    Unknown(u64),
    /// P9: an allocation failed before another refusal was met.
    #[error("P9")]
    NoMemory,
}

impl PlanError {
    /// The line of its place, where it has one.
    pub fn line(self) -> Option<u64> {
        match self {
            PlanError::NotAscii(line)
            | PlanError::Version(line)
            | PlanError::Unexpected(line)
            | PlanError::BadCount(line)
            | PlanError::TooLong(line)
            | PlanError::TooMany(line)
            | PlanError::Twice(line)
            | PlanError::Unknown(line) => Some(line),
            PlanError::NoMemory => None,
        }
    }
}

impl From<AllocError> for PlanError {
    ghost from_gives = { λ _ e. e ≡ NoMemory };

    fn from(_error: AllocError) -> PlanError {
        PlanError::NoMemory
    }
}

impl<T: Drop> From<AllocFailed<T>> for PlanError {
    ghost from_gives = { λ _ e. e ≡ NoMemory };

    fn from(_error: AllocFailed<T>) -> PlanError {
        PlanError::NoMemory
    }
}
