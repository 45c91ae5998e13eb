// Why there is no bench.

use thiserror::Error;

/// Why a bench is not opened.
#[derive(Clone, Copy, Debug, Drop, PartialEq, Eq, Error)]
pub enum OpenError {
    /// There is no starter.
    #[error("B1")]
    NoStarter,
    /// There is no participant with this number.
    #[error("B2")]
    Unknown,
    /// Two starters are sendings of one controller, or one participant.
    #[error("B3")]
    SameController,
    /// Two starters are sendings of controllers that never start together.
    #[error("B8")]
    Never,
    /// There was no memory.
    #[error("B4")]
    NoMemory,
}
