// Why a dump has no samples.

ghost use Rattle.std.specs.Prelude.{◌≡◌};
ghost use Rattle.run_errors.specs.declared.dumps.VcdError.TheVariants.{NoMemory};

use std::alloc::AllocError;
use std::fmt::{self, Display, Formatter, Write};
use thiserror::Error;

/// One of the two lines.
#[derive(Clone, Copy, Debug, PartialEq, Eq)]
pub enum Signal {
    Scl,
    Sda,
}

impl Display for Signal {
    fn fmt<W: Write>(&self, f: &mut Formatter<W>) -> fmt::Result {
        f.write_str(match self {
            Signal::Scl => "scl",
            Signal::Sda => "sda",
        })
    }
}

/// Why a call on a reader of a dump failed.
#[derive(Clone, Copy, Debug, PartialEq, Eq, Error)]
pub enum VcdError {
    /// V1: no `$var` of one bit has the name, or the code, of this signal.
    #[error("V1 {0}")]
    NoSignal(Signal),
    /// V2: a token that cannot stand in its place.
    #[error("V2 line {0}")]
    BadToken(u64),
    /// V3: a time below the last one.
    #[error("V3 line {0}")]
    TimeBack(u64),
    /// V4: the dump ends inside something that began on this line.
    #[error("V4 line {0}")]
    Unended(u64),
    /// V5: an allocation failed. The reader is as before the call, and may be fed the same piece again.
    #[error("V5")]
    NoMemory,
}

impl From<AllocError> for VcdError {
    ghost from_gives = { λ _ e. e ≡ NoMemory };

    fn from(_error: AllocError) -> VcdError {
        VcdError::NoMemory
    }
}
