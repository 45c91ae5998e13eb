// Why a dump has no samples.

ghost use Rattle.std.specs.Prelude.{◌≡◌};
ghost use Rattle.vcd_read.specs.Refusals.{error_of};

use run_errors::{Signal, VcdError};

/// The first refusal of a dump, in text order. A line is one more than the number of line feeds before the token.
#[derive(Clone, Copy, PartialEq, Eq)]
pub enum Refusal {
    /// V1: no `$var` of one bit has the name, or the code, of this signal.
    NoSignal(Signal),
    /// V2: a token that cannot stand in its place.
    BadToken(u64),
    /// V3: a time below the last one.
    TimeBack(u64),
    /// V4: the dump ends inside something that began on this line.
    Unended(u64),
}

impl From<Refusal> for VcdError {
    ghost from_gives = { λ refusal e. e ≡ error_of refusal };

    fn from(refusal: Refusal) -> VcdError {
        match refusal {
            Refusal::NoSignal(signal) => VcdError::NoSignal(signal),
            Refusal::BadToken(line) => VcdError::BadToken(line),
            Refusal::TimeBack(line) => VcdError::TimeBack(line),
            Refusal::Unended(line) => VcdError::Unended(line),
        }
    }
}
