// Why a text is no certificate of a plan.

ghost use Rattle.std.specs.Prelude.{◌≡◌};
ghost use Rattle.certificate.specs.declared.errors.CertError.TheVariants.{NoMemory};

use std::alloc::{AllocError, AllocFailed};
use thiserror::Error;

/// What is wrong with a certificate. A line is one more than the number of line feeds before the place of the fault.
#[derive(Clone, Copy, Debug, PartialEq, Eq, Error)]
pub enum CertFault {
    /// C1: the first place at which the text cannot go on as the grammar says; a text that ends too early, a missing
    /// last line feed included, at the line of its end.
    #[error("C1 line {0}")]
    Format(u64),
    /// C2: the text has the form, but not as many proofs as it announces, or as the plan has pairs.
    #[error("C2")]
    Count,
    /// C3: a token that would be the 513th node on its path from the root of a proof.
    #[error("C3 line {0}")]
    TooDeep(u64),
    /// C5: the proof or the fault of the pair with this number is wrong. No reading of a text alone answers it.
    #[error("C5 pair {0}")]
    Pair(u32),
}

/// Why a certificate was not read.
#[derive(Clone, Copy, Debug, PartialEq, Eq, Error)]
pub enum CertError {
    /// C1, C2, C3 or C5.
    #[error("{0}")]
    Wrong(CertFault),
    /// C4: an allocation failed before a fault was met.
    #[error("C4")]
    NoMemory,
}

impl From<AllocError> for CertError {
    ghost from_gives = { λ _ e. e ≡ NoMemory };

    fn from(_error: AllocError) -> CertError {
        CertError::NoMemory
    }
}

impl<T: Drop> From<AllocFailed<T>> for CertError {
    ghost from_gives = { λ _ e. e ≡ NoMemory };

    fn from(_error: AllocFailed<T>) -> CertError {
        CertError::NoMemory
    }
}
