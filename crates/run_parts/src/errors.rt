// Why a run ends with no report, or with a part of one.

ghost use Rattle.std.specs.Prelude.{◌≡◌};
ghost use Rattle.run_parts.specs.declared.errors.RunError.TheVariants.{NoMemory};
ghost use Rattle.run_parts.specs.RunErrors.{run_error, brief_error, vcd_error, open_error};

use plan_text::{NoBrief, PlanError};
use run_errors::{OpenError, VcdError};
use std::alloc::{AllocError, AllocFailed};
use thiserror::Error;

/// Why a run ends without its report. Only after `Write` has a part of the report been written: its first bytes.
#[derive(Clone, Copy, Debug, PartialEq, Eq, Error)]
pub enum RunError {
    /// The text of a plan or of a brief is refused. For out of memory the refusal is `NoMemory`.
    #[error("{0}")]
    Plan(PlanError),
    /// The plan has no brief. For out of memory the refusal is `NoMemory`.
    #[error("{0}")]
    Brief(NoBrief),
    /// The dump is refused. For out of memory the refusal is `NoMemory`.
    #[error("{0}")]
    Vcd(VcdError),
    /// The bench is not opened. For out of memory the refusal is `NoMemory`.
    #[error("{0}")]
    Bench(OpenError),
    /// The number of workers is 0, or above 8.
    #[error("workers")]
    Workers,
    /// A reader failed, or gave no end within its limit of calls.
    #[error("read")]
    Read,
    /// The writer failed, or took no bytes.
    #[error("write")]
    Write,
    /// An allocation failed.
    #[error("memory")]
    NoMemory,
}

impl From<PlanError> for RunError {
    ghost from_gives = { λ refusal e. e ≡ run_error refusal };

    fn from(error: PlanError) -> RunError {
        match error {
            PlanError::NoMemory => RunError::NoMemory,
            _ => RunError::Plan(error),
        }
    }
}

impl From<NoBrief> for RunError {
    ghost from_gives = { λ refusal e. e ≡ brief_error refusal };

    fn from(error: NoBrief) -> RunError {
        match error {
            NoBrief::NoMemory => RunError::NoMemory,
            _ => RunError::Brief(error),
        }
    }
}

impl From<VcdError> for RunError {
    ghost from_gives = { λ refusal e. e ≡ vcd_error refusal };

    fn from(error: VcdError) -> RunError {
        match error {
            VcdError::NoMemory => RunError::NoMemory,
            _ => RunError::Vcd(error),
        }
    }
}

impl From<OpenError> for RunError {
    ghost from_gives = { λ refusal e. e ≡ open_error refusal };

    fn from(error: OpenError) -> RunError {
        match error {
            OpenError::NoMemory => RunError::NoMemory,
            _ => RunError::Bench(error),
        }
    }
}

impl From<AllocError> for RunError {
    ghost from_gives = { λ _ e. e ≡ NoMemory };

    fn from(_error: AllocError) -> RunError {
        RunError::NoMemory
    }
}

impl<T: Drop> From<AllocFailed<T>> for RunError {
    ghost from_gives = { λ _ e. e ≡ NoMemory };

    fn from(_error: AllocFailed<T>) -> RunError {
        RunError::NoMemory
    }
}
