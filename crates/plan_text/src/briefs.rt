// Why a plan has no brief. Briefs are another form of plan texts, and who writes them is another crate; what stops a run
// needs to know this alone.

ghost use Rattle.std.specs.Prelude.{◌≡◌};
ghost use Rattle.plan_text.specs.declared.briefs.NoBrief.TheVariants.{NoMemory};

use std::alloc::AllocError;
use thiserror::Error;

/// Why there is no brief of a plan.
#[derive(Clone, Copy, Debug, PartialEq, Eq, Error)]
pub enum NoBrief {
    /// A message, a controller or an interrupt of the plan has a name that is a word of briefs: `brief`, `device`, `byte`
    /// or `any`.
    #[error("brief name")]
    Name,
    /// There is no memory.
    #[error("out of memory")]
    NoMemory,
}

impl From<AllocError> for NoBrief {
    ghost from_gives = { λ _ e. e ≡ NoMemory };

    fn from(_error: AllocError) -> NoBrief {
        NoBrief::NoMemory
    }
}
