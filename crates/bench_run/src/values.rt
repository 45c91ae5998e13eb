// What a rehearsal comes to.

ghost use Rattle.std.specs.Prelude.{◌≡◌, None};
ghost use Rattle.run_parts.specs.declared.errors.RunError.TheVariants.{NoMemory};

use bus_bench::Played;
use cert_check::{Accepted, Answered};
use plan_core::Plan;
use plays::RefusedStarters;
use run_parts::RunError;
use std::alloc::AllocError;

/// A rehearsal: the plan that was accepted, who started, by participant number, what they sent for open bits, and how the
/// run went.
#[derive(Drop)]
pub struct Rehearsal {
    pub accepted: Accepted,
    pub starters: Vec<u32>,
    pub fill: bool,
    pub played: Played,
}

/// What comes of a plan and a certificate that are to be rehearsed.
#[derive(Drop)]
pub enum Outcome {
    /// The plan was accepted, and its starters have played.
    Played(Rehearsal),
    /// The certificate does not prove that the plan is safe.
    NotAccepted(Answered),
}

/// Why a plan is not rehearsed. Where its starters are refused: for which of them, and the plan.
#[derive(Drop)]
pub struct Unplayed {
    pub error: RunError,
    pub refused: Option<RefusedStarters>,
    pub plan: Option<Plan>,
}

impl From<AllocError> for Unplayed {
    ghost from_gives = { λ _ e. (e.error ≡ NoMemory) × (e.plan ≡ None) };

    fn from(_error: AllocError) -> Unplayed {
        Unplayed {
            error: RunError::NoMemory,
            refused: None,
            plan: None,
        }
    }
}
