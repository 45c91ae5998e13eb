// The answer for a certificate that comes in blocks.

ghost use Rattle.std.specs.Prelude.{◌≡◌, ◌<◌, ◌^◌, ℕ, List, [], ◌++◌, length, IfOk, IfErr};
ghost use Rattle.cert_check.specs.Accepts.{IsAnswer};
ghost use Rattle.cert_check.specs.Fed.{IsFed, IsOf};
ghost use Rattle.plan_core.specs.PlanContents.{plan_contents};
ghost use Rattle.verifying.specs.Answering.{HaltsAtAnswer};
ghost use Rattle.run_parts.specs.Runs.{ReadsText};
ghost use Rattle.run_parts.specs.declared.errors.RunError.TheVariants.{NoMemory};

use cert_check::{Checker, FeedError, Judged};
use plan_core::Plan;
use run_parts::devices::reading::{BLOCK, READS};
use run_parts::{Input, RunError};
use std::alloc::Global;

/// What the certificate that the reader gives says of this plan, and where it is refused. It is judged as it comes, as
/// `Checker` says.
///
/// # Errors
///
/// `Read` where the reader failed or gave no end. `NoMemory` where an allocation fails.
pub(crate) fn read_answer<J: Input>(
    alloc: Global,
    plan: &Plan,
    cert: &mut J,
) -> Result<Judged, RunError>
    ensures all { IfOk result (λ it. (text : List ℕ) × ReadsText J.reader cert.old text cert.new
        × IsAnswer (plan_contents plan.now) text it.answer) }
    ensures stops { IfErr result (λ error. HaltsAtAnswer J.reader cert.old error cert.new) }
{
    let mut block = vec![in alloc; 0u8; BLOCK]?;
    let checker = Checker::new(alloc, plan)?;
    answer_blocks(alloc, plan, cert, block.as_mut_slice(), checker)
}

// The same, with a block of memory for what one call gives.
fn answer_blocks<J: Input>(
    alloc: Global,
    plan: &Plan,
    cert: &mut J,
    block: &mut [u8],
    mut checker: Checker,
) -> Result<Judged, RunError>
    requires size { length block.old ≡ 65_536 }
    requires plan { IsOf (plan_contents plan.now) checker }
    requires fed { IsFed (plan_contents plan.now) checker [] }
    ensures all { IfOk result (λ it. (text : List ℕ) × ReadsText J.reader cert.old text cert.new
        × IsAnswer (plan_contents plan.now) text it.answer) }
    ensures stops { IfErr result (λ error. HaltsAtAnswer J.reader cert.old error cert.new) }
{
    for _ in 0..READS {
        match cert.read(block) {
            Ok(0) => return end(alloc, plan, checker),
            Ok(count) => checker = feed(alloc, plan, checker, &block[..count])?,
            Err(_) => return Err(RunError::Read),
        }
    }
    Err(RunError::Read)
}

// The checker, fed one more piece. What a reader gives in a run is never too long.
fn feed(alloc: Global, plan: &Plan, checker: Checker, piece: &[u8]) -> Result<Checker, RunError>
    requires { IsOf (plan_contents plan.now) checker }
    ensures plan { IfOk result (IsOf (plan_contents plan.now)) }
    ensures fed { IfOk result (λ it. (text : List ℕ) →
        IsFed (plan_contents plan.now) checker text → IsFed (plan_contents plan.now) it (text ++ piece.now)) }
    ensures stops { IfErr result (λ error. (text : List ℕ) → IsFed (plan_contents plan.now) checker text →
        length (text ++ piece.now) < 2 ^ 63 → error ≡ NoMemory) }
{
    match checker.feed(alloc, plan, piece) {
        Ok(fed) => Ok(fed),
        Err(FeedError::NoMemory) => Err(RunError::NoMemory),
        Err(FeedError::TooLong) => Err(RunError::Read),
    }
}

// The answer for all that the checker was fed.
fn end(alloc: Global, plan: &Plan, checker: Checker) -> Result<Judged, RunError>
    requires { IsOf (plan_contents plan.now) checker }
    ensures answer { IfOk result (λ it. (text : List ℕ) →
        IsFed (plan_contents plan.now) checker text → IsAnswer (plan_contents plan.now) text it.answer) }
    ensures stops { IfErr result (λ error. (text : List ℕ) → IsFed (plan_contents plan.now) checker text →
        length text < 2 ^ 63 → error ≡ NoMemory) }
{
    match checker.end_at(alloc, plan) {
        Ok(judged) => Ok(judged),
        Err(FeedError::NoMemory) => Err(RunError::NoMemory),
        Err(FeedError::TooLong) => Err(RunError::Read),
    }
}
