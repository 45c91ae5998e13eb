// What comes of a plan and the bytes of a certificate.

ghost use Rattle.std.specs.Prelude.{◌≡◌, IfOk, IfErr, Some};
ghost use Rattle.plan_core.specs.PlanContents.{plan_contents};
ghost use Rattle.cert_check.specs.Holds.{accepted_plan};
ghost use Rattle.bench_run.specs.Outcomes.{AreParticipants, HasWinners, IsOutcomeOf, IsPlayedOf, IsRunOf, IsUnplayedOf};
ghost use Rattle.bench_run.specs.Rehearsals.{RefusesStarters};

use crate::gates::Gate;
use crate::rounds::play_all;
use crate::starters::{labels_of, numbers_of};
use crate::values::{Outcome, Rehearsal, Unplayed};
use bus_bench::{Played, open_bench};
use cert_check::{Accepted, accept_certificate};
use plan_core::Plan;
use plays::{OpenError, refused_among};
use run_parts::RunError;
use std::alloc::{AllocError, Global};
use std::sync::Wait;
use std::thread::Threads;
use std::time::Clock;

/// Plays the starters of the plan on a bench, each in a thread of its own, where the certificate proves that the plan is
/// safe. `starters` has their labels, which commas part; `fill` is what they send for a bit that is open; `answers` has the
/// bits of the targets by slot, and past its end they are 1. Each player calls the gate.
///
/// # Errors
///
/// `Bench` with the refusal of the starters of an accepted plan, which is handed back. `NoMemory` where an allocation fails.
pub fn rehearse<R: Threads + Wait + Clock + Sync, G: Gate + Sync>(
    rt: &R,
    alloc: Global,
    plan: Plan,
    cert: &[u8],
    starters: &str,
    fill: bool,
    answers: &[bool],
    gate: &G,
) -> Result<Outcome, Unplayed>
    ensures found { IfOk result (IsOutcomeOf (plan_contents plan) starters.now answers.now fill cert.now) }
    ensures winners { IfOk result HasWinners }
    ensures refused { IfErr result (IsUnplayedOf plan starters.now cert.now) }
{
    match accept_certificate(alloc, plan, cert)? {
        Ok(accepted) => rehearse_accepted(rt, alloc, accepted, starters, fill, answers, gate),
        Err(answered) => Ok(Outcome::NotAccepted(answered)),
    }
}

// The same of a plan that was accepted.
fn rehearse_accepted<R: Threads + Wait + Clock + Sync, G: Gate + Sync>(
    rt: &R,
    alloc: Global,
    accepted: Accepted,
    starters: &str,
    fill: bool,
    answers: &[bool],
    gate: &G,
) -> Result<Outcome, Unplayed>
    ensures played { IfOk result (IsPlayedOf (accepted_plan accepted) starters.now answers.now fill) }
    ensures winners { IfOk result HasWinners }
    ensures refused { IfErr result (λ e.
        RefusesStarters (plan_contents (accepted_plan accepted)) starters.now e.error × (e.plan ≡ Some (accepted_plan accepted))) }
{
    match play(rt, alloc, &accepted, starters, fill, answers, gate) {
        Ok((starters, played)) => Ok(Outcome::Played(Rehearsal {
            accepted,
            starters,
            fill,
            played,
        })),
        Err(Unplayed { error, refused, .. }) => Err(Unplayed {
            error,
            refused,
            plan: Some(accepted.into_plan()),
        }),
    }
}

// The starters of an accepted plan, and how they played.
fn play<R: Threads + Wait + Clock + Sync, G: Gate + Sync>(
    rt: &R,
    alloc: Global,
    accepted: &Accepted,
    starters: &str,
    fill: bool,
    answers: &[bool],
    gate: &G,
) -> Result<(Vec<u32>, Played), Unplayed>
    ensures run { IfOk result (λ r. IsRunOf (plan_contents (accepted_plan accepted.now))
        starters.now answers.now fill r.0.items r.1) }
    ensures winners { IfOk result (λ r. AreParticipants (plan_contents (accepted_plan accepted.now)) r.1.won.items) }
    ensures refused { IfErr result (λ e. RefusesStarters (plan_contents (accepted_plan accepted.now)) starters.now e.error) }
{
    let labels = labels_of(alloc, starters)?;
    let numbers = numbers_of(alloc, accepted.plan(), labels.as_slice())?;
    match open_bench(alloc, accepted, numbers.as_slice(), answers) {
        Ok((bench, host, seats)) => {
            let played = play_all(rt, alloc, bench, host, seats, fill, gate)?;
            Ok((numbers, played))
        }
        Err(OpenError::NoMemory) => Err(Unplayed::from(AllocError)),
        Err(error) => Err(Unplayed {
            error: RunError::Bench(error),
            refused: refused_among(
                alloc,
                accepted.plan(),
                labels.as_slice(),
                numbers.as_slice(),
            )?,
            plan: None,
        }),
    }
}
