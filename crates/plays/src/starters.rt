// Which starters a bench is opened for.

ghost use Rattle.std.specs.Prelude.{◌≡◌, ◌<◌, Some, None, All, IfOk, IfErr, is_some};
ghost use Rattle.std.specs.List.{list_any};
ghost use Rattle.std.specs.Option.{option_map};
ghost use Rattle.plan_core.specs.Participants.{participant_count, forbidden};
ghost use Rattle.plan_core.specs.PlanContents.{plan_contents};
ghost use Rattle.plays.specs.Starters.{shares_controller, refusal_behind, starters_refusal};
ghost use Rattle.plays.specs.Refusals.{reason_of};

use plan_core::Plan;
use run_errors::OpenError;
use std::alloc::{AllocError, Global};

/// Why no bench is opened for starters, and for which of them.
#[derive(Drop)]
pub enum RefusedStarters {
    /// There is none.
    Nobody,
    /// The plan has no participant with this label.
    Unknown(String),
    /// These two are of one controller, or one participant.
    OneController(u32, u32),
    /// A `never` keeps these two apart.
    Apart(u32, u32),
}

/// Whether these participants of the plan may start together. It takes no memory.
///
/// NoStarter where there is none; else starter by starter: Unknown where the plan has no such participant, SameController
/// where an earlier starter is the same participant or a sending of the same controller, Never where its controller and
/// that of an earlier starter never start together.
pub fn check_starters(plan: &Plan, starters: &[u32]) -> Result<(), OpenError>
    ensures allowed { IfOk result (λ _. starters_refusal (plan_contents plan.now) starters.now ≡ None) }
    ensures refused { IfErr result (λ e. starters_refusal (plan_contents plan.now) starters.now ≡ Some e) }
{
    if starters.is_empty() {
        return Err(OpenError::NoStarter);
    }
    for (k, starter) in starters.iter().enumerate() {
        check_starter(plan, &starters[..k], *starter)?;
    }
    Ok(())
}

// Whether this starter may start together with those before it, which the plan has.
fn check_starter(plan: &Plan, before: &[u32], starter: u32) -> Result<(), OpenError>
    requires { All (λ y. y < participant_count (plan_contents plan.now)) before.now }
    ensures allowed { IfOk result (λ _. refusal_behind (plan_contents plan.now) before.now starter ≡ None) }
    ensures refused { IfErr result (λ e. refusal_behind (plan_contents plan.now) before.now starter ≡ Some e) }
{
    if starter >= plan.participants() {
        return Err(OpenError::Unknown);
    }
    if sends_already(plan, before, starter).is_some() {
        return Err(OpenError::SameController);
    }
    if forbidden_with(plan, before, starter).is_some() {
        return Err(OpenError::Never);
    }
    Ok(())
}

// The first of those before it that is the starter, or a sending of its controller.
fn sends_already(plan: &Plan, before: &[u32], starter: u32) -> Option<u32>
    requires known { All (λ y. y < participant_count (plan_contents plan.now)) before.now }
    requires within { starter < participant_count (plan_contents plan.now) }
    ensures { is_some result ≡ list_any (λ y. shares_controller (plan_contents plan.now) y starter) before.now }
{
    for other in before {
        if *other == starter || plan.same_controller(*other, starter) {
            return Some(*other);
        }
    }
    None
}

// The first of those before it whose controller a `never` names beside the starter's.
fn forbidden_with(plan: &Plan, before: &[u32], starter: u32) -> Option<u32>
    requires known { All (λ y. y < participant_count (plan_contents plan.now)) before.now }
    requires within { starter < participant_count (plan_contents plan.now) }
    ensures { is_some result ≡ list_any (λ y. forbidden (plan_contents plan.now) y starter) before.now }
{
    for other in before {
        if plan.forbids(*other, starter) {
            return Some(*other);
        }
    }
    None
}

/// The same as `check_starters` in words of these labels of theirs, where it refuses them: the first starter that cannot
/// start, with the first one before it with which it cannot.
///
/// # Errors
///
/// Where an allocation fails.
pub fn refused_among(
    alloc: Global,
    plan: &Plan,
    labels: &[&str],
    starters: &[u32],
) -> Result<Option<RefusedStarters>, AllocError>
    ensures { IfOk result (λ refused.
        option_map reason_of refused ≡ starters_refusal (plan_contents plan.now) starters.now) }
{
    if starters.is_empty() {
        return Ok(Some(RefusedStarters::Nobody));
    }
    for (k, starter) in starters.iter().enumerate() {
        if *starter >= plan.participants() {
            let label = labels.get(k).copied().unwrap_or("");
            return Ok(Some(RefusedStarters::Unknown(String::from_str(alloc, label)?)));
        }
        let clash = clash_with(plan, &starters[..k], *starter);
        if clash.is_some() {
            return Ok(clash);
        }
    }
    Ok(None)
}

// Why this starter cannot start with those before it.
fn clash_with(plan: &Plan, before: &[u32], starter: u32) -> Option<RefusedStarters>
    requires known { All (λ y. y < participant_count (plan_contents plan.now)) before.now }
    requires within { starter < participant_count (plan_contents plan.now) }
    ensures { option_map reason_of result ≡ refusal_behind (plan_contents plan.now) before.now starter }
{
    if let Some(other) = sends_already(plan, before, starter) {
        return Some(RefusedStarters::OneController(other, starter));
    }
    match forbidden_with(plan, before, starter) {
        Some(other) => Some(RefusedStarters::Apart(other, starter)),
        None => None,
    }
}
