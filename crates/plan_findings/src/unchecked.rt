// What a check does not look at: messages that no controller lists.

ghost use Rattle.std.specs.Prelude.{◌≡◌, true, false};
ghost use Rattle.plan_core.specs.PlanContents.{plan_contents};
ghost use Rattle.plan_findings.specs.Unchecked.{IsAllChecked, IsListed};

use plan_core::Plan;
use std::alloc::{AllocError, Global};

/// Whether a check looks at something of each message: some controller lists it, and there are pairs.
pub fn is_all_checked(plan: &Plan) -> bool
    ensures all { result ≡ true → IsAllChecked (plan_contents plan.now) }
    ensures not_all { result ≡ false → IsAllChecked (plan_contents plan.now) → ⊥ }
{
    for message in 0..plan.messages() {
        if !is_sent(plan, message) {
            return false;
        }
    }
    plan.pair_count() != 0
}

/// The messages that no controller lists.
///
/// # Errors
///
/// Where an allocation fails.
pub fn unsent_in(alloc: Global, plan: &Plan) -> Result<Vec<u32>, AllocError> {
    let mut unsent = Vec::new(alloc);
    for message in 0..plan.messages() {
        if !is_sent(plan, message) {
            unsent.push(message)?;
        }
    }
    Ok(unsent)
}

// Whether some controller has the message.
fn is_sent(plan: &Plan, message: u32) -> bool
    ensures some { result ≡ true → IsListed (plan_contents plan.now) message }
    ensures none { result ≡ false → IsListed (plan_contents plan.now) message → ⊥ }
{
    for c in 0..plan.controllers() {
        if plan.controller_messages(c).contains(&message) {
            return true;
        }
    }
    false
}
