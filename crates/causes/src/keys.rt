// The causes of all unsafe pairs of a plan.

ghost use Rattle.std.specs.Prelude.{◌≡◌, IfOk, length};
ghost use Rattle.plan_core.specs.PlanContents.{plan_contents};
ghost use Rattle.verdicts.specs.Faults.{AreFaults, fault_list};
ghost use Rattle.causes.specs.Causes.{causes_of};

use crate::families::Family;
use crate::meetings::{Cause, cause_of};
use plan_core::Plan;
use std::alloc::{AllocError, Global};
use verdicts::Faults;

/// The cause of each unsafe pair, in the order of the pairs, where these are the families of the messages.
pub(crate) fn causes_of(
    alloc: Global,
    plan: &Plan,
    families: &[Family],
    faults: &Faults,
) -> Result<Vec<Cause>, AllocError>
    requires families { length families.now ≡ length (plan_contents plan.now).messages }
    requires faults { AreFaults (plan_contents plan.now) (fault_list faults.now) }
    ensures { IfOk result (λ causes. causes.items ≡ causes_of (plan_contents plan.now) families.now (fault_list faults.now)) }
{
    let mut causes = Vec::with_capacity(alloc, faults.len())?;
    for k in 0..faults.len() {
        let (pair, fault) = faults.get(k);
        let cause = cause_of(plan, families, pair, fault);
        causes.push(cause)?;
    }
    Ok(causes)
}
