// What a check finds.

ghost use Rattle.plan_core.specs.PlanContents.{plan_contents};
ghost use Rattle.verdicts.specs.Faults.{AreFaults, fault_list};

use crate::listed::Faults;
use plan_core::Plan;

/// A plan and the faults of its pairs, and no others.
#[derive(Drop)]
pub struct Checked {
    pub plan: Plan,
    pub faults: Faults,
    ghost right: { ∥ AreFaults (plan_contents plan) (fault_list faults) ∥₁ },
}
