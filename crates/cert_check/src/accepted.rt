// A plan that its proofs have made safe.

ghost use Rattle.plan_core.specs.PlanContents.{plan_contents};
ghost use Rattle.plan_core.specs.Faults.{IsSafe};

use plan_core::Plan;

/// A plan that is safe, since a certificate proves each of its pairs. `accept_plan` makes it of proofs, and
/// `accept_certificate` of the text of a certificate; nothing else does.
#[derive(Drop)]
pub struct Accepted {
    pub(crate) plan: Plan,
    pub ghost safe: { IsSafe (plan_contents plan) },
}

impl Accepted {
    ghost use Rattle.std.specs.Prelude.{◌≡◌};
    ghost use Rattle.cert_check.specs.Holds.{accepted_plan};

    /// The plan.
    pub fn plan(&self) -> &Plan
        ensures plan { result.now ≡ accepted_plan self.now }
        ensures safe { IsSafe (plan_contents result.now) }
    {
        &self.plan
    }

    /// The plan, handed back.
    pub fn into_plan(self) -> Plan
        ensures plan { result ≡ accepted_plan self }
        ensures safe { IsSafe (plan_contents result) }
    {
        self.plan
    }
}
