// What proofs of all pairs are worth. The function does nothing, and its contract is the theorem.

ghost use Rattle.std.specs.Prelude.{List};
ghost use Rattle.certificate.specs.Proofs.{ProofTree};
ghost use Rattle.plan_core.specs.Contents.{Contents};
ghost use Rattle.plan_core.specs.Faults.{IsSafe};
ghost use Rattle.cert_check.specs.Proved.{Certifies};

/// Where each pair of a plan has a proof that proves it, the plan is safe: no lawful set of participants, of however
/// many, ever gets to a fault.
pub fn certified_plans_are_safe()
    ensures { (plan : Contents) (proofs : List ProofTree) → Certifies plan proofs → IsSafe plan }
{}
