// The proofs of a whole plan.

ghost use Rattle.std.specs.Prelude.{◌≡◌, IfOk, OnOk, IfErr, IsOk, Err, MatchOption, map};
ghost use Rattle.certificate.specs.declared.errors.CertFault.{CertFault};
ghost use Rattle.certificate.specs.Proofs.{proof_tree};
ghost use Rattle.plan_core.specs.PlanContents.{plan_contents};
ghost use Rattle.cert_check.specs.Holds.{accepted_plan};
ghost use Rattle.cert_check.specs.Proved.{Certifies, IsWrong};

use crate::accepted::Accepted;
use crate::tallies::Tally;
use certificate::{Cert, CertFault};
use plan_core::Plan;

/// Accepts a plan where each of its pairs has a proof that proves it, in the order of the pairs. Otherwise it hands the
/// plan back. It takes no memory.
///
/// # Errors
///
/// `Count` where the number of proofs is not that of the pairs, else `Pair` with the number of the first pair whose
/// proof does not prove it.
pub fn accept_plan(plan: Plan, certs: &[Cert]) -> Result<Accepted, (Plan, CertFault)>
    // What is answered is right.
    ensures accepted { IfOk result (λ it. accepted_plan it ≡ plan) }
    ensures certified { OnOk result (Certifies (plan_contents plan) (map proof_tree certs.now)) }
    ensures handed_back { IfErr result (λ e. e.0 ≡ plan) }
    ensures refused { IfErr result (λ e. IsWrong (plan_contents plan) (map proof_tree certs.now) e.1) }
    // What is right is answered.
    ensures proved { Certifies (plan_contents plan) (map proof_tree certs.now) → IsOk result }
    ensures wrong { (fault : CertFault) →
        IsWrong (plan_contents plan) (map proof_tree certs.now) fault → result ≡ Err (plan, fault) }
{
    match fault_of(&plan, certs) {
        Some(fault) => Err((plan, fault)),
        None => Ok(Accepted { plan }),
    }
}

// What is wrong with these proofs, if anything is.
fn fault_of(plan: &Plan, certs: &[Cert]) -> Option<CertFault>
    ensures { MatchOption result
        (Certifies (plan_contents plan.now) (map proof_tree certs.now))
        (IsWrong (plan_contents plan.now) (map proof_tree certs.now)) }
{
    let mut tally = Tally::new();
    for cert in certs {
        tally.add(plan, tally.is_proved(plan, cert));
    }
    tally.fault(plan)
}
