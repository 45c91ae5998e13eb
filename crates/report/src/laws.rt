// What the runs are worth together. A law does nothing: its contract is the theorem.

ghost use Rattle.std.specs.Prelude.{ℕ, List};
ghost use Rattle.verifying.specs.Accepts.{IsCertified, IsRefuted};
ghost use Rattle.report.specs.Certificates.{Certified};
ghost use Rattle.run_parts.specs.declared.runs.Status.TheVariants.{Good, Bad};

pub use verifying::laws::accepted_plans_are_safe;

/// What certify writes is accepted by the separate checker: of a safe plan, its certificate certifies the plan, so that
/// `accept` answers Safe; of another, it refutes the plan, so that `accept` answers Unsafe.
pub fn written_certificates_are_accepted()
    ensures safe { (plan report : List ℕ) → Certified plan report Good → IsCertified plan report }
    ensures not_safe { (plan report : List ℕ) → Certified plan report Bad → IsRefuted plan report }
{}
