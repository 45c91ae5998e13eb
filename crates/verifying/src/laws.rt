// What a line of verify is worth. A law does nothing: its contract is the theorem.

ghost use Rattle.std.specs.Prelude.{ℕ, List, codes};
ghost use Rattle.plan_core.specs.Contents.{Contents};
ghost use Rattle.plan_core.specs.Faults.{IsSafe};
ghost use Rattle.plan_text.specs.Grammar.{Spells};
ghost use Rattle.run_parts.specs.declared.runs.Status.{Status};
ghost use Rattle.run_parts.specs.declared.runs.Status.TheVariants.{Good};
ghost use Rattle.verifying.specs.Verified.{Verified};

/// What verify says is so. Where its line is `accepted safe`, or its status is Good, the first text spells a plan, and
/// that plan is safe: no lawful set of participants ever gets to a fault.
pub fn accepted_plans_are_safe()
    ensures spelled { (plan cert report : List ℕ) (status : Status) →
        Verified (plan, cert) report status → (contents : Contents) × Spells plan contents }
    ensures line { (plan cert : List ℕ) (status : Status) (contents : Contents) →
        Verified (plan, cert) (codes "accepted safe\n") status → Spells plan contents → IsSafe contents }
    ensures status { (plan cert report : List ℕ) (contents : Contents) →
        Verified (plan, cert) report Good → Spells plan contents → IsSafe contents }
{}
