// The proofs of a certificate, counted and checked as they come.

ghost use Rattle.std.specs.Prelude.{◌≡◌, ◌<◌, ◌∷◌, [], ◌++◌, length, List, IfSome, MatchOption};
ghost use Rattle.certificate.specs.Proofs.{ProofTree, proof_tree};
ghost use Rattle.plan_core.specs.Contents.{Contents};
ghost use Rattle.plan_core.specs.Pairs.{pairs_of};
ghost use Rattle.plan_core.specs.PlanContents.{plan_contents};

use crate::pairs::check_pair;
use certificate::{Cert, CertFault};
use plan_core::Plan;

/// What the proofs so far come to.
#[derive(Clone, Copy)]
pub(crate) struct Tally {
    /// How many there are, or `u64::MAX` where there are more.
    pub(crate) proofs: u64,
    /// The first pair of the plan whose proof does not prove it.
    pub(crate) unproved: Option<u32>,
}

impl Tally {
    ghost use Rattle.cert_check.specs.Judged.{Tallies, TellsNext, next_pair};
    ghost use Rattle.cert_check.specs.Proved.{Certifies, IsWrong};

    /// The tally of no proofs.
    pub(crate) fn new() -> Tally
        ensures { (plan : Contents) → Tallies plan [] result }
    {
        Tally {
            proofs: 0,
            unproved: None,
        }
    }

    /// The pair that the next proof is to prove. There is none where all pairs have one, and where a proof before does not
    /// prove its pair.
    pub(crate) fn next_pair(&self, plan: &Plan) -> Option<u32>
        ensures pair { result ≡ next_pair (plan_contents plan.now) self.now }
        ensures within { IfSome result (λ i. i < length (pairs_of (plan_contents plan.now))) }
        ensures number { IfSome result (λ i.
            (trees : List ProofTree) → Tallies (plan_contents plan.now) trees self.now → i ≡ length trees) }
    {
        match self.unproved {
            None if self.proofs < u64::from(plan.pair_count()) => Some(self.proofs as u32),
            _ => None,
        }
    }

    /// Whether this proof proves the pair that is next.
    pub(crate) fn is_proved(&self, plan: &Plan, cert: &Cert) -> bool
        ensures { TellsNext (plan_contents plan.now) self.now (proof_tree cert.now) result }
    {
        match self.next_pair(plan) {
            Some(i) => check_pair(plan, i, cert),
            None => false,
        }
    }

    /// One more proof, which proves the pair that is next or does not.
    pub(crate) fn add(&mut self, plan: &Plan, proves: bool)
        ensures { (trees : List ProofTree) (tree : ProofTree) → Tallies (plan_contents plan.now) trees self.old →
            TellsNext (plan_contents plan.now) self.old tree proves →
            Tallies (plan_contents plan.now) (trees ++ tree ∷ []) self.new }
    {
        match self.next_pair(plan) {
            None => {}
            Some(_) if proves => {}
            Some(i) => self.unproved = Some(i),
        }
        self.proofs = self.proofs.saturating_add(1);
    }

    /// What is wrong with these proofs, where no more come.
    pub(crate) fn fault(&self, plan: &Plan) -> Option<CertFault>
        ensures { (trees : List ProofTree) → Tallies (plan_contents plan.now) trees self.now →
            MatchOption result (Certifies (plan_contents plan.now) trees) (IsWrong (plan_contents plan.now) trees) }
    {
        let all_came = self.proofs == u64::from(plan.pair_count());
        match (all_came, self.unproved) {
            (false, _) => Some(CertFault::Count),
            (true, Some(i)) => Some(CertFault::Pair(i)),
            (true, None) => None,
        }
    }
}
