// The table of a plan.

ghost use Rattle.std.specs.Prelude.{◌↔◌, IsTrue, IfOk, IfErr};
ghost use Rattle.plan_core.specs.Contents.{Contents};
ghost use Rattle.plan_core.specs.Faults.{IsSafe};
ghost use Rattle.certificate.specs.Certificates.{certificate_of};
ghost use Rattle.verdicts.specs.Certificates.{certificate_for};
ghost use Rattle.verdicts.specs.Verdicts.{AreSafe};

use certificate::CertText;
use pair_walk::{Outcome, Verdict};
use std::alloc::Global;

/// The verdicts of a plan's pairs, in the order of the pairs.
#[derive(Drop)]
pub struct Table {
    pub(crate) verdicts: Vec<Verdict>,
}

impl Table {
    ghost use Rattle.std.specs.Prelude.{◌≡◌};
    ghost use Rattle.verdicts.specs.Tables.{IsTable, table_verdicts};

    /// The verdicts, in the order of the pairs.
    pub fn verdicts(&self) -> &[Verdict]
        ensures { result.now ≡ table_verdicts self.now }
    {
        self.verdicts.as_slice()
    }

    /// Whether the plan of this table is safe: no lawful set of participants, of however many, ever gets to a fault.
    pub fn is_safe(&self) -> bool
        ensures { (plan : Contents) → IsTable plan self.now → (IsTrue result ↔ IsSafe plan) }
    {
        all_safe(&self.verdicts)
    }

    /// All proofs, or the fault of the first pair that is not safe. Where an allocation fails, the table is handed
    /// back.
    pub fn certify(self, alloc: Global) -> Result<CertText, Table>
        ensures certificate { IfOk result (λ cert. certificate_of cert ≡ certificate_for (table_verdicts self)) }
        ensures unchanged { IfErr result (λ table. table_verdicts table ≡ table_verdicts self) }
    {
        let mut proofs = Vec::new(alloc);
        if proofs.reserve(self.verdicts.len()).is_err() {
            return Err(self);
        }
        let mut verdicts = self.verdicts;
        verdicts.reverse();
        while let Some(Verdict { pair, outcome }) = verdicts.pop() {
            match outcome {
                Outcome::Safe(proof) => proofs.push_reserved(proof),
                Outcome::Unsafe(fault) => return Ok(CertText::Flaw(pair, fault)),
            }
        }
        Ok(CertText::Proofs(proofs))
    }
}

fn all_safe(verdicts: &[Verdict]) -> bool
    ensures { IsTrue result ↔ AreSafe verdicts.now }
{
    for verdict in verdicts {
        if let Outcome::Unsafe(_) = verdict.outcome {
            return false;
        }
    }
    true
}
