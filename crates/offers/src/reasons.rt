// Why a plan is safe, or what mends it.

ghost use Rattle.std.specs.Prelude.{IfOk};
ghost use Rattle.given_plans.specs.Sources.{bytes_of};
ghost use Rattle.offers.specs.Reasons.{AreReasons};
ghost use Rattle.plan_core.specs.PlanContents.{plan_contents};
ghost use Rattle.verdicts.specs.Faults.{AreFaults, fault_list};

use crate::found::{Offers, offers_of};
use given_plans::Provenance;
use plan_words::PlanWords;
use remedies::{Grouped, Safety, grouped_of, safety_of};
use std::alloc::{AllocError, Global};
use verdicts::Checked;

/// What explains the verdict on a plan.
#[derive(Drop)]
pub enum Reasons {
    Safe(Safety),
    Unsafe(Grouped, Offers),
}

/// What explains the verdict on a plan that was checked, in these words of it. Of a safe one the proof of each two senders is looked at
/// once more, and of an unsafe one it is tried which edits of what gives it mend its groups.
///
/// # Errors
///
/// Where an allocation fails.
pub fn reasons_of(
    alloc: Global,
    checked: &Checked,
    words: PlanWords<'_>,
    provenance: &Provenance,
) -> Result<Reasons, AllocError>
    requires { AreFaults (plan_contents checked.now.plan) (fault_list checked.now.faults) }
    ensures { IfOk result (λ it. AreReasons (bytes_of provenance.now.texts.items) (plan_contents checked.now.plan)
        (fault_list checked.now.faults) it) }
{
    let Checked { plan, faults } = checked;
    if faults.is_safe() {
        Ok(Reasons::Safe(safety_of(alloc, words)?))
    } else {
        let groups = grouped_of(alloc, plan, words, faults)?;
        let offers = offers_of(alloc, plan, words, faults, &groups, provenance)?;
        Ok(Reasons::Unsafe(groups, offers))
    }
}
