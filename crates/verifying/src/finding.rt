// What runs find in a plan text.

ghost use Rattle.std.specs.Prelude.{IfOk, IfErr};
ghost use Rattle.plan_core.specs.PlanContents.{plan_contents};
ghost use Rattle.plan_text.specs.Grammar.{Spells};
ghost use Rattle.run_parts.specs.Finding.{Finds};
ghost use Rattle.run_parts.specs.PlanTexts.{RefusesPlan};
ghost use Rattle.run_parts.specs.Runs.{ReadsText, HaltsAtText};

use plan_core::Plan;
use plan_text::read_plan;
use run_parts::devices::reading::READS;
use run_parts::{Input, RunError, read_within};
use std::alloc::Global;

/// The plan that the reader gives.
///
/// # Errors
///
/// `Read` where the reader failed or gave no end, and `Plan` with the first refusal of the plan text. `NoMemory` where an
/// allocation fails.
pub fn find_plan<I: Input>(alloc: Global, plan: &mut I) -> Result<Plan, RunError>
    ensures found { IfOk result (λ it. Finds (ReadsText I.reader) Spells plan.old (plan_contents it) plan.new) }
    ensures stops { IfErr result (λ error. HaltsAtText I.reader RefusesPlan plan.old error plan.new) }
{
    let text = read_within(alloc, plan, READS)?;
    let found = read_plan(alloc, text.as_slice())?;
    Ok(found)
}
