// All pairs of a plan, walked on one thread.

ghost use Rattle.std.specs.Prelude.{IfOk};
ghost use Rattle.plan_core.specs.PlanContents.{plan_contents};
ghost use Rattle.verdicts.specs.Tables.{IsTable};

use crate::tables::Table;
use pair_walk::walk;
use plan_core::Plan;
use std::alloc::{AllocError, Global};

/// The verdicts of all pairs of the plan, in the order of the pairs.
pub fn table(alloc: Global, plan: &Plan) -> Result<Table, AllocError>
    ensures { IfOk result (IsTable (plan_contents plan.now)) }
{
    let mut verdicts = Vec::new(alloc);
    for i in 0..plan.pair_count() {
        verdicts.push(walk(alloc, plan, i)?)?;
    }
    Ok(Table { verdicts })
}
