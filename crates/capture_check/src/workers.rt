// The same for many transactions, by several threads.

ghost use Rattle.std.specs.Prelude.{IfOk};
ghost use Rattle.std.specs.List.{AllZip};
ghost use Rattle.plan_core.specs.PlanContents.{plan_contents};
ghost use Rattle.capture_check.specs.Explained.{AreExplainers};
ghost use Rattle.capture_check.specs.Views.{recorded};

use crate::explaining::explain;
use crate::listening::Transaction;
use plan_core::Plan;
use rayon::prelude::*;
use std::alloc::{AllocError, Global};
use std::thread::Threads;

/// What `explain` answers of each transaction, in their order. As many threads work on it as there are processors, or fewer
/// where some can't be started.
pub fn explain_all(
    rt: &(impl Threads + Sync),
    alloc: Global,
    plan: &Plan,
    transactions: &[Transaction],
) -> Result<Vec<Vec<u32>>, AllocError>
    ensures { IfOk result (λ lists.
        AllZip (λ t ps. AreExplainers (plan_contents plan.now) (recorded t) ps.items) transactions.now lists.items) }
{
    transactions
        .par_iter()
        .map(
            |transaction: &Transaction| -> Result<Vec<u32>, AllocError>
                ensures { IfOk result (λ ps.
                    AreExplainers (plan_contents plan.entry.now) (recorded transaction.now) ps.items) }
            { explain(alloc, plan, transaction) },
        )
        .collect::<Result<Vec<Vec<u32>>, AllocError>>(rt, alloc)?
}
