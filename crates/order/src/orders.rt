// Who wins in each pair.

ghost use Rattle.std.specs.Prelude.{◌≡◌, length, drop, IfOk};
ghost use Rattle.order.specs.Listed.{is_first};
ghost use Rattle.order.specs.Orders.{IsOrder};
ghost use Rattle.order.specs.Ways.{AreWaysOf};
ghost use Rattle.plan_core.specs.Pairs.{pairs_of};
ghost use Rattle.plan_core.specs.PlanContents.{plan_contents};
ghost use Rattle.verdicts.specs.Faults.{AreFaults, fault_list};

use crate::known::Known;
use crate::totals::{Total, totals_of};
use arbitration::{Outcomes, laid_out};
use plan_core::Plan;
use std::alloc::{AllocError, Global};
use verdicts::Faults;

/// Who wins arbitration in each pair of a plan (UM10204, 3.1.8).
pub struct Order {
    /// By the number of the pair: its two participants, the lower number first.
    pub pairs: Vec<(u32, u32)>,
    /// By the number of the pair: in which slots both may end together, in which the first may go on while the second has
    /// lost, and in which the second may; the earliest and the latest of each. `None` where the pair has a fault.
    pub ways: Vec<Option<Outcomes>>,
    /// By the number of the participant: in how many pairs it alone can win, in how many either can, and in how many the
    /// other alone can.
    pub totals: Vec<Total>,
}

// Written out, so that one call lets it go.
impl Drop for Order {
    fn drop(self) {
        let Self {
            pairs: _,
            ways: _,
            totals: _,
        } = self;
    }
}

/// Who wins in each pair of the plan, which has these faults.
///
/// # Errors
///
/// Where an allocation fails.
pub fn order_of(alloc: Global, plan: &Plan, faults: &Faults) -> Result<Order, AllocError>
    ensures { IfOk result (λ order. AreFaults (plan_contents plan.now) (fault_list faults.now) →
        IsOrder (plan_contents plan.now) order) }
{
    let pairs = pairs_in(alloc, plan)?;
    let ways = ways_in(alloc, plan, faults)?;
    let totals = totals_of(alloc, plan.participants(), &pairs, &ways)?;
    Ok(Order {
        pairs,
        ways,
        totals,
    })
}

// The pairs of the plan.
fn pairs_in(alloc: Global, plan: &Plan) -> Result<Vec<(u32, u32)>, AllocError>
    ensures { IfOk result (λ pairs. pairs.items ≡ pairs_of (plan_contents plan.now)) }
{
    let mut pairs = Vec::with_capacity(alloc, plan.pair_count() as usize)?;
    for i in 0..plan.pair_count() {
        pairs.push(plan.pair(i))?;
    }
    Ok(pairs)
}

// How the pairs of the plan may end, which has these faults.
fn ways_in(alloc: Global, plan: &Plan, faults: &Faults) -> Result<Vec<Option<Outcomes>>, AllocError>
    ensures whole { IfOk result (λ ways. length ways.items ≡ length (pairs_of (plan_contents plan.now))) }
    ensures each { IfOk result (λ ways. AreFaults (plan_contents plan.now) (fault_list faults.now) →
        AreWaysOf (plan_contents plan.now) ways.items) }
{
    let laid = laid_out(alloc, plan)?;
    let mut known = Known::new(alloc, plan)?;
    let mut ways = Vec::with_capacity(alloc, plan.pair_count() as usize)?;
    let mut met = 0usize;
    for i in 0..plan.pair_count() {
        if is_next(faults, met, i) {
            met += 1;
            ways.push(None)?;
        } else {
            let (x, y) = plan.pair(i);
            ways.push(Some(known.of(plan, &laid, x, y)))?;
        }
    }
    Ok(ways)
}

// Whether this pair is the next one of those that are not safe.
fn is_next(faults: &Faults, met: usize, pair: u32) -> bool
    ensures { result ≡ is_first (drop met (fault_list faults.now)) pair }
{
    met < faults.len() && faults.get(met).0 == pair
}
