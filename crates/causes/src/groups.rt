// The groups of the unsafe pairs of a plan.

ghost use Rattle.std.specs.Prelude.{◌≡◌, ◌<◌, ℕ, IfOk, List, Some, length, slice_get, slice_index_or};
ghost use Rattle.plan_core.specs.PlanContents.{plan_contents};
ghost use Rattle.verdicts.specs.Faults.{AreFaults, fault_list};
ghost use Rattle.causes.specs.Causes.{causes_of, wires_of};
ghost use Rattle.causes.specs.Groupings.{AreGroups, group_list, number_list};
ghost use Rattle.causes.specs.Orders.{AreGroupsAt, AreWithin, HasOrder, IsOrder, IsWithin};

use crate::families::Family;
use crate::grouping::{counts, numbered};
use crate::keys::causes_of;
use crate::meetings::Cause;
use crate::orders::by_wire;
use plan_core::Plan;
use std::alloc::{AllocError, Global};
use verdicts::Faults;

/// The unsafe pairs that have one cause.
#[derive(Clone, Copy)]
pub struct Group {
    pub cause: Cause,
    /// How many they are.
    pub pairs: usize,
    /// The place among the unsafe pairs of the one with the shortest wire: the first one where several wires are shortest.
    pub example: usize,
}

/// The unsafe pairs of a plan, in groups of one cause each.
#[derive(Drop)]
pub struct Groups {
    pub(crate) groups: Vec<Group>,
    pub(crate) numbers: Vec<usize>,
}

impl Groups {
    /// How many unsafe pairs there are.
    pub fn pairs(&self) -> usize
        ensures { result ≡ length (number_list self.now) }
    {
        self.numbers.len()
    }

    /// How many groups there are.
    pub fn len(&self) -> usize
        ensures { result ≡ length (group_list self.now) }
    {
        self.groups.len()
    }

    /// The group with this number.
    pub fn get(&self, g: usize) -> Group
        requires { g < length (group_list self.now) }
        ensures { slice_get (group_list self.now) g ≡ Some result }
    {
        self.groups[g]
    }

    /// The number of the group of the `k`th of the unsafe pairs.
    pub fn group_of(&self, k: usize) -> usize
        requires { k < length (number_list self.now) }
        ensures { slice_get (number_list self.now) k ≡ Some result }
    {
        self.numbers[k]
    }
}

/// The unsafe pairs of the plan, in groups of one cause each, where these are the families of its messages. Groups are numbered
/// from 0 by the wires of their examples, the shortest first, and where these are equally long by the number of the pair.
pub fn groups_of(
    alloc: Global,
    plan: &Plan,
    families: &[Family],
    faults: &Faults,
) -> Result<Groups, AllocError>
    requires families { length families.now ≡ length (plan_contents plan.now).messages }
    requires faults { AreFaults (plan_contents plan.now) (fault_list faults.now) }
    ensures { IfOk result (λ groups. AreGroups (causes_of (plan_contents plan.now) families.now (fault_list faults.now))
        (wires_of (fault_list faults.now)) (group_list groups) (number_list groups)) }
{
    let causes = causes_of(alloc, plan, families, faults)?;
    let order = by_wire(alloc, faults)?;
    let groups = grouped(alloc, causes.as_slice(), order.as_slice())?;
    Ok(groups)
}

// What has these causes, in groups, where this is the order of the wires.
fn grouped(alloc: Global, causes: &[Cause], order: &[(usize, usize)]) -> Result<Groups, AllocError>
    requires { HasOrder causes.now order.now }
    ensures { IfOk result (λ groups. (wires : List ℕ) → length wires ≡ length causes.now → IsOrder wires order.now →
        AreGroups causes.now wires (group_list groups) (number_list groups)) }
{
    let (places, numbers) = numbered(alloc, causes, order)?;
    let counts = counts(alloc, places.len(), numbers.as_slice())?;
    let groups = groups_at(alloc, causes, order, places.as_slice(), counts.as_slice())?;
    Ok(Groups { groups, numbers })
}

// The groups whose examples stand at these places in the order.
fn groups_at(
    alloc: Global,
    causes: &[Cause],
    order: &[(usize, usize)],
    places: &[usize],
    counts: &[usize],
) -> Result<Vec<Group>, AllocError>
    requires causes { IsWithin (length causes.now) order.now }
    requires places { AreWithin (length order.now) places.now }
    requires counts { length counts.now ≡ length places.now }
    ensures { IfOk result (λ groups. AreGroupsAt causes.now order.now places.now counts.now (length places.now) groups.items) }
{
    let mut groups = Vec::with_capacity(alloc, places.len())?;
    for g in 0..places.len() {
        groups.push(group_at(causes, order, places[g], counts[g]))?;
    }
    Ok(groups)
}

// A group of so many pairs, whose example stands at this place in the order.
fn group_at(causes: &[Cause], order: &[(usize, usize)], i: usize, pairs: usize) -> Group
    requires place { i < length order.now }
    requires within { (slice_index_or order.now i (0, 0)).1 < length causes.now }
    ensures cause { slice_get causes.now (slice_index_or order.now i (0, 0)).1 ≡ Some result.cause }
    ensures example { result.example ≡ (slice_index_or order.now i (0, 0)).1 }
    ensures pairs { result.pairs ≡ pairs }
{
    let (_, k) = order[i];
    Group {
        cause: causes[k],
        pairs,
        example: k,
    }
}
