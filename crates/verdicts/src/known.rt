// What two senders come to who start together, as far as a plan's pairs need it.

ghost use Rattle.std.specs.Prelude.{◌≡◌, ℕ, ◌<◌, length, replicate, IfOk, OnOk};
ghost use Rattle.plan_core.specs.PlanContents.{plan_contents};
ghost use Rattle.plan_core.specs.Pairs.{pairs_of};
ghost use Rattle.pair_walk.specs.Shared.{AreNodesOf};
ghost use Rattle.verdicts.specs.declared.known.Known.TheVariants.{NotYet};
ghost use Rattle.verdicts.specs.Known.{known_as, IsMemo, KnowsPair, KnowsPairs};

use certificate::Fault;
use pair_walk::{SharedNodes, first_fault_by, shared_nodes};
use plan_core::Plan;
use std::alloc::{AllocError, Global};

/// What two senders come to who start together.
#[derive(Drop)]
pub(crate) enum Known {
    /// They have not been compared.
    NotYet,
    /// They never clash.
    Safe,
    /// Their first fault.
    Unsafe(Fault),
}

/// What all pairs of the plan come to, each at the place of its two senders.
pub(crate) fn known_pairs(alloc: Global, plan: &Plan) -> Result<Vec<Known>, AllocError>
    ensures { IfOk result (λ known.
        KnowsPairs (plan_contents plan.now) known.items (length (pairs_of (plan_contents plan.now)))) }
{
    let nodes = shared_nodes(alloc, plan)?;
    let mut known = not_yet(alloc, plan.sender_places())?;
    for i in 0..plan.pair_count() {
        learn(alloc, plan, &nodes, &mut known, i)?;
    }
    Ok(known)
}

// Finds what pair `i` comes to, unless that of its two senders is known.
fn learn(
    alloc: Global,
    plan: &Plan,
    nodes: &SharedNodes,
    known: &mut Vec<Known>,
    i: u32,
) -> Result<(), AllocError>
    requires nodes { AreNodesOf (plan_contents plan.now) nodes.now }
    requires pair { i < length (pairs_of (plan_contents plan.now)) }
    requires memo { IsMemo (plan_contents plan.now) known.old.items }
    ensures memo { OnOk result (IsMemo (plan_contents plan.now) known.new.items) }
    ensures knows { OnOk result (KnowsPair (plan_contents plan.now) known.new.items i) }
    ensures keeps { OnOk result ((j : ℕ) →
        KnowsPair (plan_contents plan.now) known.old.items j → KnowsPair (plan_contents plan.now) known.new.items j) }
{
    let place = plan.sender_place(i);
    if let Known::NotYet = known[place] {
        known[place] = known_by(first_fault_by(alloc, plan, nodes, i)?);
    }
    Ok(())
}

pub(crate) fn known_by(fault: Option<Fault>) -> Known
    ensures { result ≡ known_as fault }
{
    match fault {
        None => Known::Safe,
        Some(fault) => Known::Unsafe(fault),
    }
}

fn not_yet(alloc: Global, n: usize) -> Result<Vec<Known>, AllocError>
    ensures { IfOk result (λ known. known.items ≡ replicate n NotYet) }
{
    let mut known = Vec::with_capacity(alloc, n)?;
    for _ in 0..n {
        known.push(Known::NotYet)?;
    }
    Ok(known)
}
