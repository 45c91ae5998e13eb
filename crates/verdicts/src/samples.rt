// What the pairs of a plan come to, found by several workers: what they share out are the places of two senders, and at
// each place one pair is compared.

ghost use Rattle.std.specs.Prelude.{◌≡◌, ◌<◌, ◌≤◌, ℕ, length, replicate, slice_get, Some, None, IfOk};
ghost use Rattle.plan_core.specs.PlanContents.{plan_contents};
ghost use Rattle.plan_core.specs.Pairs.{pairs_of};
ghost use Rattle.pair_walk.specs.Shared.{AreNodesOf};
ghost use Rattle.verdicts.specs.Known.{KnowsPairs};
ghost use Rattle.verdicts.specs.Samples.{AreSamples, IsKnownAt};

use crate::gates::Gate;
use crate::known::{Known, known_by};
use crate::sharing::{MOST_WORKERS, share};
use pair_walk::{SharedNodes, first_fault_by, shared_nodes};
use plan_core::Plan;
use std::alloc::{AllocError, Global};
use std::thread::Threads;

/// What all pairs of the plan come to, each at the place of its two senders, by so many workers.
pub(crate) fn known_together<R: Threads + Sync, G: Gate + Sync>(
    rt: &R,
    alloc: Global,
    plan: &Plan,
    workers: u32,
    gate: &G,
) -> Result<Vec<Known>, AllocError>
    requires { (0 < workers) × (workers ≤ MOST_WORKERS) }
    ensures { IfOk result (λ known.
        KnowsPairs (plan_contents plan.now) known.items (length (pairs_of (plan_contents plan.now)))) }
{
    let places = plan.sender_places() as u32;
    let samples = samples(alloc, plan)?;
    let samples = samples.as_slice();
    let nodes = shared_nodes(alloc, plan)?;
    let nodes = &nodes;
    let known = share(
        rt,
        alloc,
        places,
        workers,
        gate,
        &|k: u32| -> Result<Known, AllocError>
            requires { (k < length samples.now) × AreSamples (plan_contents plan.now) samples.now
                (length (pairs_of (plan_contents plan.now))) × AreNodesOf (plan_contents plan.now) nodes.now }
            ensures { IfOk result (IsKnownAt (plan_contents plan.entry.now) samples.entry.now k) }
        { known_at(alloc, plan, nodes, samples, k) },
    )?;
    Ok(known)
}

// What the pair at place `k` comes to, if there is one.
fn known_at(
    alloc: Global,
    plan: &Plan,
    nodes: &SharedNodes,
    samples: &[Option<u32>],
    k: u32,
) -> Result<Known, AllocError>
    requires nodes { AreNodesOf (plan_contents plan.now) nodes.now }
    requires place { k < length samples.now }
    requires samples { AreSamples (plan_contents plan.now) samples.now (length (pairs_of (plan_contents plan.now))) }
    ensures { IfOk result (IsKnownAt (plan_contents plan.now) samples.now k) }
{
    match samples[k as usize] {
        None => Ok(Known::NotYet),
        Some(i) => Ok(known_by(first_fault_by(alloc, plan, nodes, i)?)),
    }
}

// For each place of two senders that are a pair, one such pair.
fn samples(alloc: Global, plan: &Plan) -> Result<Vec<Option<u32>>, AllocError>
    ensures { IfOk result (λ samples.
        AreSamples (plan_contents plan.now) samples.items (length (pairs_of (plan_contents plan.now)))) }
{
    let mut samples = no_samples(alloc, plan.sender_places())?;
    for i in 0..plan.pair_count() {
        let place = plan.sender_place(i);
        samples[place] = Some(i);
    }
    Ok(samples)
}

fn no_samples(alloc: Global, n: usize) -> Result<Vec<Option<u32>>, AllocError>
    ensures { IfOk result (λ samples. samples.items ≡ replicate n None) }
{
    let mut samples = Vec::with_capacity(alloc, n)?;
    for _ in 0..n {
        samples.push(None)?;
    }
    Ok(samples)
}
