// A quick test that only says yes, over the shared nodes of a plan: where it says nothing, a pair is walked as ever.

ghost use Rattle.std.specs.Prelude.{◌≡◌, ◌<◌, ℕ, length, slice_get, Some, IfOk, IfSome};
ghost use Rattle.std.specs.Bool.{OnTrue};
ghost use Rattle.plan_core.specs.PlanContents.{plan_contents};
ghost use Rattle.plan_core.specs.Pairs.{pairs_of};
ghost use Rattle.plan_core.specs.Participants.{participant_count};
ghost use Rattle.pair_walk.specs.Shared.{AreNodesOf, NeverMeet, NeverFault, ShowsParticipant};
ghost use Rattle.pair_walk.specs.Verdicts.{IsFirstFaultIfAny};

use crate::shared::{Node, SharedNodes};
use crate::walk_pair::first_fault;
use certificate::Fault;
use plan_core::{Participant, Plan};
use std::alloc::{AllocError, Global};

/// As `first_fault`, where the nodes of the plan's messages were made before: sooner for two messages that never clash,
/// most of all where they have much in common.
pub fn first_fault_by(
    alloc: Global,
    plan: &Plan,
    shared: &SharedNodes,
    i: u32,
) -> Result<Option<Fault>, AllocError>
    requires pair { i < length (pairs_of (plan_contents plan.now)) }
    requires nodes { AreNodesOf (plan_contents plan.now) shared.now }
    ensures { IfOk result (λ found. (x y : ℕ) →
        slice_get (pairs_of (plan_contents plan.now)) i ≡ Some (x, y) →
        IsFirstFaultIfAny (plan_contents plan.now) x y found) }
{
    if never_faulty(plan, shared, i) {
        return Ok(None);
    }
    first_fault(alloc, plan, i)
}

// Whether the pair with number `i` is sure to have no fault. `false` says nothing.
fn never_faulty(plan: &Plan, shared: &SharedNodes, i: u32) -> bool
    requires pair { i < length (pairs_of (plan_contents plan.now)) }
    requires nodes { AreNodesOf (plan_contents plan.now) shared.now }
    ensures { OnTrue result (NeverFault (plan_contents plan.now) i) }
{
    let (x, y) = plan.pair(i);
    if let Some((m, a)) = root_of(plan, shared, x) {
        if let Some((n, b)) = root_of(plan, shared, y) {
            let (c, d) = shared.marks.last_alike(m, n, a, b);
            return never_clash(&shared.nodes, c, d);
        }
    }
    false
}

// The message that participant `x` sends, where it sends one, and the number that shows it.
fn root_of(plan: &Plan, shared: &SharedNodes, x: u32) -> Option<(u32, u32)>
    requires participant { x < participant_count (plan_contents plan.now) }
    requires nodes { AreNodesOf (plan_contents plan.now) shared.now }
    ensures { IfSome result (λ root. ShowsParticipant (plan_contents plan.now) shared.now.nodes.items x root.1) }
{
    match plan.participant(x) {
        Participant::Sending { message, .. } => {
            let m = message as usize;
            if m < shared.roots.len() {
                Some((message, shared.roots[m]))
            } else {
                None
            }
        }
        Participant::Interrupt(_) => None,
    }
}

// Whether the two that these numbers show are sure never to clash.
#[cycle(quick)]
fn never_clash(nodes: &[Node], a: u32, b: u32) -> bool
    ensures { OnTrue result (NeverMeet nodes.now a b) }
{
    if a == b {
        return true;
    }
    match node_at(nodes, a) {
        Some(m) => match node_at(nodes, b) {
            Some(n) => nodes_never_clash(nodes, a, b, m, n),
            None => false,
        },
        None => false,
    }
}

// The node with this number.
fn node_at(nodes: &[Node], k: u32) -> Option<Node>
    ensures { IfSome result (λ node. slice_get nodes.now k ≡ Some node) }
{
    let k = k as usize;
    if k < nodes.len() {
        Some(nodes[k])
    } else {
        None
    }
}

// The same of two nodes, with their numbers.
#[cycle(quick)]
fn nodes_never_clash(nodes: &[Node], a: u32, b: u32, m: Node, n: Node) -> bool
    requires first { slice_get nodes.now a ≡ Some m }
    requires second { slice_get nodes.now b ≡ Some n }
    ensures { OnTrue result (NeverMeet nodes.now a b) }
{
    match m {
        Node::Stop => false,
        Node::Again(x) => match n {
            Node::Again(y) => x < a && never_clash(nodes, x, y),
            _ => false,
        },
        Node::Byte {
            bits: p,
            acked: x,
            refused: r,
        } => match n {
            Node::Byte {
                bits: q,
                acked: y,
                refused: s,
            } => match p.first_split(&q) {
                Some(_) => true,
                None => both(nodes, a, x, y, r, s),
            },
            _ => false,
        },
        Node::Write {
            address: p,
            acked: x,
            refused: r,
        } => match n {
            Node::Write {
                address: q,
                acked: y,
                refused: s,
            } => match p.first_split(&q) {
                Some(_) => true,
                None => both(nodes, a, x, y, r, s),
            },
            _ => false,
        },
        Node::Read {
            address: p,
            count: c,
            after: x,
            refused: r,
        } => match n {
            Node::Read {
                address: q,
                count: d,
                after: y,
                refused: s,
            } => match p.first_split(&q) {
                Some(_) => true,
                None => c.meets(&d) && both(nodes, a, x, y, r, s),
            },
            _ => false,
        },
    }
}

// The same of what follows two nodes: both after the acknowledge and after the refusal.
#[cycle(quick)]
fn both(nodes: &[Node], a: u32, x: u32, y: u32, r: u32, s: u32) -> bool
    ensures { OnTrue result (NeverMeet nodes.now x y × NeverMeet nodes.now r s) }
{
    if x >= a || r >= a {
        return false;
    }
    if never_clash(nodes, r, s) {
        return never_clash(nodes, x, y);
    }
    false
}
