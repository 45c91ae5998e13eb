// Proofs and wires of more levels than any certificate has.

use cert_check::{accept_plan, check_fault, check_pair};
use certificate::{Cert, CertFault, CertText, Fault, print_cert};
use message_tree::{Item, Kind};
use plan_core::Plan;
use plan_text::{PlanError, read_plan};
use std::alloc::{AllocError, Global};
use std::test::Fail;

const TWO_OPEN: &str =
    "plan 1\nmessage m write 1010000 xxxxxxxx stop else stop else stop ;\ncontroller a m ;\ncontroller b m ;\n";

/// Far more levels than a thread has stack for, at one call a level.
const LEVELS: usize = 3_000_000;

// A proof that is `n` nodes deep, in one of four shapes.
fn deep(alloc: Global, n: usize, shape: u32) -> Result<Cert, AllocError> {
    let mut proof = Cert::Alike;
    for _ in 0..n {
        proof = deeper(alloc, proof, shape)?;
    }
    Ok(proof)
}

fn deeper(alloc: Global, proof: Cert, shape: u32) -> Result<Cert, AllocError> {
    let node = Box::new(alloc, proof)?;
    if shape == 3 {
        return Ok(Cert::Again(node));
    }
    let end = if shape == 2 { Cert::Short } else { Cert::Alike };
    let leaf = Box::new(alloc, end)?;
    Ok(match shape {
        0 => Cert::Byte(node, leaf),
        1 => Cert::Byte(leaf, node),
        _ => Cert::Read(leaf, node),
    })
}

fn proofs(alloc: Global, shape: u32) -> Result<Vec<Cert>, AllocError> {
    let proof = deep(alloc, LEVELS, shape)?;
    Ok(vec![in alloc; proof]?)
}

// The one pair of the plan is not proved by the first of these.
fn is_not_proved(plan: &Plan, proofs: &[Cert]) -> bool {
    match proofs.first() {
        Some(proof) => plan.pair_count() == 1 && !check_pair(plan, 0, proof),
        None => false,
    }
}

// And so the plan is not accepted with them.
fn is_refused(plan: Plan, proofs: &[Cert]) -> bool {
    let is_not_proved = is_not_proved(&plan, proofs);
    match accept_plan(plan, proofs) {
        Ok(_) => false,
        Err((_, fault)) => fault == CertFault::Pair(0) && is_not_proved,
    }
}

fn are_refused(alloc: Global, shape: u32) -> Result<bool, PlanError> {
    let proofs = proofs(alloc, shape)?;
    match read_plan(alloc, TWO_OPEN.as_bytes()) {
        Ok(plan) => Ok(is_refused(plan, proofs.as_slice())),
        Err(refusal) => Err(refusal),
    }
}

#[test]
fn proofs_of_3_000_000_levels_are_checked_and_dropped(rt: HostRuntime) {
    for shape in 0..4 {
        assert!(rt; are_refused(rt.alloc(), shape) == Ok(true));
    }
}

// So many items that are all like this one lead to a fault of the pair.
fn is_fault_behind(alloc: Global, plan: &Plan, item: Item, n: usize) -> Result<bool, AllocError> {
    let fault = Fault {
        wire: vec![in alloc; item; n]?,
        first: Kind::Stop,
        second: Kind::Sent,
    };
    Ok(plan.pair_count() == 1 && check_fault(plan, 0, &fault))
}

fn is_fault_nowhere(alloc: Global, plan: &Plan) -> Result<bool, AllocError> {
    for item in &[Item::Sent(true), Item::Heard(false), Item::Again] {
        if is_fault_behind(alloc, plan, *item, LEVELS)? {
            return Ok(false);
        }
    }
    Ok(plan.pair_count() == 1)
}

#[test]
fn a_fault_behind_3_000_000_items_is_none_of_a_short_pair(rt: HostRuntime) -> Result<(), Fail> {
    let plan = read_plan(rt.alloc(), TWO_OPEN.as_bytes())?;
    assert!(rt; is_fault_nowhere(rt.alloc(), &plan) == Ok(true));
    Ok(())
}

// How many bytes the certificate has with a proof alone that is so many nodes deep.
fn printed(alloc: Global, shape: u32) -> Result<usize, AllocError> {
    let text = CertText::Proofs(proofs(alloc, shape)?);
    Ok(print_cert(alloc, &text)?.len())
}

// The first two lines, and for each node a letter or a dot, and what ends it.
#[test]
fn proofs_of_3_000_000_levels_are_printed(rt: HostRuntime) {
    for (shape, leaves) in &[(0, LEVELS + 1), (1, LEVELS + 1), (2, LEVELS + 1), (3, 1)] {
        assert!(rt; printed(rt.alloc(), *shape) == Ok(15 + 2 * (LEVELS + *leaves)));
    }
}
