// One worker, and what it finds.

ghost use Rattle.std.specs.Prelude.{◌≡◌, ◌<◌, ◌≤◌, ◌++◌, ◌∷◌, ℕ, [], true, Ok};
ghost use Rattle.std.specs.Prelude.{length, IfOk, OnOk, MatchOption};
ghost use Rattle.verdicts.specs.Parts.{IsFoundOf};

use crate::gates::Gate;
use crate::parts::{Found, Job, Part};
use pair_queue::{Owner, Take, Thief};
use std::alloc::{AllocError, Global};

/// How often a thief asks a busy queue before it ends.
const MOST_ASKS: u32 = 64;

/// The owner takes until there is no number left, and works on each.
pub(crate) fn own<X: Drop, G: Gate, F: Fn(u32) -> Result<X, AllocError>>(
    alloc: Global,
    owner: &mut Owner,
    gate: &G,
    f: &F,
) -> Result<Vec<Found<X>>, AllocError>
    requires fresh { owner.old.taken ≡ [] }
    requires calls { (i : ℕ) → i < owner.old.queue.numbers → F.pre f.now i }
    ensures queue { owner.new.queue ≡ owner.old.queue }
    ensures found { IfOk result (λ v. IsFoundOf (λ i x. F.post f.now i (Ok x)) owner.new.taken v.items) }
    ensures ended { OnOk result (owner.new.ended ≡ true) }
{
    let mut found = Vec::new(alloc);
    while let Some(number) = owner.take() {
        work(&mut found, gate, 0, number, f)?;
    }
    Ok(found)
}

/// A thief takes until it is told that there is no number left, or is told too often in a row that the queue is busy,
/// and works on each number.
pub(crate) fn steal<X: Drop, G: Gate, F: Fn(u32) -> Result<X, AllocError>>(
    alloc: Global,
    job: Job,
    gate: &G,
    f: &F,
) -> Part<X>
    requires fresh { job.thief.taken ≡ [] }
    requires calls { (i : ℕ) → i < job.thief.queue.numbers → F.pre f.now i }
    ensures queue { result.thief.queue ≡ job.thief.queue }
    ensures found { IfOk result.found (λ v. IsFoundOf (λ i x. F.post f.now i (Ok x)) result.thief.taken v.items) }
{
    let Job { worker, mut thief } = job;
    let found = steal_all(alloc, worker, &mut thief, gate, f);
    Part { thief, found }
}

fn steal_all<X: Drop, G: Gate, F: Fn(u32) -> Result<X, AllocError>>(
    alloc: Global,
    worker: u32,
    thief: &mut Thief,
    gate: &G,
    f: &F,
) -> Result<Vec<Found<X>>, AllocError>
    requires fresh { thief.old.taken ≡ [] }
    requires calls { (i : ℕ) → i < thief.old.queue.numbers → F.pre f.now i }
    ensures queue { thief.new.queue ≡ thief.old.queue }
    ensures found { IfOk result (λ v. IsFoundOf (λ i x. F.post f.now i (Ok x)) thief.new.taken v.items) }
{
    let mut found = Vec::new(alloc);
    while let Some(number) = ask(thief) {
        work(&mut found, gate, worker, number, f)?;
    }
    Ok(found)
}

// The next number, or none where there is none left or the queue was busy too often in a row.
fn ask(thief: &mut Thief) -> Option<u32>
    ensures queue { thief.new.queue ≡ thief.old.queue }
    ensures number { MatchOption result (thief.new.taken ≡ thief.old.taken) (λ i.
        (thief.new.taken ≡ thief.old.taken ++ i ∷ []) × (i < thief.old.queue.numbers)
        × (length thief.new.taken ≤ thief.new.queue.numbers)) }
{
    for _ in 0..MOST_ASKS {
        match thief.take() {
            Take::Pair(number) => return Some(number),
            Take::Empty => return None,
            Take::Busy => {}
        }
    }
    None
}

// Works on one number.
fn work<X: Drop, G: Gate, F: Fn(u32) -> Result<X, AllocError>>(
    found: &mut Vec<Found<X>>,
    gate: &G,
    worker: u32,
    number: u32,
    f: &F,
) -> Result<(), AllocError>
    requires { F.pre f.now number }
    ensures { OnOk result ((x : X) × (found.new.items ≡ found.old.items ++ record { number = number; value = x } ∷ [])
        × F.post f.now number (Ok x)) }
{
    gate.before(worker, number);
    let value = f(number)?;
    gate.after(worker, number);
    found.push(Found { number, value })?;
    Ok(())
}
