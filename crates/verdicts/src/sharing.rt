// Work on the numbers below n, shared among threads: each number is worked on once, and what was found is told in the
// order of the numbers, whatever the schedule, the gate and the threads that could be made.

ghost use Rattle.std.specs.Prelude.{◌≡◌, ◌<◌, ◌≤◌, ◌++◌, ◌∷◌, ℕ, [], true, Ok, All, IfOk, OnOk};
ghost use Rattle.std.specs.Prelude.{vec_len, flat_map, map, slice_index_or};
ghost use Rattle.std.specs.Thread.{IsSync};
ghost use Rattle.pair_queue.specs.Seats.{Queue};
ghost use Rattle.pair_queue.specs.Dispatch.{first_numbers};
ghost use Rattle.std.specs.List.Sorted.{IsPermutation};
ghost use Rattle.verdicts.specs.Parts.{IsFoundOf, IsPart, IsJob, HasNumbers, numbers_of, items_of};

use crate::gates::Gate;
use crate::parts::{Found, Job, Part};
use crate::workers::{own, steal};
use pair_queue::{MOST_NUMBERS, MOST_THIEVES, Owner, Thief, open_queue, settle};
use std::alloc::{AllocError, Global};
use std::thread;
use std::thread::Threads;

/// The most workers that share the work on a plan's pairs: the caller, and a thief for each further one.
pub const MOST_WORKERS: u32 = MOST_THIEVES + 1;

// Each thief in a thread of its own, where one can be made.
fn steal_in_threads<
    R: Threads + Sync,
    X: Send + Drop,
    G: Gate + Sync,
    F: Fn(u32) -> Result<X, AllocError> + Sync,
>(rt: &R, alloc: Global, jobs: Vec<Job>, gate: &G, f: &F) -> Result<Vec<Part<X>>, AllocError>
    requires fresh { All (λ j. j.thief.taken ≡ []) jobs.items }
    requires calls { All (λ j. (i : ℕ) → i < j.thief.queue.numbers → F.pre f.now i) jobs.items }
    ensures len { IfOk result (λ v. vec_len v ≡ vec_len jobs) }
    ensures parts { (q : Queue) → All (λ j. j.thief.queue ≡ q) jobs.items →
        IfOk result (λ v. All (IsPart (λ i x. F.post f.now i (Ok x)) q) v.items) }
{
    thread::map_vec(
        rt,
        jobs,
        &|job: Job| -> Part<X>
            requires { (job.thief.taken ≡ []) × ((i : ℕ) → i < job.thief.queue.numbers → F.pre f.now i) }
            ensures { (result.thief.queue ≡ job.thief.queue) × IfOk result.found (λ v.
                IsFoundOf (λ i x. F.post f.entry.now i (Ok x)) result.thief.taken v.items) }
        { steal(alloc, job, gate, f) },
    )
}

// What the owner finds, with the owner.
fn own_all<X: Drop, G: Gate, F: Fn(u32) -> Result<X, AllocError>>(
    alloc: Global,
    mut owner: Owner,
    gate: &G,
    f: &F,
) -> (Owner, Result<Vec<Found<X>>, AllocError>)
    requires fresh { owner.taken ≡ [] }
    requires calls { (i : ℕ) → i < owner.queue.numbers → F.pre f.now i }
    ensures queue { result.0.queue ≡ owner.queue }
    ensures found { IfOk result.1 (λ v. IsFoundOf (λ i x. F.post f.now i (Ok x)) result.0.taken v.items) }
    ensures ended { OnOk result.1 (result.0.ended ≡ true) }
{
    let found = own(alloc, &mut owner, gate, f);
    (owner, found)
}

// All seats, after each has ended its work. Where no thread can be made the owner works first.
fn work_together<
    R: Threads + Sync,
    X: Send + Drop,
    G: Gate + Sync,
    F: Fn(u32) -> Result<X, AllocError> + Sync,
>(
    rt: &R,
    alloc: Global,
    owner: Owner,
    jobs: Vec<Job>,
    gate: &G,
    f: &F,
) -> (
    Result<Vec<Part<X>>, AllocError>,
    (Owner, Result<Vec<Found<X>>, AllocError>),
)
    requires fresh { owner.taken ≡ [] }
    requires jobs { All (IsJob owner.queue) jobs.items }
    requires calls { (i : ℕ) → i < owner.queue.numbers → F.pre f.now i }
    ensures queue { result.1.0.queue ≡ owner.queue }
    ensures found { IfOk result.1.1 (λ v. IsFoundOf (λ i x. F.post f.now i (Ok x)) result.1.0.taken v.items) }
    ensures ended { OnOk result.1.1 (result.1.0.ended ≡ true) }
    ensures len { IfOk result.0 (λ v. vec_len v ≡ vec_len jobs) }
    ensures parts { IfOk result.0 (λ v. All (IsPart (λ i x. F.post f.now i (Ok x)) owner.queue) v.items) }
{
    if jobs.is_empty() {
        return (Ok(Vec::new(alloc)), own_all(alloc, owner, gate, f));
    }
    thread::join(
        rt,
        move || -> Result<Vec<Part<X>>, AllocError>
            requires { All (λ j. j.thief.taken ≡ []) jobs.items
                × All (λ j. (i : ℕ) → i < j.thief.queue.numbers → F.pre f.now i) jobs.items
                × IsSync R.row × IsSync G.row × IsSync F.row }
            ensures { IfOk result (λ v. vec_len v ≡ vec_len jobs)
                × ((q : Queue) → All (λ j. j.thief.queue ≡ q) jobs.items →
                IfOk result (λ v. All (IsPart (λ i x. F.post f.entry.now i (Ok x)) q) v.items)) }
        { steal_in_threads(rt, alloc, jobs, gate, f) },
        move || -> (Owner, Result<Vec<Found<X>>, AllocError>)
            requires { (owner.taken ≡ []) × ((i : ℕ) → i < owner.queue.numbers → F.pre f.now i) }
            ensures { (result.0.queue ≡ owner.queue)
                × IfOk result.1 (λ v. IsFoundOf (λ i x. F.post f.entry.now i (Ok x)) result.0.taken v.items)
                × OnOk result.1 (result.0.ended ≡ true) }
        { own_all(alloc, owner, gate, f) },
    )
}

// What all of them found, each number once.
fn gathered<X: Drop>(
    alloc: Global,
    owner: Owner,
    found: Vec<Found<X>>,
    parts: Vec<Part<X>>,
) -> Result<Vec<Found<X>>, AllocError>
    requires ended { owner.ended ≡ true }
    requires numbers { numbers_of found.items ≡ owner.taken }
    requires len { vec_len parts ≡ owner.queue.thieves }
    requires parts { All (HasNumbers owner.queue) parts.items }
    ensures items { IfOk result (λ v. v.items ≡ found.items ++ flat_map items_of parts.items) }
    ensures each_once { IfOk result (λ v. IsPermutation (first_numbers owner.queue.numbers) (numbers_of v.items)) }
{
    let mut all = found;
    let mut thieves = Vec::new(alloc);
    for part in parts {
        add(&mut all, &mut thieves, part)?;
    }
    match settle(owner, thieves) {
        Ok(_) => Ok(all),
        Err(_) => unreachable!(),
    }
}

// Puts what was found of each number below n into the order of the numbers.
fn in_order<X>(found: &mut Vec<Found<X>>, n: u32)
    requires { IsPermutation (first_numbers n) (numbers_of found.old.items) }
    ensures same { IsPermutation found.old.items found.new.items }
    ensures order { numbers_of found.new.items ≡ first_numbers n }
{
    found.sort_unstable_by_key(|f| f.number);
}

// Adds what one thief found, and the thief.
fn add<X: Drop>(
    all: &mut Vec<Found<X>>,
    thieves: &mut Vec<Thief>,
    part: Part<X>,
) -> Result<(), AllocError>
    requires { IfOk part.found (λ v. numbers_of v.items ≡ part.thief.taken) }
    ensures items { OnOk result (all.new.items ≡ all.old.items ++ items_of part) }
    ensures numbers { OnOk result (numbers_of all.new.items ≡ numbers_of all.old.items ++ part.thief.taken) }
    ensures thieves { OnOk result (thieves.new.items ≡ thieves.old.items ++ part.thief ∷ []) }
{
    let Part { thief, found } = part;
    let mut more = found?;
    all.append(&mut more)?;
    thieves.push(thief)?;
    Ok(())
}

/// What `f` gives for each number below n, in order, by so many workers. Each calls the gate before and after.
pub(crate) fn share<
    R: Threads + Sync,
    X: Send + Drop,
    G: Gate + Sync,
    F: Fn(u32) -> Result<X, AllocError> + Sync,
>(rt: &R, alloc: Global, n: u32, workers: u32, gate: &G, f: &F) -> Result<Vec<X>, AllocError>
    requires numbers { n ≤ MOST_NUMBERS }
    requires workers { (0 < workers) × (workers ≤ MOST_WORKERS) }
    requires calls { (i : ℕ) → i < n → F.pre f.now i }
    ensures len { IfOk result (λ v. vec_len v ≡ n) }
    ensures each { IfOk result (λ v. (i : ℕ) (d : X) → i < n → F.post f.now i (Ok (slice_index_or v.items i d))) }
{
    let found = found_together(rt, alloc, n, workers, gate, f)?;
    let values = values(alloc, found)?;
    Ok(values)
}

// What was found of each number below n, in their order.
fn found_together<
    R: Threads + Sync,
    X: Send + Drop,
    G: Gate + Sync,
    F: Fn(u32) -> Result<X, AllocError> + Sync,
>(rt: &R, alloc: Global, n: u32, workers: u32, gate: &G, f: &F) -> Result<Vec<Found<X>>, AllocError>
    requires numbers { n ≤ MOST_NUMBERS }
    requires workers { (0 < workers) × (workers ≤ MOST_WORKERS) }
    requires calls { (i : ℕ) → i < n → F.pre f.now i }
    ensures { IfOk result (λ v. IsFoundOf (λ i x. F.post f.now i (Ok x)) (first_numbers n) v.items) }
{
    let (owner, thieves) = open_queue(alloc, n, workers - 1)?;
    let jobs = jobs(alloc, thieves)?;
    let (parts, (owner, found)) = work_together(rt, alloc, owner, jobs, gate, f);
    let mut all = gathered(alloc, owner, found?, parts?)?;
    in_order(&mut all, n);
    Ok(all)
}

// What was found, without the numbers.
fn values<X: Drop>(alloc: Global, found: Vec<Found<X>>) -> Result<Vec<X>, AllocError>
    ensures { IfOk result (λ v. v.items ≡ map (λ f. f.value) found.items) }
{
    let mut values = Vec::new(alloc);
    for f in found {
        values.push(f.value)?;
    }
    Ok(values)
}

// Numbers the thieves from 1 on: worker 0 is the owner.
fn jobs(alloc: Global, thieves: Vec<Thief>) -> Result<Vec<Job>, AllocError>
    requires { vec_len thieves ≤ MOST_THIEVES }
    ensures { IfOk result (λ v. map (λ j. j.thief) v.items ≡ thieves.items) }
{
    let mut jobs = Vec::new(alloc);
    let mut worker = 0;
    for thief in thieves {
        worker += 1;
        jobs.push(Job { worker, thief })?;
    }
    Ok(jobs)
}
