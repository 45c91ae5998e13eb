// Which unsafe pairs an edit of a plan leaves, and whether it makes others unsafe.

ghost use Rattle.std.specs.Prelude.{◌≡◌, ◌↔◌, ◌<◌, ◌≤◌, true, false, IfOk, IfSome, IsTrue, MatchOption, is_none, Some, length, map, replicate, slice_get, slice_set};
ghost use Rattle.std.specs.List.{list_all};
ghost use Rattle.std.specs.Map.{keys_of};
ghost use Rattle.plan_core.specs.NameBytes.{name_bytes};
ghost use Rattle.plan_core.specs.Participants.{participant_count};
ghost use Rattle.plan_core.specs.PlanContents.{plan_contents};
ghost use Rattle.verdicts.specs.Faults.{AreFaults, fault_list};
ghost use Rattle.mending.specs.Left.{AreLeft, MakesUnsafe};
ghost use Rattle.mending.specs.Numbers.{place_of, number_in, number_at, number_count, numbers_in, all_numbers, is_among, AreBelow, IsTable};

use plan_core::{Name, Participant, Plan};
use std::alloc::{AllocError, Global};
use verdicts::Faults;

/// What an edit of the plan does to its unsafe pairs: `faults` are those of the plan, `edited` is the plan that the edited text
/// means, and `after` are those of `edited`. Messages and interrupts of the two plans are known to each other by their names,
/// so `edited` may have more of them or fewer, in another order. Two pairs are the same where what they send has the same
/// names, in this order or the other one, whichever controllers send it.
///
/// None exactly where the edit makes a pair unsafe: where `edited` has an unsafe pair that is the same as no unsafe pair of the
/// plan. Else for each of `faults`, in order, whether the edit leaves its pair unsafe: whether `edited` has an unsafe pair that
/// is the same. So where the answers for some pairs are all false, `edited` has no unsafe pair that is the same as one of these,
/// and no new one.
///
/// # Errors
///
/// Where an allocation fails.
pub fn left_by(
    alloc: Global,
    plan: &Plan,
    faults: &Faults,
    edited: &Plan,
    after: &Faults,
) -> Result<Option<Vec<bool>>, AllocError>
    requires faults { AreFaults (plan_contents plan.now) (fault_list faults.now) }
    requires after { AreFaults (plan_contents edited.now) (fault_list after.now) }
    ensures none { IfOk result (λ answer. IsTrue (is_none answer) ↔
        MakesUnsafe (plan_contents plan.now) (plan_contents edited.now)) }
    ensures left { IfOk result (λ answer. IfSome answer (λ left.
        AreLeft (plan_contents plan.now) (fault_list faults.now) (plan_contents edited.now) left.items)) }
{
    let before = all_numbers(alloc, plan, plan, faults)?;
    let later = all_numbers(alloc, plan, edited, after)?;
    left_of(
        alloc,
        number_count(plan),
        before.as_slice(),
        later.as_slice(),
    )
}

// For each of the first pairs whether it is one of the second. None where one of the second is not one of the first. All are
// pairs of numbers below `n`, in either order.
fn left_of(
    alloc: Global,
    n: usize,
    before: &[(usize, usize)],
    later: &[(usize, usize)],
) -> Result<Option<Vec<bool>>, AllocError>
    requires few { n ≤ 512 }
    requires before { AreBelow n before.now }
    requires later { AreBelow n later.now }
    ensures { IfOk result (λ answer. MatchOption answer (list_all (is_among before.now) later.now ≡ false)
        (λ left. (list_all (is_among before.now) later.now ≡ true) ×
        (left.items ≡ map (is_among later.now) before.now))) }
{
    let known = among(alloc, n, later, before)?;
    if !all_true(known.as_slice()) {
        return Ok(None);
    }
    let left = among(alloc, n, before, later)?;
    Ok(Some(left))
}

fn all_true(found: &[bool]) -> bool
    ensures { result ≡ list_all (λ b. b) found.now }
{
    found.iter().all(|b| *b)
}

// For each of these pairs whether it is one of the others, in either order.
fn among(
    alloc: Global,
    n: usize,
    pairs: &[(usize, usize)],
    others: &[(usize, usize)],
) -> Result<Vec<bool>, AllocError>
    requires few { n ≤ 512 }
    requires pairs { AreBelow n pairs.now }
    requires others { AreBelow n others.now }
    ensures { IfOk result (λ found. found.items ≡ map (is_among others.now) pairs.now) }
{
    let table = table_of(alloc, n, others)?;
    let mut found = Vec::with_capacity(alloc, pairs.len())?;
    for k in 0..pairs.len() {
        let (a, b) = pairs[k];
        found.push(table[a * n + b])?;
    }
    Ok(found)
}

// For each two numbers below `n` whether they are one of these pairs, in either order.
fn table_of(alloc: Global, n: usize, pairs: &[(usize, usize)]) -> Result<Vec<bool>, AllocError>
    requires few { n ≤ 512 }
    requires pairs { AreBelow n pairs.now }
    ensures { IfOk result (λ table. IsTable n pairs.now table.items) }
{
    let mut table = all_false(alloc, n * n)?;
    for k in 0..pairs.len() {
        let (a, b) = pairs[k];
        mark(&mut table, a * n + b, b * n + a);
    }
    Ok(table)
}

fn all_false(alloc: Global, n: usize) -> Result<Vec<bool>, AllocError>
    ensures { IfOk result (λ table. table.items ≡ replicate n false) }
{
    vec![in alloc; false; n]
}

// Marks the two places of a pair, one for each order.
fn mark(table: &mut Vec<bool>, i: usize, j: usize)
    requires i { i < length table.old.items }
    requires j { j < length table.old.items }
    ensures { table.new.items ≡ slice_set (slice_set table.old.items i true) j true }
{
    table[i] = true;
    table[j] = true;
}

// For each unsafe pair of the other plan, the numbers in `plan` of what its two send.
fn all_numbers(
    alloc: Global,
    plan: &Plan,
    other: &Plan,
    faults: &Faults,
) -> Result<Vec<(usize, usize)>, AllocError>
    requires { AreFaults (plan_contents other.now) (fault_list faults.now) }
    ensures { IfOk result (λ pairs. pairs.items ≡
        all_numbers (plan_contents plan.now) (plan_contents other.now) (fault_list faults.now)) }
{
    let numbers = numbers_in(alloc, plan, other)?;
    let mut pairs = Vec::with_capacity(alloc, faults.len())?;
    for k in 0..faults.len() {
        let (pair, _) = faults.get(k);
        let (x, y) = other.pair(pair);
        pairs.push((numbers[x as usize], numbers[y as usize]))?;
    }
    Ok(pairs)
}

// For each participant of the other plan, the number in `plan` of what it sends: its place among the messages of `plan`, or
// after them its place among the interrupts. A name that `plan` has not gets a number that nothing of `plan` has.
fn numbers_in(alloc: Global, plan: &Plan, other: &Plan) -> Result<Vec<usize>, AllocError>
    ensures { IfOk result (λ numbers. numbers.items ≡ numbers_in (plan_contents plan.now) (plan_contents other.now)) }
{
    let mut numbers = Vec::with_capacity(alloc, other.participants() as usize)?;
    for x in 0..other.participants() {
        numbers.push(number_in(plan, other, x))?;
    }
    Ok(numbers)
}

fn number_in(plan: &Plan, other: &Plan, x: u32) -> usize
    requires { x < participant_count (plan_contents other.now) }
    ensures { result ≡ number_at (plan_contents plan.now) (plan_contents other.now) x }
{
    match other.participant(x) {
        Participant::Sending { message, .. } => {
            message_place(plan, other.message_name(message), message) as usize
        }
        Participant::Interrupt(k) => {
            let place = interrupt_place(plan, other.interrupt_name(k), k) as usize;
            plan.messages() as usize + 1 + place
        }
    }
}

// How many numbers there are.
fn number_count(plan: &Plan) -> usize
    ensures value { result ≡ number_count (plan_contents plan.now) }
    ensures few { result ≤ 512 }
{
    plan.messages() as usize + plan.interrupts() as usize + 2
}

// Where the message of this name stands in the plan, or how many messages there are. It is looked for at `near` first: most
// edits leave the order as it is.
fn message_place(plan: &Plan, name: &Name, near: u32) -> u32
    ensures { result ≡ place_of (name_bytes name.now) (plan_contents plan.now).messages }
{
    if near < plan.messages() && is_message(plan, near, name) {
        return near;
    }
    for k in 0..plan.messages() {
        if is_message(plan, k, name) {
            return k;
        }
    }
    plan.messages()
}

fn is_message(plan: &Plan, k: u32, name: &Name) -> bool
    requires { k < length (plan_contents plan.now).messages }
    ensures { IsTrue result ↔ slice_get (keys_of (plan_contents plan.now).messages) k ≡ Some (name_bytes name.now) }
{
    plan.message_name(k).as_str() == name.as_str()
}

// The same of an interrupt.
fn interrupt_place(plan: &Plan, name: &Name, near: u32) -> u32
    ensures { result ≡ place_of (name_bytes name.now) (plan_contents plan.now).interrupts }
{
    if near < plan.interrupts() && is_interrupt(plan, near, name) {
        return near;
    }
    for k in 0..plan.interrupts() {
        if is_interrupt(plan, k, name) {
            return k;
        }
    }
    plan.interrupts()
}

fn is_interrupt(plan: &Plan, k: u32, name: &Name) -> bool
    requires { k < length (plan_contents plan.now).interrupts }
    ensures { IsTrue result ↔ slice_get (keys_of (plan_contents plan.now).interrupts) k ≡ Some (name_bytes name.now) }
{
    plan.interrupt_name(k).as_str() == name.as_str()
}
