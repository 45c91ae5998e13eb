// What has one cause, by number.

ghost use Rattle.std.specs.Prelude.{◌≡◌, ◌+◌, ◌<◌, [], ◌∷◌, ◌++◌, ℕ, IfOk, OnOk, List, Some, length, replicate, slice_get, slice_index, slice_index_or, slice_set, if◌then◌else◌};
ghost use Rattle.indexmap.specs.IndexSet.{keys};
ghost use Rattle.causes.specs.declared.meetings.Cause.{Cause};
ghost use Rattle.causes.specs.Orders.{AllKnown, AreCounts, AreFirsts, AreNumbers, AreWithin, HasOrder, IsWithin};

use crate::meetings::Cause;
use indexmap::IndexSet;
use std::alloc::{AllocError, Global};

/// Where in this order each different cause stands first, and the number that each cause then has.
pub(crate) fn numbered(
    alloc: Global,
    causes: &[Cause],
    order: &[(usize, usize)],
) -> Result<(Vec<usize>, Vec<usize>), AllocError>
    requires { HasOrder causes.now order.now }
    ensures { IfOk result (λ found. (keys : List Cause) ×
        AreFirsts causes.now order.now (length order.now) keys found.0.items × AreNumbers keys causes.now (length causes.now) found.1.items) }
{
    let (known, places) = firsts(alloc, causes, order)?;
    let numbers = numbers(alloc, &known, causes)?;
    Ok((places, numbers))
}

// Each different cause once, in this order, and where in the order it stands first.
fn firsts(
    alloc: Global,
    causes: &[Cause],
    order: &[(usize, usize)],
) -> Result<(IndexSet<Cause>, Vec<usize>), AllocError>
    requires { IsWithin (length causes.now) order.now }
    ensures { IfOk result (λ found.
        AreFirsts causes.now order.now (length order.now) (keys found.0) found.1.items) }
{
    let mut known = IndexSet::new(alloc);
    let mut places = Vec::new(alloc);
    for i in 0..order.len() {
        let (_, is_new) = known.insert_full(cause_at(causes, order, i))?;
        push_if(&mut places, is_new, i)?;
    }
    Ok((known, places))
}

// The cause that stands at this place in the order.
fn cause_at(causes: &[Cause], order: &[(usize, usize)], i: usize) -> Cause
    requires place { i < length order.now }
    requires within { (slice_index_or order.now i (0, 0)).1 < length causes.now }
    ensures { slice_get causes.now (slice_index_or order.now i (0, 0)).1 ≡ Some result }
{
    let (_, k) = order[i];
    causes[k]
}

fn push_if(places: &mut Vec<usize>, is_new: bool, i: usize) -> Result<(), AllocError>
    ensures { OnOk result (places.new.items ≡ (if is_new then places.old.items ++ i ∷ [] else places.old.items)) }
{
    if is_new {
        places.push(i)?;
    }
    Ok(())
}

// The number that each cause has among these.
fn numbers(
    alloc: Global,
    known: &IndexSet<Cause>,
    causes: &[Cause],
) -> Result<Vec<usize>, AllocError>
    requires { AllKnown (keys known.now) causes.now }
    ensures { IfOk result (λ numbers. AreNumbers (keys known.now) causes.now (length causes.now) numbers.items) }
{
    let mut numbers = Vec::with_capacity(alloc, causes.len())?;
    for k in 0..causes.len() {
        let g = number_in(known, &causes[k]);
        numbers.push(g)?;
    }
    Ok(numbers)
}

fn number_in(known: &IndexSet<Cause>, cause: &Cause) -> usize
    requires { (g : ℕ) × (slice_get (keys known.now) g ≡ Some cause.now) }
    ensures { slice_get (keys known.now) result ≡ Some cause.now }
{
    known.get_index_of(cause).unwrap()
}

/// How often each number below `n` stands among these.
pub(crate) fn counts(alloc: Global, n: usize, numbers: &[usize]) -> Result<Vec<usize>, AllocError>
    requires { AreWithin n numbers.now }
    ensures { IfOk result (λ counts. AreCounts n numbers.now (length numbers.now) counts.items) }
{
    let mut counts = zeros(alloc, n)?;
    for i in 0..numbers.len() {
        count_one(&mut counts, numbers[i], numbers.len());
    }
    Ok(counts)
}

fn zeros(alloc: Global, n: usize) -> Result<Vec<usize>, AllocError>
    ensures { IfOk result (λ counts. counts.items ≡ replicate n 0) }
{
    vec![in alloc; 0; n]
}

// Counts one more of this number, where there are at most so many.
fn count_one(counts: &mut Vec<usize>, g: usize, most: usize)
    requires within { g < length counts.old.items }
    requires fewer { slice_index counts.old.items g < most }
    ensures { counts.new.items ≡ slice_set counts.old.items g (slice_index counts.old.items g + 1) }
{
    counts[g] += 1;
}
