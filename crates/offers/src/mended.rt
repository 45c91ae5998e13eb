// Which groups an edit mends.

ghost use Rattle.std.specs.Prelude.{◌≡◌, ℕ, All, IfOk, Some, slice_get};
ghost use Rattle.offers.specs.Offered.{IsMended};
ghost use Rattle.offers.specs.Open.{AreOpen, IsClosed};
ghost use Rattle.remedies.specs.Numbers.{group_numbers};

use remedies::Grouped;
use std::alloc::{AllocError, Global};

/// The groups of which no pair is left.
///
/// # Errors
///
/// Where an allocation fails.
pub fn mended_by(alloc: Global, groups: &Grouped, left: &[bool]) -> Result<Vec<usize>, AllocError>
    ensures { IfOk result (λ mended. All (IsMended (group_numbers groups.now) left.now) mended.items) }
{
    let flags = open_groups(alloc, groups.numbers(), left, groups.len())?;
    closed_in(alloc, flags.as_slice())
}

// For each of so many groups whether one of its pairs is left.
fn open_groups(
    alloc: Global,
    numbers: &[usize],
    left: &[bool],
    groups: usize,
) -> Result<Vec<bool>, AllocError>
    ensures { IfOk result (λ flags. AreOpen numbers.now left.now flags.items) }
{
    let mut flags = vec![in alloc; false; groups]?;
    for k in 0..left.len() {
        if left[k] {
            open_at(flags.as_mut_slice(), numbers, k);
        }
    }
    Ok(flags)
}

// The group of this pair is open.
fn open_at(flags: &mut [bool], numbers: &[usize], k: usize)
    ensures marked { (g : ℕ) → slice_get numbers.now k ≡ Some g → IsClosed flags.new g → ⊥ }
    ensures kept { (h : ℕ) → IsClosed flags.new h → IsClosed flags.old h }
{
    if k < numbers.len() {
        mark(flags, numbers[k]);
    }
}

fn mark(flags: &mut [bool], g: usize)
    ensures marked { IsClosed flags.new g → ⊥ }
    ensures kept { (h : ℕ) → IsClosed flags.new h → IsClosed flags.old h }
{
    if g < flags.len() {
        flags[g] = true;
    }
}

// The groups that are closed.
fn closed_in(alloc: Global, flags: &[bool]) -> Result<Vec<usize>, AllocError>
    ensures { IfOk result (λ closed. All (IsClosed flags.now) closed.items) }
{
    let mut closed = Vec::new(alloc);
    for g in 0..flags.len() {
        if !flags[g] {
            closed.push(g)?;
        }
    }
    Ok(closed)
}

/// How many pairs these groups have.
pub fn pairs_of(groups: &Grouped, numbers: &[usize]) -> usize {
    let mut pairs = 0usize;
    for g in numbers {
        if let Some(group) = groups.group(*g) {
            pairs = pairs.saturating_add(group.pairs);
        }
    }
    pairs
}
