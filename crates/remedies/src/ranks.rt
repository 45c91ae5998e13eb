// The groups of unsafe pairs in the order in which people see them.

ghost use Rattle.std.specs.Prelude.{◌≡◌};
ghost use Rattle.remedies.specs.Numbers.{ranked_numbers};

use causes::{Group, Groups};
use std::alloc::{AllocError, Global};

/// The groups of the unsafe pairs of a plan: the one with the most pairs first, and of several the one with the shortest wire, and
/// of these the one with the first pair.
#[derive(Drop)]
pub struct Ranked {
    groups: Vec<Group>,
    // for each unsafe pair the number of its group
    numbers: Vec<usize>,
}

impl Ranked {
    /// These groups, which are in the order of their wires.
    pub fn of(alloc: Global, groups: &Groups) -> Result<Ranked, AllocError> {
        let order = by_pairs(alloc, groups)?;
        let mut sorted = Vec::with_capacity(alloc, order.len())?;
        let mut ranks = vec![in alloc; 0usize; groups.len()]?;
        for (rank, (_, g)) in order.iter().enumerate() {
            if *g < groups.len() {
                sorted.push(groups.get(*g))?;
            }
            if let Some(place) = ranks.get_mut(*g) {
                *place = rank;
            }
        }
        let mut numbers = Vec::with_capacity(alloc, groups.pairs())?;
        for k in 0..groups.pairs() {
            let g = groups.group_of(k);
            numbers.push(ranks.get(g).copied().unwrap_or(g))?;
        }
        Ok(Ranked {
            groups: sorted,
            numbers,
        })
    }

    /// How many groups there are.
    pub fn len(&self) -> usize {
        self.groups.len()
    }

    /// The group with this number.
    pub fn get(&self, g: usize) -> Option<Group> {
        self.groups.get(g).copied()
    }

    /// For each unsafe pair the number of its group.
    pub fn numbers(&self) -> &[usize]
        ensures { result.now ≡ ranked_numbers self.now }
    {
        self.numbers.as_slice()
    }
}

// The numbers of the groups, those of more pairs first.
fn by_pairs(alloc: Global, groups: &Groups) -> Result<Vec<(usize, usize)>, AllocError> {
    let mut order = Vec::with_capacity(alloc, groups.len())?;
    for g in 0..groups.len() {
        let fewer = usize::MAX.saturating_sub(groups.get(g).pairs);
        order.push((fewer, g))?;
    }
    order.sort()?;
    Ok(order)
}
