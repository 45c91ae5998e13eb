// The pairs of a plan that are not safe.

ghost use Rattle.std.specs.Prelude.{◌≡◌, ◌↔◌, ◌<◌, ◌++◌, length, IsTrue, OnOk};
ghost use Rattle.plan_core.specs.Contents.{Contents};
ghost use Rattle.plan_core.specs.Faults.{IsSafe};
ghost use Rattle.verdicts.specs.Entries.{all_unsafe, listing};

use crate::known::Known;
use certificate::Fault;
use std::alloc::AllocError;

/// The pairs of a plan that are not safe, each with its first fault, in the order of the pairs.
#[derive(Drop)]
pub struct Faults {
    pub(crate) known: Vec<Known>,
    pub(crate) listed: Vec<Listed>,
    ghost all_unsafe: { IsTrue (all_unsafe known.items listed.items) },
}

/// A pair that is not safe, and where its fault stands.
#[derive(Clone, Copy)]
pub(crate) struct Listed {
    pub(crate) pair: u32,
    pub(crate) place: usize,
}

impl Faults {
    ghost use Rattle.std.specs.Prelude.{slice_get, Some};
    ghost use Rattle.verdicts.specs.Faults.{AreFaults, fault_list};

    /// The number of pairs that are not safe.
    pub fn len(&self) -> usize
        ensures { result ≡ length (fault_list self.now) }
    {
        self.listed.len()
    }

    /// The number of the pair, and its first fault, of the `k`th of the pairs that are not safe.
    pub fn get(&self, k: usize) -> (u32, &Fault)
        requires { k < length (fault_list self.now) }
        ensures { slice_get (fault_list self.now) k ≡ Some (result.0, result.1.now) }
    {
        let Listed { pair, place } = self.listed[k];
        match &self.known[place] {
            Known::Unsafe(fault) => (pair, fault),
            _ => unreachable!(),
        }
    }

    /// Whether the plan of these faults is safe: no lawful set of participants, of however many, ever gets to a fault.
    pub fn is_safe(&self) -> bool
        ensures { (plan : Contents) → AreFaults plan (fault_list self.now) → (IsTrue result ↔ IsSafe plan) }
    {
        self.len() == 0
    }
}

// Lists the pair if what stands at this place is a fault.
pub(crate) fn list_if_unsafe(
    listed: &mut Vec<Listed>,
    known: &[Known],
    pair: u32,
    place: usize,
) -> Result<(), AllocError>
    requires { place < length known.now }
    ensures { OnOk result (listed.new.items ≡ listed.old.items ++ listing known.now pair place) }
{
    if let Known::Unsafe(_) = known[place] {
        listed.push(Listed { pair, place })?;
    }
    Ok(())
}
