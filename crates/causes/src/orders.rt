// The unsafe pairs in the order of their wires.

ghost use Rattle.std.specs.Prelude.{IfOk};
ghost use Rattle.verdicts.specs.Faults.{fault_list};
ghost use Rattle.causes.specs.Causes.{wires_of};
ghost use Rattle.causes.specs.Orders.{IsOrder, IsNumbered};

use std::alloc::{AllocError, Global};
use verdicts::Faults;

/// The length of the wire of each unsafe pair, and its place among the unsafe pairs: the shortest wire first, and of several
/// the first pair.
pub(crate) fn by_wire(alloc: Global, faults: &Faults) -> Result<Vec<(usize, usize)>, AllocError>
    ensures { IfOk result (λ order. IsOrder (wires_of (fault_list faults.now)) order.items) }
{
    let mut order = numbered(alloc, faults)?;
    order.sort()?;
    Ok(order)
}

fn numbered(alloc: Global, faults: &Faults) -> Result<Vec<(usize, usize)>, AllocError>
    ensures { IfOk result (λ order. IsNumbered (wires_of (fault_list faults.now)) order.items) }
{
    let mut order = Vec::with_capacity(alloc, faults.len())?;
    for k in 0..faults.len() {
        let (_, fault) = faults.get(k);
        let len = fault.wire.len();
        order.push((len, k))?;
    }
    Ok(order)
}
