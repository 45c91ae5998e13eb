// The waves of a check and of a rehearsal.

use crate::drawing::wave_of;
use bench_run::Rehearsal;
use std::alloc::{AllocError, Global};
use verdicts::Checked;

/// The waves of an unsafe pair of a plan that was checked, up to the slot of its first fault: of the pair with this number, or
/// of the first one. There are none where that pair is safe, or is none of the plan.
///
/// # Errors
///
/// Where an allocation fails.
pub fn wave_of_check(
    alloc: Global,
    checked: &Checked,
    pair: Option<u32>,
) -> Result<Option<String>, AllocError> {
    let Checked { plan, faults } = checked;
    for k in 0..faults.len() {
        let (i, fault) = faults.get(k);
        if i < plan.pair_count() && pair.unwrap_or(i) == i {
            let (x, y) = plan.pair(i);
            let wave = wave_of(alloc, plan, &[x, y], fault.wire.as_slice(), None)?;
            return Ok(Some(wave));
        }
    }
    Ok(None)
}

/// The waves of a rehearsal.
///
/// # Errors
///
/// Where an allocation fails.
pub fn wave_of_bench(alloc: Global, rehearsal: &Rehearsal) -> Result<String, AllocError> {
    wave_of(
        alloc,
        rehearsal.accepted.plan(),
        &rehearsal.starters,
        &rehearsal.played.wire,
        Some(rehearsal.fill),
    )
}
