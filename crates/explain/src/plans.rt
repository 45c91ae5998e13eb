// Lines below the report on a safe plan.

use bus_rows::say;
use growing_text::{Lines, Part};
use remedies::{Decided, Safety};
use std::alloc::{AllocError, Global};

/// What is said below `safe: N pairs`: where the two of each pair part while targets acknowledge.
pub(crate) fn below_safe(alloc: Global, safety: &Safety) -> Result<String, AllocError> {
    let mut lines = Lines::new(alloc);
    tell_decided(&mut lines, safety.decided);
    lines.finish()
}

// (each count stands on one line with what it counts)
fn tell_decided(lines: &mut Lines, decided: Decided) {
    say(
        lines,
        "where targets acknowledge, decided {}{}, {}{}, {}{}; {}{}",
        &[
            Part::Name("in the header: "),
            Part::Number(decided.header),
            Part::Name("later: "),
            Part::Number(decided.later),
            Part::Name("at a read's end: "),
            Part::Number(decided.read),
            Part::Name("may end together: "),
            Part::Number(decided.alike),
        ],
    );
}
