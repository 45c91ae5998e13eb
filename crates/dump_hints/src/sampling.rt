// After a report on a capture whose samples are too far apart.

use crate::naming::Names;
use capture_check::Rises;
use hints::{Hints, Lines};
use std::alloc::{AllocError, Global};

// How often SCL has to rise before anything is said of it.
const ENOUGH: u64 = 8;

// A change of SDA in the sample of a rise is nothing to speak of where it comes once, or once in so many rises.
const ONE_OF: u64 = 32;

/// What to say after a report on a capture in which SCL rises so often: whether its samples are too far apart. A target may
/// change SDA as SCL falls. As SCL rises SDA has to stand for a while (UM10204, tSU;DAT), so a simulator and a capture with
/// enough samples never show both in one. Of one signal for both lines that is not said.
pub fn on_rises(alloc: Global, names: Names<'_>, rises: Rises) -> Result<Hints, AllocError> {
    let mut lines = Lines::new(alloc);
    let Rises { all, with_sda } = rises;
    if names.scl != names.sda && all >= ENOUGH && with_sda > (all / ONE_OF).max(1) {
        lines.say(format_args!(
            "SCL rises {all} times, and in {with_sda} of these samples SDA changes too: the capture is undersampled, and what it shows may be wrong; record with at least 10 times the clock of the bus"
        ));
    }
    lines.finish()
}
