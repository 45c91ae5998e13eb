// Levels of a dump that are too short to count.

use crate::scales::Scale;
use crate::times::Time;
use crate::windows::steps;

/// How long a level has to last, in steps of the dump, and as it was given.
#[derive(Clone, Copy)]
pub struct Quiet {
    pub least: u64,
    pub given: Option<Time>,
}

impl Quiet {
    /// This time, where the dump says what its steps count or the time counts steps. With none each level counts, and so it
    /// does where that is not known.
    pub fn of(given: Option<Time>, scale: Option<Scale>) -> Quiet {
        let least = match given {
            Some(time) => steps(scale, time).unwrap_or(0),
            None => 0,
        };
        Quiet { least, given }
    }
}
