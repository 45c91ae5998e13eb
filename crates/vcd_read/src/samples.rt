// What a dump says about the two lines of the bus.

/// The level of a line. The lines are open-drain with a pull-up, so one that is `z` is high.
#[derive(Clone, Copy, PartialEq, Eq)]
pub enum Level {
    Low,
    High,
    Unknown,
}

/// The levels after a time stamp at which one of the two differs from before. The time is in the dump's own unit.
#[derive(Clone, Copy, PartialEq, Eq)]
pub struct Sample {
    pub time: u64,
    pub scl: Level,
    pub sda: Level,
}

/// What further lines are after a time stamp at which one of them differs from before: masks with a bit for each line, in the
/// order in which they were given. A line in neither mask is high.
#[derive(Clone, Copy, PartialEq, Eq)]
pub struct Further {
    pub time: u64,
    pub low: u32,
    pub unknown: u32,
}
