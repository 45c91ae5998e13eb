// A line of the bus, as it is and as it goes on.

use vcd_read::Level;

/// A line, as it is and as it goes on without its short pulses.
#[derive(Clone, Copy)]
pub(crate) struct Wire {
    pub(crate) level: Level,
    // the level that goes on
    pub(crate) kept: Level,
    // when the run of its level began
    pub(crate) from: u64,
    // how much longer this run has to go on to last: 0 where it has lasted
    pub(crate) missing: u64,
}

/// The line whose run began before that of the other.
#[derive(Clone, Copy, PartialEq, Eq)]
pub(crate) enum First {
    Scl,
    Sda,
    Both,
}

impl Wire {
    ghost use Rattle.std.specs.Prelude.{◌≡◌};
    ghost use Rattle.vcd_read.specs.Changes.{same_level};
    ghost use Rattle.pulses.specs.Wires.{after, is_due, going_on, steady, with_run};

    /// A line that has this level since the beginning.
    pub(crate) fn new(level: Level) -> Wire
        ensures { result ≡ steady level }
    {
        Wire {
            level,
            kept: level,
            from: 0,
            missing: 0,
        }
    }

    /// A run of another level begins, which lasts if it goes on for so long.
    #[inline(always)]
    pub(crate) fn begin(&mut self, level: Level, from: u64, least: u64)
        ensures { self.new ≡ with_run self.old level from least }
    {
        self.level = level;
        self.from = from;
        self.missing = least;
    }

    /// So much time has passed, and the line has not changed.
    #[inline(always)]
    pub(crate) fn pass(&mut self, passed: u64)
        ensures { self.new ≡ after passed self.old }
    {
        self.missing = self.missing.saturating_sub(passed);
    }

    /// 1 where its run has not lasted, and else 0.
    #[inline(always)]
    pub(crate) fn short(&self) -> u64 {
        u64::from(self.missing != 0)
    }

    /// Whether this is its level.
    #[inline(always)]
    pub(crate) fn has(&self, level: Level) -> bool
        ensures { result ≡ same_level self.now.level level }
    {
        self.level == level
    }

    /// Whether its level has lasted, and does not go on yet.
    #[inline(always)]
    pub(crate) fn is_due(&self) -> bool
        ensures { result ≡ is_due self.now }
    {
        self.missing == 0 && self.kept != self.level
    }

    /// Its level goes on.
    #[inline(always)]
    pub(crate) fn go_on(&mut self)
        ensures { self.new ≡ going_on self.old }
    {
        self.kept = self.level;
    }
}
