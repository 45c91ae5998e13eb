// One of the two lines of the bus, as a dump tells of it.

ghost use Rattle.std.specs.Prelude.{◌≡◌, ◌<◌, ◌≤◌, List, ℕ, length, vec_capacity, IfOk};
ghost use Rattle.vcd_read.specs.Words.{is_empty, code_number};

use crate::probes::{Probe, Sought};
use crate::samples::Level;
use crate::words::{code_number, level_at};
use std::alloc::{AllocError, Global};

/// A line: how its `$var` is found, the code that this `$var` gives it, and its levels.
#[derive(Drop)]
pub(crate) struct Wire {
    sought: Sought,
    // empty until the `$var` has come
    pub(crate) code: Vec<u8>,
    // the number of the code, if it has one
    number: u32,
    // before the time stamp, and now
    before: Level,
    level: Level,
    ghost number_of_code: { number ≡ code_number code.items },
}

impl Wire {
    ghost use Rattle.vcd_read.specs.Definitions.{named_by};
    ghost use Rattle.vcd_read.specs.Changes.{changed, settled, stays_level};
    ghost use Rattle.vcd_read.specs.Probes.{place_of};
    ghost use Rattle.vcd_read.specs.Words.{level_at};
    ghost use Rattle.vcd_read.specs.Views.{asked, line_of};
    ghost use Rattle.vcd_read.specs.States.{line_at_first};

    /// The line of this probe, before the first token.
    pub(crate) fn new(alloc: Global, probe: Probe<'_>) -> Result<Wire, AllocError>
        ensures { IfOk result (λ w. line_of w ≡ line_at_first (asked probe.entry)) }
    {
        Ok(Wire {
            sought: Sought::new(alloc, probe)?,
            code: Vec::new(alloc),
            number: 0,
            before: Level::Unknown,
            level: Level::Unknown,
        })
    }

    /// Whether no `$var` has been its own yet.
    pub(crate) fn is_missing(&self) -> bool
        ensures { result ≡ is_empty (line_of self.now).code }
    {
        self.code.is_empty()
    }

    /// A `$var` of one bit, or of another number, has this reference and this code.
    pub(crate) fn name_by(&mut self, one_bit: bool, reference: &[u8], code: &[u8])
        requires { length code.now ≤ vec_capacity self.old.code }
        ensures line { line_of self.new ≡ named_by one_bit reference.now code.now (line_of self.old) }
        ensures room { vec_capacity self.old.code ≤ vec_capacity self.new.code }
    {
        if self.is_missing() && self.sought.is_declared_by(one_bit, reference, code) {
            self.code.clear();
            let _ = self.code.extend_from_slice(code);
            self.number = code_number(code);
        }
    }

    /// A change of this code sets the level.
    #[inline(always)]
    pub(crate) fn change(&mut self, code: &[u8], level: Level)
        ensures line { line_of self.new ≡ changed code.now level (line_of self.old) }
        ensures code { self.new.code ≡ self.old.code }
    {
        if code == self.code.as_slice() {
            self.level = level;
        }
    }

    /// A change of the code that has this number sets the level.
    #[inline(always)]
    pub(crate) fn change_by_number(&mut self, number: u32, level: Level)
        requires { 0 < number }
        ensures line { (code : List ℕ) → code_number code ≡ number →
            line_of self.new ≡ changed code level (line_of self.old) }
        ensures code { self.new.code ≡ self.old.code }
    {
        // no branch, since none would be foreseen
        let levels = [self.level, level];
        self.level = levels[(number == self.number) as usize];
    }

    /// What the digits of a vector say of the line.
    pub(crate) fn level_in(&self, digits: &[u8]) -> Level
        ensures { result ≡ level_at (place_of (line_of self.now).probe) digits.now }
    {
        level_at(self.sought.place(), digits)
    }

    /// The level now.
    pub(crate) fn level(&self) -> Level
        ensures { result ≡ (line_of self.now).level }
    {
        self.level
    }

    /// Whether the level now is that before the time stamp.
    pub(crate) fn is_unchanged(&self) -> bool
        ensures { result ≡ stays_level (line_of self.now) }
    {
        self.before == self.level
    }

    /// A later time stamp begins.
    pub(crate) fn settle(&mut self)
        ensures line { line_of self.new ≡ settled (line_of self.old) }
        ensures code { self.new.code ≡ self.old.code }
    {
        self.before = self.level;
    }
}
