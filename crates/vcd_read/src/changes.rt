// Times and value changes: IEEE 1364-2005, 18.2.1 and 18.2.2, and the commands among them, 18.2.3.

ghost use Rattle.std.specs.Prelude.{◌≡◌, ℕ, ◌<◌, List, ◌∷◌, Some, None, IsSome, Ok, true, false};
ghost use Rattle.vcd_read.specs.Changes.{change, change_of_code, command_among_changes, time_reached, stamp_sample, scalar_change, on_both, vector_levels};
ghost use Rattle.vcd_read.specs.Dumps.{step};
ghost use Rattle.vcd_read.specs.Views.{state_of, HasRoom, Leaves, Steps};
ghost use Rattle.vcd_read.specs.Words.{binary_level_of, code_number};
ghost use Rattle.vcd_read.specs.declared.dumps.Context.TheVariants.{Nothing};

use crate::beside::Bystander;
use crate::dumps::{Context, Dump, Levels};
use crate::errors::Refusal;
use crate::samples::{Level, Sample};
use crate::words::{
    Command, binary_level_of, code_number, command_of, is_code, is_vector, level_of, stamp_time,
};

impl Dump {
    /// Reads a change of one value, `0` or `1`, whose code has at most three characters, as most tokens of a dump are. It
    /// answers whether the token was such a change, and leaves any other as it is.
    #[tactic(auto, unfolding(crate::specs::Dumps::step))]
    #[inline(always)]
    pub(crate) fn change_short(&mut self, token: &[u8]) -> bool
        ensures read { result ≡ true → (line : ℕ) →
            step (state_of self.old) token.now line ≡ Ok (state_of self.new, None) }
        ensures all { (value : ℕ) (code : List ℕ) →
            token.now ≡ value ∷ code →
            self.old.context ≡ Nothing →
            self.old.defined ≡ true →
            IsSome (binary_level_of value) →
            0 < code_number code →
            result ≡ true }
        ensures left { result ≡ false → self.new ≡ self.old }
        ensures room { (n : ℕ) → HasRoom n self.old → HasRoom n self.new }
    {
        let Context::Nothing = self.context else {
            return false;
        };
        let Some((value, code)) = token.split_first() else {
            return false;
        };
        let Some(level) = binary_level_of(*value) else {
            return false;
        };
        let number = code_number(code);
        if number == 0 || !self.defined {
            return false;
        }
        self.scl.change_by_number(number, level);
        self.sda.change_by_number(number, level);
        true
    }

    /// A token outside commands, after the definitions. Another is told of changes.
    #[inline(always)]
    pub(crate) fn change<B: Bystander>(
        &mut self,
        token: &[u8],
        line: u64,
        beside: &mut B,
    ) -> Result<Option<Sample>, Refusal>
        ensures step { Steps result (change (state_of self.old) token.now line) (state_of self.new) }
        ensures room { (n : ℕ) → HasRoom n self.old → HasRoom n self.new }
    {
        let bad = Refusal::BadToken(line);
        let Some((first, rest)) = token.split_first() else {
            return Err(bad);
        };
        match *first {
            b'#' => {
                let time = stamp_time(token).ok_or(bad)?;
                return self.reach(time, line);
            }
            b'$' => self.command(command_of(token), line)?,
            b'b' | b'B' => {
                let to = self.vector_levels(rest).ok_or(bad)?;
                self.context = Context::Change(line, Some(to));
                beside.digits(rest);
            }
            b'r' | b'R' | b's' | b'S' => {
                if rest.is_empty() {
                    return Err(bad);
                }
                self.context = Context::Change(line, None);
            }
            value => {
                self.scalar_change(level_of(value), rest, line)?;
                beside.change(token, self.time);
            }
        }
        Ok(None)
    }

    // A change of one value: of this level, or of none.
    #[inline(always)]
    fn scalar_change(&mut self, level: Option<Level>, code: &[u8], line: u64) -> Result<(), Refusal>
        ensures state { Leaves result (scalar_change (state_of self.old) level code.now line) (state_of self.new) }
        ensures room { (n : ℕ) → HasRoom n self.old → HasRoom n self.new }
    {
        match level {
            Some(level) => self.change_of_code(Some(on_both(level)), code, line),
            None => Err(Refusal::BadToken(line)),
        }
    }

    // What the digits of a vector say of each line.
    #[inline(never)]
    fn vector_levels(&self, digits: &[u8]) -> Option<Levels>
        ensures { result ≡ vector_levels (state_of self.now) digits.now }
    {
        if !is_vector(digits) {
            return None;
        }
        Some(Levels {
            scl: self.scl.level_in(digits),
            sda: self.sda.level_in(digits),
        })
    }

    // A time: a later one closes the time stamp, an equal one continues it.
    #[inline(always)]
    fn reach(&mut self, time: u64, line: u64) -> Result<Option<Sample>, Refusal>
        ensures step { Steps result (time_reached (state_of self.old) time line) (state_of self.new) }
        ensures room { (n : ℕ) → HasRoom n self.old → HasRoom n self.new }
    {
        if time < self.time {
            return Err(Refusal::TimeBack(line));
        }
        if time == self.time {
            return Ok(None);
        }
        let sample = self.stamp_sample();
        self.time = time;
        self.scl.settle();
        self.sda.settle();
        Ok(sample)
    }

    /// The sample of the time stamp, if it ends now.
    pub(crate) fn stamp_sample(&self) -> Option<Sample>
        ensures { result ≡ stamp_sample (state_of self.now) }
    {
        if self.scl.is_unchanged() && self.sda.is_unchanged() {
            return None;
        }
        Some(Sample {
            time: self.time,
            scl: self.scl.level(),
            sda: self.sda.level(),
        })
    }

    /// The code of a change that says this, or of a real or string change.
    #[inline(always)]
    pub(crate) fn change_of_code(
        &mut self,
        to: Option<Levels>,
        code: &[u8],
        line: u64,
    ) -> Result<(), Refusal>
        ensures state { Leaves result (change_of_code (state_of self.old) to code.now line) (state_of self.new) }
        ensures room { (n : ℕ) → HasRoom n self.old → HasRoom n self.new }
    {
        let number = code_number(code);
        if number == 0 {
            return self.change_of_long_code(to, code, line);
        }
        if let Some(to) = to {
            self.scl.change_by_number(number, to.scl);
            self.sda.change_by_number(number, to.sda);
        }
        Ok(())
    }

    // The same of a code that has no number, or of what is no code.
    #[inline(never)]
    fn change_of_long_code(
        &mut self,
        to: Option<Levels>,
        code: &[u8],
        line: u64,
    ) -> Result<(), Refusal>
        ensures state { Leaves result (change_of_code (state_of self.old) to code.now line) (state_of self.new) }
        ensures room { (n : ℕ) → HasRoom n self.old → HasRoom n self.new }
    {
        if !is_code(code) {
            return Err(Refusal::BadToken(line));
        }
        if let Some(to) = to {
            self.scl.change(code, to.scl);
            self.sda.change(code, to.sda);
        }
        Ok(())
    }

    // A command among the changes.
    fn command(&mut self, command: Option<Command>, line: u64) -> Result<(), Refusal>
        ensures state { Leaves result (command_among_changes (state_of self.old) command line) (state_of self.new) }
        ensures room { (n : ℕ) → HasRoom n self.old → HasRoom n self.new }
    {
        match (command, self.block) {
            (None, _) | (Some(Command::End), None) | (Some(Command::Changes), Some(_)) => {
                return Err(Refusal::BadToken(line));
            }
            (Some(Command::End), Some(_)) => self.block = None,
            (Some(Command::Changes), None) => self.block = Some(line),
            (Some(Command::Var | Command::EndDefinitions | Command::Other), _) => {
                self.context = Context::Skipped(line);
            }
        }
        Ok(())
    }
}

// A change of one value says the same of both lines.
#[inline(always)]
fn on_both(level: Level) -> Levels
    ensures { result ≡ on_both level }
{
    Levels {
        scl: level,
        sda: level,
    }
}
