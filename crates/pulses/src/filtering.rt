// A filter of samples that come in parts.

ghost use Rattle.std.specs.Prelude.{◌≡◌, ◌≤◌};
ghost use Rattle.pulses.specs.declared.wires.First.TheVariants.{Scl, Sda, Both};

use crate::wires::{First, Wire};
use std::alloc::AllocError;
use vcd_read::{Level, Sample};

/// The samples of a capture without the levels that a line has for less than a least time.
#[derive(Drop)]
pub struct Filter {
    pub(crate) least: u64,
    // whether there has been a sample, and the time of the last one
    pub(crate) begun: bool,
    pub(crate) time: u64,
    pub(crate) scl: Wire,
    pub(crate) sda: Wire,
    pub(crate) first: First,
    // how many levels were left out
    pub(crate) short: u64,
    ghost scl_is_first: { first ≡ Scl → scl.missing ≤ sda.missing },
    ghost sda_is_first: { first ≡ Sda → sda.missing ≤ scl.missing },
    ghost both_last: { first ≡ Both → scl.missing ≡ sda.missing },
    ghost both_begin: { first ≡ Both → scl.from ≡ sda.from },
    ghost scl_fits: { scl.missing ≤ least },
    ghost sda_fits: { sda.missing ≤ least },
}

impl Filter {
    ghost use Rattle.std.specs.Prelude.{◌≡◌, ◌≢◌, ◌<◌, List, [], ◌∷◌, ◌++◌, OnOk, true};
    ghost use Rattle.vcd_read.specs.declared.samples.Sample.{Sample};
    ghost use Rattle.pulses.specs.Pulses.{quiet, quiet_behind_first};
    ghost use Rattle.pulses.specs.Filtering.{behind, least_of, to_come, HaveGoneOn, IsAtFirst};
    ghost use Rattle.pulses.specs.Wires.{GoesOn};
    ghost use Rattle.pulses.specs.declared.wires.First.TheVariants.{Scl, Sda, Both};

    /// A filter of the levels that last less than this time, in the unit of the capture. No level lasts less than 0.
    pub fn new(least: u64) -> Filter
        ensures behind { IsAtFirst least result }
        ensures least { least_of result ≡ least }
        ensures gone_on { HaveGoneOn result }
    {
        Filter {
            least,
            begun: false,
            time: 0,
            scl: Wire::new(Level::Unknown),
            sda: Wire::new(Level::Unknown),
            first: First::Both,
            short: 0,
        }
    }

    /// How many levels were too short, and left out. The first level of a line and its last never are.
    pub fn short(&self) -> u64 {
        self.short
    }

    /// Takes the next samples, and puts those that are now known after the ones in `quiet`. Where an allocation fails,
    /// what was filtered so far is lost.
    pub fn feed(&mut self, samples: &[Sample], quiet: &mut Vec<Sample>) -> Result<(), AllocError>
        ensures handed { OnOk result ((more : List Sample) →
            quiet.new.items ++ behind self.new more ≡ quiet.old.items ++ behind self.old (samples.now ++ more)) }
        ensures least { OnOk result (least_of self.new ≡ least_of self.old) }
        ensures gone_on { OnOk result (HaveGoneOn self.old → HaveGoneOn self.new) }
    {
        for sample in samples {
            self.next(sample, quiet)?;
        }
        Ok(())
    }

    /// The end of the capture: the samples that are left are put after the ones in `quiet`. Then there has been no sample,
    /// as at first; what was counted is kept.
    pub fn end(&mut self, quiet: &mut Vec<Sample>) -> Result<(), AllocError>
        ensures handed { OnOk result (quiet.new.items ≡ quiet.old.items ++ behind self.old []) }
        ensures left { OnOk result (IsAtFirst (least_of self.old) self.new) }
        ensures least { OnOk result (least_of self.new ≡ least_of self.old) }
    {
        if self.begun {
            self.scl.missing = 0;
            self.sda.missing = 0;
            self.hand_out(quiet)?;
            self.begun = false;
        }
        Ok(())
    }

    /// Takes the last samples, and puts all that are left after the ones in `quiet`. Then there has been no sample, as at
    /// first; what was counted is kept.
    pub fn feed_to_end(
        &mut self,
        samples: &[Sample],
        quiet: &mut Vec<Sample>,
    ) -> Result<(), AllocError>
        ensures handed { OnOk result (quiet.new.items ≡ quiet.old.items ++ behind self.old samples.now) }
        ensures left { OnOk result (IsAtFirst (least_of self.old) self.new) }
        ensures least { OnOk result (least_of self.new ≡ least_of self.old) }
    {
        self.feed(samples, quiet)?;
        self.end(quiet)?;
        Ok(())
    }

    // The next sample.
    #[inline(always)]
    fn next(&mut self, sample: &Sample, quiet: &mut Vec<Sample>) -> Result<(), AllocError>
        ensures handed { OnOk result ((more : List Sample) →
            quiet.new.items ++ behind self.new more ≡ quiet.old.items ++ behind self.old (sample.now ∷ more)) }
        ensures least { OnOk result (least_of self.new ≡ least_of self.old) }
        ensures gone_on { OnOk result (HaveGoneOn self.old → HaveGoneOn self.new) }
    {
        if self.begun {
            self.pass(sample.time);
            self.hand_out(quiet)?;
            self.hear(sample);
        } else {
            quiet.push(*sample)?;
            if self.least > 0 {
                self.begin(sample);
            }
        }
        Ok(())
    }

    // The first sample.
    fn begin(&mut self, sample: &Sample)
        ensures least { self.new.least ≡ self.old.least }
        ensures begun { self.new.begun ≡ true }
        ensures gone_on { GoesOn self.new.scl × GoesOn self.new.sda }
        ensures to_come { (more : List Sample) →
            sample.now ∷ to_come self.new more ≡ quiet_behind_first self.old.least (sample.now ∷ more) }
    {
        self.begun = true;
        self.time = sample.time;
        self.scl = Wire::new(sample.scl);
        self.sda = Wire::new(sample.sda);
        self.first = First::Both;
    }

    // Advance time; levels unchanged.
    #[inline(always)]
    fn pass(&mut self, time: u64)
        ensures least { self.new.least ≡ self.old.least }
        ensures begun { self.new.begun ≡ self.old.begun }
        ensures time { self.new.time ≡ time }
        ensures to_come { (sample : Sample) (more : List Sample) → sample.time ≡ time →
            to_come self.new (sample ∷ more) ≡ to_come self.old (sample ∷ more) }
    {
        let passed = time.saturating_sub(self.time);
        self.time = time;
        self.scl.pass(passed);
        self.sda.pass(passed);
    }

    // The levels that have lasted go on.
    #[inline(always)]
    fn hand_out(&mut self, quiet: &mut Vec<Sample>) -> Result<(), AllocError>
        ensures least { self.new.least ≡ self.old.least }
        ensures begun { self.new.begun ≡ self.old.begun }
        ensures time { self.new.time ≡ self.old.time }
        ensures missing { (self.new.scl.missing ≡ self.old.scl.missing)
            × (self.new.sda.missing ≡ self.old.sda.missing) }
        ensures go_on { OnOk result (GoesOn self.new.scl × GoesOn self.new.sda) }
        ensures to_come { OnOk result ((more : List Sample) →
            quiet.new.items ++ to_come self.new more ≡ quiet.old.items ++ to_come self.old more) }
    {
        match self.first {
            First::Both => self.hand_out_both(quiet)?,
            First::Scl => {
                self.hand_out_scl(quiet)?;
                self.hand_out_sda(quiet)?;
            }
            First::Sda => {
                self.hand_out_sda(quiet)?;
                self.hand_out_scl(quiet)?;
            }
        }
        Ok(())
    }

    // The same where the runs of both lines began in one sample.
    #[inline(always)]
    fn hand_out_both(&mut self, quiet: &mut Vec<Sample>) -> Result<(), AllocError>
        requires { self.old.first ≡ Both }
        ensures least { self.new.least ≡ self.old.least }
        ensures begun { self.new.begun ≡ self.old.begun }
        ensures time { self.new.time ≡ self.old.time }
        ensures missing { (self.new.scl.missing ≡ self.old.scl.missing)
            × (self.new.sda.missing ≡ self.old.sda.missing) }
        ensures go_on { OnOk result (GoesOn self.new.scl × GoesOn self.new.sda) }
        ensures to_come { OnOk result ((more : List Sample) →
            quiet.new.items ++ to_come self.new more ≡ quiet.old.items ++ to_come self.old more) }
    {
        if self.scl.is_due() || self.sda.is_due() {
            self.scl.go_on();
            self.sda.go_on();
            quiet.push(self.sample_at(self.scl.from))?;
        }
        Ok(())
    }

    // The same of SCL alone, where what is before it has been handed out.
    #[inline(always)]
    fn hand_out_scl(&mut self, quiet: &mut Vec<Sample>) -> Result<(), AllocError>
        requires alone { self.old.first ≢ Both }
        requires behind { self.old.first ≡ Sda → GoesOn self.old.sda }
        ensures least { self.new.least ≡ self.old.least }
        ensures begun { self.new.begun ≡ self.old.begun }
        ensures time { self.new.time ≡ self.old.time }
        ensures first { self.new.first ≡ self.old.first }
        ensures missing { self.new.scl.missing ≡ self.old.scl.missing }
        ensures other { self.new.sda ≡ self.old.sda }
        ensures go_on { OnOk result (GoesOn self.new.scl) }
        ensures to_come { OnOk result ((more : List Sample) →
            quiet.new.items ++ to_come self.new more ≡ quiet.old.items ++ to_come self.old more) }
    {
        if self.scl.is_due() {
            self.scl.go_on();
            quiet.push(self.sample_at(self.scl.from))?;
        }
        Ok(())
    }

    // The same of SDA.
    #[inline(always)]
    fn hand_out_sda(&mut self, quiet: &mut Vec<Sample>) -> Result<(), AllocError>
        requires alone { self.old.first ≢ Both }
        requires behind { self.old.first ≡ Scl → GoesOn self.old.scl }
        ensures least { self.new.least ≡ self.old.least }
        ensures begun { self.new.begun ≡ self.old.begun }
        ensures time { self.new.time ≡ self.old.time }
        ensures first { self.new.first ≡ self.old.first }
        ensures missing { self.new.sda.missing ≡ self.old.sda.missing }
        ensures other { self.new.scl ≡ self.old.scl }
        ensures go_on { OnOk result (GoesOn self.new.sda) }
        ensures to_come { OnOk result ((more : List Sample) →
            quiet.new.items ++ to_come self.new more ≡ quiet.old.items ++ to_come self.old more) }
    {
        if self.sda.is_due() {
            self.sda.go_on();
            quiet.push(self.sample_at(self.sda.from))?;
        }
        Ok(())
    }

    // The sample of this time with the levels that go on.
    #[inline(always)]
    fn sample_at(&self, time: u64) -> Sample
        ensures { result ≡ record { time = time; scl = self.now.scl.kept; sda = self.now.sda.kept } }
    {
        Sample {
            time,
            scl: self.scl.kept,
            sda: self.sda.kept,
        }
    }

    // The levels of a sample, up to whose time neither line has changed. A run that ends before it has lasted is
    // ignored.
    #[inline(always)]
    fn hear(&mut self, sample: &Sample)
        requires time { self.old.time ≡ sample.now.time }
        requires scl { GoesOn self.old.scl }
        requires sda { GoesOn self.old.sda }
        ensures least { self.new.least ≡ self.old.least }
        ensures begun { self.new.begun ≡ self.old.begun }
        ensures gone_on { 0 < self.old.least → GoesOn self.new.scl × GoesOn self.new.sda }
        ensures to_come { (more : List Sample) → to_come self.new more ≡ to_come self.old (sample.now ∷ more) }
    {
        match (self.scl.has(sample.scl), self.sda.has(sample.sda)) {
            (true, true) => {}
            (true, false) => {
                self.short = self.short.saturating_add(self.sda.short());
                self.sda.begin(sample.sda, sample.time, self.least);
                self.first = First::Scl;
            }
            (false, true) => {
                self.short = self.short.saturating_add(self.scl.short());
                self.scl.begin(sample.scl, sample.time, self.least);
                self.first = First::Sda;
            }
            (false, false) => {
                let short = self.short.saturating_add(self.scl.short());
                self.short = short.saturating_add(self.sda.short());
                self.scl.begin(sample.scl, sample.time, self.least);
                self.sda.begin(sample.sda, sample.time, self.least);
                self.first = First::Both;
            }
        }
    }
}
