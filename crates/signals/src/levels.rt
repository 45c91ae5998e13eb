// The levels of all signals of one bit, time stamp by time stamp. Whether the dump is right is for its reader to say.

use crate::candidates::Candidates;
use crate::codes::Codes;
use crate::lasting::Lasting;
use dump_tokens::{Limits, Part, Parts, Scale};
use std::alloc::{AllocError, Global};
use vcd_read::{Level, Tokens};

/// Follows the changes of a dump.
pub(crate) struct Levels {
    parts: Parts,
    codes: Codes,
    // the time of the stamp that goes on, the levels that were given in it, and of which signals these are
    time: u64,
    given: Vec<Option<Level>>,
    touched: Vec<u32>,
    lasting: Lasting,
    // whether an allocation has failed: then no more is taken
    has_failed: bool,
}

// Written out, so that one call lets it go.
impl Drop for Levels {
    fn drop(self) {
        let Self {
            parts: _,
            codes: _,
            time: _,
            given: _,
            touched: _,
            lasting: _,
            has_failed: _,
        } = self;
    }
}

impl Levels {
    /// Before the first token. The lines of a bus are looked for among the candidates.
    pub(crate) fn new(
        alloc: Global,
        codes: Codes,
        candidates: Candidates,
        limits: Limits,
        scale: Option<Scale>,
    ) -> Result<Levels, AllocError> {
        let count = codes.count() as usize;
        let lasting = Lasting::new(alloc, count, candidates, limits, scale)?;
        Ok(Levels {
            parts: Parts::new(),
            codes,
            time: 0,
            given: vec![in alloc; None; count]?,
            touched: Vec::new(alloc),
            lasting,
            has_failed: false,
        })
    }

    /// Whether no allocation has failed.
    ///
    /// # Errors
    ///
    /// Where one has.
    pub(crate) fn check(&self) -> Result<(), AllocError> {
        if self.has_failed {
            Err(AllocError)
        } else {
            Ok(())
        }
    }

    /// What the signals have shown at the end of the dump.
    pub(crate) fn finish(mut self) -> Result<Lasting, AllocError> {
        self.check()?;
        self.settle()?;
        let Self {
            parts: _,
            codes: _,
            time: _,
            given: _,
            touched: _,
            mut lasting,
            has_failed: _,
        } = self;
        lasting.finish()?;
        Ok(lasting)
    }

    // The next token.
    fn take(&mut self, token: &[u8]) -> Result<(), AllocError> {
        match self.parts.next(token) {
            // one that comes again goes on with its time stamp
            Some(Part::Time(time)) if time != self.time => {
                self.settle()?;
                self.time = time;
            }
            Some(Part::Change(level, code)) => self.change(level, code)?,
            _ => {}
        }
        Ok(())
    }

    fn change(&mut self, level: Level, code: &[u8]) -> Result<(), AllocError> {
        let Some(number) = self.codes.number(code) else {
            return Ok(());
        };
        if let Some(given) = self.given.get_mut(number as usize) {
            if given.is_none() {
                self.touched.push(number)?;
            }
            *given = Some(level);
        }
        Ok(())
    }

    // The end of a time stamp.
    fn settle(&mut self) -> Result<(), AllocError> {
        self.lasting.reach(self.time)?;
        for number in self.touched.iter() {
            if let Some(given) = self.given.get_mut(*number as usize)
                && let Some(level) = given.take()
            {
                self.lasting.hear(*number, level)?;
            }
        }
        self.touched.clear();
        Ok(())
    }
}

impl Tokens for Levels {
    fn token(&mut self, token: &[u8]) {
        if !self.has_failed {
            self.has_failed = self.take(token).is_err();
        }
    }
}
