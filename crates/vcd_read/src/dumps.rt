// What the tokens of a dump have said so far.

ghost use Rattle.std.specs.Prelude.{◌≡◌, ℕ, ◌≤◌, length, vec_len, vec_capacity, IfOk, OnOk};

use crate::beside::Bystander;
use crate::errors::Refusal;
use crate::probes::Probe;
use crate::samples::{Level, Sample};
use crate::wires::Wire;
use crate::words::is_end;
use std::alloc::{AllocError, Global};

/// The tokens of a `$var` that have come.
#[derive(Clone, Copy, PartialEq, Eq)]
pub(crate) enum Seen {
    Nothing,
    Type,
    Size { one_bit: bool },
    Code { one_bit: bool },
    /// The reference, and perhaps more.
    Reference,
}

/// What the next token belongs to, with the line where that began.
#[derive(Clone, Copy, PartialEq, Eq)]
pub(crate) enum Context {
    Nothing,
    /// A command that is skipped up to `$end`.
    Skipped(u64),
    Var(u64, Seen),
    EndDefinitions(u64),
    /// A change whose code comes next: what a vector says, or nothing of a real or string change.
    Change(u64, Option<Levels>),
}

/// What a change says of each line, where its code is the line's.
#[derive(Clone, Copy, PartialEq, Eq)]
pub(crate) struct Levels {
    pub(crate) scl: Level,
    pub(crate) sda: Level,
}

/// What the tokens of a dump have said so far.
pub(crate) struct Dump {
    pub(crate) scl: Wire,
    pub(crate) sda: Wire,
    pub(crate) context: Context,
    // where a block of value changes began that has not ended
    pub(crate) block: Option<u64>,
    // the third token of the latest `$var`
    pub(crate) code: Vec<u8>,
    // whether the definitions have ended
    pub(crate) defined: bool,
    pub(crate) time: u64,
    ghost scl_code_fits: { vec_len code ≤ vec_capacity scl.code },
    ghost sda_code_fits: { vec_len code ≤ vec_capacity sda.code },
}

// Written out, so that one call lets it go.
impl Drop for Dump {
    fn drop(self) {
        let Self {
            scl: _,
            sda: _,
            context: _,
            block: _,
            code: _,
            defined: _,
            time: _,
        } = self;
    }
}

impl Dump {
    ghost use Rattle.vcd_read.specs.Dumps.{step, at_end, open_line};
    ghost use Rattle.vcd_read.specs.Views.{asked, state_of, HasRoom, Steps};
    ghost use Rattle.vcd_read.specs.States.{state_at_first};

    /// Before the first token.
    pub(crate) fn new(alloc: Global, scl: Probe<'_>, sda: Probe<'_>) -> Result<Dump, AllocError>
        ensures { IfOk result (λ d. state_of d ≡ state_at_first (asked scl.entry) (asked sda.entry)) }
    {
        Ok(Dump {
            scl: Wire::new(alloc, scl)?,
            sda: Wire::new(alloc, sda)?,
            context: Context::Nothing,
            block: None,
            code: Vec::new(alloc),
            defined: false,
            time: 0,
        })
    }

    /// Makes room for codes of so many bytes. A failure changes nothing.
    pub(crate) fn reserve(&mut self, bytes: usize) -> Result<(), AllocError>
        ensures state { state_of self.new ≡ state_of self.old }
        ensures room { OnOk result (HasRoom bytes self.new) }
        ensures keeps_room { (n : ℕ) → HasRoom n self.old → HasRoom n self.new }
    {
        self.code.reserve(bytes)?;
        self.scl.code.reserve(bytes)?;
        self.sda.code.reserve(bytes)
    }

    /// Reads the next token, which stands on this line. The sample is that of the time stamp which it closes. Another is told of
    /// changes and signals.
    #[tactic(auto, unfolding(crate::specs::Dumps::step))]
    #[inline(always)]
    pub(crate) fn read<B: Bystander>(
        &mut self,
        token: &[u8],
        line: u64,
        beside: &mut B,
    ) -> Result<Option<Sample>, Refusal>
        requires { HasRoom (length token.now) self.old }
        ensures step { Steps result (step (state_of self.old) token.now line) (state_of self.new) }
        ensures room { (n : ℕ) → HasRoom n self.old → HasRoom n self.new }
    {
        match self.context {
            Context::Nothing => {
                if self.defined {
                    return self.change(token, line, beside);
                }
                self.define(token, line)?;
            }
            Context::Skipped(_) => {
                if is_end(token) {
                    self.context = Context::Nothing;
                }
            }
            Context::Var(began, seen) => {
                self.inside_var(began, seen, token, line)?;
                if let Seen::Code { one_bit } = seen {
                    beside.declare(one_bit, token, self.code.as_slice());
                }
            }
            Context::EndDefinitions(_) => {
                if is_end(token) {
                    self.end_definitions()?;
                }
            }
            Context::Change(began, to) => {
                self.context = Context::Nothing;
                if let Err(refusal) = self.change_of_code(to, token, line) {
                    self.context = Context::Change(began, to);
                    return Err(refusal);
                }
                if to.is_some() {
                    beside.change_of_vector(token, self.time);
                }
            }
        }
        Ok(None)
    }

    /// The end of the text closes the last time stamp.
    pub(crate) fn end(&self) -> Result<Option<Sample>, Refusal>
        ensures { result ≡ at_end (state_of self.now) }
    {
        if let Some(line) = self.open_line() {
            return Err(Refusal::Unended(line));
        }
        if self.defined {
            return Ok(self.stamp_sample());
        }
        match self.missing() {
            Some(signal) => Err(Refusal::NoSignal(signal)),
            None => Ok(None),
        }
    }

    // Where the first of the things that are open began.
    fn open_line(&self) -> Option<u64>
        ensures { result ≡ open_line (state_of self.now) }
    {
        if self.block.is_some() {
            return self.block;
        }
        match self.context {
            Context::Nothing => None,
            Context::Skipped(line)
            | Context::Var(line, _)
            | Context::EndDefinitions(line)
            | Context::Change(line, _) => Some(line),
        }
    }
}
