// The definitions of a dump: IEEE 1364-2005, 18.2.3, declaration commands.

ghost use Rattle.std.specs.Prelude.{◌≡◌, ℕ, length, Some, None};
ghost use Rattle.vcd_read.specs.Definitions.{definition, inside_var, var_token, definitions_end, missing};
ghost use Rattle.vcd_read.specs.Views.{state_of, HasRoom, Leaves};

use crate::dumps::{Context, Dump, Seen};
use crate::errors::Refusal;
use crate::words::{Command, command_of, is_end};
use run_errors::Signal;

impl Dump {
    /// A token outside commands opens one.
    pub(crate) fn define(&mut self, token: &[u8], line: u64) -> Result<(), Refusal>
        ensures state { Leaves result (definition (state_of self.old) token.now line) (state_of self.new) }
        ensures room { (n : ℕ) → HasRoom n self.old → HasRoom n self.new }
    {
        self.context = match command_of(token) {
            Some(Command::Var) => Context::Var(line, Seen::Nothing),
            Some(Command::EndDefinitions) => Context::EndDefinitions(line),
            Some(Command::Other) => Context::Skipped(line),
            _ => return Err(Refusal::BadToken(line)),
        };
        Ok(())
    }

    /// A token inside a `$var` that began on a line before or on this one.
    pub(crate) fn inside_var(
        &mut self,
        began: u64,
        seen: Seen,
        token: &[u8],
        line: u64,
    ) -> Result<(), Refusal>
        requires { HasRoom (length token.now) self.old }
        ensures state { Leaves result (inside_var began seen (state_of self.old) token.now line) (state_of self.new) }
        ensures room { (n : ℕ) → HasRoom n self.old → HasRoom n self.new }
    {
        if !is_end(token) {
            self.var_token(began, seen, token);
            return Ok(());
        }
        if seen != Seen::Reference {
            return Err(Refusal::BadToken(line));
        }
        self.context = Context::Nothing;
        Ok(())
    }

    // One more token of a `$var`.
    fn var_token(&mut self, began: u64, seen: Seen, token: &[u8])
        requires { HasRoom (length token.now) self.old }
        ensures state { state_of self.new ≡ var_token began seen (state_of self.old) token.now }
        ensures room { (n : ℕ) → HasRoom n self.old → HasRoom n self.new }
    {
        let seen = match seen {
            Seen::Nothing => Seen::Type,
            Seen::Type => Seen::Size {
                one_bit: token == b"1".as_slice(),
            },
            Seen::Size { one_bit } => {
                self.code.clear();
                let _ = self.code.extend_from_slice(token);
                Seen::Code { one_bit }
            }
            Seen::Code { one_bit } => {
                self.scl.name_by(one_bit, token, self.code.as_slice());
                self.sda.name_by(one_bit, token, self.code.as_slice());
                Seen::Reference
            }
            Seen::Reference => return,
        };
        self.context = Context::Var(began, seen);
    }

    /// The `$end` of `$enddefinitions`.
    pub(crate) fn end_definitions(&mut self) -> Result<(), Refusal>
        ensures state { Leaves result (definitions_end (state_of self.old)) (state_of self.new) }
        ensures room { (n : ℕ) → HasRoom n self.old → HasRoom n self.new }
    {
        if let Some(signal) = self.missing() {
            return Err(Refusal::NoSignal(signal));
        }
        self.context = Context::Nothing;
        self.defined = true;
        Ok(())
    }

    /// The first of the two signals that no `$var` has been found for.
    pub(crate) fn missing(&self) -> Option<Signal>
        ensures { result ≡ missing (state_of self.now) }
    {
        if self.scl.is_missing() {
            Some(Signal::Scl)
        } else if self.sda.is_missing() {
            Some(Signal::Sda)
        } else {
            None
        }
    }
}
