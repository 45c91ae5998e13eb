// How a line of the bus is found among the signals of a dump.

ghost use Rattle.std.specs.Prelude.{◌≡◌, IfOk};
ghost use Rattle.vcd_read.specs.Probes.{declares, place_of};
ghost use Rattle.vcd_read.specs.Views.{asked, sought_by};

use std::alloc::{AllocError, Global};

/// By what a line of the bus is found: of the signals in the definitions of a dump it is the first that has this.
#[derive(Clone, Copy, PartialEq, Eq)]
pub enum Probe<'a> {
    /// One bit, and this reference, which is the fourth token of a `$var`.
    Named(&'a str),
    /// One bit, and this identifier code, which is the third.
    Coded(&'a str),
    /// This identifier code. However many bits the signal has, the line is the one that stands so many places to the left of
    /// the rightmost. What a change does not write there is extended as IEEE 1364-2005, 18.2.1, says.
    Bit(&'a str, u32),
}

/// The same, with text of its own.
#[derive(Drop)]
pub(crate) enum Sought {
    Name(String),
    Code(String),
    CodeAndPlace(String, u32),
}

impl Sought {
    /// What the probe asks for.
    pub(crate) fn new(alloc: Global, probe: Probe<'_>) -> Result<Sought, AllocError>
        ensures { IfOk result (λ sought. sought_by sought ≡ asked probe.entry) }
    {
        Ok(match probe {
            Probe::Named(name) => Sought::Name(String::from_str(alloc, name)?),
            Probe::Coded(code) => Sought::Code(String::from_str(alloc, code)?),
            Probe::Bit(code, place) => Sought::CodeAndPlace(String::from_str(alloc, code)?, place),
        })
    }

    /// Whether a `$var` of one bit, or of another number, with this reference and this code is one of the signal.
    pub(crate) fn is_declared_by(&self, one_bit: bool, reference: &[u8], code: &[u8]) -> bool
        ensures { result ≡ declares (sought_by self.now) one_bit reference.now code.now }
    {
        match self {
            Sought::Name(name) => one_bit && reference == name.as_bytes(),
            Sought::Code(own) => one_bit && code == own.as_bytes(),
            Sought::CodeAndPlace(own, _) => code == own.as_bytes(),
        }
    }

    /// How many places to the left of the rightmost digit of a vector that of the line stands.
    pub(crate) fn place(&self) -> u32
        ensures { result ≡ place_of (sought_by self.now) }
    {
        match self {
            Sought::CodeAndPlace(_, place) => *place,
            _ => 0,
        }
    }
}
