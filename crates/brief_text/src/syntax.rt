// A brief as a tree: what its text says, before names are looked up and repetitions are written out.

ghost use Rattle.std.specs.Prelude.{◌≡◌, ◌++◌, codes, IfOk};
ghost use Rattle.std.specs.Str.{bytes_eq};
ghost use Rattle.plan_core.specs.NameBytes.{name_bytes};
ghost use Rattle.brief_text.specs.Drafts.{same_side};
ghost use Rattle.brief_text.specs.Splitting.{is_label, side_name};
ghost use Rattle.brief_text.specs.Standing.{side};

use crate::naming::{copied, spelled};
use message_tree::{Address, Count, Pattern};
use plan_core::Name;
use std::alloc::{AllocError, Global};

/// A name, with the line of its token.
#[derive(Drop)]
pub(crate) struct NameFound {
    pub(crate) name: Name,
    pub(crate) line: u64,
}

/// A value that is spelled out, or the name of one.
#[derive(Drop)]
pub(crate) enum Value<T: Copy> {
    Spelled(T),
    Named(NameFound),
}

/// How often a data byte stands one after another.
#[derive(Clone, Copy)]
pub(crate) enum Often {
    /// So many times.
    Times(u8),
    /// As many times as the range of the message says.
    Ranged,
}

/// The ends of a range: LO and HI.
#[derive(Clone, Copy)]
pub struct Lengths {
    pub least: u8,
    pub greatest: u8,
}

/// A frame, and what follows it.
#[cycle(syntax)]
#[derive(Drop)]
pub(crate) enum FrameSyntax {
    Write {
        to: Value<Address>,
        /// Where the header is not acknowledged.
        refused: TailSyntax,
        acked: Box<DataSyntax>,
    },
    Read {
        to: Value<Address>,
        count: Count,
        /// Where the header is not acknowledged.
        refused: TailSyntax,
        /// After the last byte.
        after: TailSyntax,
    },
}

/// Data bytes of a `write`, and what follows them.
#[cycle(syntax)]
#[derive(Drop)]
pub(crate) enum DataSyntax {
    Byte {
        bits: Value<Pattern>,
        often: Often,
        /// Where the byte is not acknowledged.
        refused: TailSyntax,
        acked: Box<DataSyntax>,
    },
    /// A byte that follows from others, or is a choice.
    Made {
        made: MadeSyntax,
        /// Where the byte is not acknowledged.
        refused: TailSyntax,
        acked: Box<DataSyntax>,
    },
    /// No further byte.
    Last(TailSyntax),
}

/// What value a byte has.
#[derive(Clone, Copy)]
pub(crate) enum Choice {
    /// One from the first to the second.
    Span { least: u8, greatest: u8 },
    /// Any but these.
    AllBut { least: u8, greatest: u8 },
}

/// A byte that follows from others, or is a choice.
#[derive(Drop)]
pub(crate) enum MadeSyntax {
    /// `wr(..)` or `rd(..)`: the first byte of a frame to this address.
    Header { reads: bool, to: Value<Address> },
    /// `pec`: the packet error code.
    PacketCode,
    /// `sum`: the checksum.
    Checksum,
    /// `0x02..0xFF` or `any but 0x01`.
    Chosen(Choice),
}

/// A STOP, or a repeated START and further frames.
#[cycle(syntax)]
#[derive(Drop)]
pub(crate) enum TailSyntax {
    Stop,
    Frames(Box<FrameSyntax>),
}

/// What a `never` names: a controller, or what one sends by its label, as `bmc/set`.
#[derive(Drop)]
pub(crate) struct Party {
    pub(crate) controller: Name,
    pub(crate) label: Option<Name>,
    pub(crate) line: u64,
}

impl Party {
    /// The name of its part: the controller, and `bmc_set` for `bmc/set`.
    pub(crate) fn name(&self, alloc: Global) -> Result<Name, AllocError>
        ensures { IfOk result (λ it. name_bytes it ≡ side_name (side self.now)) }
    {
        let Some(label) = &self.label else {
            return copied(alloc, &self.controller);
        };
        let mut name = String::from_str(alloc, self.controller.as_str())?;
        name.push('_')?;
        name.push_str(label.as_str())?;
        spelled(alloc, name.as_str())
    }

    /// The same party, in memory of its own.
    pub(crate) fn copied(&self, alloc: Global) -> Result<Party, AllocError>
        ensures { IfOk result (λ it. side it ≡ side self.now) }
    {
        let label = match &self.label {
            None => None,
            Some(label) => Some(copied(alloc, label)?),
        };
        Ok(Party {
            controller: copied(alloc, &self.controller)?,
            label,
            line: self.line,
        })
    }

    /// Whether both are the same, wherever they stand.
    pub(crate) fn is_same(&self, other: &Party) -> bool
        ensures { result ≡ same_side (side self.now) (side other.now) }
    {
        self.controller == other.controller && self.label == other.label
    }

    /// Whether its label is this message.
    pub(crate) fn is_label(&self, message: &Name) -> bool
        ensures { result ≡ is_label (name_bytes message.now) (side self.now) }
    {
        match &self.label {
            None => false,
            Some(label) => *label == *message,
        }
    }

    /// Whether its part has this name.
    pub(crate) fn is_named(&self, name: &str) -> bool
        ensures { result ≡ bytes_eq name.now (side_name (side self.now)) }
    {
        match &self.label {
            None => self.controller.as_str() == name,
            Some(label) => is_joined(self.controller.as_str(), label.as_str(), name),
        }
    }
}

// Whether a text is these two with `_` between them.
fn is_joined(first: &str, second: &str, text: &str) -> bool
    ensures { result ≡ bytes_eq text.now (first.now ++ codes "_" ++ second.now) }
{
    match text.strip_prefix(first) {
        Some(rest) => match rest.strip_prefix("_") {
            Some(rest) => rest == second,
            None => false,
        },
        None => false,
    }
}
