// What a certificate says.

ghost use Rattle.std.specs.Prelude.{◌≡◌, ◌<◌};
ghost use Rattle.certificate.specs.Drops.{weight, node_weight, parts_weight};
ghost use Rattle.certificate.specs.Proofs.{proof_tree};

use message_tree::{Item, Kind};
use std::mem;

/// A proof that two participants never clash, as a tree over what they send.
pub enum Cert {
    /// Two headers, or two data bytes, whose bit at this place is known in both and different: one of the two loses
    /// arbitration there (UM10204, 3.1.8). The place is 0 to 7; a greater number proves nothing.
    Part(u8),
    /// Two reads that never end after the same number of bytes. It stands only as the first part of `Read`.
    Short,
    /// Two write headers, or two data bytes: a proof for what follows the acknowledge, and one for what follows its
    /// absence.
    Byte(Box<Cert>, Box<Cert>),
    /// Two read headers: a proof for what follows the last byte, or `Short`, and one for what follows where the header
    /// is not acknowledged.
    Read(Box<Cert>, Box<Cert>),
    /// Two repeated STARTs: a proof for the frames after them.
    Again(Box<Cert>),
    /// Two STOPs.
    Alike,
}

// A proof is let go in a loop that takes no memory, however deep its tree is: a derived drop would call itself once for each
// level. The first part of a node is turned up, until nothing is in it.

impl Drop for Cert {
    #[cycle(drops)]
    fn drop(mut self) {
        loop {
            match self {
                Cert::Part(_) | Cert::Short | Cert::Alike => return,
                Cert::Again(frames) => self = Box::into_inner(frames),
                Cert::Byte(acked, refused) => self = turned(acked, refused),
                Cert::Read(after, refused) => self = turned(after, refused),
            }
        }
    }
}

// The same parts, with less in the first; or the second where nothing is in the first.
#[cycle(drops)]
fn turned(mut first: Box<Cert>, second: Box<Cert>) -> Cert
    ensures { weight (proof_tree result) < node_weight (proof_tree first.value) (proof_tree second.value) }
{
    match mem::replace(&mut *first, Cert::Alike).parts() {
        Parts::None => {
            drop(Box::into_inner(first));
            Box::into_inner(second)
        }
        Parts::One(frames) => {
            drop(Box::into_inner(first));
            Cert::Byte(frames, second)
        }
        Parts::Two(outer, inner) => {
            *first = Cert::Byte(inner, second);
            Cert::Byte(outer, first)
        }
    }
}

// What is below a node.
enum Parts {
    None,
    One(Box<Cert>),
    Two(Box<Cert>, Box<Cert>),
}

impl Cert {
    fn parts(self) -> Parts
        ensures { parts_weight result ≡ weight (proof_tree self) }
    {
        match self {
            Cert::Part(_) | Cert::Short | Cert::Alike => Parts::None,
            Cert::Again(frames) => Parts::One(frames),
            Cert::Byte(acked, refused) => Parts::Two(acked, refused),
            Cert::Read(after, refused) => Parts::Two(after, refused),
        }
    }
}

/// Where two participants clash: the wire before it, and the kinds of item that meet.
#[derive(Drop)]
pub struct Fault {
    pub wire: Vec<Item>,
    /// The kind of the first participant's item.
    pub first: Kind,
    /// The kind of the second participant's item.
    pub second: Kind,
}

/// What a certificate says of a whole plan.
#[derive(Drop)]
pub enum CertText {
    /// A proof for each pair of the plan, in the order of the pairs.
    Proofs(Vec<Cert>),
    /// The fault of the pair with this number.
    Flaw(u32, Fault),
}
