// The bytes that a participant sends.

ghost use Rattle.std.specs.Prelude.{◌≡◌, ◌<◌, slice_get, Some, [], ◌∷◌, ◌++◌};
ghost use Rattle.message_tree.specs.Patterns.{address_bits};
ghost use Rattle.places.specs.Parts.{bits_of};

use message_tree::{Address, Bit, Pattern};

/// A byte that a participant sends.
#[derive(Clone, Copy, Drop)]
pub(crate) enum Byte {
    /// The header of a write: the address and the direction bit 0 (UM10204, 3.1.10).
    WriteHeader(Address),
    /// The header of a read, or of an interrupt: the address and a 1 (UM10204, 3.1.10, and our profile).
    ReadHeader(Address),
    /// A data byte (UM10204, 3.1.5).
    Data(Pattern),
}

impl Byte {
    /// The bit at place `k`, in the order of sending.
    pub(crate) fn bit(&self, k: u8) -> Bit
        requires { k < 8 }
        ensures { slice_get (bits_of self.now) k ≡ Some result }
    {
        match self {
            Byte::WriteHeader(address) => header_bit(address, Bit::Zero, k),
            Byte::ReadHeader(address) => header_bit(address, Bit::One, k),
            Byte::Data(bits) => bits.bit(k),
        }
    }
}

// The direction bit follows the seven bits of the address.
fn header_bit(address: &Address, direction: Bit, k: u8) -> Bit
    requires { k < 8 }
    ensures { slice_get (address_bits address.now ++ direction ∷ []) k ≡ Some result }
{
    if k < 7 { address.bit(k) } else { direction }
}
