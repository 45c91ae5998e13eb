// The bits of headers, in the order in which they are sent (UM10204, 3.1.10).

ghost use Rattle.std.specs.Prelude.{◌≡◌, [], ◌∷◌, ◌++◌};
ghost use Rattle.message_tree.specs.Patterns.{address_bits};

use message_tree::{Address, Bit};

/// The eight bits of the header with this address and direction.
pub(crate) fn header_bits(address: &Address, direction: Bit) -> [Bit; 8]
    ensures { result ≡ address_bits address.now ++ direction ∷ [] }
{
    [
        address.bit(0),
        address.bit(1),
        address.bit(2),
        address.bit(3),
        address.bit(4),
        address.bit(5),
        address.bit(6),
        direction,
    ]
}
