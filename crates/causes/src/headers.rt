// The address and the R/W bit of a frame, as they are on a wire.

ghost use Rattle.std.specs.Prelude.{◌≡◌};
ghost use Rattle.causes.specs.Causes.{header_before, with_bit, with_item};

use message_tree::Item;

/// The first eight bits of the frame in which the slot after this wire lies, as far as they are on the wire: the number that has
/// them as its digits after a 1.
#[tactic(auto, unfolding(crate::specs::Causes::header_before))]
pub(crate) fn header_before(wire: &[Item]) -> usize
    ensures { result ≡ header_before wire.now }
{
    let mut header = 1;
    for item in wire {
        header = with_item(header, *item);
    }
    header
}

// The same after one item more.
fn with_item(header: usize, item: Item) -> usize
    ensures { result ≡ with_item header item }
{
    match item {
        Item::Again => 1,
        Item::Sent(bit) => with_bit(header, bit),
        Item::Heard(_) => header,
        Item::Stop => header,
        Item::Claim => header,
    }
}

fn with_bit(header: usize, bit: bool) -> usize
    ensures { result ≡ with_bit header bit }
{
    if header < 256 {
        if bit { header * 2 + 1 } else { header * 2 }
    } else {
        header
    }
}
