// The wire of a fault, from its end to its beginning.

ghost use Rattle.std.specs.Prelude.{◌≡◌, [], ◌∷◌, ◌++◌, true, false, OnOk, reverse};
ghost use Rattle.message_tree.specs.declared.bits.Bit.TheVariants.{Zero, One};
ghost use Rattle.message_tree.specs.declared.items.Item.TheVariants.{Sent, Heard};
ghost use Rattle.message_tree.specs.Patterns.{address_bits, pattern_bits};
ghost use Rattle.pair_walk.specs.Wires.{agreed_bit, agreed};

use message_tree::{Address, Bit, Item, Pattern};
use std::alloc::AllocError;

// Adds these items at the end, the last of them first.
pub(crate) fn push_reversed(back: &mut Vec<Item>, items: &[Item]) -> Result<(), AllocError>
    ensures { OnOk result (back.new.items ≡ back.old.items ++ reverse items.now) }
{
    match items {
        [] => Ok(()),
        [first, rest @ ..] => {
            push_reversed(back, rest)?;
            back.push(*first)?;
            Ok(())
        }
    }
}

// The first bit that both may send, where they may send one.
fn agreed_item(b: Bit, c: Bit) -> Item
    ensures { result ≡ Sent (agreed_bit b c) }
{
    match (b, c) {
        (Bit::One, _) | (_, Bit::One) => Item::Sent(true),
        _ => Item::Sent(false),
    }
}

// The bits of two headers with one direction, and the answer to them.
pub(crate) fn header_items(a: &Address, b: &Address, direction: bool, answer: bool) -> [Item; 9]
    ensures { result ≡ agreed (address_bits a.now) (address_bits b.now) ++ (Sent direction ∷ Heard answer ∷ []) }
{
    [
        agreed_item(a.bit(0), b.bit(0)),
        agreed_item(a.bit(1), b.bit(1)),
        agreed_item(a.bit(2), b.bit(2)),
        agreed_item(a.bit(3), b.bit(3)),
        agreed_item(a.bit(4), b.bit(4)),
        agreed_item(a.bit(5), b.bit(5)),
        agreed_item(a.bit(6), b.bit(6)),
        Item::Sent(direction),
        Item::Heard(answer),
    ]
}

// The bits of two bytes, and the answer to them.
pub(crate) fn byte_items(a: &Pattern, b: &Pattern, answer: bool) -> [Item; 9]
    ensures { result ≡ agreed (pattern_bits a.now) (pattern_bits b.now) ++ (Heard answer ∷ []) }
{
    [
        agreed_item(a.bit(0), b.bit(0)),
        agreed_item(a.bit(1), b.bit(1)),
        agreed_item(a.bit(2), b.bit(2)),
        agreed_item(a.bit(3), b.bit(3)),
        agreed_item(a.bit(4), b.bit(4)),
        agreed_item(a.bit(5), b.bit(5)),
        agreed_item(a.bit(6), b.bit(6)),
        agreed_item(a.bit(7), b.bit(7)),
        Item::Heard(answer),
    ]
}
