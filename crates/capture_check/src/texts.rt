// The marks of a transaction followed through what a participant sends.

ghost use Rattle.std.specs.Prelude.{◌≡◌, ◌↔◌, [], ◌∷◌, ◌++◌, IfSome, IsTrue, Some, option_map};
ghost use Rattle.message_tree.specs.declared.bits.Bit.TheVariants.{One};
ghost use Rattle.message_tree.specs.declared.items.Item.{Item};
ghost use Rattle.message_tree.specs.Patterns.{address_bits};
ghost use Rattle.message_tree.specs.Texts.{FrameText, SentThen};
ghost use Rattle.message_tree.specs.Trees.{frame_tree};
ghost use Rattle.places.specs.Offers.{MayPut};
ghost use Rattle.capture_check.specs.Along.{after_bits, may_be};
ghost use Rattle.capture_check.specs.Explained.{Whatever};
ghost use Rattle.capture_check.specs.Marks.{Fits, Leaves};

use crate::bits::header_bits;
use crate::listening::Mark;
use message_tree::{Address, Bit, Frame, Item};
use places::{Offered, Place};
use plan_core::Sends;

/// Whether a text of the message has these marks.
pub(crate) fn frame_fits(frame: &Frame, marks: &[Mark]) -> bool
    ensures { IsTrue result ↔ Fits (FrameText (frame_tree frame.now)) marks.now }
{
    let mut place = Place::start(Sends::Message(frame));
    for mark in marks {
        let Some(item) = item_leaving(place.offered(), *mark) else {
            return false;
        };
        place = place.after(item);
    }
    is_over(place.offered())
}

// The item that may come next and leaves this mark, if there is one.
fn item_leaving(offered: Offered, mark: Mark) -> Option<Item>
    ensures some { IfSome result (λ x. MayPut offered x × Leaves x mark) }
    ensures only { (x : Item) → MayPut offered x → Leaves x mark → result ≡ Some x }
{
    match (offered, mark) {
        (Offered::Bit(Bit::Zero), Mark::Level(false)) => Some(Item::Sent(false)),
        (Offered::Bit(Bit::One), Mark::Level(true)) => Some(Item::Sent(true)),
        (Offered::Bit(Bit::Either), Mark::Level(level)) => Some(Item::Sent(level)),
        (Offered::Listen, Mark::Level(level)) => Some(Item::Heard(level)),
        (Offered::Again, Mark::Again) => Some(Item::Again),
        (Offered::Stop, Mark::Stop) => Some(Item::Stop),
        _ => None,
    }
}

// Whether all has been sent.
fn is_over(offered: Offered) -> bool
    ensures { IsTrue result ↔ (offered ≡ Offered.Nothing) }
{
    matches!(offered, Offered::Nothing)
}

/// Whether the marks begin with the header of an interrupt with this address.
pub(crate) fn interrupt_fits(address: &Address, marks: &[Mark]) -> bool
    ensures { IsTrue result ↔ Fits (SentThen (address_bits address.now ++ One ∷ []) Whatever) marks.now }
{
    match along_bits(&header_bits(address, Bit::One), marks) {
        Some(_) => true,
        None => false,
    }
}

// What follows these bits, where the marks begin with levels that may be sent for them.
fn along_bits<'a>(bits: &[Bit], marks: &'a [Mark]) -> Option<&'a [Mark]>
    ensures { option_map (λ rest. rest.now) result ≡ after_bits bits.now marks.now }
{
    match bits {
        [] => Some(marks),
        [bit, bits @ ..] => match marks {
            [Mark::Level(level), marks @ ..] => {
                if may_send(*bit, *level) {
                    along_bits(bits, marks)
                } else {
                    None
                }
            }
            _ => None,
        },
    }
}

// Whether this level may be sent where the pattern has this bit.
fn may_send(bit: Bit, level: bool) -> bool
    ensures { result ≡ may_be bit level }
{
    match bit {
        Bit::Zero => !level,
        Bit::One => level,
        Bit::Either => true,
    }
}
