// Places in what a participant sends.

use crate::offers::Offered;
use crate::parts::Part;
use message_tree::Item;
use plan_core::Sends;

/// A place in what a participant sends, from the START on (UM10204, 3.1.4). It borrows the message, and has one size for
/// all messages.
#[derive(Clone, Copy, Drop)]
pub struct Place<'a> {
    part: Part<'a>,
}

impl<'a> Place<'a> {
    ghost use Rattle.std.specs.Prelude.{◌≡◌, ◌↔◌, List, [], ◌∷◌};
    ghost use Rattle.message_tree.specs.declared.items.Item.{Item};
    ghost use Rattle.message_tree.specs.Texts.{SenderText};
    ghost use Rattle.plan_core.specs.Senders.{what_is_sent};
    ghost use Rattle.places.specs.Offers.{Begins, MayPut};
    ghost use Rattle.places.specs.Places.{rest_of};

    /// The place after the START, where nothing has been sent.
    pub fn start(sends: Sends<'a>) -> Place<'a>
        ensures { (u : List Item) → rest_of result u ↔ SenderText (what_is_sent sends.entry) u }
    {
        Place {
            part: Part::start(sends),
        }
    }

    /// What may come next: exactly the items with which a rest begins, and nothing exactly where all has been sent.
    pub fn offered(&self) -> Offered
        ensures items { (x : Item) → Begins (rest_of self.now) x ↔ MayPut result x }
        ensures end { rest_of self.now [] ↔ (result ≡ Offered.Nothing) }
    {
        self.part.offered()
    }

    /// The place after an item that may come next.
    pub fn after(&self, item: Item) -> Place<'a>
        requires { Begins (rest_of self.now) item }
        ensures { (u : List Item) → rest_of result u ↔ rest_of self.now (item ∷ u) }
    {
        Place {
            part: self.part.after(item),
        }
    }
}
