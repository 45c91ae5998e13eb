// What may come next in what a participant sends.

use message_tree::{Bit, Item};

/// What may come next in what a participant sends.
#[derive(Clone, Copy, PartialEq, Eq)]
pub enum Offered {
    /// The participant drives a bit: this one, or either where it is open (UM10204, 3.1.5). Its own acknowledge of a byte
    /// that it reads is such a bit, and is open where the byte may be the last or not (3.1.6).
    Bit(Bit),
    /// A target drives a bit, and the participant hears 0 or 1 (UM10204, 3.1.6).
    Listen,
    /// A repeated START (UM10204, 3.1.10).
    Again,
    /// A STOP (UM10204, 3.1.4).
    Stop,
    /// An interrupt waits for the answer to its header (our profile).
    Claim,
    /// Nothing: all has been sent.
    Nothing,
}

impl Offered {
    ghost use Rattle.std.specs.Prelude.{◌↔◌, IsTrue};
    ghost use Rattle.places.specs.Offers.{MayPut};

    /// Whether this item may come next.
    pub fn allows(&self, item: Item) -> bool
        ensures { IsTrue result ↔ MayPut self.now item }
    {
        match (*self, item) {
            (Offered::Bit(Bit::Zero), Item::Sent(bit)) => !bit,
            (Offered::Bit(Bit::One), Item::Sent(bit)) => bit,
            (Offered::Bit(Bit::Either), Item::Sent(_)) => true,
            (Offered::Listen, Item::Heard(_)) => true,
            (Offered::Again, Item::Again) => true,
            (Offered::Stop, Item::Stop) => true,
            (Offered::Claim, Item::Claim) => true,
            _ => false,
        }
    }
}
