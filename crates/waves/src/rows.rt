// What a participant does in each slot.

use bench_run::filled;
use message_tree::Item;
use places::Place;
use plays::Put;

/// A participant on its way along the wire.
#[derive(Clone, Copy)]
pub(crate) struct Row<'a> {
    place: Place<'a>,
    is_live: bool,
}

/// What a participant does with SDA in a slot.
#[derive(Clone, Copy, PartialEq, Eq)]
pub(crate) enum Act {
    /// It pulls SDA LOW.
    Pull,
    /// It lets SDA go: it sends a 1, listens, or has lost.
    Free,
    /// It lets SDA go, and pulls it while SCL is HIGH: a repeated START.
    Again,
    /// It pulls SDA, and lets it go while SCL is HIGH: a STOP.
    Stop,
    /// It has sent its whole header, and waits for the answer.
    Claim,
}

impl<'a> Row<'a> {
    /// A participant that has sent START.
    pub(crate) fn new(place: Place<'a>) -> Row<'a> {
        Row {
            place,
            is_live: true,
        }
    }

    /// Whether it has not lost.
    pub(crate) fn is_live(&self) -> bool {
        self.is_live
    }

    /// What it does in the next slot. For an open bit it sends `fill`, or else the bit that the wire has.
    pub(crate) fn act(&self, fill: Option<bool>, item: Option<Item>) -> Act {
        if !self.is_live {
            return Act::Free;
        }
        match filled(self.place.offered(), bit_of(fill, item)) {
            Some(Put::Drive(false)) => Act::Pull,
            Some(Put::Drive(true) | Put::Listen) | None => Act::Free,
            Some(Put::Again) => Act::Again,
            Some(Put::Stop) => Act::Stop,
            Some(Put::Claim) => Act::Claim,
        }
    }

    /// The wire has shown this item. Whoever put another one has lost.
    pub(crate) fn see(&mut self, fill: Option<bool>, item: Item) {
        let put = match filled(self.place.offered(), bit_of(fill, Some(item))) {
            Some(Put::Drive(bit)) => Item::Sent(bit),
            _ => item,
        };
        self.is_live = self.is_live && put == item && self.place.offered().allows(item);
        if self.is_live && self.place.offered().allows(item) {
            self.place = self.place.after(item);
        }
    }
}

// What is sent for an open bit.
fn bit_of(fill: Option<bool>, item: Option<Item>) -> bool {
    fill.unwrap_or(item == Some(Item::Sent(true)))
}
