// What one participant puts in one slot.

ghost use Rattle.std.specs.Prelude.{◌≡◌};
ghost use Rattle.plays.specs.Plays.{item_with};

use message_tree::Item;

/// What one participant of a bench puts in one slot.
#[derive(Clone, Copy, PartialEq, Eq)]
pub enum Put {
    /// It drives this bit (UM10204, 3.1.5).
    Drive(bool),
    /// It listens to the bit that the targets drive (UM10204, 3.1.6).
    Listen,
    /// A repeated START (UM10204, 3.1.10).
    Again,
    /// A STOP (UM10204, 3.1.4).
    Stop,
    /// An interrupt waits for the answer to its header (our profile).
    Claim,
}

impl Put {
    /// The item that the put stands for, where the targets' bit in its slot is `answer`.
    pub fn item(self, answer: bool) -> Item
        ensures { result ≡ item_with answer self }
    {
        match self {
            Put::Drive(bit) => Item::Sent(bit),
            Put::Listen => Item::Heard(answer),
            Put::Again => Item::Again,
            Put::Stop => Item::Stop,
            Put::Claim => Item::Claim,
        }
    }
}
