// Why a comparison gives no proof: a clash with the wire before it, or out of memory.

ghost use Rattle.std.specs.Prelude.{◌≡◌, [], ◌∷◌, ◌++◌, length, reverse};
ghost use Rattle.message_tree.specs.declared.items.Item.TheVariants.{Heard};
ghost use Rattle.pair_walk.specs.declared.halts.Halt.TheVariants.{NoMemory};
ghost use Rattle.pair_walk.specs.Compare.{ClashesAtOnce, HaltsBehind};
ghost use Rattle.pair_walk.specs.Wires.{read_wire};

use crate::wires::push_reversed;
use message_tree::{Item, Kind};
use std::alloc::{AllocError, Global};

/// Why a comparison gives no proof.
#[derive(Drop)]
pub(crate) enum Halt {
    /// The two clash.
    Clash(Meeting),
    NoMemory,
}

impl From<AllocError> for Halt {
    ghost from_gives = { λ _ halt. halt ≡ NoMemory };

    fn from(_error: AllocError) -> Halt {
        Halt::NoMemory
    }
}

/// What meets, and the wire before it, its last item first.
#[derive(Drop)]
pub(crate) struct Meeting {
    pub(crate) back: Vec<Item>,
    pub(crate) first: Kind,
    pub(crate) second: Kind,
}

// A clash at once.
pub(crate) fn clash(alloc: Global, first: Kind, second: Kind) -> Halt
    ensures { ClashesAtOnce first second result }
{
    Halt::Clash(Meeting {
        back: Vec::new(alloc),
        first,
        second,
    })
}

// The same clash with these items before it.
pub(crate) fn behind(halt: Halt, items: &[Item]) -> Halt
    ensures { HaltsBehind items.now halt result }
{
    match halt {
        Halt::NoMemory => Halt::NoMemory,
        Halt::Clash(mut meeting) => match push_reversed(&mut meeting.back, items) {
            Ok(()) => Halt::Clash(meeting),
            Err(AllocError) => Halt::NoMemory,
        },
    }
}

// The last byte that is read, and one that is not the last.
const LAST: [Item; 9] = [
    Item::Heard(false),
    Item::Heard(false),
    Item::Heard(false),
    Item::Heard(false),
    Item::Heard(false),
    Item::Heard(false),
    Item::Heard(false),
    Item::Heard(false),
    Item::Sent(true),
];

const MORE: [Item; 9] = [
    Item::Heard(false),
    Item::Heard(false),
    Item::Heard(false),
    Item::Heard(false),
    Item::Heard(false),
    Item::Heard(false),
    Item::Heard(false),
    Item::Heard(false),
    Item::Sent(false),
];

// The same clash after `more` bytes that are acknowledged and a last one.
pub(crate) fn behind_read(halt: Halt, more: u8) -> Halt
    ensures { HaltsBehind (read_wire more) halt result }
{
    if more == 0 {
        behind(halt, &LAST)
    } else {
        behind(behind_read(halt, more - 1), &MORE)
    }
}
