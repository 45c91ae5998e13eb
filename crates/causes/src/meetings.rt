// Where two participants meet, and why that is a fault.

ghost use Rattle.std.specs.Prelude.{◌≡◌, ◌<◌, length, slice_index_or};
ghost use Rattle.plan_core.specs.Pairs.{pairs_of};
ghost use Rattle.plan_core.specs.Participants.{participant_count};
ghost use Rattle.plan_core.specs.PlanContents.{plan_contents};
ghost use Rattle.causes.specs.Causes.{cause_of, meet, place_of, side_at, sides_of, slot_after};

use crate::families::{Family, family_at};
use crate::headers::header_before;
use crate::sides::{Side, in_order};
use certificate::Fault;
use message_tree::{Item, Kind};
use plan_core::Plan;

/// Where in a frame two meet.
#[derive(Clone, Copy, PartialEq, Eq, Hash)]
pub enum Place {
    /// In its first nine slots: the address, the R/W bit and the acknowledge.
    Header,
    /// After its header.
    Data,
    /// In this byte after its header, or where it would begin, counted from 1. It counts where neither of the two is one of
    /// several messages.
    Byte(usize),
}

/// Why a pair is unsafe: what meets, and where.
#[derive(Clone, Copy, PartialEq, Eq, Hash)]
pub struct Cause {
    /// The side of the lower family, and of one family that of the lower kind.
    pub first: Side,
    pub second: Side,
    /// The number of the frame in which they meet, counted from 0: a repeated START begins the next one.
    pub frame: usize,
    /// The address and the R/W bit of that frame, as its first eight bits are on the wire: the number that has them as its digits
    /// after a 1. It is below 256 where not all of them are there.
    pub header: usize,
    pub place: Place,
}

/// The cause of the pair with this number, where these are the families of the messages.
#[tactic(auto, unfolding(crate::specs::Causes::cause_of))]
pub(crate) fn cause_of(plan: &Plan, families: &[Family], pair: u32, fault: &Fault) -> Cause
    requires families { length families.now ≡ length (plan_contents plan.now).messages }
    requires within { pair < length (pairs_of (plan_contents plan.now)) }
    ensures { result ≡ cause_of (plan_contents plan.now) families.now (pair, fault.now) }
{
    let sides = sides_of(plan, families, pair, fault);
    meet(sides, slot_after(&fault.wire), header_before(&fault.wire))
}

// The two sides of the pair with this number.
fn sides_of(plan: &Plan, families: &[Family], pair: u32, fault: &Fault) -> (Side, Side)
    requires families { length families.now ≡ length (plan_contents plan.now).messages }
    requires within { pair < length (pairs_of (plan_contents plan.now)) }
    ensures { result ≡
        sides_of (plan_contents plan.now) families.now (slice_index_or (pairs_of (plan_contents plan.now)) pair (0, 0)) fault.now }
{
    let (x, y) = plan.pair(pair);
    let a = side_at(plan, families, x, fault.first);
    let b = side_at(plan, families, y, fault.second);
    in_order(a, b)
}

fn side_at(plan: &Plan, families: &[Family], x: u32, kind: Kind) -> Side
    requires families { length families.now ≡ length (plan_contents plan.now).messages }
    requires within { x < participant_count (plan_contents plan.now) }
    ensures { result ≡ side_at (plan_contents plan.now) families.now x kind }
{
    Side {
        family: family_at(plan, families, x),
        kind,
    }
}

// What meets so, and there, in a frame with this header.
fn meet(sides: (Side, Side), at: (usize, usize), header: usize) -> Cause
    ensures { result ≡ meet sides at header }
{
    let (first, second) = sides;
    let several = first.family.is_several() || second.family.is_several();
    Cause {
        first,
        second,
        frame: at.0,
        header,
        place: place_of(at.1, several),
    }
}

// The number of the frame in which the slot after this wire lies, and the slot's number in that frame.
#[tactic(auto, unfolding(crate::specs::Causes::slot_after))]
fn slot_after(wire: &[Item]) -> (usize, usize)
    ensures { result ≡ slot_after wire.now }
{
    let mut frame = 0;
    let mut slot = 0;
    for item in wire {
        if let Item::Again = item {
            frame += 1;
            slot = 0;
        } else {
            slot += 1;
        }
    }
    (frame, slot)
}

fn place_of(slot: usize, several: bool) -> Place
    ensures { result ≡ place_of slot several }
{
    if slot < 9 {
        Place::Header
    } else if several {
        Place::Data
    } else {
        Place::Byte(slot / 9)
    }
}
