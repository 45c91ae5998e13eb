// Where a line of a certificate does not prove its pair.

use crate::broken::Wires;
use bus_rows::{Side, own_bit, pass, pass_own};
use certificate::Cert;
use message_tree::{Bit, Item};
use places::{Offered, Place};
use plan_core::Plan;
use std::alloc::{AllocError, Global};

// How many bits a byte has without its acknowledge.
const BITS: u32 = 8;

// How many bytes a read has at most.
const BYTES: u32 = 255;

/// A word that does not prove what it stands for, by its number, and why.
#[derive(Clone, Copy)]
pub struct Break {
    pub word: u32,
    pub slot: u32,
    pub reason: Reason,
}

/// Why a word does not prove what it stands for.
#[derive(Clone, Copy)]
pub enum Reason {
    /// No bit of this number is known in both and different.
    NoSplit,
    /// The two do not both write a byte.
    NotBothWrite,
    /// The two do not both read.
    NotBothRead,
    /// The two do not both send a repeated START.
    NotBothRestart,
    /// The two do not both send a STOP.
    NotBothStop,
    /// Both may read the same number of bytes.
    ReadsMayMeet,
    /// The two never read the same number of bytes.
    ReadsNeverMeet,
    /// No proof has such a word there.
    UnknownWord,
}

/// The first such word of the proof of a pair, and what both send up to there. None where each of its words proves something.
///
/// # Errors
///
/// Where an allocation fails.
pub(crate) fn break_of(
    alloc: Global,
    plan: &Plan,
    pair: (u32, u32),
    proof: &Cert,
) -> Result<Option<(Break, (Side, Side))>, AllocError> {
    let mut left = Left::new(alloc);
    if let Some(both) = start_of(plan, pair) {
        left.push(both, proof);
    }
    let found = first_break(&mut left);
    if !left.is_whole {
        return Err(AllocError);
    }
    match found {
        Some(found) => {
            let sides = left.wires.sides(alloc, plan, pair, found.slot)?;
            Ok(Some((found, sides)))
        }
        None => Ok(None),
    }
}

// The two of a pair of the plan, before their first slot.
fn start_of(plan: &Plan, pair: (u32, u32)) -> Option<Both<'_>> {
    let (first, second) = pair;
    if plan.participants() <= first || plan.participants() <= second {
        return None;
    }
    Some(Both {
        first: Place::start(plan.sends(first)),
        second: Place::start(plan.sends(second)),
        slot: 0,
        last: None,
        are_reads: false,
    })
}

fn first_break(left: &mut Left<'_, '_>) -> Option<Break> {
    for word in 1..u32::MAX {
        let (mut both, proof) = left.pop()?;
        if let Some(reason) = unproved(left, &mut both, proof) {
            return Some(Break {
                word,
                slot: both.slot,
                reason,
            });
        }
    }
    None
}

// What is left to prove, with its proof, the next one last, and what both send up to where the walk is.
#[derive(Drop)]
struct Left<'a, 'c> {
    both: Vec<(Both<'a>, &'c Cert)>,
    wires: Wires,
    // whether there was memory for all of it
    is_whole: bool,
}

impl<'a, 'c> Left<'a, 'c> {
    fn new(alloc: Global) -> Left<'a, 'c> {
        Left {
            both: Vec::new(alloc),
            wires: Wires::new(alloc),
            is_whole: true,
        }
    }

    fn push(&mut self, both: Both<'a>, proof: &'c Cert) {
        if self.both.push((both, proof)).is_err() {
            self.is_whole = false;
        }
    }

    // The next two and their proof, with the wires up to them. The word of each node comes before those of its parts.
    fn pop(&mut self) -> Option<(Both<'a>, &'c Cert)> {
        let (both, proof) = self.both.pop()?;
        if let Some(item) = both.last {
            self.wires.put(both.slot.saturating_sub(1), item, item);
        }
        Some((both, proof))
    }
}

// Why the first word of a proof does not prove what it stands for, where it does not. Its parts are left. Where two reads have
// to come to an end first, they are taken there.
fn unproved<'a, 'c>(
    left: &mut Left<'a, 'c>,
    both: &mut Both<'a>,
    proof: &'c Cert,
) -> Option<Reason> {
    if both.are_reads {
        let mut ended = *both;
        let is_ended = ended.pass_reads(&mut left.wires);
        match proof {
            Cert::Short if is_ended => return Some(Reason::ReadsMayMeet),
            Cert::Short => return None,
            _ if !is_ended => return Some(Reason::ReadsNeverMeet),
            _ => *both = ended,
        }
    }
    let (is_proved, reason) = match proof {
        Cert::Byte(acked, refused) => {
            let is_proved = push_answers(left, *both, (&**acked, &**refused), false);
            (is_proved, Reason::NotBothWrite)
        }
        Cert::Read(after, refused) => {
            let is_proved = push_answers(left, *both, (&**after, &**refused), true);
            (is_proved, Reason::NotBothRead)
        }
        Cert::Again(frames) => (push_frames(left, *both, &**frames), Reason::NotBothRestart),
        Cert::Alike => (both.both_stop(), Reason::NotBothStop),
        Cert::Part(bit) => (both.differ(*bit), Reason::NoSplit),
        Cert::Short => (false, Reason::UnknownWord),
    };
    if is_proved { None } else { Some(reason) }
}

// Two bytes that are written, or two headers of reads: what follows both answers is left, each with its part of the proof.
fn push_answers<'a, 'c>(
    left: &mut Left<'a, 'c>,
    both: Both<'a>,
    parts: (&'c Cert, &'c Cert),
    are_reads: bool,
) -> bool {
    let mut refused = both;
    if !refused.pass_bits(&mut left.wires) {
        return false;
    }
    let mut acknowledged = refused;
    if !refused.pass(&mut left.wires, Item::Heard(true))
        || !acknowledged.pass(&mut left.wires, Item::Heard(false))
    {
        return false;
    }
    acknowledged.are_reads = are_reads;
    left.push(refused, parts.1);
    left.push(acknowledged, parts.0);
    listens(acknowledged.first) == are_reads && listens(acknowledged.second) == are_reads
}

// Two repeated STARTs: the frames after them are left.
fn push_frames<'a, 'c>(left: &mut Left<'a, 'c>, both: Both<'a>, frames: &'c Cert) -> bool {
    let mut next = both;
    let is_passed = next.pass(&mut left.wires, Item::Again);
    left.push(next, frames);
    is_passed
}

fn listens(place: Place<'_>) -> bool {
    place.offered() == Offered::Listen
}

// Two senders at one place, which the next words are to prove.
#[derive(Clone, Copy, Drop)]
struct Both<'a> {
    first: Place<'a>,
    second: Place<'a>,
    slot: u32,
    // the item of the slot before
    last: Option<Item>,
    // whether they are two reads of which each has been acknowledged
    are_reads: bool,
}

impl Both<'_> {
    // Goes on by an item of one slot, where it may come next in both.
    fn pass(&mut self, wires: &mut Wires, item: Item) -> bool {
        wires.put(self.slot, item, item);
        self.slot = self.slot.saturating_add(1);
        self.last = Some(item);
        self.are_reads = false;
        pass(&mut self.first, item) && pass(&mut self.second, item)
    }

    // Goes on by the bits of a byte that each sends.
    fn pass_bits(&mut self, wires: &mut Wires) -> bool {
        for _ in 0..BITS {
            wires.put(self.slot, own_bit(self.first), own_bit(self.second));
            self.slot = self.slot.saturating_add(1);
            if !pass_own(&mut self.first) || !pass_own(&mut self.second) {
                return false;
            }
        }
        true
    }

    // Goes on by a number of bytes with which both reads may end, where there is one.
    fn pass_reads(&mut self, wires: &mut Wires) -> bool {
        for _ in 0..BYTES {
            for _ in 0..BITS {
                if !self.pass(wires, Item::Heard(false)) {
                    return false;
                }
            }
            let mut ended = *self;
            if ended.pass(wires, Item::Sent(true)) {
                *self = ended;
                return true;
            }
            if !self.pass(wires, Item::Sent(false)) {
                return false;
            }
        }
        false
    }

    fn both_stop(&self) -> bool {
        self.first.offered() == Offered::Stop && self.second.offered() == Offered::Stop
    }

    // Whether the bit with this number of the bytes that begin here is known in both and different.
    fn differ(&self, bit: u8) -> bool {
        match (known_bit(self.first, bit), known_bit(self.second, bit)) {
            (Some(first), Some(second)) => first != second,
            _ => false,
        }
    }
}

// The bit with this number of the byte that begins here, where it is known.
fn known_bit(start: Place<'_>, bit: u8) -> Option<bool> {
    if BITS <= u32::from(bit) {
        return None;
    }
    let mut place = start;
    for _ in 0..bit {
        if !pass_own(&mut place) {
            return None;
        }
    }
    match place.offered() {
        Offered::Bit(Bit::Zero) => Some(false),
        Offered::Bit(Bit::One) => Some(true),
        _ => None,
    }
}
