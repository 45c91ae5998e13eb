// What may be edited to mend a group, in the order in which it is tried.

use crate::gone::{bytes_in, values_in};
use crate::paths::{Sent, Step, header_of, known_address, step_at};
use crate::sides::{BothSides, SideItem, common_at};
use edits::{Bits, Edit, EditedItem, Edits, Place};
use message_tree::Count;
use std::alloc::{AllocError, Global};

/// What an edit does.
#[derive(Clone, Copy)]
pub enum Change {
    /// The counts of the reads in this frame are narrowed.
    Count {
        frame: u32,
    },
    /// This bit, as data sheets count it, has this value.
    Known {
        place: Place,
        bit: u32,
        value: bool,
    },
    /// This bit is 0 on the first side, of which so many items are, and 1 on the second.
    Bit {
        place: Place,
        bit: u32,
        firsts: usize,
    },
    /// A header alone becomes a read of one byte.
    Read,
    /// The write before a read is left out.
    Pointer,
    /// Interrupts have other addresses.
    Address,
    /// So many bytes more are sent.
    Length {
        bytes: u32,
    },
    /// `never` items keep the pairs apart.
    Never,
}

impl Change {
    /// The word for its kind.
    pub fn kind(self) -> &'static str {
        match self {
            Change::Count { .. } => "count",
            Change::Known { .. } => "known",
            Change::Bit { .. } => "bit",
            Change::Read => "read",
            Change::Pointer => "pointer",
            Change::Address => "address",
            Change::Length { .. } => "length",
            Change::Never => "never",
        }
    }
}

/// Which side of a group is edited.
#[derive(Clone, Copy, PartialEq, Eq)]
pub enum Edited {
    First,
    Second,
    Both,
}

/// An edit of the texts, and what a sentence about it needs.
#[derive(Drop)]
pub struct Proposal {
    pub change: Change,
    pub edited: Edited,
    /// The items, those of the first side before those of the second.
    pub items: Vec<EditedItem>,
    /// In the order of the texts.
    pub edits: Vec<Edit>,
}

/// The two sides of a group, and where its fault is.
#[derive(Clone, Copy)]
pub struct Sought<'s, 'a> {
    pub sides: &'s BothSides<'a>,
    /// The places before it.
    pub places: &'s [Place],
    /// Its frame.
    pub frame: u32,
    /// The addresses that nothing has, from the lowest on: one for each interrupt, as far as there are so many.
    pub free: &'s [u8],
}

// A side, and the other one.
type Facing<'s, 'a> = (&'s [SideItem<'a>], &'s [SideItem<'a>]);

impl<'s, 'a> Sought<'s, 'a> {
    fn facing(self, edited: Edited) -> Facing<'s, 'a> {
        let first = self.sides.first.as_slice();
        let second = self.sides.second.as_slice();
        match edited {
            Edited::First | Edited::Both => (first, second),
            Edited::Second => (second, first),
        }
    }
}

/// What may be edited but for `never` items, in the order in which it is tried.
pub fn proposals_for(alloc: Global, sought: Sought<'_, '_>) -> Result<Vec<Proposal>, AllocError> {
    let mut found = Vec::new(alloc);
    push_counts(alloc, &mut found, sought)?;
    for edited in [Edited::First, Edited::Second, Edited::Both] {
        push_bits(alloc, &mut found, sought, edited)?;
    }
    push_both(alloc, &mut found, sought, Change::Read)?;
    push_both(alloc, &mut found, sought, Change::Pointer)?;
    push_both(alloc, &mut found, sought, Change::Address)?;
    for edited in [Edited::First, Edited::Second] {
        if let Some(bytes) = bytes_more(sought.facing(edited)) {
            push_change(alloc, &mut found, sought, Change::Length { bytes }, edited)?;
        }
    }
    Ok(found)
}

/// Adds what these edits are, where each item could be edited.
pub fn push_made(
    found: &mut Vec<Proposal>,
    made: Edits,
    change: Change,
    edited: Edited,
) -> Result<(), AllocError> {
    if let Some((items, edits)) = made.finish()? {
        found.push(Proposal {
            change,
            edited,
            items,
            edits,
        })?;
    }
    Ok(())
}

// ---- counts

fn push_counts(
    alloc: Global,
    found: &mut Vec<Proposal>,
    sought: Sought<'_, '_>,
) -> Result<(), AllocError> {
    for edited in [Edited::First, Edited::Second] {
        let (side, other) = sought.facing(edited);
        for frame in 0..=sought.frame {
            if let (Some(own), Some(theirs)) = (counts_of(side, frame), counts_of(other, frame)) {
                if own.meets(&theirs) {
                    push_narrowed(alloc, found, frame, edited, (side, theirs))?;
                }
            }
        }
    }
    Ok(())
}

// From the least to the greatest count of a side in this frame. None where it is no read in each message.
fn counts_of(side: &[SideItem<'_>], frame: u32) -> Option<Count> {
    let mut counts: Option<Count> = None;
    for item in side {
        for (_, path) in item.paths.iter() {
            counts = Some(with_count(counts, count_of(path.as_slice(), frame)?));
        }
    }
    counts
}

fn with_count(counts: Option<Count>, count: Count) -> Count {
    let Some(counts) = counts else {
        return count;
    };
    let least = counts.least().min(count.least());
    Count::between(least, counts.greatest().max(count.greatest())).unwrap_or(count)
}

fn count_of(path: &[Step], frame: u32) -> Option<Count> {
    match step_at(path, header_of(frame))?.sent {
        Sent::Read(count) => Some(count),
        _ => None,
    }
}

// The counts of a side below all of the other side, and then those above all.
fn push_narrowed(
    alloc: Global,
    found: &mut Vec<Proposal>,
    frame: u32,
    edited: Edited,
    sides: (&[SideItem<'_>], Count),
) -> Result<(), AllocError> {
    let (side, others) = sides;
    let below = Count::between(1, others.least().saturating_sub(1));
    let above = match others.greatest().checked_add(1) {
        Some(least) => Count::between(least, u8::MAX),
        None => None,
    };
    for within in [below, above] {
        if let Some(within) = within {
            let mut made = Edits::new(alloc);
            for item in side {
                item.narrow(alloc, &mut made, frame, within);
            }
            push_made(found, made, Change::Count { frame }, edited)?;
        }
    }
    Ok(())
}

impl SideItem<'_> {
    // Of its counts in this frame those stay that are within these.
    fn narrow(&self, alloc: Global, made: &mut Edits, frame: u32, within: Count) {
        let count = match self.paths.first() {
            Some((_, path)) => count_of(path.as_slice(), frame),
            None => None,
        };
        let Some(count) = count else {
            return made.refuse();
        };
        let least = count.least().max(within.least());
        let Some(kept) = Count::between(least, count.greatest().min(within.greatest())) else {
            return made.refuse();
        };
        if kept != count {
            self.text.narrow(alloc, made, frame, kept);
            made.name(alloc, self.name.as_str(), spelled_gone(alloc, count, kept));
        }
    }
}

// The counts that are no longer among these, which are all above those that are, or all below.
fn spelled_gone(alloc: Global, counts: Count, kept: Count) -> Result<String, AllocError> {
    let gone = if kept.least() == counts.least() {
        Count::between(kept.greatest().saturating_add(1), counts.greatest())
    } else {
        Count::between(counts.least(), kept.least().saturating_sub(1))
    };
    bytes_in(alloc, gone.unwrap_or(counts))
}

// ---- bits

// The bits that are open on one side and known on the other, or open on both, place by place.
fn push_bits(
    alloc: Global,
    found: &mut Vec<Proposal>,
    sought: Sought<'_, '_>,
    edited: Edited,
) -> Result<(), AllocError> {
    let (side, other) = sought.facing(edited);
    for place in sought.places {
        if let (Some(own), Some(theirs)) = (common_at(side, *place), common_at(other, *place)) {
            let fixed = match edited {
                Edited::Both => (theirs.open, 0),
                _ => (theirs.zeros | theirs.ones, theirs.zeros),
            };
            let bits = (own.first, own.open & fixed.0, fixed.1);
            push_bits_at(alloc, found, sought, edited, *place, bits)?;
        }
    }
    Ok(())
}

// Those of a place from the first one on, where these are fixed on the side, and become 1.
fn push_bits_at(
    alloc: Global,
    found: &mut Vec<Proposal>,
    sought: Sought<'_, '_>,
    edited: Edited,
    place: Place,
    bits: (u8, u8, u8),
) -> Result<(), AllocError> {
    let (side, other) = sought.facing(edited);
    let (mut mask, fixed, ones) = bits;
    for _ in 0..8 {
        if fixed & mask != 0 {
            let value = ones & mask != 0;
            let bit = mask.trailing_zeros();
            let mut made = Edits::new(alloc);
            fix(alloc, &mut made, side, place, (mask, value));
            let change = if edited == Edited::Both {
                fix(alloc, &mut made, other, place, (mask, true));
                let firsts = side.len();
                Change::Bit { place, bit, firsts }
            } else {
                Change::Known { place, bit, value }
            };
            push_made(found, made, change, edited)?;
        }
        mask /= 2;
    }
    Ok(())
}

// This bit has this value in each item of a side.
fn fix(alloc: Global, made: &mut Edits, side: &[SideItem<'_>], place: Place, bit: (u8, bool)) {
    let (mask, value) = bit;
    for item in side {
        match bits_at(item, place) {
            Some(bits) => {
                let gone = values_in(alloc, bits.with(mask, !value), item.text.is_plan());
                item.text.fix(alloc, made, place, bits.with(mask, value));
                made.name(alloc, item.name.as_str(), gone);
            }
            None => made.refuse(),
        }
    }
}

fn bits_at(item: &SideItem<'_>, place: Place) -> Option<Bits> {
    let (_, path) = item.paths.first()?;
    Some(step_at(path.as_slice(), place)?.bits)
}

// ---- other edits of each item

fn push_both(
    alloc: Global,
    found: &mut Vec<Proposal>,
    sought: Sought<'_, '_>,
    change: Change,
) -> Result<(), AllocError> {
    push_change(alloc, found, sought, change, Edited::First)?;
    push_change(alloc, found, sought, change, Edited::Second)
}

fn push_change(
    alloc: Global,
    found: &mut Vec<Proposal>,
    sought: Sought<'_, '_>,
    change: Change,
    edited: Edited,
) -> Result<(), AllocError> {
    let (side, _) = sought.facing(edited);
    let mut made = Edits::new(alloc);
    for item in side {
        item.change(alloc, &mut made, change, sought.free);
    }
    push_made(found, made, change, edited)
}

impl SideItem<'_> {
    fn change(&self, alloc: Global, made: &mut Edits, change: Change, free: &[u8]) {
        match change {
            Change::Read if is_bare(self) => self.text.read_one(alloc, made),
            Change::Pointer if has_pointer(self) => self.text.leave_out_first(alloc, made),
            Change::Address => match self.address_in(free) {
                Some(address) => self.text.readdress(alloc, made, known_address(address)),
                None => return made.refuse(),
            },
            Change::Length { bytes } => self.text.lengthen(alloc, made, bytes),
            _ => return made.refuse(),
        }
        made.name(alloc, self.name.as_str(), Ok(String::new(alloc)));
    }

    // Of the free addresses that of the interrupt.
    fn address_in(&self, free: &[u8]) -> Option<u8> {
        free.get(self.interrupt? as usize).copied()
    }
}

// Whether each message of an item is the header of a write alone.
fn is_bare(item: &SideItem<'_>) -> bool {
    for (_, path) in item.paths.iter() {
        if !is_header_alone(path.as_slice()) {
            return false;
        }
    }
    item.interrupt.is_none()
}

fn is_header_alone(path: &[Step]) -> bool {
    match path {
        [only] => only.sent == Sent::Header,
        _ => false,
    }
}

fn reads(step: Step) -> bool {
    matches!(step.sent, Sent::Read(_))
}

// Whether each message of an item writes a byte at least, and then reads from the same address.
fn has_pointer(item: &SideItem<'_>) -> bool {
    for (_, path) in item.paths.iter() {
        if !begins_so(path.as_slice()) {
            return false;
        }
    }
    true
}

fn begins_so(path: &[Step]) -> bool {
    match (path.first(), path.get(1), step_at(path, header_of(1))) {
        (Some(write), Some(byte), Some(read)) => {
            write.sent == Sent::Header
                && byte.sent == Sent::Data
                && reads(read)
                && write.bits == read.bits
        }
        _ => false,
    }
}

// How many data bytes the one message of the other side has more at its end than that of this side, which ends with one, where all
// else is of one shape. (What is put behind a header alone would write a register, or run a command.)
fn bytes_more(sides: Facing<'_, '_>) -> Option<u32> {
    let (own, other) = (only_path(sides.0)?, only_path(sides.1)?);
    if own.last()?.sent != Sent::Data || !is_shorter(own, other) {
        return None;
    }
    u32::try_from(other.len().checked_sub(own.len())?).ok()
}

fn is_shorter(one: &[Step], other: &[Step]) -> bool {
    for (own, theirs) in one.iter().zip(other.iter()) {
        if own.place != theirs.place || own.sent != theirs.sent {
            return false;
        }
    }
    let rest = other.get(one.len()..).unwrap_or(&[]);
    !rest.is_empty() && rest.iter().all(|step| step.sent == Sent::Data)
}

// The path of the one message of a side, whose item makes no other.
fn only_path<'s>(side: &'s [SideItem<'_>]) -> Option<&'s [Step]> {
    match side {
        [item] if item.is_alone && item.interrupt.is_none() => {
            let (_, path) = item.paths.first()?;
            Some(path.as_slice())
        }
        _ => None,
    }
}
