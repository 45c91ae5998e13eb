// Messages of a plan that a brief says as one, since each has one more of the same byte than the one before it. No clause
// speaks of these words: what is written so is read again before it is answered.

ghost use Rattle.std.specs.Prelude.{◌<◌, All, length};
ghost use Rattle.plan_core.specs.PlanContents.{plan_contents};

use crate::items::{count, end, nevers, word};
use crate::writing::{Run, address, end_run, interrupts, message, pattern, with_byte};
use brief_text::{Lengths, member_text};
use brief_tokens::is_brief_word;
use message_tree::{Address, Count, Frame, Pattern, Payload, Tail};
use plan_core::{Name, NameError, Plan};
use plan_text::words::{is_digits, number};
use std::alloc::{AllocError, Global};

/// What a brief has of a message, one after another.
#[derive(Clone, Copy, PartialEq, Eq)]
enum Piece {
    Write(Address),
    Read(Address, Count),
    /// A data byte after which a STOP follows where it is not acknowledged.
    Byte(Pattern),
    /// One after which a repeated START follows there.
    Parted(Pattern),
    /// `else (`
    Open,
    /// `)`
    Close,
}

/// Messages of a plan that are one of a brief.
#[derive(Drop)]
struct Family {
    name: Name,
    lengths: Lengths,
    /// The number of the first message, and how many there are.
    first: u32,
    count: u32,
    /// The last message, and where the equal bytes begin in it.
    pieces: Vec<Piece>,
    start: usize,
    /// How many of these bytes each message has before those of the range.
    beyond: usize,
}

/// A brief of a plan with families, where the plan has messages that are one.
pub(crate) fn gathered(alloc: Global, plan: &Plan) -> Result<Option<Vec<u8>>, AllocError> {
    let families = families_of(alloc, plan)?;
    if families.is_empty() {
        return Ok(None);
    }
    let mut text = String::from_str(alloc, "brief 1\n")?;
    messages(&mut text, plan, families.as_slice())?;
    controllers(&mut text, plan, families.as_slice())?;
    interrupts(&mut text, plan)?;
    nevers(&mut text, plan)?;
    Ok(Some(text.into_bytes()))
}

// ---- which messages are one

// The families of a plan, in its order. Each has as many messages as it can.
fn families_of(alloc: Global, plan: &Plan) -> Result<Vec<Family>, AllocError> {
    let mut families: Vec<Family> = Vec::new(alloc);
    let mut next = 0u32;
    for k in 0..plan.messages() {
        if k < next {
            continue;
        }
        if let Some(family) = family_at(alloc, plan, families.as_slice(), k)? {
            next = k.saturating_add(family.count);
            families.push(family)?;
        }
    }
    Ok(families)
}

// The family that begins with this message.
fn family_at(
    alloc: Global,
    plan: &Plan,
    earlier: &[Family],
    first: u32,
) -> Result<Option<Family>, AllocError>
    requires { first < length (plan_contents plan.now).messages }
{
    let Some((base, least)) = parted(plan.message_name(first).as_str()) else {
        return Ok(None);
    };
    match name_of(alloc, base)? {
        Some(name) if !is_taken(plan, earlier, &name) => grown(alloc, plan, name, least, first),
        _ => Ok(None),
    }
}

// What stands before the last `_` of a name, and the number after it.
fn parted(name: &str) -> Option<(&str, u8)> {
    let (base, digits) = name.rsplit_once('_')?;
    let digits = digits.as_bytes();
    if !is_digits(digits) {
        return None;
    }
    Some((base, number(digits)?))
}

// The name of a brief that this is.
fn name_of(alloc: Global, text: &str) -> Result<Option<Name>, AllocError> {
    if is_brief_word(text) {
        return Ok(None);
    }
    match Name::new(alloc, text) {
        Ok(name) => Ok(Some(name)),
        Err(NameError::BadName) => Ok(None),
        Err(NameError::NoMemory) => Err(AllocError),
    }
}

// Whether a message or an earlier family has this name.
fn is_taken(plan: &Plan, earlier: &[Family], name: &Name) -> bool {
    for k in 0..plan.messages() {
        if *plan.message_name(k) == *name {
            return true;
        }
    }
    earlier.iter().any(|family| family.name == *name)
}

// The longest family of this name from this message on, which has so many bytes.
fn grown(
    alloc: Global,
    plan: &Plan,
    name: Name,
    least: u8,
    first: u32,
) -> Result<Option<Family>, AllocError>
    requires { first < length (plan_contents plan.now).messages }
{
    if !is_member(alloc, plan, &name, least, first)? {
        return Ok(None);
    }
    let mut family = Family {
        name,
        lengths: Lengths {
            least,
            greatest: least,
        },
        first,
        count: 1,
        pieces: pieces_of(alloc, plan.message(first))?,
        start: 0,
        beyond: 0,
    };
    for k in first.saturating_add(1)..plan.messages() {
        if !family.take(alloc, plan, k)? {
            break;
        }
    }
    if family.count > 1 {
        Ok(Some(family))
    } else {
        Ok(None)
    }
}

// Whether the message is that of so many bytes of a family with this name.
fn is_member(
    alloc: Global,
    plan: &Plan,
    name: &Name,
    number: u8,
    k: u32,
) -> Result<bool, AllocError>
    requires { k < length (plan_contents plan.now).messages }
{
    let text = member_text(alloc, name, number as u32)?;
    Ok(text.as_str() == plan.message_name(k).as_str())
}

// A byte that a message has more than another: where the equal bytes begin, and how many there are with it.
#[derive(Clone, Copy)]
struct Growth {
    start: usize,
    length: usize,
}

impl Family {
    // Takes a further message, if it is the next one. Whether it is.
    fn take(&mut self, alloc: Global, plan: &Plan, k: u32) -> Result<bool, AllocError>
        requires { k < length (plan_contents plan.now).messages }
    {
        let Some(number) = self.lengths.greatest.checked_add(1) else {
            return Ok(false);
        };
        if !is_member(alloc, plan, &self.name, number, k)? {
            return Ok(false);
        }
        let pieces = pieces_of(alloc, plan.message(k))?;
        match growth_of(self.pieces.as_slice(), pieces.as_slice()) {
            Some(growth) if self.goes_on(growth, number) => {
                self.start = growth.start;
                self.beyond = growth.length.saturating_sub(number as usize);
                self.lengths.greatest = number;
                self.count = self.count.saturating_add(1);
                self.pieces = pieces;
                Ok(true)
            }
            _ => Ok(false),
        }
    }

    // Whether the message with so many bytes has its further one where it has to be.
    fn goes_on(&self, growth: Growth, number: u8) -> bool {
        if self.count == 1 {
            growth.length >= number as usize
        } else {
            growth.start == self.start
                && growth.length == self.beyond.saturating_add(number as usize)
        }
    }
}

// Where the second has one data byte more, if it is the first but for that.
fn growth_of(shorter: &[Piece], longer: &[Piece]) -> Option<Growth> {
    if longer.len() != shorter.len().saturating_add(1) {
        return None;
    }
    let place = alike(shorter, longer);
    let added = *longer.get(place)?;
    let Piece::Byte(_) = added else {
        return None;
    };
    let before = longer.get(..place)?;
    let after = longer.get(place.saturating_add(1)..)?;
    if *shorter.get(place..)? != *after {
        return None;
    }
    let equal = equal_at_the_end(before, added);
    Some(Growth {
        start: place.saturating_sub(equal),
        length: equal.saturating_add(1),
    })
}

// How many pieces at the front are the same.
fn alike(one: &[Piece], other: &[Piece]) -> usize {
    one.iter().zip(other).take_while(|(a, b)| *a == *b).count()
}

// How many pieces at the end are this one.
fn equal_at_the_end(pieces: &[Piece], piece: Piece) -> usize {
    pieces
        .iter()
        .rev()
        .take_while(|other| **other == piece)
        .count()
}

// ---- pieces

fn pieces_of(alloc: Global, frame: &Frame) -> Result<Vec<Piece>, AllocError> {
    let mut pieces = Vec::new(alloc);
    frame_pieces(&mut pieces, frame)?;
    Ok(pieces)
}

#[cycle(pieces)]
fn frame_pieces(pieces: &mut Vec<Piece>, frame: &Frame) -> Result<(), AllocError> {
    match frame {
        Frame::Write {
            address,
            acked,
            refused,
        } => {
            pieces.push(Piece::Write(*address))?;
            refused_pieces(pieces, refused)?;
            data_pieces(pieces, acked)
        }
        Frame::Read {
            address,
            count,
            after,
            refused,
        } => {
            pieces.push(Piece::Read(*address, *count))?;
            refused_pieces(pieces, refused)?;
            next_pieces(pieces, after)
        }
    }
}

#[cycle(pieces)]
fn data_pieces(pieces: &mut Vec<Piece>, payload: &Payload) -> Result<(), AllocError> {
    match payload {
        Payload::Byte {
            bits,
            acked,
            refused: Tail::Stop,
        } => {
            pieces.push(Piece::Byte(*bits))?;
            data_pieces(pieces, acked)
        }
        Payload::Byte {
            bits,
            acked,
            refused,
        } => {
            pieces.push(Piece::Parted(*bits))?;
            refused_pieces(pieces, refused)?;
            data_pieces(pieces, acked)
        }
        Payload::Last(tail) => next_pieces(pieces, tail),
    }
}

#[cycle(pieces)]
fn refused_pieces(pieces: &mut Vec<Piece>, tail: &Tail) -> Result<(), AllocError> {
    match tail {
        Tail::Stop => Ok(()),
        Tail::Again(frame) => {
            pieces.push(Piece::Open)?;
            frame_pieces(pieces, frame)?;
            pieces.push(Piece::Close)?;
            Ok(())
        }
    }
}

#[cycle(pieces)]
fn next_pieces(pieces: &mut Vec<Piece>, tail: &Tail) -> Result<(), AllocError> {
    match tail {
        Tail::Stop => Ok(()),
        Tail::Again(frame) => frame_pieces(pieces, frame),
    }
}

// ---- words

fn messages(text: &mut String, plan: &Plan, families: &[Family]) -> Result<(), AllocError> {
    let mut left = 0u32;
    for k in 0..plan.messages() {
        if left > 0 {
            left = left.saturating_sub(1);
        } else if let Some(family) = family_from(families, k) {
            push_family(text, family)?;
            left = family.count.saturating_sub(1);
        } else {
            message(text, plan.message_name(k).as_str(), plan.message(k))?;
        }
    }
    Ok(())
}

// The family that begins with this message.
fn family_from(families: &[Family], k: u32) -> Option<&Family> {
    families.iter().find(|family| family.first == k)
}

fn push_family(text: &mut String, family: &Family) -> Result<(), AllocError> {
    text.push_str("message")?;
    word(text, family.name.as_str())?;
    let pieces = family.pieces.as_slice();
    let before = pieces.get(..family.start).unwrap_or(&[]);
    let run = pieces.get(family.start..).unwrap_or(&[]);
    push_pieces(text, before)?;
    push_pieces(text, run.get(..family.beyond).unwrap_or(&[]))?;
    if let Some(Piece::Byte(bits)) = run.get(..1).unwrap_or(&[]).first() {
        pattern(text, bits)?;
    }
    let (least, greatest) = (family.lengths.least, family.lengths.greatest);
    write!(text, "*{least}..{greatest}")?;
    let length = family.beyond.saturating_add(greatest as usize);
    push_pieces(text, run.get(length..).unwrap_or(&[]))?;
    end(text)
}

fn push_pieces(text: &mut String, pieces: &[Piece]) -> Result<(), AllocError> {
    let mut run: Option<Run> = None;
    for piece in pieces {
        run = push_piece(text, run, *piece)?;
    }
    end_run(text, run)
}

// A piece after this run of which nothing is written yet. It answers the run that it is in.
fn push_piece(
    text: &mut String,
    run: Option<Run>,
    piece: Piece,
) -> Result<Option<Run>, AllocError> {
    if let Piece::Byte(bits) = piece {
        return Ok(Some(with_byte(text, run, bits)?));
    }
    end_run(text, run)?;
    push_other(text, piece)?;
    Ok(None)
}

fn push_other(text: &mut String, piece: Piece) -> Result<(), AllocError> {
    match piece {
        Piece::Write(to) => {
            word(text, "write")?;
            address(text, &to)
        }
        Piece::Read(to, bytes) => {
            word(text, "read")?;
            address(text, &to)?;
            count(text, &bytes)
        }
        Piece::Byte(bits) | Piece::Parted(bits) => pattern(text, &bits),
        Piece::Open => text.push_str(" else ("),
        Piece::Close => text.push_str(" )"),
    }
}

fn controllers(text: &mut String, plan: &Plan, families: &[Family]) -> Result<(), AllocError> {
    for k in 0..plan.controllers() {
        text.push_str("controller")?;
        word(text, plan.controller_name(k).as_str())?;
        listed(text, plan, families, plan.controller_messages(k))?;
        end(text)?;
    }
    Ok(())
}

// The names of the messages with these numbers. All of a family, in a row and in order, are its name.
fn listed(
    text: &mut String,
    plan: &Plan,
    families: &[Family],
    numbers: &[u32],
) -> Result<(), AllocError>
    requires { All (λ m. m < length (plan_contents plan.now).messages) numbers.now }
{
    let mut left = 0u32;
    let mut at = 0usize;
    for number in numbers {
        let rest = numbers.get(at..).unwrap_or(&[]);
        if left > 0 {
            left = left.saturating_sub(1);
        } else if let Some(family) = family_listed(families, rest) {
            word(text, family.name.as_str())?;
            left = family.count.saturating_sub(1);
        } else {
            word(text, plan.message_name(*number).as_str())?;
        }
        at = at.saturating_add(1);
    }
    Ok(())
}

// The family with all of whose messages these numbers begin.
fn family_listed<'a>(families: &'a [Family], numbers: &[u32]) -> Option<&'a Family> {
    families.iter().find(|family| has_all_of(numbers, family))
}

fn has_all_of(numbers: &[u32], family: &Family) -> bool {
    let mut wanted = family.first;
    let Some(numbers) = numbers.get(..family.count as usize) else {
        return false;
    };
    for number in numbers {
        if *number != wanted {
            return false;
        }
        wanted = wanted.saturating_add(1);
    }
    true
}
