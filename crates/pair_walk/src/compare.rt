// Two messages compared node by node: what is made of two that never clash, or their first clash.

ghost use Rattle.std.specs.Prelude.{◌≡◌};
ghost use Rattle.message_tree.specs.Trees.{frame_tree, payload_tree, tail_tree, write, read, byte};
ghost use Rattle.pair_walk.specs.Compare.{ComparesFrames, ComparesReads, ComparesPayloads, ComparesTails, kind_of_tail};

use crate::halts::{Halt, behind, behind_read, clash};
use crate::headers::split_of_directions;
use crate::makes::Makes;
use crate::wires::{byte_items, header_items};
use message_tree::{Address, Count, Frame, Item, Kind, Pattern, Payload, Tail};
use std::alloc::Global;

/// Two frames, from their headers on.
#[cycle(compare)]
pub(crate) fn compare_frames<M: Makes>(alloc: Global, f: &Frame, g: &Frame) -> Result<M, Halt>
    ensures { ComparesFrames M.shows (frame_tree f.now) (frame_tree g.now) result }
{
    match f {
        Frame::Write {
            address: a,
            acked: x,
            refused: r,
        } => match g {
            Frame::Write {
                address: b,
                acked: y,
                refused: s,
            } => two_writes(alloc, a, b, x, y, r, s),
            Frame::Read { address: b, .. } => Ok(M::part(split_of_directions(a, b))),
        },
        Frame::Read {
            address: a,
            count: c,
            after: x,
            refused: r,
        } => match g {
            Frame::Write { address: b, .. } => Ok(M::part(split_of_directions(a, b))),
            Frame::Read {
                address: b,
                count: d,
                after: y,
                refused: s,
            } => two_reads(alloc, a, b, c, d, x, y, r, s),
        },
    }
}

// Two write headers, and what follows each answer to them.
#[cycle(compare)]
fn two_writes<M: Makes>(
    alloc: Global,
    a: &Address,
    b: &Address,
    x: &Payload,
    y: &Payload,
    r: &Tail,
    s: &Tail,
) -> Result<M, Halt>
    ensures { ComparesFrames M.shows (write a.now (payload_tree x.now) (tail_tree r.now))
        (write b.now (payload_tree y.now) (tail_tree s.now)) result }
{
    if let Some(place) = a.first_split(b) {
        return Ok(M::part(place));
    }
    match compare_payloads(alloc, x, y) {
        Err(halt) => Err(behind(halt, &header_items(a, b, false, false))),
        Ok(acked) => match compare_tails(alloc, r, s) {
            Err(halt) => Err(behind(halt, &header_items(a, b, false, true))),
            Ok(refused) => Ok(M::byte(alloc, acked, refused)?),
        },
    }
}

// Two read headers, and what follows each answer to them.
#[cycle(compare)]
fn two_reads<M: Makes>(
    alloc: Global,
    a: &Address,
    b: &Address,
    c: &Count,
    d: &Count,
    x: &Tail,
    y: &Tail,
    r: &Tail,
    s: &Tail,
) -> Result<M, Halt>
    ensures { ComparesFrames M.shows (read a.now c.now (tail_tree x.now) (tail_tree r.now))
        (read b.now d.now (tail_tree y.now) (tail_tree s.now)) result }
{
    if let Some(place) = a.first_split(b) {
        return Ok(M::part(place));
    }
    match compare_counts(alloc, c, d, x, y) {
        Err(halt) => Err(behind(halt, &header_items(a, b, true, false))),
        Ok(after) => match compare_tails(alloc, r, s) {
            Err(halt) => Err(behind(halt, &header_items(a, b, true, true))),
            Ok(refused) => Ok(M::read(alloc, after, refused)?),
        },
    }
}

// Two reads, from the first byte on.
#[cycle(compare)]
fn compare_counts<M: Makes>(
    alloc: Global,
    c: &Count,
    d: &Count,
    x: &Tail,
    y: &Tail,
) -> Result<M, Halt>
    ensures { ComparesReads M.shows c.now d.now (tail_tree x.now) (tail_tree y.now) result }
{
    if !c.meets(d) {
        return Ok(M::short());
    }
    match compare_tails(alloc, x, y) {
        Ok(after) => Ok(after),
        Err(halt) => Err(behind_read(halt, c.greatest().min(d.greatest()) - 1)),
    }
}

// What is written after an acknowledge.
#[cycle(compare)]
fn compare_payloads<M: Makes>(alloc: Global, x: &Payload, y: &Payload) -> Result<M, Halt>
    ensures { ComparesPayloads M.shows (payload_tree x.now) (payload_tree y.now) result }
{
    match x {
        Payload::Byte {
            bits: a,
            acked: x,
            refused: r,
        } => match y {
            Payload::Byte {
                bits: b,
                acked: y,
                refused: s,
            } => two_bytes(alloc, a, b, x, y, r, s),
            Payload::Last(tail) => Err(clash(alloc, Kind::Sent, tail_kind(tail))),
        },
        Payload::Last(tail) => match y {
            Payload::Byte { .. } => Err(clash(alloc, tail_kind(tail), Kind::Sent)),
            Payload::Last(other) => compare_tails(alloc, tail, other),
        },
    }
}

// Two data bytes, and what follows each answer to them.
#[cycle(compare)]
fn two_bytes<M: Makes>(
    alloc: Global,
    a: &Pattern,
    b: &Pattern,
    x: &Payload,
    y: &Payload,
    r: &Tail,
    s: &Tail,
) -> Result<M, Halt>
    ensures { ComparesPayloads M.shows (byte a.now (payload_tree x.now) (tail_tree r.now))
        (byte b.now (payload_tree y.now) (tail_tree s.now)) result }
{
    if let Some(place) = a.first_split(b) {
        return Ok(M::part(place));
    }
    match compare_payloads(alloc, x, y) {
        Err(halt) => Err(behind(halt, &byte_items(a, b, false))),
        Ok(acked) => match compare_tails(alloc, r, s) {
            Err(halt) => Err(behind(halt, &byte_items(a, b, true))),
            Ok(refused) => Ok(M::byte(alloc, acked, refused)?),
        },
    }
}

// How two messages go on after their last byte, or after a refusal.
#[cycle(compare)]
fn compare_tails<M: Makes>(alloc: Global, r: &Tail, s: &Tail) -> Result<M, Halt>
    ensures { ComparesTails M.shows (tail_tree r.now) (tail_tree s.now) result }
{
    match r {
        Tail::Stop => match s {
            Tail::Stop => Ok(M::alike()),
            Tail::Again(_) => Err(clash(alloc, Kind::Stop, Kind::Again)),
        },
        Tail::Again(f) => match s {
            Tail::Stop => Err(clash(alloc, Kind::Again, Kind::Stop)),
            Tail::Again(g) => match compare_frames(alloc, f, g) {
                Ok(frames) => Ok(M::again(alloc, frames)?),
                Err(halt) => Err(behind(halt, &[Item::Again])),
            },
        },
    }
}

// The kind of the first item of a tail.
fn tail_kind(tail: &Tail) -> Kind
    ensures { result ≡ kind_of_tail (tail_tree tail.now) }
{
    match tail {
        Tail::Stop => Kind::Stop,
        Tail::Again(_) => Kind::Again,
    }
}
