// A line laid beside what its pair sends, byte by byte, with no proof in memory. This only says yes: where it says nothing,
// the line is read and checked as ever, so nothing is refused here. The recursion goes down the messages, and no deeper than
// a path of a proof may.

ghost use Rattle.std.specs.Prelude.{◌≡◌, ◌<◌, ◌∷◌, length, IfSome};
ghost use Rattle.message_tree.specs.Codes.{code};
ghost use Rattle.message_tree.specs.Trees.{frame_tree, payload_tree, tail_tree};
ghost use Rattle.certificate.specs.Proves.{Proves, ProvesHeaders, ProvesFrames, ProvesPayloads, ProvesTails};
ghost use Rattle.plan_core.specs.PlanContents.{plan_contents};
ghost use Rattle.plan_core.specs.Pairs.{pairs_of};
ghost use Rattle.plan_core.specs.Senders.{what_is_sent};
ghost use Rattle.cert_check.specs.Quick.{Begins, BeginsSpaced, BeginsTwo, IsProvedLine};
ghost use Rattle.cert_check.specs.Reads.{ProvesReads};

use crate::bits::{are_split_at, first_header, frame_bits};
use message_tree::{Bit, Count, Frame, Payload, Tail};
use plan_core::{Plan, Sends};

/// The nodes on one path of a proof.
const PATH_NODES: u32 = 512;

/// How many bytes the first line of the text has, with its line feed, where it proves pair `i`. None says nothing.
pub(crate) fn quick_line(plan: &Plan, i: u32, text: &[u8]) -> Option<usize>
    requires { i < length (pairs_of (plan_contents plan.now)) }
    ensures { IfSome result (λ size. IsProvedLine (plan_contents plan.now) i size text.now) }
{
    let (x, y) = plan.pair(i);
    let end = after_proof(&plan.sends(x), &plan.sends(y), text)?;
    let rest = after_byte(end, b'\n')?;
    Some(text.len() - rest.len())
}

// Each of the following answers what stands after a proof at the front of the text, where one that proves these two stands
// there, with at most so many nodes on a path.

fn after_proof<'a>(s: &Sends<'_>, t: &Sends<'_>, text: &'a [u8]) -> Option<&'a [u8]>
    ensures { IfSome result (λ rest.
        Begins 512 (λ tree. Proves tree (what_is_sent s.now) (what_is_sent t.now)) text.now rest.now) }
{
    match s {
        Sends::Message(f) => match t {
            Sends::Message(g) => after_frames(f, g, text, PATH_NODES),
            Sends::Interrupt(_) => after_split(&first_header(s), &first_header(t), text),
        },
        Sends::Interrupt(_) => after_split(&first_header(s), &first_header(t), text),
    }
}

// The place of a bit that is known in both and different.
fn after_split<'a>(a: &[Bit; 8], b: &[Bit; 8], text: &'a [u8]) -> Option<&'a [u8]>
    ensures { IfSome result (λ rest. Begins 1 (λ tree. ProvesHeaders tree a.now b.now) text.now rest.now) }
{
    let [digit, rest @ ..] = after_byte(text, b'P')? else {
        return None;
    };
    match *digit {
        k @ b'0'..=b'7' if are_split_at(a, b, k - b'0') => Some(rest),
        _ => None,
    }
}

// What stands after this byte.
fn after_byte(text: &[u8], byte: u8) -> Option<&[u8]>
    ensures { IfSome result (λ rest. text.now ≡ byte ∷ rest.now) }
{
    match text {
        [first, rest @ ..] if *first == byte => Some(rest),
        _ => None,
    }
}

// What stands after this byte and a space.
fn after_token(text: &[u8], token: u8) -> Option<&[u8]>
    ensures { IfSome result (λ rest. text.now ≡ token ∷ code " " ∷ rest.now) }
{
    after_byte(after_byte(text, token)?, b' ')
}

#[cycle(after)]
fn after_frames<'a>(f: &Frame, g: &Frame, text: &'a [u8], room: u32) -> Option<&'a [u8]>
    ensures { IfSome result (λ rest.
        Begins room (λ tree. ProvesFrames tree (frame_tree f.now) (frame_tree g.now)) text.now rest.now) }
{
    let below = room.checked_sub(1)?;
    if let Some(text) = after_token(text, b'B') {
        return match f {
            Frame::Write {
                acked: x,
                refused: r,
                ..
            } => match g {
                Frame::Write {
                    acked: y,
                    refused: s,
                    ..
                } => after_bytes(x, y, r, s, text, below),
                Frame::Read { .. } => None,
            },
            Frame::Read { .. } => None,
        };
    }
    if let Some(text) = after_token(text, b'D') {
        return match f {
            Frame::Read {
                count: c,
                after: x,
                refused: r,
                ..
            } => match g {
                Frame::Read {
                    count: d,
                    after: y,
                    refused: s,
                    ..
                } => after_refused(r, s, after_reads(c, d, x, y, text, below)?, below),
                Frame::Write { .. } => None,
            },
            Frame::Write { .. } => None,
        };
    }
    after_split(&frame_bits(f), &frame_bits(g), text)
}

// What follows an acknowledge, a space, and what follows its absence.
#[cycle(after)]
fn after_bytes<'a>(
    x: &Payload,
    y: &Payload,
    r: &Tail,
    s: &Tail,
    text: &'a [u8],
    room: u32,
) -> Option<&'a [u8]>
    ensures { IfSome result (λ rest.
        BeginsTwo room (λ tree. ProvesPayloads tree (payload_tree x.now) (payload_tree y.now))
        (λ tree. ProvesTails tree (tail_tree r.now) (tail_tree s.now)) text.now rest.now) }
{
    after_refused(r, s, after_payloads(x, y, text, room)?, room)
}

// A space, and what follows where there is no acknowledge.
#[cycle(after)]
fn after_refused<'a>(r: &Tail, s: &Tail, text: &'a [u8], room: u32) -> Option<&'a [u8]>
    ensures { IfSome result (λ rest. BeginsSpaced room
        (λ tree. ProvesTails tree (tail_tree r.now) (tail_tree s.now)) text.now rest.now) }
{
    after_tails(r, s, after_byte(text, b' ')?, room)
}

// Two reads, from the first byte on.
#[cycle(after)]
fn after_reads<'a>(
    c: &Count,
    d: &Count,
    x: &Tail,
    y: &Tail,
    text: &'a [u8],
    room: u32,
) -> Option<&'a [u8]>
    ensures { IfSome result (λ rest. Begins room
        (λ tree. ProvesReads tree c.now d.now (tail_tree x.now) (tail_tree y.now)) text.now rest.now) }
{
    if c.meets(d) {
        after_tails(x, y, text, room)
    } else if room > 0 {
        after_byte(text, b'R')
    } else {
        None
    }
}

// What follows an acknowledge of a written byte.
#[cycle(after)]
fn after_payloads<'a>(x: &Payload, y: &Payload, text: &'a [u8], room: u32) -> Option<&'a [u8]>
    ensures { IfSome result (λ rest. Begins room
        (λ tree. ProvesPayloads tree (payload_tree x.now) (payload_tree y.now)) text.now rest.now) }
{
    match x {
        Payload::Byte {
            bits: a,
            acked: x,
            refused: r,
        } => match y {
            Payload::Byte {
                bits: b,
                acked: y,
                refused: s,
            } => {
                let below = room.checked_sub(1)?;
                match after_token(text, b'B') {
                    Some(text) => after_bytes(x, y, r, s, text, below),
                    None => after_split(&a.bits(), &b.bits(), text),
                }
            }
            Payload::Last(_) => None,
        },
        Payload::Last(r) => match y {
            Payload::Byte { .. } => None,
            Payload::Last(s) => after_tails(r, s, text, room),
        },
    }
}

// What follows the last byte, or a refusal.
#[cycle(after)]
fn after_tails<'a>(r: &Tail, s: &Tail, text: &'a [u8], room: u32) -> Option<&'a [u8]>
    ensures { IfSome result (λ rest. Begins room
        (λ tree. ProvesTails tree (tail_tree r.now) (tail_tree s.now)) text.now rest.now) }
{
    let below = room.checked_sub(1)?;
    match r {
        Tail::Stop => match s {
            Tail::Stop => after_byte(text, b'.'),
            Tail::Again(_) => None,
        },
        Tail::Again(f) => match s {
            Tail::Stop => None,
            Tail::Again(g) => after_frames(f, g, after_token(text, b'S')?, below),
        },
    }
}
