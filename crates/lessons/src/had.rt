// Which paths a message has: what is told above a message, and counted as explained, is what this finds.

ghost use Rattle.std.specs.Prelude.{◌≡◌, IfOk, filter, map};
ghost use Rattle.lessons.specs.Paths.{may_send, has_path, path_from, after_answer, is_had};

use crate::paths::{Sent, Step};
use crate::trees::{After, Node};
use std::alloc::{AllocError, Global};

// Whether a message with these places has the path: from its first place on, each step is what may be sent there, its answer
// leads to the next one, and after the last one comes the STOP.
fn has_path(nodes: &[Node], path: &[Step]) -> bool
    ensures { result ≡ has_path nodes.now path.now }
{
    path_from(nodes, After::On(0), path)
}

// The same from here on.
fn path_from(nodes: &[Node], at: After, path: &[Step]) -> bool
    ensures { result ≡ path_from nodes.now at path.now }
{
    match (at, path.split_first()) {
        (After::Stop, None) => true,
        (After::On(place), Some((step, rest))) => match nodes.get(place) {
            Some(node) => {
                may_send(node.sent, node.known, step.sent)
                    && path_from(nodes, after(node, step.refused), rest)
            }
            None => false,
        },
        _ => false,
    }
}

fn after(node: &Node, refused: bool) -> After
    ensures { result ≡ after_answer node.now refused }
{
    if refused { node.refused } else { node.acked }
}

// Whether what is sent at a place may be this: the same, but for the open bits of data and for a count that nobody saw.
fn may_send(node: Sent, known: u8, sent: Sent) -> bool
    ensures { result ≡ may_send node known sent }
{
    match (node, sent) {
        (Sent::Write(one), Sent::Write(other)) => one == other,
        (Sent::Register(one), Sent::Register(other)) => one == other,
        (Sent::Data(one), Sent::Data(other)) => (one ^ other) & known == 0,
        (Sent::Read(one, count), Sent::Read(other, its)) => {
            one == other && (its.is_none() || count == its)
        }
        _ => false,
    }
}

/// Those of these numbers of paths whose path a message with these places has.
///
/// # Errors
///
/// Where an allocation fails.
pub(crate) fn those_had(
    alloc: Global,
    nodes: &[Node],
    paths: &[&[Step]],
    numbers: &[usize],
) -> Result<Vec<usize>, AllocError>
    ensures { IfOk result (λ kept. kept.items ≡
        filter (is_had nodes.now (map (λ path. path.now) paths.now)) numbers.now) }
{
    let mut kept = Vec::new(alloc);
    for number in numbers {
        if is_had(nodes, paths, *number) {
            kept.push(*number)?;
        }
    }
    Ok(kept)
}

fn is_had(nodes: &[Node], paths: &[&[Step]], number: usize) -> bool
    ensures { result ≡ is_had nodes.now (map (λ path. path.now) paths.now) number }
{
    match paths.get(number) {
        Some(path) => has_path(nodes, path),
        None => false,
    }
}
