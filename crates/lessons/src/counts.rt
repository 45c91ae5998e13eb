// Messages that differ only in how many bytes one read has, as one message.

use crate::families::Item;
use crate::paths::Sent;
use crate::trees::{After, Tree};
use std::alloc::{AllocError, Global};

/// How many bytes the read at a place of a message has: from so many to so many.
#[derive(Clone, Copy)]
pub(crate) struct Counts {
    pub(crate) place: usize,
    pub(crate) least: u8,
    pub(crate) most: u8,
}

/// How many bytes a read has in a brief. One that was always refused has some count.
pub(crate) fn count_of(count: Option<u8>) -> u8 {
    count.unwrap_or(1)
}

/// Puts those of the messages with these numbers into an item of one message that differ from it only in the count of one
/// read, where all counts between were seen. Of several reads the first one counts.
pub(crate) fn join_counts(
    alloc: Global,
    trees: &Vec<Tree>,
    free: &[usize],
    item: &mut Item,
) -> Result<(), AllocError> {
    let Some(tree) = trees.get(item.written) else {
        return Ok(());
    };
    let likes = likes_of(alloc, trees, free, tree)?;
    for (place, node) in tree.nodes.iter().enumerate() {
        if let Sent::Read(_, count) = node.sent {
            let counts = counts_at(likes.as_slice(), place, count_of(count));
            if counts.least < counts.most {
                return join(item, likes.as_slice(), counts);
            }
        }
    }
    Ok(())
}

// A message that is another one but for the count of the read at a place of that, and its count.
#[derive(Clone, Copy)]
struct Like {
    number: usize,
    place: usize,
    count: u8,
}

fn likes_of(
    alloc: Global,
    trees: &Vec<Tree>,
    free: &[usize],
    tree: &Tree,
) -> Result<Vec<Like>, AllocError> {
    let mut likes = Vec::new(alloc);
    for number in free {
        if let Some(other) = trees.get(*number) {
            if let Some((place, count)) = one_count(alloc, tree, other)? {
                likes.push(Like {
                    number: *number,
                    place,
                    count,
                })?;
            }
        }
    }
    Ok(likes)
}

// The counts of the read at this place that go down and up from its own without a gap.
fn counts_at(likes: &[Like], place: usize, own: u8) -> Counts {
    let mut counts = Counts {
        place,
        least: own,
        most: own,
    };
    for _ in 0..likes.len() {
        match counts.least.checked_sub(1) {
            Some(count) if is_there(likes, place, count) => counts.least = count,
            _ => break,
        }
    }
    for _ in 0..likes.len() {
        match counts.most.checked_add(1) {
            Some(count) if is_there(likes, place, count) => counts.most = count,
            _ => break,
        }
    }
    counts
}

fn is_there(likes: &[Like], place: usize, count: u8) -> bool {
    likes
        .iter()
        .any(|like| like.place == place && like.count == count)
}

fn join(item: &mut Item, likes: &[Like], counts: Counts) -> Result<(), AllocError> {
    for like in likes {
        let is_between = counts.least <= like.count && like.count <= counts.most;
        if like.place == counts.place && is_between {
            item.members.push(like.number)?;
        }
    }
    item.counts = Some(counts);
    Ok(())
}

// The place of the only read whose count differs, and the count that it has in the other message. None where the two differ in
// something else too, or in nothing.
fn one_count(alloc: Global, one: &Tree, other: &Tree) -> Result<Option<(usize, u8)>, AllocError> {
    if one.by != other.by {
        return Ok(None);
    }
    let mut found = None;
    let mut waiting = Vec::new(alloc);
    waiting.push((0usize, 0usize))?;
    for _ in 0..=one.nodes.len() {
        let Some((place, its)) = waiting.pop() else {
            break;
        };
        let (Some(node), Some(like)) = (one.nodes.get(place), other.nodes.get(its)) else {
            return Ok(None);
        };
        match (node.sent, like.sent) {
            (Sent::Data(_), Sent::Data(_)) => {}
            (Sent::Read(to, count), Sent::Read(its_to, its_count)) if to == its_to => {
                if count_of(count) != count_of(its_count) {
                    if found.is_some() {
                        return Ok(None);
                    }
                    found = Some((place, count_of(its_count)));
                }
            }
            (sent, its_sent) if sent == its_sent => {}
            _ => return Ok(None),
        }
        let goes_on = push_both(&mut waiting, node.acked, like.acked)?
            && push_both(&mut waiting, node.refused, like.refused)?;
        if !goes_on {
            return Ok(None);
        }
    }
    Ok(found)
}

// What follows in both is looked at too. Whether both go on there, or none.
fn push_both(
    waiting: &mut Vec<(usize, usize)>,
    one: After,
    other: After,
) -> Result<bool, AllocError> {
    match (one, other) {
        (After::On(place), After::On(its)) => {
            waiting.push((place, its))?;
            Ok(true)
        }
        (After::On(_), _) | (_, After::On(_)) => Ok(false),
        _ => Ok(true),
    }
}
