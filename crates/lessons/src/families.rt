// Messages that differ only in how many data bytes end them, as families. Those that differ only in how many bytes a read has are
// one message by `counts`.

use crate::counts::{Counts, join_counts};
use crate::frames::{Part, push_frames};
use crate::trees::{Run, Tree};
use growing_text::Lines;
use std::alloc::{AllocError, Global};

/// What is written as one message: this one up to the place `end`, and then so many data bytes, where several lengths are a
/// family. A read may have several counts. Its members are all messages that are written so, as they were first seen.
#[derive(Drop)]
pub(crate) struct Item {
    pub(crate) written: usize,
    pub(crate) end: Option<usize>,
    pub(crate) least: u64,
    pub(crate) most: u64,
    pub(crate) counts: Option<Counts>,
    pub(crate) members: Vec<usize>,
}

impl Item {
    /// Whether it is several messages, one of each length.
    pub(crate) fn is_family(&self) -> bool {
        self.least < self.most
    }

    /// How many messages of a plan it is.
    pub(crate) fn messages(&self) -> u64 {
        self.most.saturating_sub(self.least).saturating_add(1)
    }
}

/// Each message by itself, as it stands.
pub(crate) fn messages_of(alloc: Global, trees: &Vec<Tree>) -> Result<Vec<Item>, AllocError> {
    let mut items = Vec::new(alloc);
    for number in 0..trees.len() {
        let mut members = Vec::new(alloc);
        members.push(number)?;
        items.push(Item {
            written: number,
            end: None,
            least: 0,
            most: 0,
            counts: None,
            members,
        })?;
    }
    Ok(items)
}

/// The messages, where those of neighbouring lengths are one family, and others of neighbouring counts one message, which stands
/// where the first of them does.
pub(crate) fn families_of(alloc: Global, trees: &Vec<Tree>) -> Result<Vec<Item>, AllocError> {
    let shapes = shapes_of(alloc, trees)?;
    let alone = alone_in(alloc, shapes.as_slice())?;
    let mut items: Vec<Item> = Vec::new(alloc);
    for number in 0..shapes.len() {
        if !is_in_one(items.as_slice(), number) {
            let mut item = item_of(alloc, shapes.as_slice(), number)?;
            if !item.is_family() {
                let free = free_of(alloc, alone.as_slice(), items.as_slice(), number)?;
                join_counts(alloc, trees, free.as_slice(), &mut item)?;
            }
            items.push(item)?;
        }
    }
    Ok(items)
}

// The messages that are in no family.
fn alone_in(alloc: Global, shapes: &[Shape]) -> Result<Vec<usize>, AllocError> {
    let mut alone = Vec::new(alloc);
    for (number, shape) in shapes.iter().enumerate() {
        if least_of(shapes, shape) == most_of(shapes, shape) {
            alone.push(number)?;
        }
    }
    Ok(alone)
}

// Those of them after this one that stand in none of these items.
fn free_of(
    alloc: Global,
    alone: &[usize],
    items: &[Item],
    after: usize,
) -> Result<Vec<usize>, AllocError> {
    let mut free = Vec::new(alloc);
    for number in alone {
        if *number > after && !is_in_one(items, *number) {
            free.push(*number)?;
        }
    }
    Ok(free)
}

fn is_in_one(items: &[Item], number: usize) -> bool {
    items
        .iter()
        .any(|item| item.members.as_slice().contains(&number))
}

// A message in the words of a brief, up to the data bytes that end it, and these. The words have all that is done after answers.
#[derive(Drop)]
struct Shape {
    stem: String,
    by: u32,
    run: Run,
}

fn shapes_of(alloc: Global, trees: &Vec<Tree>) -> Result<Vec<Shape>, AllocError> {
    let mut shapes = Vec::new(alloc);
    for tree in trees.iter() {
        let run = tree.run();
        let stem = stem_of(alloc, tree, run)?;
        let by = tree.by;
        shapes.push(Shape { stem, by, run })?;
    }
    Ok(shapes)
}

fn stem_of(alloc: Global, tree: &Tree, run: Run) -> Result<String, AllocError> {
    let mut line = Lines::new(alloc);
    push_frames(alloc, &mut line, tree, Part::before(run.start));
    line.finish()
}

// The message with this number, and all that are like it and whose lengths go down and up from its own without a gap.
fn item_of(alloc: Global, shapes: &[Shape], number: usize) -> Result<Item, AllocError> {
    let mut item = Item {
        written: number,
        end: None,
        least: 0,
        most: 0,
        counts: None,
        members: Vec::new(alloc),
    };
    if let Some(like) = shapes.get(number) {
        item.end = like.run.start;
        item.least = least_of(shapes, like);
        item.most = most_of(shapes, like);
        put_members(&mut item, shapes, like)?;
    }
    Ok(item)
}

fn put_members(item: &mut Item, shapes: &[Shape], like: &Shape) -> Result<(), AllocError> {
    for (number, shape) in shapes.iter().enumerate() {
        let length = shape.run.length;
        if item.least <= length && length <= item.most && have_one_stem(shape, like) {
            item.members.push(number)?;
        }
    }
    Ok(())
}

fn least_of(shapes: &[Shape], like: &Shape) -> u64 {
    let mut least = like.run.length;
    for _ in 0..shapes.len() {
        match least.checked_sub(1) {
            Some(length) if is_there(shapes, like, length) => least = length,
            _ => break,
        }
    }
    least
}

fn most_of(shapes: &[Shape], like: &Shape) -> u64 {
    let mut most = like.run.length;
    for _ in 0..shapes.len() {
        match most.checked_add(1) {
            Some(length) if is_there(shapes, like, length) => most = length,
            _ => break,
        }
    }
    most
}

// Whether there is a message like this one with so many data bytes at its end.
fn is_there(shapes: &[Shape], like: &Shape, length: u64) -> bool {
    shapes.iter().any(|shape| shape.run.length == length && have_one_stem(shape, like))
}

fn have_one_stem(one: &Shape, other: &Shape) -> bool {
    one.by == other.by && one.stem.as_str() == other.stem.as_str()
}
