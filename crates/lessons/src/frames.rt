// The frames of a message, as a brief has them.

use crate::before::BriefBefore;
use crate::counts::{Counts, count_of};
use crate::paths::Sent;
use crate::trees::{After, Node, Tree};
use crate::words::push_data;
use growing_text::{Lines, Text};
use std::alloc::{AllocError, Global};

// No message has more places than this, and each is written once with what opens and closes an `else`.
const MOST_WORDS: u32 = 20_000;

/// What of a message is written, and how: all, or what stands before the place `end`, a read with several counts where there is
/// one, and devices and bytes by the names that the brief before it has.
#[derive(Clone, Copy)]
pub(crate) struct Part<'a> {
    pub(crate) end: Option<usize>,
    pub(crate) counts: Option<Counts>,
    pub(crate) before: Option<&'a BriefBefore<'a>>,
}

impl Part<'_> {
    /// What stands before this place, without names.
    pub(crate) fn before(end: Option<usize>) -> Part<'static> {
        Part {
            end,
            counts: None,
            before: None,
        }
    }
}

/// The frames of a message.
pub(crate) fn push_frames(alloc: Global, line: &mut Lines, tree: &Tree, part: Part<'_>) {
    let mut waiting = Vec::new(alloc);
    push_waiting(line, &mut waiting, Waiting::Place(0));
    for _ in 0..MOST_WORDS {
        match waiting.pop() {
            Some(Waiting::Close) => line.word(")"),
            Some(Waiting::Place(place)) if Some(place) == part.end => {}
            Some(Waiting::Place(place)) => push_place(alloc, line, tree, place, part, &mut waiting),
            None => break,
        }
    }
}

// What is still to be written of a message, the last one first.
#[derive(Clone, Copy)]
enum Waiting {
    Place(usize),
    Close,
}

fn push_waiting(line: &mut Lines, waiting: &mut Vec<Waiting>, next: Waiting) {
    if waiting.push(next).is_err() {
        line.cut();
    }
}

// What is sent from a place on that is written together, and then what follows: after a refusal in brackets, which stand before
// what follows an acknowledge.
fn push_place(
    alloc: Global,
    line: &mut Lines,
    tree: &Tree,
    place: usize,
    part: Part<'_>,
    waiting: &mut Vec<Waiting>,
) {
    let Some((count, node)) = tree.together(place) else {
        return;
    };
    line.word_made(sent_word(alloc, &node, count, place, part));
    if let After::On(place) = node.acked {
        push_waiting(line, waiting, Waiting::Place(place));
    }
    if let After::On(place) = node.refused {
        line.tell("else (", &[]);
        push_waiting(line, waiting, Waiting::Close);
        push_waiting(line, waiting, Waiting::Place(place));
    }
}

// A header, or so many data bytes, as a brief has them, on one line.
fn sent_word(
    alloc: Global,
    node: &Node,
    times: u64,
    place: usize,
    part: Part<'_>,
) -> Result<String, AllocError> {
    let mut text = Text::new(alloc);
    match node.sent {
        Sent::Write(address) => push_address(&mut text, "write ", address, part),
        Sent::Register(byte) => push_byte(&mut text, byte, node.known, part),
        Sent::Data(byte) => {
            push_data(&mut text, byte, node.known);
            push_times(&mut text, times);
        }
        Sent::Read(address, count) => {
            push_address(&mut text, "read ", address, part);
            text.push(" ");
            push_count(&mut text, count_of(count), place, part);
        }
    }
    text.finish()
}

fn push_address(text: &mut Text, word: &str, address: u8, part: Part<'_>) {
    text.push(word);
    match part.before {
        Some(before) => match before.device(address) {
            Some(name) => text.push(name),
            None => push_number(text, address),
        },
        None => push_number(text, address),
    }
}

fn push_number(text: &mut Text, address: u8) {
    text.push("0x");
    text.push_hex(address);
}

fn push_byte(text: &mut Text, byte: u8, known: u8, part: Part<'_>) {
    match part.before {
        Some(before) if known != 0 => match before.byte(byte, known) {
            Some(name) => text.push(name),
            None => push_data(text, byte, known),
        },
        _ => push_data(text, byte, known),
    }
}

// How many bytes the read at this place has.
fn push_count(text: &mut Text, count: u8, place: usize, part: Part<'_>) {
    match part.counts {
        Some(counts) if counts.place == place => {
            text.push_number(u64::from(counts.least));
            text.push("..");
            text.push_number(u64::from(counts.most));
        }
        _ => text.push_number(u64::from(count)),
    }
}

// How often a byte stands there, where that is not once.
fn push_times(text: &mut Text, count: u64) {
    if count > 1 {
        text.push("*");
        text.push_number(count);
    }
}

/// So many data bytes that may be any, as a brief has them: a range of a family.
pub(crate) fn push_run(alloc: Global, line: &mut Lines, least: u64, most: u64) {
    if most > 0 {
        line.word_made(run_word(alloc, least, most));
    }
}

fn run_word(alloc: Global, least: u64, most: u64) -> Result<String, AllocError> {
    let mut text = Text::new(alloc);
    text.push("any");
    if least < most {
        text.push("*");
        text.push_number(least);
        text.push("..");
        text.push_number(most);
    } else {
        push_times(&mut text, most);
    }
    text.finish()
}
