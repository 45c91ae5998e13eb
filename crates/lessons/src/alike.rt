// Data that was the same each time: that is no rule of the bus, as far as a dump shows.

use crate::paths::Sent;
use crate::trees::{Node, Tree};
use crate::words::push_data;
use growing_text::{Lines, Part, Text};
use std::alloc::{AllocError, Global};

// How many bytes of one line are told.
const TOLD: u32 = 8;

/// Lines for the data bytes after registers that stand in a message because each time they were seen they were so, or those of
/// their bits that are known: those seen equally often in one line.
pub(crate) fn push_alike(alloc: Global, line: &mut Lines, tree: &Tree) {
    for (place, node) in tree.nodes.iter().enumerate() {
        if let Some(kind) = kind_of(node) {
            if !is_told(tree, place, kind) {
                push_kind(alloc, line, tree, kind);
            }
        }
    }
}

// How often data bytes were seen, and whether all their bits are known.
#[derive(Clone, Copy, PartialEq, Eq)]
struct Kind {
    times: u64,
    is_whole: bool,
}

fn kind_of(node: &Node) -> Option<Kind> {
    match node.sent {
        Sent::Data(_) if node.known != 0 => Some(Kind {
            times: node.times,
            is_whole: node.known == 0xff,
        }),
        _ => None,
    }
}

// Whether a place before this one is of the same kind.
fn is_told(tree: &Tree, before: usize, kind: Kind) -> bool {
    tree.nodes
        .iter()
        .take(before)
        .any(|node| kind_of(node) == Some(kind))
}

fn push_kind(alloc: Global, line: &mut Lines, tree: &Tree, kind: Kind) {
    line.begin("# seen", "#    ");
    push_times(line, kind);
    let mut told = 0u32;
    for node in tree.nodes.iter() {
        if kind_of(node) == Some(kind) {
            told = told.saturating_add(1);
            if told <= TOLD {
                line.word_made(data_word(alloc, node));
            }
        }
    }
    if told > TOLD {
        line.word("..");
    }
    line.end();
}

fn push_times(line: &mut Lines, kind: Kind) {
    if kind.times == 1 {
        return line.word("once:");
    }
    let what = if kind.is_whole {
        "this value"
    } else {
        "these bits"
    };
    let parts = [Part::Number(kind.times), Part::Words(what)];
    line.tell("{} times, always {}:", &parts);
}

fn data_word(alloc: Global, node: &Node) -> Result<String, AllocError> {
    let mut text = Text::new(alloc);
    if let Sent::Data(byte) = node.sent {
        push_data(&mut text, byte, node.known);
    }
    text.finish()
}
