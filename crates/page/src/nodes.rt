// A message as a list of its nodes, so that no JSON of it nests deeply.

use message_tree::{Address, Bit, Count, Frame, Pattern, Payload, Tail};
use serde::Serialize;
use std::alloc::{AllocError, Global};

/// A node of a message: a header or a byte, and the numbers of the nodes that follow it. The number of a node is its
/// place in the list, counted from 1. 0 is a STOP, and is left out. A header that follows a node comes after a repeated
/// START.
#[derive(Drop, Serialize)]
#[serde(untagged)]
pub(crate) enum Node {
    /// The header of a write: its address, and what follows where it is acknowledged and where it is not.
    Write {
        write: String,
        #[serde(skip_serializing_if = is_stop)]
        acked: usize,
        #[serde(skip_serializing_if = is_stop)]
        refused: usize,
    },
    /// The header of a read: its address, the least and the greatest number of bytes, and what follows the last byte.
    Read {
        read: String,
        bytes: (u8, u8),
        #[serde(skip_serializing_if = is_stop)]
        after: usize,
        #[serde(skip_serializing_if = is_stop)]
        refused: usize,
    },
    /// A byte that is written.
    Byte {
        byte: String,
        #[serde(skip_serializing_if = is_stop)]
        acked: usize,
        #[serde(skip_serializing_if = is_stop)]
        refused: usize,
    },
}

const STOP: usize = 0;

fn is_stop(node: &usize) -> bool {
    *node == STOP
}

/// The nodes of a message, each after those that follow it. So the last one is the header that the message begins with.
pub(crate) fn nodes_of(alloc: Global, message: &Frame) -> Result<Vec<Node>, AllocError> {
    let mut nodes = Vec::new(alloc);
    frame(alloc, &mut nodes, message)?;
    Ok(nodes)
}

// Each of these adds what it is given, and answers with its number.

fn add(nodes: &mut Vec<Node>, node: Node) -> Result<usize, AllocError> {
    nodes.push(node)?;
    Ok(nodes.len())
}

#[cycle(frame)]
fn frame(alloc: Global, nodes: &mut Vec<Node>, it: &Frame) -> Result<usize, AllocError> {
    match it {
        Frame::Write {
            address: target,
            acked,
            refused,
        } => {
            let acked = payload(alloc, nodes, acked)?;
            let refused = tail(alloc, nodes, refused)?;
            let write = address(alloc, target)?;
            add(
                nodes,
                Node::Write {
                    write,
                    acked,
                    refused,
                },
            )
        }
        Frame::Read {
            address: target,
            count,
            after,
            refused,
        } => {
            let after = tail(alloc, nodes, after)?;
            let refused = tail(alloc, nodes, refused)?;
            let read = address(alloc, target)?;
            add(
                nodes,
                Node::Read {
                    read,
                    bytes: ends(count),
                    after,
                    refused,
                },
            )
        }
    }
}

#[cycle(frame)]
fn payload(alloc: Global, nodes: &mut Vec<Node>, it: &Payload) -> Result<usize, AllocError> {
    match it {
        Payload::Byte {
            bits,
            acked,
            refused,
        } => {
            let acked = payload(alloc, nodes, acked)?;
            let refused = tail(alloc, nodes, refused)?;
            let byte = pattern(alloc, bits)?;
            add(
                nodes,
                Node::Byte {
                    byte,
                    acked,
                    refused,
                },
            )
        }
        Payload::Last(last) => tail(alloc, nodes, last),
    }
}

#[cycle(frame)]
fn tail(alloc: Global, nodes: &mut Vec<Node>, it: &Tail) -> Result<usize, AllocError> {
    match it {
        Tail::Stop => Ok(STOP),
        Tail::Again(next) => frame(alloc, nodes, next),
    }
}

fn ends(count: &Count) -> (u8, u8) {
    (count.least(), count.greatest())
}

/// The seven bits of an address, in the order of sending: `0`, `1`, and `x` for an open one.
pub(crate) fn address(alloc: Global, it: &Address) -> Result<String, AllocError> {
    let mut bits = String::new(alloc);
    for k in 0..7 {
        bits.push(symbol(it.bit(k)))?;
    }
    Ok(bits)
}

fn pattern(alloc: Global, it: &Pattern) -> Result<String, AllocError> {
    let mut bits = String::new(alloc);
    for k in 0..8 {
        bits.push(symbol(it.bit(k)))?;
    }
    Ok(bits)
}

fn symbol(bit: Bit) -> char {
    match bit {
        Bit::Zero => '0',
        Bit::One => '1',
        Bit::Either => 'x',
    }
}
