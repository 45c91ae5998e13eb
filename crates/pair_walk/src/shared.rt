// The messages of a plan as hash-consed nodes. What follows a node is named by its number, so that trees share what they
// have in common: two numbers that are equal show one tree.

ghost use Rattle.std.specs.Prelude.{◌≡◌, ◌<◌, ℕ, [], length, slice_get, Some, IfOk, OnOk};
ghost use Rattle.std.specs.Bool.{OnTrue};
ghost use Rattle.plan_core.specs.PlanContents.{plan_contents};
ghost use Rattle.pair_walk.specs.Shared.{AreNodesOf};
ghost use Rattle.message_tree.specs.Trees.{frame_tree, payload_tree, tail_tree};

use crate::marks::{Marks, marks_of};
use message_tree::{Address, Bit, Count, Frame, Pattern, Payload, Tail};
use plan_core::Plan;
use std::alloc::{AllocError, Global};
use std::collections::HashMap;

/// A header, a data byte, a repeated START or a STOP, and the numbers of what follows.
#[derive(Clone, Copy)]
pub(crate) enum Node {
    Stop,
    Again(u32),
    Byte {
        bits: Pattern,
        acked: u32,
        refused: u32,
    },
    Write {
        address: Address,
        acked: u32,
        refused: u32,
    },
    Read {
        address: Address,
        count: Count,
        after: u32,
        refused: u32,
    },
}

/// The messages of a plan as hash-consed nodes, at most as many as the plan has, and the number of each message's first.
/// Its marks say how far two messages are alike from their beginning on.
#[derive(Drop)]
pub struct SharedNodes {
    pub(crate) nodes: Vec<Node>,
    pub(crate) roots: Vec<u32>,
    pub(crate) marks: Marks,
}

// A list of nodes that grows, and the last node of each likeness.
#[derive(Drop)]
pub(crate) struct Gathering {
    pub(crate) nodes: Vec<Node>,
    seen: HashMap<(u32, u32, u32), u32>,
}

/// The messages of the plan as hash-consed nodes.
pub fn shared_nodes(alloc: Global, plan: &Plan) -> Result<SharedNodes, AllocError>
    ensures { IfOk result (AreNodesOf (plan_contents plan.now)) }
{
    let mut gathering = Gathering::new(alloc);
    let mut roots = Vec::new(alloc);
    for k in 0..plan.messages() {
        let root = gathering.frame(plan.message(k))?;
        roots.push(root)?;
    }
    let Gathering { nodes, seen: _ } = gathering;
    let marks = marks_of(alloc, &nodes, &roots)?;
    Ok(SharedNodes {
        nodes,
        roots,
        marks,
    })
}

impl Gathering {
    pub(crate) fn new(alloc: Global) -> Self
        ensures { result.nodes.items ≡ [] }
    {
        Gathering {
            nodes: Vec::new(alloc),
            seen: HashMap::new(alloc),
        }
    }
}

impl Gathering {
    ghost use Rattle.pair_walk.specs.Shared.{Keeps, ShowsFrame, ShowsPayload, ShowsTail};

    #[cycle(gather)]
    fn frame(&mut self, frame: &Frame) -> Result<u32, AllocError>
        ensures keeps { OnOk result (Keeps self.old.nodes.items self.new.nodes.items) }
        ensures shows { IfOk result (λ k. ShowsFrame self.new.nodes.items k (frame_tree frame.now)) }
    {
        match frame {
            Frame::Write {
                address,
                acked,
                refused,
            } => {
                let refused = self.tail(refused)?;
                let acked = self.payload(acked)?;
                let address = *address;
                self.put(Node::Write {
                    address,
                    acked,
                    refused,
                })
            }
            Frame::Read {
                address,
                count,
                after,
                refused,
            } => {
                let refused = self.tail(refused)?;
                let after = self.tail(after)?;
                let address = *address;
                let count = *count;
                self.put(Node::Read {
                    address,
                    count,
                    after,
                    refused,
                })
            }
        }
    }

    #[cycle(gather)]
    fn payload(&mut self, payload: &Payload) -> Result<u32, AllocError>
        ensures keeps { OnOk result (Keeps self.old.nodes.items self.new.nodes.items) }
        ensures shows { IfOk result (λ k. ShowsPayload self.new.nodes.items k (payload_tree payload.now)) }
    {
        match payload {
            Payload::Byte {
                bits,
                acked,
                refused,
            } => {
                let refused = self.tail(refused)?;
                let acked = self.payload(acked)?;
                let bits = *bits;
                self.put(Node::Byte {
                    bits,
                    acked,
                    refused,
                })
            }
            Payload::Last(tail) => self.tail(tail),
        }
    }

    #[cycle(gather)]
    fn tail(&mut self, tail: &Tail) -> Result<u32, AllocError>
        ensures keeps { OnOk result (Keeps self.old.nodes.items self.new.nodes.items) }
        ensures shows { IfOk result (λ k. ShowsTail self.new.nodes.items k (tail_tree tail.now)) }
    {
        match tail {
            Tail::Stop => self.put(Node::Stop),
            Tail::Again(frame) => {
                let frame = self.frame(frame)?;
                self.put(Node::Again(frame))
            }
        }
    }

    // The number of an equal node, where one is found, or of a new one.
    pub(crate) fn put(&mut self, node: Node) -> Result<u32, AllocError>
        ensures keeps { OnOk result (Keeps self.old.nodes.items self.new.nodes.items) }
        ensures stands { IfOk result (λ k. slice_get self.new.nodes.items k ≡ Some node) }
    {
        let likeness = likeness_of(&node);
        if let Some(k) = self.seen.get(&likeness).copied() {
            if is_at(&self.nodes, k, node) {
                return Ok(k);
            }
        }
        let k = number(self.nodes.len())?;
        self.nodes.push(node)?;
        self.seen.insert(likeness, k)?;
        Ok(k)
    }
}

// Whether this node has this number.
fn is_at(nodes: &[Node], k: u32, node: Node) -> bool
    ensures { OnTrue result (slice_get nodes.now k ≡ Some node) }
{
    let k = k as usize;
    if k < nodes.len() {
        return are_equal(nodes[k], node);
    }
    false
}

fn are_equal(m: Node, n: Node) -> bool
    ensures { OnTrue result (m ≡ n) }
{
    match m {
        Node::Stop => match n {
            Node::Stop => true,
            _ => false,
        },
        Node::Again(x) => match n {
            Node::Again(y) => x == y,
            _ => false,
        },
        Node::Byte {
            bits: p,
            acked: x,
            refused: r,
        } => match n {
            Node::Byte {
                bits: q,
                acked: y,
                refused: s,
            } => {
                if x == y && r == s {
                    return same_bits(p, q);
                }
                false
            }
            _ => false,
        },
        Node::Write {
            address: p,
            acked: x,
            refused: r,
        } => match n {
            Node::Write {
                address: q,
                acked: y,
                refused: s,
            } => {
                if x == y && r == s {
                    return same_address(p, q);
                }
                false
            }
            _ => false,
        },
        Node::Read {
            address: p,
            count: c,
            after: x,
            refused: r,
        } => match n {
            Node::Read {
                address: q,
                count: d,
                after: y,
                refused: s,
            } => {
                if x == y && r == s && same_count(c, d) {
                    return same_address(p, q);
                }
                false
            }
            _ => false,
        },
    }
}

fn same_bits(p: Pattern, q: Pattern) -> bool
    ensures { OnTrue result (p ≡ q) }
{
    p == q
}

fn same_address(a: Address, b: Address) -> bool
    ensures { OnTrue result (a ≡ b) }
{
    a == b
}

fn same_count(c: Count, d: Count) -> bool
    ensures { OnTrue result (c ≡ d) }
{
    c == d
}

// A list of 2 to the power 32 nodes is answered as out of memory.
fn number(n: usize) -> Result<u32, AllocError>
    ensures { IfOk result (λ k. k ≡ n) }
{
    if n <= u32::MAX as usize {
        Ok(n as u32)
    } else {
        Err(AllocError)
    }
}

// Three numbers that are equal where two nodes are.
fn likeness_of(node: &Node) -> (u32, u32, u32) {
    match node {
        Node::Stop => (0, 0, 0),
        Node::Again(frame) => (1, *frame, 0),
        Node::Byte {
            bits,
            acked,
            refused,
        } => (byte_code(bits), *acked, *refused),
        Node::Write {
            address,
            acked,
            refused,
        } => (address_code(address), *acked, *refused),
        Node::Read {
            address,
            count,
            after,
            refused,
        } => {
            let counts = u32::from(count.least()) << 24 | u32::from(count.greatest()) << 16;
            (address_code(address) ^ counts, *after, *refused)
        }
    }
}

fn byte_code(bits: &Pattern) -> u32 {
    let mut code = 1;
    for k in 0..8 {
        code = with_bit(code, bits.bit(k));
    }
    code
}

fn address_code(address: &Address) -> u32 {
    let mut code = 2;
    for k in 0..7 {
        code = with_bit(code, address.bit(k));
    }
    code
}

fn with_bit(code: u32, bit: Bit) -> u32 {
    let digit = match bit {
        Bit::Zero => 0,
        Bit::One => 1,
        Bit::Either => 2,
    };
    code.wrapping_mul(4) | digit
}
