// How far messages are alike from their beginning on. Each beginning that messages have in common has one number, so that
// the number of two messages that go on alike is the same up to the node in which they differ, and is found by halving.

ghost use Rattle.std.specs.Prelude.{◌≡◌, ◌+◌, slice_get, Some, IfOk, OnOk, IfSome};
ghost use Rattle.pair_walk.specs.declared.shared.Node.{Node};
ghost use Rattle.pair_walk.specs.Marks.{AreMarks, HaveMarks, leads_to};
ghost use Rattle.pair_walk.specs.Shared.{MeetsLater};

use crate::shared::{Gathering, Node};
use std::alloc::{AllocError, Global};

// A path has at most 256 bytes, and a repeated START before each: fewer than 1,024 nodes. Two that are alike for longer
// are only looked at node by node.
const MOST_STEPS: usize = 512;

const HALVINGS: usize = 10;

/// A place in a message along what is acknowledged: the beginning that leads there from the message's first node.
#[derive(Clone, Copy)]
pub(crate) struct Mark {
    pub(crate) root: u32,
    pub(crate) beginning: u32,
    pub(crate) node: u32,
}

/// The marks of each message, one message after the other, and the number of each message's first mark.
#[derive(Drop)]
pub(crate) struct Marks {
    pub(crate) marks: Vec<Mark>,
    firsts: Vec<usize>,
}

// Beginnings with a number are kept as a list of nodes, each with the number of the beginning before it in the place of
// what follows it; 0 is the beginning that has no node, and k + 1 that which ends with node k of the list.
#[derive(Drop)]
struct Marking {
    beginnings: Gathering,
    marks: Vec<Mark>,
}

/// The marks of the messages with these first nodes.
pub(crate) fn marks_of(alloc: Global, nodes: &[Node], roots: &[u32]) -> Result<Marks, AllocError>
    ensures { IfOk result (λ made. HaveMarks nodes.now made.marks.items) }
{
    let mut marking = Marking {
        beginnings: Gathering::new(alloc),
        marks: Vec::new(alloc),
    };
    let mut firsts = Vec::new(alloc);
    for m in 0..roots.len() {
        firsts.push(marking.marks.len())?;
        marking.follow(nodes, roots[m])?;
    }
    let Marking {
        beginnings: _,
        marks,
    } = marking;
    Ok(Marks { marks, firsts })
}

impl Marking {
    fn follow(&mut self, nodes: &[Node], root: u32) -> Result<(), AllocError>
        requires { AreMarks nodes.now self.now.beginnings.nodes.items self.now.marks.items }
        ensures { OnOk result (AreMarks nodes.now self.new.beginnings.nodes.items self.new.marks.items) }
    {
        let mut beginning = 0;
        let mut node = root;
        for _ in 0..nodes.len() {
            self.marks.push(Mark {
                root,
                beginning,
                node,
            })?;
            match step_at(nodes, node, beginning) {
                Some((step, next)) => {
                    let k = self.beginnings.put(step)?;
                    beginning = after(k)?;
                    node = next;
                }
                None => break,
            }
        }
        Ok(())
    }
}

// The node with this number as the end of a beginning, and the number of the node that follows it where it is
// acknowledged.
fn step_at(nodes: &[Node], k: u32, before: u32) -> Option<(Node, u32)>
    ensures { IfSome result (λ step. (n : Node) × (step.0 ≡ leads_to n before) × (slice_get nodes.now k ≡ Some (leads_to n step.1))) }
{
    let k = k as usize;
    if k < nodes.len() {
        return step_of(nodes[k], before);
    }
    None
}

fn step_of(node: Node, before: u32) -> Option<(Node, u32)>
    ensures { IfSome result (λ step. (step.0 ≡ leads_to node before) × (node ≡ leads_to node step.1)) }
{
    match node {
        Node::Stop => None,
        Node::Again(next) => Some((Node::Again(before), next)),
        Node::Byte {
            bits,
            acked: next,
            refused,
        } => Some((
            Node::Byte {
                bits,
                acked: before,
                refused,
            },
            next,
        )),
        Node::Write {
            address,
            acked: next,
            refused,
        } => Some((
            Node::Write {
                address,
                acked: before,
                refused,
            },
            next,
        )),
        Node::Read {
            address,
            count,
            after: next,
            refused,
        } => Some((
            Node::Read {
                address,
                count,
                after: before,
                refused,
            },
            next,
        )),
    }
}

// A list of 2 to the power 32 beginnings is answered as out of memory.
fn after(k: u32) -> Result<u32, AllocError>
    ensures { IfOk result (λ n. n ≡ k + 1) }
{
    k.checked_add(1).ok_or(AllocError)
}

impl Marks {
    /// The last places of messages `m` and `n` that one beginning leads to, where their first nodes are `a` and `b`.
    pub(crate) fn last_alike(&self, m: u32, n: u32, a: u32, b: u32) -> (u32, u32)
        ensures { MeetsLater self.now.marks.items a b result }
    {
        let m = m as usize;
        let n = n as usize;
        if m >= self.firsts.len() || n >= self.firsts.len() {
            return (a, b);
        }
        let i = self.firsts[m];
        let j = self.firsts[n];
        let mut alike: usize = 0;
        let mut step: usize = MOST_STEPS;
        for _ in 0..HALVINGS {
            let further = alike.wrapping_add(step);
            if self
                .alike_at(i.wrapping_add(further), j.wrapping_add(further), a, b)
                .is_some()
            {
                alike = further;
            }
            step = step / 2;
        }
        match self.alike_at(i.wrapping_add(alike), j.wrapping_add(alike), a, b) {
            Some(places) => places,
            None => (a, b),
        }
    }

    // The places with these two marks, where one beginning leads to them from `a` and from `b`.
    fn alike_at(&self, i: usize, j: usize, a: u32, b: u32) -> Option<(u32, u32)>
        ensures { IfSome result (MeetsLater self.now.marks.items a b) }
    {
        if i >= self.marks.len() || j >= self.marks.len() {
            return None;
        }
        let p = self.marks[i];
        let q = self.marks[j];
        if p.root == a && q.root == b && p.beginning == q.beginning {
            return Some((p.node, q.node));
        }
        None
    }
}
