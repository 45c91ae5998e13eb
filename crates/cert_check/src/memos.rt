// The lines of proofs that are remembered: for each two senders the one that was proved for them last, as a copy. There is
// room for so many bytes of lines, and what has no room is not remembered.

ghost use Rattle.std.specs.Prelude.{◌≡◌, ◌<◌, None, length, replicate, IfOk, IfSome};
ghost use Rattle.plan_core.specs.PlanContents.{plan_contents};
ghost use Rattle.plan_core.specs.Pairs.{pairs_of};
ghost use Rattle.cert_check.specs.Judged.{IsMemo};
ghost use Rattle.cert_check.specs.Quick.{ProvesLine};

use plan_core::Plan;
use std::alloc::{AllocError, Global};

/// How many bytes of lines are remembered at most: 64 MiB.
const ROOM: usize = 67_108_864;

/// The lines that are remembered, each at the place of its two senders.
#[derive(Drop)]
pub(crate) struct Memo {
    lines: Vec<Option<Vec<u8>>>,
    // how many bytes more are remembered
    room: usize,
}

impl Memo {
    /// Nothing is remembered of the senders of this plan.
    pub(crate) fn new(alloc: Global, plan: &Plan) -> Result<Memo, AllocError>
        ensures { IfOk result (λ memo. IsMemo (plan_contents plan.now) memo) }
    {
        Ok(Memo {
            lines: no_lines(alloc, plan.sender_places())?,
            room: ROOM,
        })
    }

    /// The line that is remembered for the two senders of pair `i`, if one is: it proves the pair.
    pub(crate) fn recall(&self, plan: &Plan, i: u32) -> Option<&[u8]>
        requires memo { IsMemo (plan_contents plan.now) self.now }
        requires within { i < length (pairs_of (plan_contents plan.now)) }
        ensures { IfSome result (λ line. ProvesLine (plan_contents plan.now) i line.now) }
    {
        match &self.lines[plan.sender_place(i)] {
            Some(line) => Some(line.as_slice()),
            None => None,
        }
    }

    /// Remembers a line that proves pair `i` for its two senders, if there is room and memory for it.
    pub(crate) fn learn(&mut self, alloc: Global, plan: &Plan, i: u32, line: &[u8])
        requires memo { IsMemo (plan_contents plan.now) self.old }
        requires within { i < length (pairs_of (plan_contents plan.now)) }
        requires proved { ProvesLine (plan_contents plan.now) i line.now }
        ensures { IsMemo (plan_contents plan.now) self.new }
    {
        let Some(room) = self.room.checked_sub(line.len()) else {
            return;
        };
        let Ok(copy) = line.to_vec(alloc) else {
            return;
        };
        let place = plan.sender_place(i);
        self.lines[place] = Some(copy);
        self.room = room;
    }
}

// Nothing is remembered at so many places.
fn no_lines(alloc: Global, places: usize) -> Result<Vec<Option<Vec<u8>>>, AllocError>
    ensures { IfOk result (λ lines. lines.items ≡ replicate places None) }
{
    let mut lines = Vec::with_capacity(alloc, places)?;
    for _ in 0..places {
        lines.push(None)?;
    }
    Ok(lines)
}
