// Which pair has which number.

ghost use Rattle.std.specs.Prelude.{◌≡◌, ℕ, Bool, List, [], ◌∷◌, ◌+◌, ◌-◌, ◌*◌, ◌^◌, ◌<◌, ◌≤◌, ◌++◌, length, slice_get, Some};
ghost use Rattle.std.specs.Prelude.{IfOk, OnOk};
ghost use Rattle.std.specs.List.{list_any, slice_index_or};
ghost use Rattle.std.specs.List.Sorted.{IsNonDecreasingBy};
ghost use Rattle.plan_core.specs.Pairs.{partners_by};
ghost use Rattle.plan_core.specs.PairTables.{never_together, are_apart};
ghost use Rattle.plan_core.specs.Participants.{names_both, one_controller, forbids_both};

use crate::limits::MOST_PARTICIPANTS;
use crate::plans::Participant;
use std::alloc::{AllocError, Global};

/// The pairs whose lower number is that of one participant.
#[derive(Clone, Copy)]
pub struct Row {
    /// The number of the first of them.
    pub first: u32,
    /// Where the partners begin in the list of all.
    pub partners: u32,
    /// How many there are.
    pub len: u32,
}

/// The rows of all participants. The sendings of one controller share their partners.
#[derive(Drop)]
pub struct PairTable {
    pub rows: Vec<Row>,
    pub partners: Vec<u32>,
    pub count: u32,
}

impl PairTable {
    ghost use Rattle.plan_core.specs.PairTables.{IsRow, IsTable, Extends};

    /// The table of no participants.
    pub fn empty(alloc: Global) -> PairTable
        ensures { (is_apart : ℕ → ℕ → Bool) (n : ℕ) → IsTable is_apart n 0 result }
    {
        PairTable {
            rows: Vec::new(alloc),
            partners: Vec::new(alloc),
            count: 0,
        }
    }

    /// The table of these participants.
    pub fn new(
        alloc: Global,
        participants: &[Participant],
        nevers: &[(u32, u32)],
    ) -> Result<PairTable, AllocError>
        requires { length participants.now ≤ MOST_PARTICIPANTS }
        ensures { IfOk result (IsTable (are_apart nevers.now participants.now) (length participants.now)
            (length participants.now)) }
    {
        let mut table = PairTable::empty(alloc);
        for x in 0..participants.len() {
            table.push_row(participants, nevers, x)?;
        }
        Ok(table)
    }

    // The row of x goes after those of the participants before it.
    fn push_row(
        &mut self,
        participants: &[Participant],
        nevers: &[(u32, u32)],
        x: usize,
    ) -> Result<(), AllocError>
        requires few { length participants.now ≤ MOST_PARTICIPANTS }
        requires within { x < length participants.now }
        requires below { IsTable (are_apart nevers.now participants.now) (length participants.now) x self.old }
        ensures { OnOk result (IsTable (are_apart nevers.now participants.now) (length participants.now) (x + 1)
            self.new) }
    {
        let row = self.make_row(participants, nevers, x)?;
        self.rows.push(row)?;
        self.count += row.len;
        Ok(())
    }

    // The row of x. Its partners go after the others, unless they are those of the sending before it.
    fn make_row(
        &mut self,
        participants: &[Participant],
        nevers: &[(u32, u32)],
        x: usize,
    ) -> Result<Row, AllocError>
        requires few { length participants.now ≤ MOST_PARTICIPANTS }
        requires within { x < length participants.now }
        requires below { IsTable (are_apart nevers.now participants.now) (length participants.now) x self.old }
        ensures row { IfOk result (IsRow (are_apart nevers.now participants.now) (length participants.now)
            self.new.partners.items x) }
        ensures rows { self.new.rows ≡ self.old.rows }
        ensures count { self.new.count ≡ self.old.count }
        ensures partners { OnOk result (Extends self.old.partners.items self.new.partners.items
            (length participants.now)) }
    {
        if x > 0 && is_one_controller(participants[x - 1], participants[x]) {
            let last = self.rows[x - 1];
            return Ok(Row {
                first: self.count,
                partners: last.partners,
                len: last.len,
            });
        }
        let partners = self.partners.len();
        push_partners(&mut self.partners, participants, nevers, x)?;
        Ok(Row {
            first: self.count,
            partners: partners as u32,
            len: (self.partners.len() - partners) as u32,
        })
    }
}

/// The last row that begins no later than pair `i`.
pub fn last_begun(rows: &[Row], i: u32) -> usize
    requires ordered { IsNonDecreasingBy (λ (row : Row). row.first) rows.now }
    requires some { 0 < length rows.now }
    requires zero { (d : Row) → (slice_index_or rows.now 0 d).first ≡ 0 }
    ensures within { result < length rows.now }
    ensures begun { (d : Row) → (slice_index_or rows.now result d).first ≤ i }
    ensures last { (k : ℕ) (d : Row) → result < k → k < length rows.now → i < (slice_index_or rows.now k d).first }
{
    rows.partition_point(|row| row.first <= i) - 1
}

// Puts those after x that may start together with x after the others.
fn push_partners(
    all: &mut Vec<u32>,
    participants: &[Participant],
    nevers: &[(u32, u32)],
    x: usize,
) -> Result<(), AllocError>
    requires few { length participants.now ≤ MOST_PARTICIPANTS }
    requires within { x < length participants.now }
    ensures { OnOk result (all.new.items ≡ all.old.items ++
        partners_by (are_apart nevers.now participants.now) (length participants.now) x) }
{
    // The sendings of one controller stand side by side, so the answer for the last one is kept.
    let own = participants[x];
    let mut last = own;
    let mut apart = is_apart(nevers, own, last);
    for y in x + 1..participants.len() {
        let other = participants[y];
        apart = is_apart_after(nevers, own, last, apart, other);
        last = other;
        if !apart {
            all.push(y as u32)?;
        }
    }
    Ok(())
}

// Whether `own` and `other` never start together, where the answer for `own` and `last` is known.
fn is_apart_after(
    nevers: &[(u32, u32)],
    own: Participant,
    last: Participant,
    apart: bool,
    other: Participant,
) -> bool
    requires { apart ≡ never_together nevers.now (Some own) (Some last) }
    ensures { result ≡ never_together nevers.now (Some own) (Some other) }
{
    if is_one_controller(last, other) {
        apart
    } else {
        is_apart(nevers, own, other)
    }
}

// Whether the two never start together.
fn is_apart(nevers: &[(u32, u32)], x: Participant, y: Participant) -> bool
    ensures { result ≡ never_together nevers.now (Some x) (Some y) }
{
    is_one_controller(x, y) || forbids_both(nevers, x, y)
}

/// Whether both are sendings of one controller.
pub fn is_one_controller(x: Participant, y: Participant) -> bool
    ensures { result ≡ one_controller (Some x) (Some y) }
{
    match (x, y) {
        (
            Participant::Sending { controller, .. },
            Participant::Sending {
                controller: other,
                ..
            },
        ) => controller == other,
        _ => false,
    }
}

/// Whether both are sendings whose controllers one `never` names.
pub fn forbids_both(nevers: &[(u32, u32)], x: Participant, y: Participant) -> bool
    ensures { result ≡ forbids_both nevers.now (Some x) (Some y) }
{
    match (x, y) {
        (
            Participant::Sending { controller, .. },
            Participant::Sending {
                controller: other,
                ..
            },
        ) => is_never(nevers, controller, other),
        _ => false,
    }
}

/// Whether some `never` names both controllers, in either order.
pub fn is_never(nevers: &[(u32, u32)], first: u32, second: u32) -> bool
    ensures { result ≡ list_any (names_both first second) nevers.now }
{
    nevers.iter().any(|never| names_both(first, second, *never))
}

fn names_both(first: u32, second: u32, never: (u32, u32)) -> bool
    ensures { result ≡ names_both first second never }
{
    never.0 == first && never.1 == second || never.0 == second && never.1 == first
}
