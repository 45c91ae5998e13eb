// The bytes that a controller writes after an acknowledge, as a row in which what follows a NACK is a number, so that
// those of two are compared fast.

ghost use Rattle.std.specs.Prelude.{◌≡◌, true, ◌+◌, ◌*◌, ◌<◌, ◌≤◌, ◌^◌, ◌++◌, [], ◌∷◌, List, length, take, min, OnOk};
ghost use Rattle.std.specs.Bool.{OnTrue};
ghost use Rattle.message_tree.specs.Texts.{PayloadText};
ghost use Rattle.message_tree.specs.Trees.{FrameTree};
ghost use Rattle.arbitration.specs.Frames.{AreBeginnings, AreEndings, IsSameFrom, rest_after};
ghost use Rattle.arbitration.specs.Ways.{Step, IsInByte, IsBeginning, AllHaveRoom, AreOutcomes};

use crate::beginnings::Beginning;
use crate::bits::{Choices, is_same};
use crate::spans::Outcomes;
use message_tree::Pattern;
use std::alloc::{AllocError, Global};

/// How a message goes on after its last byte, or after a NACK: by a STOP, or by a repeated START and the
/// frame with this number.
#[derive(Clone, Copy)]
pub(crate) enum Next {
    Stop,
    Again(u32),
}

/// A byte, and what follows a NACK of it.
#[derive(Clone, Copy)]
pub(crate) struct NumberedByte {
    pub(crate) bits: Pattern,
    pub(crate) choices: Choices,
    pub(crate) refused: Next,
}

/// Some bytes, and what follows the last of them.
#[derive(Drop)]
pub(crate) struct Row {
    pub(crate) bytes: Vec<NumberedByte>,
    pub(crate) last: Next,
    // outcomes for each prefix against itself: the first byte, the first two, and so on
    pub(crate) beginnings: Vec<Beginning>,
    // outcomes for each suffix against itself, shortest first: what follows the last byte, then with the last byte, with
    // the last two, and so on; none while the row is built
    pub(crate) endings: Vec<Outcomes>,
}

impl Row {
    /// No bytes, and a STOP.
    pub(crate) fn new(alloc: Global) -> Row
        ensures bytes { result.bytes.items ≡ [] }
        ensures last { result.last ≡ Next.Stop }
        ensures begun { AreBeginnings [] result.beginnings.items }
    {
        Row {
            bytes: Vec::new(alloc),
            last: Next::Stop,
            beginnings: Vec::new(alloc),
            endings: Vec::new(alloc),
        }
    }

    /// The beginning of so many of the bytes.
    pub(crate) fn beginning(&self, count: usize) -> Beginning
        requires { count ≤ length self.now.beginnings.items }
        ensures { (ss : List Step) → AreBeginnings ss self.now.beginnings.items →
            IsBeginning (take count ss) (take count ss) result }
    {
        if count == 0 {
            return Beginning::none();
        }
        self.beginnings[count - 1]
    }

    /// The outcome of the bytes from this place on, and what follows them, against themselves.
    pub(crate) fn ending(&self, place: usize) -> Outcomes
        requires within { place ≤ length self.now.bytes.items }
        requires all { length self.now.endings.items ≡ length self.now.bytes.items + 1 }
        ensures { (known : List FrameTree) → AreEndings known self.now self.now.endings.items →
            AreOutcomes (PayloadText (rest_after place known self.now)) (PayloadText (rest_after place known self.now)) result }
    {
        self.endings[self.bytes.len() - place]
    }

    /// One more byte, with its outcomes against itself.
    pub(crate) fn push(&mut self, byte: NumberedByte, here: Outcomes) -> Result<(), AllocError>
        requires begun { (ss : List Step) × AreBeginnings ss self.old.beginnings.items ×
            (length ss ≡ length self.old.bytes.items) }
        requires slots { 9 * length self.old.bytes.items + 9 < 2 ^ 32 }
        requires room { AllHaveRoom (9 * length self.old.bytes.items) here }
        ensures bytes { OnOk result (self.new.bytes.items ≡ self.old.bytes.items ++ byte ∷ []) }
        ensures last { OnOk result (self.new.last ≡ self.old.last) }
        ensures begun { OnOk result ((ss : List Step) (s : Step) → AreBeginnings ss self.old.beginnings.items →
            IsInByte s s here → AreBeginnings (ss ++ s ∷ []) self.new.beginnings.items) }
    {
        let longer = self.beginning(self.bytes.len()).and(here);
        self.bytes.push(byte)?;
        self.beginnings.push(longer)?;
        Ok(())
    }
}

/// Whether two go on alike, by one number.
#[inline(always)]
pub(crate) fn is_same_next(a: &Next, b: &Next) -> bool
    ensures { OnTrue result (a.now ≡ b.now) }
{
    match a {
        Next::Stop => matches!(b, Next::Stop),
        Next::Again(m) => match b {
            Next::Stop => false,
            Next::Again(n) => m == n,
        },
    }
}

// Whether two bytes are the same, and what follows a NACK has one number.
#[inline(always)]
fn is_one(a: &NumberedByte, b: &NumberedByte) -> bool
    ensures { result ≡ true → a.now ≡ b.now }
{
    is_same(&a.bits, &b.bits)
        && a.choices.is_same(b.choices)
        && is_same_next(&a.refused, &b.refused)
}

/// How many bytes two have in common.
pub(crate) fn same_bytes(first: &Row, second: &Row) -> usize
    ensures first { result ≤ length first.now.bytes.items }
    ensures second { result ≤ length second.now.bytes.items }
    ensures same { take result first.now.bytes.items ≡ take result second.now.bytes.items }
{
    let most = first.bytes.len().min(second.bytes.len());
    for k in 0..most {
        if !is_one(&first.bytes[k], &second.bytes[k]) {
            return k;
        }
    }
    most
}

/// The place from which on two are the same, not before `from`; where they do not end alike, the end of the shorter one.
pub(crate) fn same_from(first: &Row, second: &Row, from: usize) -> usize
    requires first { from ≤ length first.now.bytes.items }
    requires second { from ≤ length second.now.bytes.items }
    ensures from { from ≤ result }
    ensures first { result ≤ length first.now.bytes.items }
    ensures second { result ≤ length second.now.bytes.items }
    ensures same { result < min (length first.now.bytes.items) (length second.now.bytes.items) →
        IsSameFrom result first.now second.now }
{
    let count = first.bytes.len();
    if count != second.bytes.len() {
        return count.min(second.bytes.len());
    }
    if !is_same_next(&first.last, &second.last) {
        return count;
    }
    for n in 0..count - from {
        let place = count - 1 - n;
        if !is_one(&first.bytes[place], &second.bytes[place]) {
            return place + 1;
        }
    }
    from
}

/// Whether two rows are the same, with the same numbers.
pub(crate) fn same_rows(first: &Row, second: &Row) -> bool
    ensures { OnTrue result ((first.now.bytes.items ≡ second.now.bytes.items) × (first.now.last ≡ second.now.last)) }
{
    let count = first.bytes.len();
    count == second.bytes.len()
        && is_same_next(&first.last, &second.last)
        && same_bytes(first, second) == count
}
