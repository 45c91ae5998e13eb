// Where one of two reads ends while the other goes on, or both end.

ghost use Rattle.std.specs.Prelude.{◌*◌};
ghost use Rattle.message_tree.specs.Counts.{Meet, greatest_of};
ghost use Rattle.message_tree.specs.Texts.{ReadThen, TailText};
ghost use Rattle.message_tree.specs.Trees.{TailTree};
ghost use Rattle.arbitration.specs.Spans.{IsSpan};
ghost use Rattle.arbitration.specs.Ways.{ReadsOn, AreReadsApart, AreOutcomes, AllHaveRoom};

use crate::spans::{Outcomes, Slots};
use message_tree::Count;

// The acknowledges by which the first asks for a further byte while the second ends its read (UM10204, 3.1.6).
fn reading_on(first: &Count, second: &Count) -> Option<Slots>
    ensures { IsSpan (ReadsOn first.now second.now) result }
{
    if second.least() < first.greatest() {
        let last = second.greatest().min(first.greatest() - 1);
        Some(Slots {
            earliest: 9 * second.least() as u32 - 1,
            latest: 9 * last as u32 - 1,
        })
    } else {
        None
    }
}

/// The acknowledges by which one of two reads goes on while the other ends.
pub(crate) fn reads_apart(first: &Count, second: &Count) -> Outcomes
    ensures { AreReadsApart first.now second.now result }
{
    Outcomes {
        both: None,
        first: reading_on(first, second),
        second: reading_on(second, first),
    }
}

/// Two reads that may end with one byte, where the two come to `ended` after it.
pub(crate) fn reads_met(first: &Count, second: &Count, ended: Outcomes) -> Outcomes
    requires meet { Meet first.now second.now }
    requires room { AllHaveRoom (9 * greatest_of first.now) ended }
    ensures { (x y : TailTree) → AreOutcomes (TailText x) (TailText y) ended →
        AreOutcomes (ReadThen first.now (TailText x)) (ReadThen second.now (TailText y)) result }
{
    let least = first.least().max(second.least()) as u32;
    let greatest = first.greatest().min(second.greatest()) as u32;
    let ends = ended.after(9 * least).union(ended.after(9 * greatest));
    reads_apart(first, second).union(ends)
}
