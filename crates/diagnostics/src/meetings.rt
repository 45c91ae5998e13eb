// Unsafe pairs, those that are alike together.

use crate::items::Items;
use crate::values::{About, Diagnostic, Related, Severity};
use bus_rows::{Meeting, meeting_of};
use certificate::Fault;
use growing_text::Text;
use places::Offered;
use plan_findings::why_unsafe;
use plan_words::PlanWords;
use remedies::{Alike, Grouped};
use std::alloc::{AllocError, Global};
use verdicts::Checked;

/// Adds one for the pairs of each group whose participants are called alike: at what the first one sends, and at what the
/// other one does.
pub(crate) fn push_unsafe(
    alloc: Global,
    found: &mut Vec<Diagnostic>,
    words: PlanWords<'_>,
    checked: &Checked,
    groups: &Grouped,
    items: &Items<'_>,
) -> Result<(), AllocError> {
    for g in 0..groups.len() {
        for i in 0..groups.meets(g) {
            if let Some(alike) = groups.alike(g, i) {
                push_alike(alloc, found, words, checked, (g, alike), items)?;
            }
        }
    }
    Ok(())
}

fn push_alike(
    alloc: Global,
    found: &mut Vec<Diagnostic>,
    words: PlanWords<'_>,
    checked: &Checked,
    of_group: (usize, Alike<'_>),
    items: &Items<'_>,
) -> Result<(), AllocError> {
    let Checked { plan, faults } = checked;
    let (_, alike) = of_group;
    if faults.len() <= alike.example {
        return Ok(());
    }
    let (pair, fault) = faults.get(alike.example);
    if plan.pair_count() <= pair {
        return Ok(());
    }
    found.push(unsafe_at(alloc, words, plan.pair(pair), fault, of_group, items)?)?;
    Ok(())
}

fn unsafe_at(
    alloc: Global,
    words: PlanWords<'_>,
    both: (u32, u32),
    fault: &Fault,
    of_group: (usize, Alike<'_>),
    items: &Items<'_>,
) -> Result<Diagnostic, AllocError> {
    let (group, alike) = of_group;
    let meeting = meeting_of(alloc, words.plan(), both, fault.wire.as_slice())?;
    let message = unsafe_words(alloc, &meeting, fault, alike)?;
    let mut related = Vec::new(alloc);
    related.push(Related {
        span: items.sender(words, both.1),
        message: other_words(alloc, &meeting, alike)?,
    })?;
    Ok(Diagnostic {
        severity: Severity::Error,
        code: "unsafe",
        span: items.sender(words, both.0),
        message,
        related,
        fixes: Vec::new(alloc),
        about: About::Group(group),
    })
}

// What the first one does where the other one does another thing, after these bytes, why that is unsafe, and how many pairs
// are like it.
fn unsafe_words(
    alloc: Global,
    meeting: &Meeting,
    fault: &Fault,
    alike: Alike<'_>,
) -> Result<String, AllocError> {
    let (first, second) = alike.called;
    let mut text = Text::new(alloc);
    push_deed(&mut text, first, meeting.first.next);
    text.push(" where ");
    push_deed(&mut text, second, meeting.second.next);
    text.push(", after ");
    text.push(meeting.bus.as_str());
    text.push(": ");
    text.push(why_unsafe(fault.first, fault.second));
    if 1 < alike.pairs {
        text.push(" (");
        text.push_number(alike.pairs as u64);
        text.push(" pairs)");
    }
    text.finish()
}

fn other_words(alloc: Global, meeting: &Meeting, alike: Alike<'_>) -> Result<String, AllocError> {
    let (_, second) = alike.called;
    let mut text = Text::new(alloc);
    push_deed(&mut text, second, meeting.second.next);
    text.push(" there");
    text.finish()
}

fn push_deed(text: &mut Text, label: &str, next: Offered) {
    text.push(label);
    text.push(match next {
        Offered::Bit(_) => " sends a data bit",
        Offered::Listen => " hears a target's bit",
        Offered::Again => " repeats START",
        Offered::Stop => " sends STOP",
        Offered::Claim => " waits for the answer",
        Offered::Nothing => " sends nothing",
    });
}
