// What is said of a message that is unsafe: where one of its pairs meets.

use crate::hover_counts::{Senders, is_one_of, push_tally, tally_of};
use bus_rows::{ALIKE, Meeting, Rule, bus_row, deed, meeting_of, row_of, say, tell_rows};
use diagnostics::{About, Diagnostic};
use growing_text::{Lines, Part, Text};
use origins::{Kind, NamedTexts, Span};
use plan_core::{Participant, Plan};
use plan_words::PlanWords;
use remedies::both_of;
use std::alloc::{AllocError, Global};
use verdicts::Checked;

/// Adds how many pairs of these messages are unsafe, where any is, and where one of the first group meets which has any: this is
/// what is wrong with the plan, and its names.
///
/// # Errors
///
/// Where an allocation fails.
pub(crate) fn push_unsafe(
    alloc: Global,
    text: &mut Text,
    checked: &Checked,
    words: PlanWords<'_>,
    names: &NamedTexts<'_>,
    wrong: &[Diagnostic],
    messages: &[u32],
) -> Result<(), AllocError> {
    let own = Senders::of_messages(alloc, words, messages)?;
    let tally = tally_of(checked, &own);
    if tally.unsafe_pairs == 0 {
        return Ok(());
    }
    text.push("\n");
    push_tally(text, tally);
    text.push("\n\n");
    let places = places_of(alloc, words, names)?;
    match first_of(checked, &own, places.as_slice(), wrong) {
        Some(k) => push_meeting(alloc, text, words, checked, k),
        None => Ok(()),
    }
}

// ---- which pair

// Of each participant where what it sends gets its name.
fn places_of(
    alloc: Global,
    words: PlanWords<'_>,
    names: &NamedTexts<'_>,
) -> Result<Vec<Option<Span>>, AllocError> {
    let plan = words.plan();
    let mut places = Vec::new(alloc);
    for p in 0..plan.participants() {
        let given = match words.message_of(p) {
            Some(message) => { names.given(Kind::Message, words.message_name(message).as_bytes()) }
            None => names.given(Kind::Interrupt, interrupt_name(plan, p).as_bytes()),
        };
        places.push(match given {
            Some(at) => Some(at.span),
            None => None,
        })?;
    }
    Ok(places)
}

fn interrupt_name(plan: &Plan, p: u32) -> &str {
    if plan.participants() <= p {
        return "";
    }
    match plan.participant(p) {
        Participant::Interrupt(k) => plan.interrupt_name(k).as_str(),
        Participant::Sending { .. } => "",
    }
}

// The place among the unsafe pairs of the first one that these are in, of the first group that has any. The groups are told in
// their order.
fn first_of(
    checked: &Checked,
    own: &Senders,
    places: &[Option<Span>],
    wrong: &[Diagnostic],
) -> Option<usize> {
    for diagnostic in wrong {
        if let (About::Group(_), Some(other)) = (diagnostic.about, diagnostic.related.first()) {
            let at = (diagnostic.span, other.span);
            if let Some(k) = first_at(checked, own, places, Some(at)) {
                return Some(k);
            }
        }
    }
    first_at(checked, own, places, None)
}

// The first unsafe pair of these, between those who have their names there.
fn first_at(
    checked: &Checked,
    own: &Senders,
    places: &[Option<Span>],
    at: Option<(Span, Span)>,
) -> Option<usize> {
    let Checked { plan, faults } = checked;
    for k in 0..faults.len() {
        let (pair, _) = faults.get(k);
        let both = both_of(plan, pair);
        if is_one_of(both, own) && are_at(places, both, at) {
            return Some(k);
        }
    }
    None
}

fn are_at(places: &[Option<Span>], both: (u32, u32), at: Option<(Span, Span)>) -> bool {
    match at {
        Some((first, second)) => {
            place_of(places, both.0) == Some(first) && place_of(places, both.1) == Some(second)
        }
        None => true,
    }
}

fn place_of(places: &[Option<Span>], p: u32) -> Option<Span> {
    *places.get(p as usize)?
}

// ---- where it meets

// The rows of an unsafe pair, and the slot in which it meets, as a terminal shows them.
fn push_meeting(
    alloc: Global,
    text: &mut Text,
    words: PlanWords<'_>,
    checked: &Checked,
    k: usize,
) -> Result<(), AllocError> {
    let Checked { plan, faults } = checked;
    if faults.len() <= k {
        return Ok(());
    }
    let (pair, fault) = faults.get(k);
    let both = both_of(plan, pair);
    let meeting = meeting_of(alloc, plan, both, fault.wire.as_slice())?;
    let first = words.label(alloc, both.0)?;
    let second = words.label(alloc, both.1)?;
    let told = told_of(alloc, (first.as_str(), second.as_str()), &meeting)?;
    text.push("```text\n");
    for line in told.as_str().split('\n') {
        if !line.is_empty() {
            text.push(line.strip_prefix("    ").unwrap_or(line));
            text.push("\n");
        }
    }
    text.push("```\n");
    Ok(())
}

fn told_of(alloc: Global, labels: (&str, &str), meeting: &Meeting) -> Result<String, AllocError> {
    let Meeting {
        bus,
        first,
        second,
        ..
    } = meeting;
    let rows = [
        bus_row(bus),
        row_of(labels.0, &first.bytes, first.next),
        row_of(labels.1, &second.bytes, second.next),
    ];
    let mut lines = Lines::new(alloc);
    tell_rows(&mut lines, &rows, ALIKE);
    tell_slot(&mut lines, meeting);
    lines.finish()
}

fn tell_slot(lines: &mut Lines, meeting: &Meeting) {
    let rule = match meeting.rule() {
        Rule::Standard => "UM10204 3.1.8",
        Rule::Interrupts => "the profile of interrupts",
    };
    say(
        lines,
        "slot {}, {}: {} meets {}. Both send alike until here.",
        &[
            Part::Number(meeting.slot as u64),
            Part::Words(rule),
            Part::Words(deed(meeting.first.next)),
            Part::Words(deed(meeting.second.next)),
        ],
    );
}
