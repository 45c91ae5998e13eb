// Lines of unsafe pairs, and below the count of them.

use bus_rows::{
    ALIKE, Meeting, Rule, Side, bus_row, deed, row_of, say, say_all, tell_places, tell_rows,
};
use growing_text::{Lines, Part, Sentence};
use offers::Advice;
use plan_findings::tell_ranges;
use plan_words::PlanWords;
use std::alloc::{AllocError, Global};

/// What is said of an unsafe pair: the bytes on the bus and those of both participants up to the slot in which
/// they meet, what meets there, which bits before it are open, and where the two stand in briefs.
pub(crate) fn tell_pair(
    alloc: Global,
    lines: &mut Lines,
    words: PlanWords<'_>,
    both: (u32, u32),
    meeting: &Meeting,
) -> Result<(), AllocError> {
    let first = words.label(alloc, both.0)?;
    let second = words.label(alloc, both.1)?;
    tell_sides(alloc, lines, (first.as_str(), second.as_str()), meeting);
    tell_places(alloc, lines, words, both);
    Ok(())
}

fn tell_sides(alloc: Global, lines: &mut Lines, labels: (&str, &str), meeting: &Meeting) {
    let Meeting {
        bus,
        first,
        second,
        ..
    } = meeting;
    let rows = [
        bus_row(bus),
        row_of(labels.0, &first.bytes, first.next),
        row_of(labels.1, &second.bytes, second.next),
    ];
    tell_rows(lines, &rows, ALIKE);
    tell_reason(lines, meeting);
    tell_open(alloc, lines, labels.0, first);
    tell_open(alloc, lines, labels.1, second);
}

fn tell_reason(lines: &mut Lines, meeting: &Meeting) {
    let rule = match meeting.rule() {
        Rule::Standard => "UM10204 3.1.8",
        Rule::Interrupts => "the profile of interrupts",
    };
    say(
        lines,
        "slot {}, {}: {} meets {}. Both send alike until here.",
        &[
            Part::Number(meeting.slot as u64),
            Part::Words(rule),
            Part::Words(deed(meeting.first.next)),
            Part::Words(deed(meeting.second.next)),
        ],
    );
}

fn tell_open(alloc: Global, lines: &mut Lines, label: &str, side: &Side) {
    if side.open.is_empty() {
        return;
    }
    let template = "{} may send either bit before it in slot";
    let mut said = Sentence::of(alloc, template, &[Part::Name(label)]);
    tell_ranges(&mut said, side.open.as_slice());
    say_all(lines, &said);
}

/// The lines of what is offered, and of the command that makes these edits.
///
/// # Errors
///
/// Where an allocation fails.
pub(crate) fn below_unsafe(
    alloc: Global,
    advice: &[Advice],
    command: Option<String>,
) -> Result<String, AllocError> {
    let mut lines = Lines::new(alloc);
    for one in advice {
        tell_advice(&mut lines, one);
    }
    if let Some(command) = &command {
        let command = [Part::Name(command.as_str())];
        say(&mut lines, "to make these edits: {}", &command);
    }
    lines.finish()
}

/// What is offered: the lines as they would stand are told each on a line of its own, to be copied.
pub(crate) fn tell_advice(lines: &mut Lines, advice: &Advice) {
    say_all(lines, &advice.said);
    for line in &advice.lines {
        say(lines, "{}", &[Part::Name(line.as_str())]);
    }
}
