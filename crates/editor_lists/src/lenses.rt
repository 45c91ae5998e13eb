// What stands above controllers and messages: how many of their pairs are unsafe.

use editor_texts::{Lines, Range, json};
use growing_text::Text;
use origins::{Kind, NameAt, NamedTexts, Span};
use plan_core::Participant;
use plan_words::PlanWords;
use serde::Serialize;
use std::alloc::{AllocError, Global};
use verdicts::Checked;

// How many pairs a part of a plan has, and how many of them are unsafe.
#[derive(Clone, Copy)]
struct Count {
    pairs: u32,
    unsafe_pairs: u32,
}

#[derive(Clone, Copy, Serialize)]
struct Lens<'a> {
    range: Range,
    command: Command<'a>,
}

#[derive(Clone, Copy, Serialize)]
struct Command<'a> {
    title: &'a str,
    command: &'static str,
}

/// How many pairs of each controller and each message are unsafe that get their names in the text of this number, as the protocol has
/// it. The plan has these words, and was checked.
///
/// # Errors
///
/// Where an allocation fails.
pub fn lenses_of(
    alloc: Global,
    checked: &Checked,
    words: PlanWords<'_>,
    names: &NamedTexts<'_>,
    file: u32,
    lines: &Lines<'_>,
) -> Result<String, AllocError> {
    let given = given_in(alloc, names)?;
    let owners = owners_of(alloc, words, names, given.as_slice())?;
    let counts = counts_of(alloc, checked, owners.as_slice(), given.len())?;
    let mut list = Text::new(alloc);
    let mut is_empty = true;
    for (at, count) in given.iter().zip(counts.iter()) {
        if at.span.file == file {
            list.push(if is_empty { "[" } else { "," });
            list.push_made(lens_of(alloc, lines, at.span, *count));
            is_empty = false;
        }
    }
    list.push(if is_empty { "[]" } else { "]" });
    list.finish()
}

fn lens_of(
    alloc: Global,
    lines: &Lines<'_>,
    span: Span,
    count: Count,
) -> Result<String, AllocError> {
    let mut title = Text::new(alloc);
    if count.unsafe_pairs != 0 {
        title.push_number(u64::from(count.unsafe_pairs));
        title.push(" of ");
    }
    title.push_number(u64::from(count.pairs));
    title.push(if count.pairs == 1 {
        " pair "
    } else {
        " pairs "
    });
    title.push(if count.unsafe_pairs == 0 {
        "safe"
    } else {
        "unsafe"
    });
    let title = title.finish()?;
    let lens = Lens {
        range: lines.range(span.start, span.end),
        command: Command {
            title: title.as_str(),
            command: "",
        },
    };
    json(alloc, &lens)
}

// All messages and controllers that get a name.
fn given_in(alloc: Global, names: &NamedTexts<'_>) -> Result<Vec<NameAt>, AllocError> {
    let mut given = Vec::new(alloc);
    for at in names.names() {
        if at.gives(Kind::Message) || at.gives(Kind::Controller) {
            given.push(*at)?;
        }
    }
    Ok(given)
}

// The places of the message and of the controller of a participant, among those that get a name.
type Owners = [Option<usize>; 2];

fn owners_of(
    alloc: Global,
    words: PlanWords<'_>,
    names: &NamedTexts<'_>,
    given: &[NameAt],
) -> Result<Vec<Owners>, AllocError> {
    let plan = words.plan();
    let mut owners = Vec::with_capacity(alloc, plan.participants() as usize)?;
    for p in 0..plan.participants() {
        owners.push(match plan.participant(p) {
            Participant::Sending {
                controller,
                message,
            } => [
                place_of(
                    given,
                    names.definition(Kind::Message, words.message_name(message).as_bytes()),
                ),
                place_of(
                    given,
                    names.given(Kind::Controller, words.name(controller).as_bytes()),
                ),
            ],
            Participant::Interrupt(_) => [None, None],
        })?;
    }
    Ok(owners)
}

fn place_of(given: &[NameAt], name: Option<NameAt>) -> Option<usize> {
    let name = name?;
    given.iter().position(|at| at.span == name.span)
}

// For each name how many pairs have it on a side.
fn counts_of(
    alloc: Global,
    checked: &Checked,
    owners: &[Owners],
    names: usize,
) -> Result<Vec<Count>, AllocError> {
    let Checked { plan, faults } = checked;
    let none = Count {
        pairs: 0,
        unsafe_pairs: 0,
    };
    let mut counts = vec![in alloc; none; names]?;
    for pair in 0..plan.pair_count() {
        add_pair(counts.as_mut_slice(), owners, plan.pair(pair), false);
    }
    for k in 0..faults.len() {
        let (pair, _) = faults.get(k);
        if pair < plan.pair_count() {
            add_pair(counts.as_mut_slice(), owners, plan.pair(pair), true);
        }
    }
    Ok(counts)
}

// A pair counts once for a name that both of its sides have.
fn add_pair(counts: &mut [Count], owners: &[Owners], pair: (u32, u32), is_unsafe: bool) {
    let nobody: Owners = [None, None];
    let first = owners.get(pair.0 as usize).copied().unwrap_or(nobody);
    let second = owners.get(pair.1 as usize).copied().unwrap_or(nobody);
    for (own, other) in first.iter().zip(second.iter()) {
        add(counts, *own, is_unsafe);
        if own != other {
            add(counts, *other, is_unsafe);
        }
    }
}

fn add(counts: &mut [Count], name: Option<usize>, is_unsafe: bool) {
    let Some(place) = name else {
        return;
    };
    if let Some(count) = counts.get_mut(place) {
        if is_unsafe {
            count.unsafe_pairs = count.unsafe_pairs.saturating_add(1);
        } else {
            count.pairs = count.pairs.saturating_add(1);
        }
    }
}
