// Lines that say where what participants send stands in briefs.

use crate::below::say;
use growing_text::{Lines, Part};
use plan_words::{FileLine, PlanWords};
use std::alloc::{AllocError, Global};

// How many columns a place has at most that stands on a line between `see` and `and`.
const PLACE: usize = 68;

/// Where the message of a participant stands in a brief, or the interrupt that it is, if it does.
pub fn tell_item(alloc: Global, lines: &mut Lines, words: PlanWords<'_>, p: u32) {
    if let Some(place) = words.item_at(p) {
        if tell_one(alloc, lines, place).is_err() {
            lines.cut();
        }
    }
}

/// Where the messages of two participants stand in briefs, or the interrupts that they are, if they do.
pub fn tell_places(alloc: Global, lines: &mut Lines, words: PlanWords<'_>, both: (u32, u32)) {
    let told = match (words.item_at(both.0), words.item_at(both.1)) {
        (Some(first), Some(second)) if first != second => tell_two(alloc, lines, first, second),
        (Some(only), _) | (None, Some(only)) => tell_one(alloc, lines, only),
        (None, None) => Ok(()),
    };
    if told.is_err() {
        lines.cut();
    }
}

fn tell_one(alloc: Global, lines: &mut Lines, place: FileLine<'_>) -> Result<(), AllocError> {
    let place = place.spelled(alloc)?;
    if is_long(place.as_str()) {
        say(lines, "see this line:", &[]);
        tell_place(lines, place.as_str());
        return Ok(());
    }
    say(lines, "see {}", &[Part::Name(place.as_str())]);
    Ok(())
}

// The second place has a line of its own where both have no room on one.
fn tell_two(
    alloc: Global,
    lines: &mut Lines,
    first: FileLine<'_>,
    second: FileLine<'_>,
) -> Result<(), AllocError> {
    let first = first.spelled(alloc)?;
    let second = second.spelled(alloc)?;
    if is_long(first.as_str()) {
        say(lines, "see these lines:", &[]);
        tell_place(lines, first.as_str());
        tell_place(lines, second.as_str());
        return Ok(());
    }
    let both = [Part::Name(first.as_str()), Part::Name(second.as_str())];
    say(lines, "see {} and {}", &both);
    Ok(())
}

// A place on a line of its own.
fn tell_place(lines: &mut Lines, place: &str) {
    say(lines, "{}", &[Part::Name(place)]);
}

fn is_long(place: &str) -> bool {
    PLACE < place.chars().count()
}
