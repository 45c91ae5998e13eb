// Objects of what is likely a mistake in briefs.

use lint::Oddity;
use object_lines::{At, ObjectLines, line_of};
use plan_core::Plan;
use plan_words::{FileLine, PlanWords};

/// Adds an object for each of these: what it is, of which names, and where these stand.
pub(crate) fn add_oddities(lines: &mut ObjectLines, words: PlanWords<'_>, odd: &[Oddity<'_>]) {
    for oddity in odd {
        add_oddity(lines, words, *oddity);
    }
}

fn add_oddity(lines: &mut ObjectLines, words: PlanWords<'_>, oddity: Oddity<'_>) {
    lines.begin("lint");
    lines.word("code", oddity.code());
    lines.open_list("names");
    add_names(lines, words, oddity);
    lines.close_list();
    let place = words.at(oddity.spot());
    match oddity {
        Oddity::SameAddress(device, _) | Oddity::AddressByte { device, .. } => {
            add_places(lines, place, words.at(device.spot));
        }
        _ => add_place(lines, place),
    }
    lines.end();
}

fn add_names(lines: &mut ObjectLines, words: PlanWords<'_>, oddity: Oddity<'_>) {
    match oddity {
        Oddity::EmptyBrief(_) | Oddity::CarriageReturn(_) => {}
        Oddity::SameAddress(first, second) => {
            lines.word_element(second.name.as_str());
            lines.word_element(first.name.as_str());
        }
        Oddity::ReservedAddress(device)
        | Oddity::UnusedDevice(device)
        | Oddity::AddressByte { device, .. } => lines.word_element(device.name.as_str()),
        Oddity::UnusedGroup { name, .. } => lines.word_element(name),
        Oddity::UnusedByte(byte) => lines.word_element(byte.name.as_str()),
        Oddity::Unsent { first, count, .. } => add_messages(lines, words.plan(), first, count),
        Oddity::Idle { controller, .. } => add_side(lines, words, controller),
        Oddity::BareHeader { message, .. } => add_messages(lines, words.plan(), message, 1),
        Oddity::IdleNever { first, second, .. } => {
            lines.word_element(first);
            lines.word_element(second);
        }
    }
}

// The names of so many messages, from this one on.
fn add_messages(lines: &mut ObjectLines, plan: &Plan, first: u32, count: u32) {
    for k in first..first.saturating_add(count) {
        if k < plan.messages() {
            lines.word_element(plan.message_name(k).as_str());
        }
    }
}

fn add_side(lines: &mut ObjectLines, words: PlanWords<'_>, controller: u32) {
    match words.side(lines.alloc, controller) {
        Ok(name) => lines.word_element(name.as_str()),
        Err(_) => lines.cut(),
    }
}

fn add_place(lines: &mut ObjectLines, place: Option<FileLine<'_>>) {
    match line_of(lines.alloc, place) {
        Ok(place) => lines.field("places", &[&place]),
        Err(_) => lines.cut(),
    }
}

fn add_places(lines: &mut ObjectLines, place: Option<FileLine<'_>>, other: Option<FileLine<'_>>) {
    match line_of(lines.alloc, place) {
        Ok(place) => add_place_with(lines, &place, other),
        Err(_) => lines.cut(),
    }
}

fn add_place_with(lines: &mut ObjectLines, place: &Option<At>, other: Option<FileLine<'_>>) {
    match line_of(lines.alloc, other) {
        Ok(other) => lines.field("places", &[place, &other]),
        Err(_) => lines.cut(),
    }
}
