// After a check of briefs: what is allowed there, and is likely a mistake.

use crate::lines::Lines;
use crate::values::Hints;
use brief_tokens::is_board_word;
use lint::Oddity;
use origins::Device;
use plan_core::Plan;
use plan_words::PlanWords;
use std::alloc::{AllocError, Global};

// The most of them that are told.
const MOST: usize = 10;

/// Says what is likely a mistake in the briefs that mean a plan, each with its place. Messages that nobody sends are left out where
/// the report has told them.
pub(crate) fn push_oddities(
    alloc: Global,
    lines: &mut Lines,
    words: PlanWords<'_>,
    odd: &[Oddity<'_>],
    is_explained: bool,
) -> Result<(), AllocError> {
    let mut count = 0usize;
    for oddity in odd {
        if is_explained && is_unsent(*oddity) {
            continue;
        }
        if count < MOST {
            if let Some(place) = words.at(oddity.spot()) {
                lines.word(place.spelled(alloc)?.as_str());
                lines.part(": ");
            }
            push_oddity(alloc, lines, words, *oddity)?;
        }
        count = count.saturating_add(1);
    }
    let more = count.saturating_sub(MOST);
    if more != 0 {
        lines.say(format_args!("and {more} more of this kind"));
    }
    Ok(())
}

/// What is said of one of them, without its place.
///
/// # Errors
///
/// Where an allocation fails.
pub fn on_oddity(
    alloc: Global,
    words: PlanWords<'_>,
    oddity: Oddity<'_>,
) -> Result<Hints, AllocError> {
    let mut lines = Lines::new(alloc);
    push_oddity(alloc, &mut lines, words, oddity)?;
    lines.finish()
}

fn is_unsent(oddity: Oddity<'_>) -> bool {
    matches!(oddity, Oddity::Unsent { .. })
}

fn push_oddity(
    alloc: Global,
    lines: &mut Lines,
    words: PlanWords<'_>,
    oddity: Oddity<'_>,
) -> Result<(), AllocError> {
    match oddity {
        Oddity::EmptyBrief(_) => lines.say("this brief has no items"),
        Oddity::CarriageReturn(_) => lines.say(
            "a carriage return (CR) does not end a comment: what follows it in the comment is not read, up to a line feed",
        ),
        Oddity::SameAddress(first, second) => {
            let (first_name, second_name) = (first.name.as_str(), second.name.as_str());
            lines.part(format_args!("device '{second_name}' has the address of '{first_name}'"));
            if let Some(place) = words.at(first.spot) {
                lines.part(", which stands at ");
                lines.word(place.spelled(alloc)?.as_str());
            }
            lines.end();
        }
        Oddity::ReservedAddress(device) => {
            let name = device.name.as_str();
            lines.say(format_args!("the address of device '{name}' is reserved (UM10204, 3.1.12)"));
        }
        Oddity::UnusedDevice(device) => {
            let name = device.name.as_str();
            lines.say(format_args!("no message and no interrupt names device '{name}'"));
        }
        Oddity::UnusedGroup { name, .. } => {
            lines.say(format_args!("no message names group '{name}'"));
        }
        Oddity::UnusedByte(byte) => {
            let name = byte.name.as_str();
            lines.say(format_args!("no message names byte '{name}'"));
        }
        Oddity::Unsent { first, count, .. } => push_unsent(lines, words.plan(), first, count),
        Oddity::Idle { controller, .. } => {
            let name = words.side(alloc, controller)?;
            lines.say(format_args!("controller '{name}' lists no message"));
        }
        Oddity::AddressByte {
            device,
            is_read,
            ..
        } => push_address_byte(lines, device, is_read),
        Oddity::BareHeader { message, .. } => push_bare_header(lines, words.plan(), message),
        Oddity::IdleNever { sends, .. } => push_idle_never(lines, sends),
    }
    Ok(())
}

/// How a `brief 2` writes the byte with which a transaction with this device begins. Nothing where the name of the device is a word
/// there.
///
/// # Errors
///
/// Where an allocation fails.
pub fn made_byte(
    alloc: Global,
    device: &Device,
    is_read: bool,
) -> Result<Option<String>, AllocError> {
    let name = device.name.as_str();
    if is_board_word(name) {
        return Ok(None);
    }
    let made = made_by(is_read);
    Ok(Some(format!(in alloc; "{made}({name})")?))
}

fn made_by(is_read: bool) -> &'static str {
    if is_read { "rd" } else { "wr" }
}

fn push_address_byte(lines: &mut Lines, device: &Device, is_read: bool) {
    let name = device.name.as_str();
    let made = made_by(is_read);
    let what = if is_read { "read of" } else { "write to" };
    lines.say(format_args!(
        "this byte is the header of a {what} device '{name}': is {made}({name}) meant?"
    ));
}

fn push_bare_header(lines: &mut Lines, plan: &Plan, message: u32) {
    let name = name_of(plan, message);
    lines.say(format_args!(
        "message '{name}' is a header alone, and another controller goes on after that header: no bit parts the two; where the device can be read, a read of one byte asks the same, and its R/W bit parts it from writes"
    ));
}

fn push_idle_never(lines: &mut Lines, sends: bool) {
    lines.say(if sends {
        "this 'never' mends nothing: each two messages that it keeps apart part in their first byte, and their pairs are not checked"
    } else {
        "this 'never' keeps nothing apart: one of its sides sends no message"
    });
}

fn push_unsent(lines: &mut Lines, plan: &Plan, first: u32, count: u32) {
    let name = name_of(plan, first);
    let last = name_of(plan, first.saturating_add(count.saturating_sub(1)));
    if count == 1 {
        lines.say(format_args!("no controller lists message '{name}', which was not looked at"));
    } else {
        lines.say(format_args!(
            "no controller lists messages '{name}' to '{last}', which were not looked at"
        ));
    }
}

fn name_of(plan: &Plan, message: u32) -> &str {
    if message < plan.messages() {
        plan.message_name(message).as_str()
    } else {
        ""
    }
}
