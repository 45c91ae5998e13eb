// The first bytes of messages, and messages that are a header alone.

use crate::Oddity;
use message_tree::{Address, Frame, Payload, Tail};
use origins::{Origins, Spot};
use plan_core::{Participant, Plan};
use std::alloc::AllocError;

/// Whether these two messages of a plan may both go on after their first bytes: no bit of these is known in both and different
/// (UM10204, 3.1.8).
pub(crate) fn can_meet(plan: &Plan, one: u32, other: u32) -> bool {
    if plan.messages() <= one || plan.messages() <= other {
        return false;
    }
    let (first, first_reads) = header_of(plan.message(one));
    let (second, second_reads) = header_of(plan.message(other));
    first_reads == second_reads && first.first_split(&second).is_none()
}

// The address of the first header, and whether it reads.
fn header_of(frame: &Frame) -> (Address, bool) {
    match frame {
        Frame::Write { address, .. } => (*address, false),
        Frame::Read { address, .. } => (*address, true),
    }
}

/// Adds the messages that are a header alone, and meet there what another controller writes.
pub(crate) fn push_headers(
    found: &mut Vec<Oddity<'_>>,
    plan: &Plan,
    origins: &Origins,
) -> Result<(), AllocError> {
    let mut message = 0u32;
    for spot in origins.messages.as_slice() {
        push_header(found, plan, origins, message, *spot)?;
        message = message.saturating_add(1);
    }
    Ok(())
}

fn push_header(
    found: &mut Vec<Oddity<'_>>,
    plan: &Plan,
    origins: &Origins,
    message: u32,
    spot: Spot,
) -> Result<(), AllocError> {
    if is_bare(plan, message) && meets_other(plan, message) {
        found.push(Oddity::BareHeader { message, spot })?;
    }
    Ok(())
}

// Whether a message writes a header, and stops where that is acknowledged.
fn is_bare(plan: &Plan, message: u32) -> bool {
    if plan.messages() <= message {
        return false;
    }
    match plan.message(message) {
        Frame::Write { acked, .. } => is_stop(acked),
        Frame::Read { .. } => false,
    }
}

fn is_stop(payload: &Payload) -> bool {
    matches!(payload, Payload::Last(Tail::Stop))
}

// Whether one who sends it may start together with another controller that writes to its address and goes on.
fn meets_other(plan: &Plan, message: u32) -> bool {
    for x in 0..plan.participants() {
        if sent_by(plan, x) == Some(message) && meets_sender(plan, x, message) {
            return true;
        }
    }
    false
}

fn meets_sender(plan: &Plan, x: u32, message: u32) -> bool {
    for y in 0..plan.participants() {
        let goes_on = match sent_by(plan, y) {
            Some(other) => can_meet(plan, message, other) && !is_bare(plan, other),
            None => false,
        };
        if goes_on && may_start_together(plan, x, y) {
            return true;
        }
    }
    false
}

// The message of a participant that is no interrupt.
fn sent_by(plan: &Plan, p: u32) -> Option<u32> {
    if plan.participants() <= p {
        return None;
    }
    match plan.participant(p) {
        Participant::Sending { message, .. } => Some(message),
        Participant::Interrupt(_) => None,
    }
}

fn may_start_together(plan: &Plan, x: u32, y: u32) -> bool {
    x < plan.participants()
        && y < plan.participants()
        && !plan.same_controller(x, y)
        && !plan.forbids(x, y)
}
