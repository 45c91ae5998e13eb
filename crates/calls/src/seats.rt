// The seats of a bench of a plan, which is certified first.

use crate::making::tell;
use crate::scarcity::{be_there_again, refuse_all};
use crate::scripts::{play_script, put_all, see_all};
use crate::sittings::Sitting;
use crate::tasks::Task;
use crate::texts::tell_quiet;
use crate::words::Call;
use bus_bench::{MOST_SLOTS, OpenError};
use cert_check::{Accepted, Answer, Answered, accept_certificate};
use growing_text::Text;
use plan_core::Plan;
use plan_text::read_plan;
use run_parts::{RunError, Status};
use std::alloc::{AllocError, Global};
use verdicts::{certificate_text, faults};

/// Opens a bench of the plan, and runs a script on its seats, with each line of which its answer is written; or has its seats
/// play while every allocation is refused. Where the plan is not safe, of a script the line of `verify` is written, with its
/// status.
///
/// # Errors
///
/// As those of `twire bench`, with the script in place of the certificate.
pub fn run_seats(task: &Task<'_>, plan: &Plan, page: &mut Text) -> Result<Status, RunError> {
    match certificate_of(task.alloc, plan) {
        Ok(cert) => run_certified(task, cert.as_slice(), page),
        Err(AllocError) => Err(RunError::NoMemory),
    }
}

fn certificate_of(alloc: Global, plan: &Plan) -> Result<Vec<u8>, AllocError> {
    let faults = faults(alloc, plan)?;
    certificate_text(alloc, plan, &faults)
}

// The plan is read once more, since what is accepted owns it.
fn run_certified(task: &Task<'_>, cert: &[u8], page: &mut Text) -> Result<Status, RunError> {
    match read_plan(task.alloc, task.first) {
        Ok(plan) => run_answered(task, accept_certificate(task.alloc, plan, cert), page),
        Err(refusal) => Err(RunError::from(refusal)),
    }
}

fn run_answered(
    task: &Task<'_>,
    answer: Result<Result<Accepted, Answered>, AllocError>,
    page: &mut Text,
) -> Result<Status, RunError> {
    match answer {
        Ok(Ok(accepted)) => run_accepted(task, &accepted, page),
        Ok(Err(answered)) => run_unsafe(task, answered.answer, page),
        Err(AllocError) => Err(RunError::NoMemory),
    }
}

fn run_unsafe(task: &Task<'_>, answer: Answer, page: &mut Text) -> Result<Status, RunError> {
    match task.call {
        Call::QuietSeats => Ok(tell_quiet(None, page)),
        _ => tell(task, Ok(answer), page),
    }
}

fn run_accepted(task: &Task<'_>, accepted: &Accepted, page: &mut Text) -> Result<Status, RunError> {
    match opened(task, accepted) {
        Ok(sitting) => Ok(play(task, accepted.plan(), sitting, page)),
        Err(refusal) => run_refused(task, refusal, page),
    }
}

fn run_refused(task: &Task<'_>, refusal: OpenError, page: &mut Text) -> Result<Status, RunError> {
    match task.call {
        Call::QuietSeats => Ok(tell_quiet(None, page)),
        _ => Err(RunError::from(refusal)),
    }
}

fn opened<'a>(task: &Task<'_>, accepted: &'a Accepted) -> Result<Sitting<'a>, OpenError> {
    match numbers_of(task.alloc, accepted.plan(), task.one) {
        Ok(numbers) => opened_for(task, accepted, numbers.as_slice()),
        Err(AllocError) => Err(OpenError::NoMemory),
    }
}

fn opened_for<'a>(
    task: &Task<'_>,
    accepted: &'a Accepted,
    numbers: &[u32],
) -> Result<Sitting<'a>, OpenError> {
    match bits_of(task.alloc, task.other) {
        Ok(bits) => Sitting::open(task.alloc, accepted, numbers, bits.as_slice()),
        Err(AllocError) => Err(OpenError::NoMemory),
    }
}

// The starters with these labels. In place of a label that the plan does not have stands the greatest number.
fn numbers_of(alloc: Global, plan: &Plan, starters: &str) -> Result<Vec<u32>, AllocError> {
    let mut numbers = Vec::new(alloc);
    if starters.is_empty() {
        return Ok(numbers);
    }
    for label in starters.split(',') {
        numbers.push(plan.find(label).unwrap_or(u32::MAX))?;
    }
    Ok(numbers)
}

fn bits_of(alloc: Global, answers: &str) -> Result<Vec<bool>, AllocError> {
    let mut bits = Vec::new(alloc);
    for byte in answers.as_bytes() {
        bits.push(*byte == b'1')?;
    }
    Ok(bits)
}

fn play(task: &Task<'_>, plan: &Plan, mut sitting: Sitting<'_>, page: &mut Text) -> Status {
    if let Call::QuietSeats = task.call {
        let are_quiet = are_seats_quiet(task.alloc, &mut sitting);
        return tell_quiet(Some(are_quiet), page);
    }
    play_script(task, plan, sitting, page);
    Status::Good
}

// Whether the calls of seats, which play by turns to the end, take no memory.
fn are_seats_quiet(alloc: Global, sitting: &mut Sitting<'_>) -> bool {
    refuse_all(alloc);
    for _ in 0..MOST_SLOTS {
        put_all(sitting, "01");
        if see_all(sitting).is_none() {
            break;
        }
    }
    !be_there_again(alloc)
}
