// Calls on whole lists that no command makes: of samples, events and transactions, and of the messages of a plan.

use crate::scarcity::be_there_again;
use crate::tasks::Task;
use capture_check::{Transaction, events, explain, transactions};
use growing_text::Text;
use plan_core::Plan;
use run_parts::{RunError, Status};
use std::alloc::{AllocError, Global};
use vcd_read::{Reader, Sample, VcdError};

/// Writes how long the copies of the plan's messages are, and how many participants explain the transactions of the capture.
pub fn tell_lists(task: &Task<'_>, plan: &Plan, page: &mut Text) -> Result<Status, RunError> {
    let copied = copied(task.alloc, plan)?;
    let explainers = explained(task, plan)?;
    page.push_number(copied);
    page.push(" ");
    page.push_number(explainers);
    page.push("\n");
    Ok(Status::Good)
}

fn copied(alloc: Global, plan: &Plan) -> Result<u64, AllocError> {
    let mut slots = 0u64;
    for k in 0..plan.messages() {
        let copy = plan.message(k).copy(alloc)?;
        slots = slots.saturating_add(u64::from(copy.slots()));
    }
    Ok(slots)
}

fn explained(task: &Task<'_>, plan: &Plan) -> Result<u64, RunError> {
    match samples(task) {
        Ok(samples) => explained_of(task.alloc, plan, samples.as_slice()),
        Err(refusal) => Err(RunError::from(refusal)),
    }
}

fn explained_of(alloc: Global, plan: &Plan, samples: &[Sample]) -> Result<u64, RunError> {
    match events(alloc, samples) {
        Ok(events) => explainers(alloc, plan, transactions(alloc, events.as_slice())),
        Err(AllocError) => Err(RunError::NoMemory),
    }
}

fn samples(task: &Task<'_>) -> Result<Vec<Sample>, VcdError> {
    let mut reader = Reader::new(task.alloc, task.one, task.other)?;
    let fed = feed(task.alloc, &mut reader, task.second);
    fed?;
    reader.end()
}

// Feeds a piece, and once more where an allocation failed, when there is memory: the reader is then as it was.
fn feed(alloc: Global, reader: &mut Reader, piece: &[u8]) -> Result<(), VcdError> {
    match reader.feed(piece) {
        Err(VcdError::NoMemory) => {
            be_there_again(alloc);
            reader.feed(piece)
        }
        answer => answer,
    }
}

fn explainers(
    alloc: Global,
    plan: &Plan,
    heard: Result<Vec<Transaction>, AllocError>,
) -> Result<u64, RunError> {
    let mut count = 0u64;
    for transaction in &heard? {
        let explainers = explain(alloc, plan, transaction)?;
        count = count.saturating_add(explainers.len() as u64);
    }
    Ok(count)
}
