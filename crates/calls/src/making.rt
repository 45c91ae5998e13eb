// Calls of the libraries that no command makes, and that say what a command says.

use crate::scarcity::be_there_again;
use crate::tasks::Task;
use crate::words::Call;
use cert_check::{Answer, accept_plan};
use certificate::{Cert, CertError, CertText, print_cert, read_cert};
use growing_text::Text;
use plan_core::Plan;
use plan_text::{PlanError, read_plan};
use run_parts::{RunError, Status};
use std::alloc::{AllocError, Global};
use std::str;
use std::thread::Threads;
use verdicts::{NoGate, Table, TableError, table, table_with};
use verifying::{AcceptError, accept, answer_line, status_of_answer};

// ---- in place of `verify`

/// Writes what `verify` would write where this is answered.
pub fn tell(
    task: &Task<'_>,
    answer: Result<Answer, RunError>,
    page: &mut Text,
) -> Result<Status, RunError> {
    let answer = answer?;
    page.push_made(answer_line(task.alloc, answer));
    Ok(status_of_answer(answer))
}

/// The answer to the bytes of both texts.
pub fn accepted(alloc: Global, plan: &[u8], cert: &[u8]) -> Result<Answer, RunError> {
    match accept(alloc, plan, cert) {
        Ok(answer) => Ok(answer),
        Err(AcceptError::Plan(refusal)) => Err(RunError::from(refusal)),
        Err(AcceptError::NoMemory) => Err(RunError::NoMemory),
    }
}

/// The answer to the certificate as it is printed again, or to its proofs, or to what is wrong with its text.
pub fn answered(task: &Task<'_>) -> Result<Answer, RunError> {
    match read_cert(task.alloc, task.second) {
        Ok(read) => answered_by(task, &read),
        Err(CertError::Wrong(fault)) => Ok(Answer::Wrong(fault)),
        Err(CertError::NoMemory) => Err(RunError::NoMemory),
    }
}

// Where the certificate has no proofs, the answer to both texts.
fn answered_by(task: &Task<'_>, read: &CertText) -> Result<Answer, RunError> {
    match (task.call, read) {
        (Call::Reprint, _) => accepted_again(task, print_cert(task.alloc, read)),
        (_, CertText::Proofs(proofs)) => {
            accepted_whole(read_plan(task.alloc, task.first), proofs)
        }
        (_, CertText::Flaw(..)) => accepted(task.alloc, task.first, task.second),
    }
}

fn accepted_again(
    task: &Task<'_>,
    printed: Result<Vec<u8>, AllocError>,
) -> Result<Answer, RunError> {
    match printed {
        Ok(printed) => accepted(task.alloc, task.first, printed.as_slice()),
        Err(AllocError) => Err(RunError::NoMemory),
    }
}

fn accepted_whole(plan: Result<Plan, PlanError>, proofs: &[Cert]) -> Result<Answer, RunError> {
    match plan {
        Ok(plan) => Ok(answer_to(plan, proofs)),
        Err(refusal) => Err(RunError::from(refusal)),
    }
}

fn answer_to(plan: Plan, proofs: &[Cert]) -> Answer {
    match accept_plan(plan, proofs) {
        Ok(_) => Answer::Safe,
        Err((_, fault)) => Answer::Wrong(fault),
    }
}

// ---- in place of `certify`

/// The table of all pairs, by so many workers where the call names them.
pub fn table_by<R: Threads + Sync>(
    rt: &R,
    task: &Task<'_>,
    plan: &Plan,
) -> Result<Table, TableError> {
    match task.call {
        Call::TableBy(workers) => table_with(rt, task.alloc, plan, workers, &NoGate),
        _ => match table(task.alloc, plan) {
            Ok(table) => Ok(table),
            Err(AllocError) => Err(TableError::NoMemory),
        },
    }
}

/// Writes the certificate of a table.
pub fn certify(
    task: &Task<'_>,
    table: Result<Table, TableError>,
    page: &mut Text,
) -> Result<Status, RunError> {
    match table {
        Ok(table) => {
            let is_safe = table.is_safe();
            push_certificate(task, certified(task.alloc, table), page);
            Ok(if is_safe { Status::Good } else { Status::Bad })
        }
        Err(TableError::Workers) => Err(RunError::Workers),
        Err(TableError::NoMemory) => Err(RunError::NoMemory),
    }
}

// The table is handed back where an allocation fails, and asked once more when there is memory.
fn certified(alloc: Global, table: Table) -> Option<CertText> {
    match table.certify(alloc) {
        Ok(cert) => Some(cert),
        Err(table) => {
            be_there_again(alloc);
            table.certify(alloc).ok()
        }
    }
}

fn push_certificate(task: &Task<'_>, cert: Option<CertText>, page: &mut Text) {
    match cert {
        Some(cert) => push_bytes(print_cert(task.alloc, &cert), page),
        None => page.cut(),
    }
}

/// Writes a text that was made, where there was memory for it.
pub fn push_bytes(text: Result<Vec<u8>, AllocError>, page: &mut Text) {
    match text {
        Ok(text) => page.push(str::from_utf8(text.as_slice()).unwrap_or("no text")),
        Err(AllocError) => page.cut(),
    }
}
