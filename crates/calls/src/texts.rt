// Calls that take whole texts.

use crate::building::spell_again;
use crate::lists::tell_lists;
use crate::making::{accepted, answered, certify, table_by, tell};
use crate::quiet::{
    are_others_quiet, is_cert_quiet, is_plan_quiet, is_reader_quiet, is_table_quiet,
};
use crate::scarcity::is_there;
use crate::seats::run_seats;
use crate::tasks::Task;
use crate::words::Call;
use growing_text::Text;
use plan_core::Plan;
use plan_text::{PlanError, read_plan};
use run_parts::{RunError, Status};
use std::thread::Threads;

/// Makes a call on texts, and writes what it says.
pub fn run_on_texts<R: Threads + Sync>(
    rt: &R,
    task: &Task<'_>,
    page: &mut Text,
) -> Result<Status, RunError> {
    if is_quiet(task.call) && !is_there(task.alloc) {
        page.push("memory is not refused here\n");
        return Ok(Status::Refused);
    }
    match task.call {
        Call::Accept => tell(task, accepted(task.alloc, task.first, task.second), page),
        Call::QuietCertificate => Ok(tell_quiet(is_cert_quiet(task), page)),
        Call::QuietDump => match is_reader_quiet(task) {
            Ok(is_quiet) => Ok(tell_quiet(Some(is_quiet), page)),
            Err(refusal) => Err(RunError::from(refusal)),
        },
        _ => read_and_run(rt, task, page),
    }
}

fn is_quiet(call: Call) -> bool {
    matches!(
        call,
        Call::QuietPlan
            | Call::QuietTable
            | Call::QuietCertificate
            | Call::QuietDump
            | Call::QuietSeats
    )
}

fn read_and_run<R: Threads + Sync>(
    rt: &R,
    task: &Task<'_>,
    page: &mut Text,
) -> Result<Status, RunError> {
    match read_plan(task.alloc, task.first) {
        Ok(plan) => run_on_plan(rt, task, &plan, page),
        Err(refusal) => refused(task, refusal, page),
    }
}

// Calls without memory are made on a plan, or not made.
fn refused(task: &Task<'_>, refusal: PlanError, page: &mut Text) -> Result<Status, RunError> {
    if is_quiet(task.call) {
        Ok(tell_quiet(None, page))
    } else {
        Err(RunError::from(refusal))
    }
}

fn run_on_plan<R: Threads + Sync>(
    rt: &R,
    task: &Task<'_>,
    plan: &Plan,
    page: &mut Text,
) -> Result<Status, RunError> {
    match task.call {
        Call::Table | Call::TableBy(_) => certify(task, table_by(rt, task, plan), page),
        Call::Rebuild => spell_again(task, plan, page),
        Call::Lists => tell_lists(task, plan, page),
        Call::Seats | Call::QuietSeats => run_seats(task, plan, page),
        Call::Quiet | Call::QuietPlan | Call::QuietTable => run_quietly(task, plan, page),
        _ => tell(task, answered(task), page),
    }
}

fn run_quietly(task: &Task<'_>, plan: &Plan, page: &mut Text) -> Result<Status, RunError> {
    let is_quiet = match task.call {
        Call::Quiet => return tell_others(are_others_quiet(task.alloc, plan), page),
        Call::QuietTable => is_table_quiet(task.alloc, plan)?,
        _ => is_plan_quiet(task.alloc, plan),
    };
    Ok(tell_quiet(Some(is_quiet), page))
}

fn tell_others(are_quiet: Result<bool, RunError>, page: &mut Text) -> Result<Status, RunError> {
    page.push(if are_quiet? { "quiet\n" } else { "not quiet\n" });
    Ok(Status::Good)
}

/// Writes whether the calls without memory took none, where they could be made.
pub fn tell_quiet(is_quiet: Option<bool>, page: &mut Text) -> Status {
    page.push(match is_quiet {
        Some(true) => "quiet\n",
        Some(false) => "takes memory\n",
        None => "not made\n",
    });
    Status::Good
}
