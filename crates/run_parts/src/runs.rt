// What all runs have: a status, and the writing of their lines.

ghost use Rattle.std.specs.Prelude.{◌≡◌, IfOk, IfErr, OnOk};
ghost use Rattle.run_parts.specs.Statuses.{status_code, exit_code};
ghost use Rattle.run_parts.specs.Writing.{WritesAll, WritingStops};

use crate::devices::traits::Output;
use crate::devices::writing::write_report;
use crate::errors::RunError;

/// How a run ended that wrote its whole report.
#[derive(Clone, Copy, PartialEq, Eq)]
pub enum Status {
    /// Nothing was found: the plan is safe, each stopped transaction is explained, or the bench was played.
    Good,
    /// The plan is not safe, or a stopped transaction is not explained.
    Bad,
    /// The certificate is wrong.
    Refused,
}

impl Status {
    ghost use Rattle.std.specs.Prelude.{◌≡◌};
    ghost use Rattle.run_parts.specs.Statuses.{status_code};

    /// The exit status of a program whose run ended so: 0, 1, 2.
    pub fn code(self) -> u8
        ensures { result ≡ status_code self }
    {
        match self {
            Status::Good => 0,
            Status::Bad => 1,
            Status::Refused => 2,
        }
    }
}

/// The exit status of a program by how its run ended: 2 where it has no whole report.
pub fn exit_code(ended: Result<Status, RunError>) -> u8
    ensures { result ≡ exit_code ended }
{
    match ended {
        Ok(status) => status.code(),
        Err(_) => 2,
    }
}

/// Writes the whole report of a run that ends with this status.
///
/// # Errors
///
/// `Write` where the writer failed or took no bytes, and it has then taken the first bytes of the report.
pub fn write_lines<O: Output>(
    out: &mut O,
    report: &[u8],
    status: Status,
) -> Result<Status, RunError>
    ensures status { IfOk result (λ it. it ≡ status) }
    ensures all { OnOk result (WritesAll O.writer out.old report.now out.new) }
    ensures stops { IfErr result (λ error. WritingStops O.writer out.old report.now error out.new) }
{
    write_report(out, report)?;
    Ok(status)
}
