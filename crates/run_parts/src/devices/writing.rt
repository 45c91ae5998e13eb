// The loop over a writer.

ghost use Rattle.std.specs.Prelude.{OnOk, IfErr};
ghost use Rattle.run_parts.specs.Writing.{WritesAll, WritingStops};

use super::traits::Output;
use crate::errors::RunError;

/// Writes the whole report, all that is left of it in each call.
///
/// # Errors
///
/// `Write` where the writer failed or took no bytes, and it has then taken the first bytes of the report.
pub fn write_report<O: Output>(writer: &mut O, report: &[u8]) -> Result<(), RunError>
    ensures all { OnOk result (WritesAll O.writer writer.old report.now writer.new) }
    ensures stops { IfErr result (λ error. WritingStops O.writer writer.old report.now error writer.new) }
{
    let mut rest = report;
    while !rest.is_empty() {
        match writer.write(rest) {
            Ok(0) => return Err(RunError::Write),
            Ok(count) => rest = &rest[count..],
            Err(_) => return Err(RunError::Write),
        }
    }
    Ok(())
}
