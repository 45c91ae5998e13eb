// From a dump to the brief.

ghost use Rattle.std.specs.Prelude.{◌≡◌, ℕ, List, IfOk, OnOk, string_bytes};
ghost use Rattle.lessons.specs.Seen.{Learns, TaughtBy};
ghost use Rattle.run_parts.specs.Runs.{ReadsText, Reports};
ghost use Rattle.run_parts.specs.Writing.{WritesAll};
ghost use Rattle.vcd_read.specs.Views.{asked};

use crate::checking::Learned;
use crate::runs::brief_of;
use crate::seen::Sights;
use crate::trees::Likeness;
use decoding::{Ending, decode};
use run_parts::{Input, Output, RunError, Status, write_lines};
use std::alloc::Global;
use vcd_read::{Probe, Wrong};

/// What the dump that the reader gives has shown, as a brief, and what is known at its end: its transactions as `decode` hands them
/// on. What differs in data bytes is put together as far as the likeness says. Where the status is `Good`, the plan that the
/// brief means explains each transaction of the dump that a STOP ended, if all are told and no brief is given before.
///
/// # Errors
///
/// `Read` where the reader failed or gave no end, `Vcd` with the first refusal of the dump, and those of `brief_of`. Where the
/// dump is refused, `wrong` then has what is wrong, as far as there was memory for it.
pub fn learn_dump<J: Input>(
    alloc: Global,
    vcd: &mut J,
    scl: Probe<'_>,
    sda: Probe<'_>,
    least: u64,
    seen: Sights<'_>,
    likeness: Likeness,
    wrong: &mut Option<Wrong>,
) -> Result<(Learned, Ending), RunError>
    ensures { IfOk result (λ it. (dump : List ℕ) × ReadsText J.reader vcd.old dump vcd.new
        × Learns least (asked scl.entry) (asked sda.entry) seen.entry dump it.0) }
{
    let mut seen = seen;
    match decode(alloc, vcd, scl, sda, least, &mut seen, wrong) {
        Ok(ending) => match brief_of(alloc, seen, likeness) {
            Ok(learned) => Ok((learned, ending)),
            Err(error) => Err(error),
        },
        Err(error) => Err(error),
    }
}

/// Learns of the dump that the reader gives, and writes the brief: the run of `learn`, its status and what is known at the end of
/// the dump.
///
/// # Errors
///
/// Those of `learn_dump`, and then `Write` where the writer failed or took no bytes. Only after `Write` has a part of the brief been
/// written: its first bytes. After every other error the writer was not called.
pub fn write_learned<J: Input, O: Output>(
    alloc: Global,
    vcd: &mut J,
    out: &mut O,
    scl: Probe<'_>,
    sda: Probe<'_>,
    least: u64,
    seen: Sights<'_>,
    likeness: Likeness,
    wrong: &mut Option<Wrong>,
) -> Result<(Status, Ending), RunError>
    ensures { IfOk result (λ it. Reports (ReadsText J.reader)
        (TaughtBy least (asked scl.entry) (asked sda.entry) seen.entry) O.writer vcd.old out.old it.0 vcd.new out.new) }
{
    match learn_dump(alloc, vcd, scl, sda, least, seen, likeness, wrong) {
        Ok((learned, ending)) => match write_brief(&learned, out) {
            Ok(status) => Ok((status, ending)),
            Err(error) => Err(error),
        },
        Err(error) => Err(error),
    }
}

/// Writes the brief that was learned, with its status.
///
/// # Errors
///
/// `Write` where the writer failed or took no bytes.
pub fn write_brief<O: Output>(learned: &Learned, out: &mut O) -> Result<Status, RunError>
    ensures status { IfOk result (λ it. it ≡ learned.now.status) }
    ensures written { OnOk result (WritesAll O.writer out.old (string_bytes learned.now.brief) out.new) }
{
    write_lines(out, learned.brief.as_bytes(), learned.status)
}
