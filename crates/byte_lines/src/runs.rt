// The report of a dump, as it is written.

ghost use Rattle.std.specs.Prelude.{IfOk, IfErr};
ghost use Rattle.byte_lines.specs.DecodedRuns.{HaltsDecoded, TellsDecoded};
ghost use Rattle.vcd_read.specs.Views.{asked};

use crate::telling::ByteTelling;
use crate::writing::{ByteCounts, ByteWriting, write_last};
use capture_check::Beside;
use decoding::decode_beside;
use run_parts::{Input, Output, RunError};
use std::alloc::Global;
use vcd_read::{Nobody, Probe, Wrong};

/// Writes the transactions of the dump that the reader gives, in bytes, without the levels that a line has for less than `least`,
/// in the unit of the dump. It writes while it reads, in blocks, or live: then the lines of what has ended in a block of the dump
/// are written before the next block is read. Of a block in which the dump is refused these are the lines of all that ended
/// before, and `wrong` then has what is wrong there, as far as there was memory for it.
///
/// # Errors
///
/// `Read` where the reader failed or gave no end, `Vcd` with the first refusal of the dump, `Write` where the writer failed
/// or took no bytes, and `NoMemory` where an allocation fails. Where a refused dump meets a writer that fails, it is `Vcd`.
/// What was written by then stays. In blocks, the lines that are kept are lost where it stops.
pub fn write_decoded<J: Input, O: Output>(
    alloc: Global,
    vcd: &mut J,
    out: &mut O,
    scl: Probe<'_>,
    sda: Probe<'_>,
    least: u64,
    live: bool,
    wrong: &mut Option<Wrong>,
) -> Result<ByteCounts, RunError>
    ensures report { IfOk result (λ it.
        TellsDecoded least (asked scl.entry) (asked sda.entry) J.reader O.writer vcd.old out.old it vcd.new out.new) }
    ensures stops { IfErr result (λ error.
        HaltsDecoded least (asked scl.entry) (asked sda.entry) J.reader O.writer vcd.old out.old live error vcd.new out.new) }
{
    write_decoded_beside(alloc, vcd, out, scl, sda, least, live, &mut Nobody, wrong)
}

/// The same, beside another who is told of what is read.
///
/// # Errors
///
/// Those of `write_decoded`, and `NoMemory` where the other one answers that.
pub fn write_decoded_beside<J: Input, O: Output, B: Beside>(
    alloc: Global,
    vcd: &mut J,
    out: &mut O,
    scl: Probe<'_>,
    sda: Probe<'_>,
    least: u64,
    live: bool,
    beside: &mut B,
    wrong: &mut Option<Wrong>,
) -> Result<ByteCounts, RunError>
    ensures report { IfOk result (λ it.
        TellsDecoded least (asked scl.entry) (asked sda.entry) J.reader O.writer vcd.old out.old it vcd.new out.new) }
    ensures stops { IfErr result (λ error.
        HaltsDecoded least (asked scl.entry) (asked sda.entry) J.reader O.writer vcd.old out.old live error vcd.new out.new) }
{
    let mut lines = ByteWriting {
        out,
        telling: ByteTelling::new(alloc),
        live,
    };
    let ended = decode_beside(alloc, vcd, scl, sda, &[], least, &mut lines, beside, wrong);
    let ByteWriting {
        out,
        telling,
        live: _,
    } = lines;
    match ended {
        Ok(ending) => write_last(out, telling, ending.signs),
        Err(error) => Err(error),
    }
}
