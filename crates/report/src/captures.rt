// The run that explains a capture.

ghost use Rattle.std.specs.Prelude.{◌≡◌, ℕ, List, string_bytes, IfOk, IfErr, OnOk};
ghost use Rattle.plan_core.specs.PlanContents.{plan_contents};
ghost use Rattle.decoding.specs.Dumps.{HaltsAtDump};
ghost use Rattle.report.specs.Captures.{CaptureOf, Captured, HaltsAtCapture};
ghost use Rattle.vcd_read.specs.Probes.{by_name};
ghost use Rattle.vcd_read.specs.Views.{asked};
ghost use Rattle.run_parts.specs.Runs.{ReadsText, ReadsBoth, Reports, Stops};
ghost use Rattle.run_parts.specs.Writing.{WritesAll, WritingStops};

use crate::telling::{CaptureReport, Telling};
use decoding::{Explaining, decode};
use plan_core::Plan;
use plan_text::read_plan;
use run_parts::devices::reading::READS;
use run_parts::{Input, Output, RunError, Status, read_within, write_lines};
use std::alloc::Global;
use std::thread::Threads;
use vcd_read::{Probe, Wrong};

/// Explains the capture that the second reader gives, a value change dump, by the plan that the first reader gives: a
/// line for each transaction, and one that counts those that a STOP ended and those of them that nobody explains. `scl`
/// and `sda` are the names of the two lines in the dump. The dump is read block by block, and no more of it is kept
/// than what is open; after a block in which it is refused nothing is read. The status is `Good` where all is
/// explained, and else `Bad`.
///
/// # Errors
///
/// `Read` where a reader failed or gave no end, `Plan` with the first refusal of the plan text, before the second
/// reader is called, `Vcd` with the first refusal of the dump, and `Write` where the writer failed or took no bytes.
/// `NoMemory` where an allocation fails. Only after `Write` has a part of the report been written: its first bytes.
/// After every other error the writer was not called.
pub fn run_capture<I: Input, J: Input, O: Output>(
    rt: &(impl Threads + Sync),
    alloc: Global,
    plan: &mut I,
    vcd: &mut J,
    out: &mut O,
    scl: &str,
    sda: &str,
) -> Result<Status, RunError>
    ensures report { IfOk result (λ status.
        Reports (ReadsBoth I.reader J.reader) (Captured 0 (by_name scl.now) (by_name sda.now)) O.writer
        (plan.old, vcd.old) out.old status (plan.new, vcd.new) out.new) }
    ensures stops { IfErr result (λ error.
        Stops (ReadsBoth I.reader J.reader) (Captured 0 (by_name scl.now) (by_name sda.now)) O.writer
        (HaltsAtCapture I.reader J.reader (by_name scl.now) (by_name sda.now))
        (plan.old, vcd.old) out.old error (plan.new, vcd.new) out.new) }
{
    run_capture_of(
        rt,
        alloc,
        plan,
        vcd,
        out,
        Probe::Named(scl),
        Probe::Named(sda),
        0,
    )
}

/// The same, where each of the two lines is found in the definitions of the dump by its name or by its code, and where
/// a level that a line has for less than `least`, in the unit of the dump, is ignored. No level lasts less than 0.
///
/// # Errors
///
/// Those of `run_capture`, in the same order.
pub fn run_capture_of<I: Input, J: Input, O: Output>(
    rt: &(impl Threads + Sync),
    alloc: Global,
    plan: &mut I,
    vcd: &mut J,
    out: &mut O,
    scl: Probe<'_>,
    sda: Probe<'_>,
    least: u64,
) -> Result<Status, RunError>
    ensures report { IfOk result (λ status.
        Reports (ReadsBoth I.reader J.reader) (Captured least (asked scl.entry) (asked sda.entry)) O.writer
        (plan.old, vcd.old) out.old status (plan.new, vcd.new) out.new) }
    ensures stops { IfErr result (λ error.
        Stops (ReadsBoth I.reader J.reader) (Captured least (asked scl.entry) (asked sda.entry)) O.writer
        (HaltsAtCapture I.reader J.reader (asked scl.entry) (asked sda.entry))
        (plan.old, vcd.old) out.old error (plan.new, vcd.new) out.new) }
{
    let text = read_within(alloc, plan, READS)?;
    let plan = read_plan(alloc, text.as_slice())?;
    let captured = read_capture(rt, alloc, &plan, vcd, scl, sda, least, &mut None)?;
    write_lines(out, captured.report.as_bytes(), captured.status)
}

/// The same of a plan that was read: what the run says. Where the dump is refused, `wrong` then has what is wrong, as far as there
/// was memory for it.
///
/// # Errors
///
/// Those of `run_capture` at the dump and the report, in the same order.
pub fn write_capture<J: Input, O: Output>(
    rt: &(impl Threads + Sync),
    alloc: Global,
    plan: &Plan,
    vcd: &mut J,
    out: &mut O,
    scl: Probe<'_>,
    sda: Probe<'_>,
    least: u64,
    wrong: &mut Option<Wrong>,
) -> Result<CaptureReport, RunError>
    ensures report { IfOk result (λ it.
        Reports (ReadsText J.reader) (CaptureOf least (asked scl.entry) (asked sda.entry) (plan_contents plan.now)) O.writer
        vcd.old out.old it.status vcd.new out.new) }
    ensures stops { IfErr result (λ error.
        Stops (ReadsText J.reader) (CaptureOf least (asked scl.entry) (asked sda.entry) (plan_contents plan.now)) O.writer
        (HaltsAtDump J.reader (asked scl.entry) (asked sda.entry)) vcd.old out.old error vcd.new out.new) }
{
    match read_capture(rt, alloc, plan, vcd, scl, sda, least, wrong) {
        Ok(captured) => write_read(captured, out),
        Err(error) => Err(error),
    }
}

// Writes this report.
fn write_read<O: Output>(captured: CaptureReport, out: &mut O) -> Result<CaptureReport, RunError>
    ensures status { IfOk result (λ it. it.status ≡ captured.status) }
    ensures written { OnOk result (WritesAll O.writer out.old (string_bytes captured.report) out.new) }
    ensures stops { IfErr result (λ error. WritingStops O.writer out.old (string_bytes captured.report) error out.new) }
{
    match write_lines(out, captured.report.as_bytes(), captured.status) {
        Ok(_) => Ok(captured),
        Err(error) => Err(error),
    }
}

// The report of the dump that a reader gives, and the status of a run with that report.
fn read_capture<J: Input>(
    rt: &(impl Threads + Sync),
    alloc: Global,
    plan: &Plan,
    vcd: &mut J,
    scl: Probe<'_>,
    sda: Probe<'_>,
    least: u64,
    wrong: &mut Option<Wrong>,
) -> Result<CaptureReport, RunError>
    ensures all { IfOk result (λ it. (dump : List ℕ) × ReadsText J.reader vcd.old dump vcd.new
        × CaptureOf least (asked scl.entry) (asked sda.entry) (plan_contents plan.now) dump (string_bytes it.report) it.status) }
    ensures stops { IfErr result (λ error. HaltsAtDump J.reader (asked scl.entry) (asked sda.entry) vcd.old error vcd.new) }
{
    let mut explaining = Explaining {
        rt,
        alloc,
        plan,
        sink: Telling::new(alloc),
    };
    let ending = decode(alloc, vcd, scl, sda, least, &mut explaining, wrong)?;
    let mut telling = explaining.sink;
    telling.signs = ending.signs;
    let captured = telling.finish()?;
    Ok(captured)
}
