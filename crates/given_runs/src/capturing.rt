// The runs that explain a capture.

ghost use Rattle.std.specs.Prelude.{◌≡◌, IfOk, IfErr, IfSome};
ghost use Rattle.decoding.specs.Dumps.{HaltsAtDump};
ghost use Rattle.given_plans.specs.Sources.{GiveThePlan, HaltsAtTexts, ReadsTexts, ReadsUpTo, bytes_of};
ghost use Rattle.given_runs.specs.Due.{CapturedPlan};
ghost use Rattle.given_runs.specs.Inputs.{DueForBoth, HaltsAtEither, ReadsTextsAndOne};
ghost use Rattle.plan_core.specs.PlanContents.{plan_contents};
ghost use Rattle.report.specs.LiveCaptures.{TellsLive};
ghost use Rattle.run_parts.specs.Runs.{ReadsText, Reports, Stops};
ghost use Rattle.vcd_read.specs.Views.{asked};

use given_plans::{GivenPlan, Halted, find_among};
use report::{CaptureCounts, CaptureReport, live_capture, write_capture};
use run_parts::{Input, Output};
use std::alloc::Global;
use std::thread::Threads;
use vcd_read::{Probe, Wrong};

/// A plan that is given, and what a run says of a capture by it.
#[derive(Drop)]
pub struct GivenCapture {
    pub given: GivenPlan,
    pub captured: CaptureReport,
}

/// Explains the capture that the second reader gives, a value change dump, by the plan that the first ones give, and writes the
/// lines of that: the exact report of `capture`, as `report::run_capture_of` does for one plan text. Where the dump is refused,
/// `wrong` then has what is wrong, as far as there was memory for it.
///
/// # Errors
///
/// `Read` where a reader failed or gave no end, `Plan` with the first refusal of a text, before the second reader is called, `Vcd`
/// with the first refusal of the dump, and `Write` where the writer failed or took no bytes. `NoMemory` where an allocation fails.
/// Only after `Write` has a part of the report been written: its first bytes. After every other error the writer was not called.
pub fn capture_given<R: Threads + Sync, I: Input, J: Input, O: Output>(
    rt: &R,
    alloc: Global,
    readers: &mut [I],
    vcd: &mut J,
    out: &mut O,
    scl: Probe<'_>,
    sda: Probe<'_>,
    least: u64,
    wrong: &mut Option<Wrong>,
) -> Result<GivenCapture, Halted>
    ensures report { IfOk result (λ it.
        Reports (ReadsTextsAndOne I.reader J.reader) (DueForBoth (CapturedPlan least (asked scl.entry) (asked sda.entry))) O.writer
        (readers.old, vcd.old) out.old it.captured.status (readers.new, vcd.new) out.new) }
    ensures stops { IfErr result (λ e.
        Stops (ReadsTextsAndOne I.reader J.reader) (DueForBoth (CapturedPlan least (asked scl.entry) (asked sda.entry))) O.writer
        (HaltsAtEither I.reader J.reader (λ plan. HaltsAtDump J.reader (asked scl.entry) (asked sda.entry)))
        (readers.old, vcd.old) out.old e.error (readers.new, vcd.new) out.new) }
    ensures text { IfErr result (λ e. IfSome e.text (λ it.
        ReadsUpTo I.reader readers.old (bytes_of it.before.items) it.text.items readers.new)) }
{
    match find_among(alloc, readers) {
        Ok(given) => capture_plan(rt, alloc, given, vcd, out, scl, sda, least, wrong),
        Err(halted) => Err(halted),
    }
}

// The same of a plan that was found.
fn capture_plan<R: Threads + Sync, J: Input, O: Output>(
    rt: &R,
    alloc: Global,
    given: GivenPlan,
    vcd: &mut J,
    out: &mut O,
    scl: Probe<'_>,
    sda: Probe<'_>,
    least: u64,
    wrong: &mut Option<Wrong>,
) -> Result<GivenCapture, Halted>
    ensures report { IfOk result (λ it.
        Reports (ReadsText J.reader) (CapturedPlan least (asked scl.entry) (asked sda.entry) (plan_contents given.plan)) O.writer
        vcd.old out.old it.captured.status vcd.new out.new) }
    ensures stops { IfErr result (λ e.
        Stops (ReadsText J.reader) (CapturedPlan least (asked scl.entry) (asked sda.entry) (plan_contents given.plan)) O.writer
        (HaltsAtDump J.reader (asked scl.entry) (asked sda.entry)) vcd.old out.old e.error vcd.new out.new) }
    ensures no_text { IfErr result (λ e. IfSome e.text (λ it. ⊥)) }
{
    match write_capture(rt, alloc, &given.plan, vcd, out, scl, sda, least, wrong) {
        Ok(captured) => Ok(GivenCapture { given, captured }),
        Err(error) => Err(Halted::from(error)),
    }
}

/// A plan that is given, and what a run has told of a capture by it while it read that.
#[derive(Drop)]
pub struct GivenLive {
    pub given: GivenPlan,
    pub counts: CaptureCounts,
}

/// The same lines while the dump is read, as `report::live_capture` writes them.
///
/// # Errors
///
/// Those of `capture_given`. What was written by then stays.
pub fn live_given<R: Threads + Sync, I: Input, J: Input, O: Output>(
    rt: &R,
    alloc: Global,
    readers: &mut [I],
    vcd: &mut J,
    out: &mut O,
    scl: Probe<'_>,
    sda: Probe<'_>,
    least: u64,
    wrong: &mut Option<Wrong>,
) -> Result<GivenLive, Halted>
    ensures read { IfOk result (λ it.
        ReadsTexts I.reader readers.old (bytes_of it.given.provenance.texts.items) readers.new) }
    ensures given { IfOk result (λ it.
        GiveThePlan (bytes_of it.given.provenance.texts.items) (plan_contents it.given.plan)) }
    ensures report { IfOk result (λ it.
        TellsLive least (asked scl.entry) (asked sda.entry) (plan_contents it.given.plan) J.reader O.writer
        vcd.old out.old it.counts vcd.new out.new) }
    ensures text { IfErr result (λ e. IfSome e.text (λ it.
        ReadsUpTo I.reader readers.old (bytes_of it.before.items) it.text.items readers.new)) }
{
    match find_among(alloc, readers) {
        Ok(given) => tell_live(rt, alloc, given, vcd, out, scl, sda, least, wrong),
        Err(halted) => Err(halted),
    }
}

fn tell_live<R: Threads + Sync, J: Input, O: Output>(
    rt: &R,
    alloc: Global,
    given: GivenPlan,
    vcd: &mut J,
    out: &mut O,
    scl: Probe<'_>,
    sda: Probe<'_>,
    least: u64,
    wrong: &mut Option<Wrong>,
) -> Result<GivenLive, Halted>
    ensures given { IfOk result (λ it. it.given ≡ given) }
    ensures report { IfOk result (λ it.
        TellsLive least (asked scl.entry) (asked sda.entry) (plan_contents given.plan) J.reader O.writer
        vcd.old out.old it.counts vcd.new out.new) }
    ensures no_text { IfErr result (λ e. IfSome e.text (λ it. ⊥)) }
{
    match live_capture(rt, alloc, &given.plan, vcd, out, scl, sda, least, wrong) {
        Ok(counts) => Ok(GivenLive { given, counts }),
        Err(error) => Err(Halted::from(error)),
    }
}
