// The run that tells of a capture while it reads it.

ghost use Rattle.std.specs.Prelude.{IfOk, IfErr};
ghost use Rattle.plan_core.specs.PlanContents.{plan_contents};
ghost use Rattle.report.specs.LiveCaptures.{TellsLive, HaltsLive, WroteFront};
ghost use Rattle.report.specs.LiveViews.{HasTold};
ghost use Rattle.vcd_read.specs.Views.{asked};

use crate::telling::{CaptureCounts, Telling, more};
use capture_check::Transaction;
use decoding::{ExplainedSink, Explaining, decode};
use plan_core::Plan;
use run_parts::{Input, Output, RunError, write_report};
use std::alloc::Global;
use std::thread::Threads;
use vcd_read::{Probe, Wrong};

/// Writes the lines of transactions as they come, and counts them.
#[derive(Drop)]
pub(crate) struct Live<'a, O> {
    pub(crate) out: &'a mut O,
    pub(crate) transactions: u64,
    pub(crate) stopped: u64,
    pub(crate) unexplained: u64,
}

impl<O: Output> ExplainedSink for Live<'_, O> {
    ghost use Rattle.report.specs.LiveViews.{live_sink};

    ghost sink = { live_sink O.writer };

    fn take(
        &mut self,
        alloc: Global,
        plan: &Plan,
        transactions: &[Transaction],
        explainers: &[Vec<u32>],
    ) -> Result<(), RunError> {
        let mut block = Telling::new(alloc);
        block.take(alloc, plan, transactions, explainers)?;
        let told = more(self.transactions, transactions.len() as u64)?;
        let stopped = more(self.stopped, block.stopped)?;
        let unexplained = more(self.unexplained, block.unexplained)?;
        write_report(&mut *self.out, block.lines.as_bytes())?;
        self.transactions = told;
        self.stopped = stopped;
        self.unexplained = unexplained;
        Ok(())
    }
}

/// Explains the capture that the reader gives, a value change dump, by a plan. The lines are those of `run_capture_of`, and
/// they are written as they come: those of what has ended in a block of the dump before the next block is read, and the one
/// that counts them at the end. A block in which the dump is refused is told up to the refusal, and `wrong` then has what is
/// wrong there, as far as there was memory for it.
///
/// # Errors
///
/// `Read` where the reader failed or gave no end, `Vcd` with the first refusal of the dump, `Write` where the writer failed
/// or took no bytes, and `NoMemory` where an allocation fails. Where a refused dump meets a writer that fails, it is `Vcd`.
/// What was written by then stays.
pub fn live_capture<J: Input, O: Output>(
    rt: &(impl Threads + Sync),
    alloc: Global,
    plan: &Plan,
    vcd: &mut J,
    out: &mut O,
    scl: Probe<'_>,
    sda: Probe<'_>,
    least: u64,
    wrong: &mut Option<Wrong>,
) -> Result<CaptureCounts, RunError>
    ensures report { IfOk result (λ it.
        TellsLive least (asked scl.entry) (asked sda.entry) (plan_contents plan.now) J.reader O.writer
        vcd.old out.old it vcd.new out.new) }
    ensures stops { IfErr result (λ error.
        HaltsLive least (asked scl.entry) (asked sda.entry) (plan_contents plan.now) J.reader O.writer
        vcd.old out.old error vcd.new out.new) }
    ensures front { IfErr result (λ error.
        WroteFront least (asked scl.entry) (asked sda.entry) (plan_contents plan.now) J.reader O.writer
        vcd.old out.old vcd.new out.new) }
{
    let told = tell(rt, alloc, plan, vcd, &mut *out, scl, sda, least, wrong)?;
    let last = told.finish()?;
    write_report(out, last.report.as_bytes())?;
    Ok(CaptureCounts {
        status: last.status,
        transactions: last.transactions,
        stopped: last.stopped,
        unexplained: last.unexplained,
        signs: last.signs,
    })
}

// The same without the last line: the counts for it.
fn tell<J: Input, O: Output>(
    rt: &(impl Threads + Sync),
    alloc: Global,
    plan: &Plan,
    vcd: &mut J,
    out: &mut O,
    scl: Probe<'_>,
    sda: Probe<'_>,
    least: u64,
    wrong: &mut Option<Wrong>,
) -> Result<Telling, RunError>
    ensures all { IfOk result (λ it.
        HasTold least (asked scl.entry) (asked sda.entry) (plan_contents plan.now) J.reader O.writer
        vcd.old out.old it vcd.new out.new) }
    ensures stops { IfErr result (λ error.
        HaltsLive least (asked scl.entry) (asked sda.entry) (plan_contents plan.now) J.reader O.writer
        vcd.old out.old error vcd.new out.new) }
{
    let mut explaining = Explaining {
        rt,
        alloc,
        plan,
        sink: Live {
            out,
            transactions: 0,
            stopped: 0,
            unexplained: 0,
        },
    };
    let ending = decode(alloc, vcd, scl, sda, least, &mut explaining, wrong)?;
    Ok(Telling {
        lines: String::new(alloc),
        transactions: explaining.sink.transactions,
        stopped: explaining.sink.stopped,
        unexplained: explaining.sink.unexplained,
        signs: ending.signs,
    })
}
