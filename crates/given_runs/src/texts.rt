// The runs over one text: a brief of a plan text, and a text that is laid out.

ghost use Rattle.std.specs.Prelude.{◌≡◌, IfOk, IfErr};
ghost use Rattle.plan_core.specs.PlanContents.{plan_contents};
ghost use Rattle.given_runs.specs.Due.{AbbreviatedPlan};
ghost use Rattle.given_runs.specs.Written.{LacksOrStops, Wrote};
ghost use Rattle.layout.specs.SameWords.{SameBytes, SameWords};
ghost use Rattle.run_parts.specs.RunErrors.{run_error};
ghost use Rattle.run_parts.specs.Runs.{HaltsAtText, ReadsText, Reports, Stops};
ghost use Rattle.spellings.specs.Spellings.{Abbreviated, GivesNoBrief};

use given_plans::{Halted, Refusal};
use layout::{Unread, formatted};
use origins::Spans;
use plan_core::Plan;
use plan_text::{Language, Refused, read_plan_at};
use run_parts::devices::reading::READS;
use run_parts::{Input, Output, RunError, Status, read_within, write_lines};
use spellings::brief_of;
use std::alloc::Global;

/// Why no brief was written of a plan text.
#[derive(Drop)]
pub struct Unabbreviated {
    pub halted: Halted,
    /// The plan, where it has no brief.
    pub plan: Option<Plan>,
}

impl From<RunError> for Unabbreviated {
    ghost from_gives = { λ error e. e.halted.error ≡ error };

    fn from(error: RunError) -> Unabbreviated {
        Unabbreviated {
            halted: Halted::from(error),
            plan: None,
        }
    }
}

/// Writes a brief of the plan that the reader gives. Expanded, it means the same plan. The status is `Good`.
///
/// # Errors
///
/// `Read` where the reader failed or gave no end, `Plan` with the first refusal of the plan text, `Brief` where the plan has no
/// brief, and `Write` where the writer failed or took no bytes. `NoMemory` where an allocation fails. Only after `Write` has a
/// part of the brief been written: its first bytes. After every other error the writer was not called.
pub fn brief_given<I: Input, O: Output>(
    alloc: Global,
    text: &mut I,
    out: &mut O,
) -> Result<Status, Unabbreviated>
    ensures report { IfOk result (λ status.
        Reports (ReadsText I.reader) Abbreviated O.writer text.old out.old status text.new out.new) }
    ensures stops { IfErr result (λ e.
        Stops (ReadsText I.reader) Abbreviated O.writer (HaltsAtText I.reader GivesNoBrief)
        text.old out.old e.halted.error text.new out.new) }
{
    let text = read_within(alloc, text, READS)?;
    let mut spans = Spans::new(alloc);
    match read_plan_at(alloc, text.as_slice(), &mut spans) {
        Ok(plan) => write_brief(alloc, plan, out),
        Err(refused) => Err(unread(alloc, text, refused, spans)),
    }
}

fn unread(alloc: Global, text: Vec<u8>, refused: Refused, spans: Spans) -> Unabbreviated
    ensures { result.halted.error ≡ run_error refused.error }
{
    let refusal = Refusal {
        language: Language::Plan,
        refused,
    };
    Unabbreviated {
        halted: Halted::refused(text, Vec::new(alloc), refusal, spans),
        plan: None,
    }
}

fn write_brief<O: Output>(alloc: Global, plan: Plan, out: &mut O) -> Result<Status, Unabbreviated>
    ensures wrote { IfOk result (λ status.
        Wrote (AbbreviatedPlan (plan_contents plan)) O.writer out.old status out.new) }
    ensures stops { IfErr result (λ e.
        LacksOrStops (plan_contents plan) O.writer out.old e.halted.error out.new) }
{
    match brief_of(alloc, &plan) {
        Ok(brief) => {
            let status = write_lines(out, brief.as_slice(), Status::Good)?;
            Ok(status)
        }
        Err(error) => Err(Unabbreviated {
            halted: Halted::from(RunError::from(error)),
            plan: Some(plan),
        }),
    }
}

/// A text, and the same as it is laid out.
#[derive(Drop)]
pub struct Formatted {
    pub text: Vec<u8>,
    pub laid_out: Vec<u8>,
}

/// The text that the reader gives, and the same laid out: with the same words, so that it means the same, and the same bytes but
/// for white space.
///
/// # Errors
///
/// `Read` where the reader failed or gave no end, `Plan` with P2 where the text begins as no plan and as no brief, and with P1 or
/// P3 at the first byte that belongs to no token. `NoMemory` where an allocation fails.
pub fn find_formatted<I: Input>(alloc: Global, text: &mut I) -> Result<Formatted, Halted>
    ensures read { IfOk result (λ it. ReadsText I.reader text.old it.text.items text.new) }
    ensures words { IfOk result (λ it. SameWords it.text.items it.laid_out.items) }
    ensures bytes { IfOk result (λ it. SameBytes it.text.items it.laid_out.items) }
{
    let text = read_within(alloc, text, READS)?;
    match formatted(alloc, text.as_slice()) {
        Ok(laid_out) => Ok(Formatted { text, laid_out }),
        Err(Unread { language, refused }) => {
            let refusal = Refusal { language, refused };
            let spans = Spans::unasked(alloc);
            Err(Halted::refused(text, Vec::new(alloc), refusal, spans))
        }
    }
}
