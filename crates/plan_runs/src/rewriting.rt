// Runs that write a text in another form. What is written of a plan is that of `given_runs`, by its calls.

ghost use Rattle.std.specs.Prelude.{IfOk};
ghost use Rattle.given_plans.specs.Sources.{DueFor, DueForBriefs, ReadsTexts};
ghost use Rattle.given_runs.specs.Due.{CertifiedPlan, PrintedPlan};
ghost use Rattle.run_parts.specs.Devices.{by_parts};
ghost use Rattle.run_parts.specs.Runs.{Reports};

use command_words::{Layout, Rewriting};
use given_plans::{Halted, RefusedText};
use given_runs::{
    Formatted, Unabbreviated, brief_given, certify_given, expand_given, find_formatted, print_given,
};
use growing_text::{Text, push_shown};
use plan_text::NoBrief;
use run_parts::{Input, Output, RunError, Status, write_lines};
use run_values::{Ended, Findings, Halt, Sources, Takes};
use std::alloc::Global;

/// Writes a text in another form: what gives a plan to certify and to print, and else briefs to expand, a plan text, or a text of
/// either language to lay out.
///
/// # Errors
///
/// Those of the runs of `given_runs`, with the text that is refused, and with what makes a plan have no brief.
pub fn rewrite<I: Input, O: Output>(
    alloc: Global,
    sources: &mut Sources<'_, I>,
    out: &mut O,
    rewriting: Rewriting,
) -> Result<Ended, Halt> {
    match rewriting {
        Rewriting::Certify => certify(alloc, sources, out),
        Rewriting::Print => print(alloc, sources, out),
        Rewriting::Expand => expand(alloc, sources, out),
        Rewriting::Brief => brief(alloc, sources, out),
        Rewriting::Format(layout) => format(alloc, sources, out, layout),
    }
}

fn certify<I: Input, O: Output>(
    alloc: Global,
    sources: &mut Sources<'_, I>,
    out: &mut O,
) -> Result<Ended, Halt>
    ensures { IfOk result (λ it. Reports (ReadsTexts I.reader) (DueFor CertifiedPlan) (by_parts O.writer)
        sources.old.readers.items out.old it.status sources.new.readers.items out.new) }
{
    match certify_given(alloc, sources.readers.as_mut_slice(), out) {
        Ok(status) => Ok(Ended {
            status,
            findings: findings_in(status),
            wave: None,
            mended: None,
        }),
        Err(halted) => Err(sources.halt(halted)),
    }
}

// That what was written is the certificate of a fault.
fn findings_in(status: Status) -> Findings {
    match status {
        Status::Bad => Findings::Fault,
        _ => Findings::Nothing,
    }
}

fn print<I: Input, O: Output>(
    alloc: Global,
    sources: &mut Sources<'_, I>,
    out: &mut O,
) -> Result<Ended, Halt>
    ensures { IfOk result (λ it. Reports (ReadsTexts I.reader) (DueFor PrintedPlan) O.writer
        sources.old.readers.items out.old it.status sources.new.readers.items out.new) }
{
    match print_given(alloc, sources.readers.as_mut_slice(), out) {
        Ok(status) => Ok(Ended {
            status,
            findings: Findings::Nothing,
            wave: None,
            mended: None,
        }),
        Err(halted) => Err(sources.halt(halted)),
    }
}

fn expand<I: Input, O: Output>(
    alloc: Global,
    sources: &mut Sources<'_, I>,
    out: &mut O,
) -> Result<Ended, Halt>
    ensures { IfOk result (λ it. Reports (ReadsTexts I.reader) (DueForBriefs PrintedPlan) O.writer
        sources.old.readers.items out.old it.status sources.new.readers.items out.new) }
{
    match expand_given(alloc, sources.readers.as_mut_slice(), out) {
        Ok(status) => Ok(Ended {
            status,
            findings: Findings::Nothing,
            wave: None,
            mended: None,
        }),
        Err(halted) => Err(Halt::of(halted, Takes::One)),
    }
}

// Writes a brief of the plan text that the first reader gives.
fn brief<I: Input, O: Output>(
    alloc: Global,
    sources: &mut Sources<'_, I>,
    out: &mut O,
) -> Result<Ended, Halt> {
    match brief_given(alloc, sources.first()?, out) {
        Ok(status) => Ok(Ended::quietly(status)),
        Err(Unabbreviated { halted, plan }) => match (halted.error, plan) {
            (RunError::Brief(NoBrief::Name), Some(plan)) => Err(Halt::NoBrief(plan)),
            _ => Err(Halt::of(halted, Takes::One)),
        },
    }
}

// Lays out the text that the first reader gives, or says of all texts where they would change.
fn format<I: Input, O: Output>(
    alloc: Global,
    sources: &mut Sources<'_, I>,
    out: &mut O,
    layout: Layout,
) -> Result<Ended, Halt> {
    if let Layout::Compared = layout {
        return compare(alloc, sources, out);
    }
    match find_formatted(alloc, sources.first()?) {
        Ok(Formatted { text, laid_out }) => match layout {
            Layout::InPlace if text.as_slice() == laid_out.as_slice() => {
                Ok(Ended::quietly(Status::Good))
            }
            _ => Ok(Ended::quietly(write_lines(out, laid_out.as_slice(), Status::Good)?)),
        },
        Err(halted) => Err(Halt::of(halted, Takes::Either)),
    }
}

// Says of each text from which line on it would change.
fn compare<I: Input, O: Output>(
    alloc: Global,
    sources: &mut Sources<'_, I>,
    out: &mut O,
) -> Result<Ended, Halt> {
    let mut report = Text::new(alloc);
    let mut before = Vec::new(alloc);
    let files = sources.files;
    for (number, reader) in sources.readers.iter_mut().enumerate() {
        match find_formatted(alloc, reader) {
            Ok(formatted) => {
                let file = files.of(u32::try_from(number).unwrap_or(0)).unwrap_or("");
                push_change(&mut report, file, &formatted);
                if before.push(formatted.text).is_err() {
                    return Err(Halt::Run(RunError::NoMemory));
                }
            }
            Err(halted) => return Err(Halt::of(after(halted, before), Takes::Either)),
        }
    }
    let report = report.finish()?;
    if report.is_empty() {
        return Ok(Ended::quietly(Status::Good));
    }
    Ok(Ended::quietly(write_lines(out, report.as_bytes(), Status::Bad)?))
}

// The refusal of a text after these.
fn after(halted: Halted, before: Vec<Vec<u8>>) -> Halted {
    let Halted { error, text } = halted;
    Halted {
        error,
        text: match text {
            Some(refused) => Some(RefusedText { before, ..refused }),
            None => None,
        },
    }
}

// What is said of a file that would change.
fn push_change(report: &mut Text, file: &str, formatted: &Formatted) {
    let (text, laid_out) = (formatted.text.as_slice(), formatted.laid_out.as_slice());
    if text == laid_out {
        return;
    }
    push_shown(report, file);
    report.push(":");
    report.push_number(first_other_line(text, laid_out));
    report.push(": 'twire format --in-place' would change it from here on\n");
}

// The first line at which the two differ, from 1 on.
fn first_other_line(text: &[u8], other: &[u8]) -> u64 {
    let mut line = 1u64;
    for (one, other) in text.iter().zip(other.iter()) {
        if *one != *other {
            break;
        }
        if *one == b'\n' {
            line = line.saturating_add(1);
        }
    }
    line
}
