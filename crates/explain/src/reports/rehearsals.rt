// The report of a rehearsal, explained.

ghost use Rattle.plan_core.specs.PlanContents.{plan_contents};
ghost use Rattle.cert_check.specs.Holds.{accepted_plan};
ghost use Rattle.bench_run.specs.Outcomes.{AreParticipants};

use crate::benches::below_wire;
use crate::reports::write_block;
use bench_run::{Rehearsal, push_wire_line, push_won_line};
use bus_rows::called_by;
use growing_text::Text;
use plan_findings::tracks_of;
use plan_words::PlanWords;
use run_parts::{Output, RunError};
use std::alloc::{AllocError, Global};

/// Writes the report of a rehearsal, and below the wire what each of the starters put in each slot. The words are those of its
/// plan.
///
/// # Errors
///
/// `Write` where the writer failed or took no bytes, and `NoMemory`, after which nothing was written.
pub fn explain_rehearsal<O: Output>(
    alloc: Global,
    rehearsal: &Rehearsal,
    words: PlanWords<'_>,
    out: &mut O,
) -> Result<(), RunError>
    requires { AreParticipants (plan_contents (accepted_plan rehearsal.now.accepted)) rehearsal.now.played.won.items }
{
    let mut text = Text::new(alloc);
    text.push_made(wire_line(alloc, rehearsal));
    text.push_made(below(alloc, rehearsal, words));
    text.push_made(won_line(alloc, rehearsal));
    write_block(text, out)
}

fn wire_line(alloc: Global, rehearsal: &Rehearsal) -> Result<String, AllocError> {
    let mut line = String::new(alloc);
    push_wire_line(&mut line, &rehearsal.played)?;
    Ok(line)
}

fn won_line(alloc: Global, rehearsal: &Rehearsal) -> Result<String, AllocError>
    requires { AreParticipants (plan_contents (accepted_plan rehearsal.now.accepted)) rehearsal.now.played.won.items }
{
    let mut line = String::new(alloc);
    push_won_line(
        alloc,
        &mut line,
        rehearsal.accepted.plan(),
        &rehearsal.played,
    )?;
    Ok(line)
}

fn below(alloc: Global, rehearsal: &Rehearsal, words: PlanWords<'_>) -> Result<String, AllocError> {
    let labels = called_by(alloc, words)?;
    let along = tracks_of(alloc, rehearsal)?;
    below_wire(
        alloc,
        &labels,
        rehearsal.played.wire.as_slice(),
        along.tracks.as_slice(),
    )
}
