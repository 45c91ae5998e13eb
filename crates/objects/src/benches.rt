// Objects of a rehearsal.

use crate::fields::add_one_at;
use bench_run::Rehearsal;
use bus_rows::{Labels, labels_of};
use object_lines::ObjectLines;
use plan_findings::{Track, WireTracks, tracks_of};
use plan_words::PlanWords;
use run_parts::{Output, RunError};
use std::alloc::Global;

/// Writes the objects of a rehearsal of the plan of these words, explained where that is wanted.
///
/// # Errors
///
/// `Write` where the writer failed or took no bytes, and `NoMemory`, after which nothing was written.
pub fn write_rehearsal<O: Output>(
    alloc: Global,
    rehearsal: &Rehearsal,
    words: PlanWords<'_>,
    is_explained: bool,
    out: &mut O,
) -> Result<(), RunError> {
    let labels = labels_of(alloc, words.plan())?;
    let mut lines = ObjectLines::new(alloc);
    lines.begin("wire");
    add_wire(&mut lines, rehearsal);
    if is_explained {
        add_explained(&mut lines, rehearsal, words, &labels);
    }
    lines.end();
    add_won(&mut lines, rehearsal, &labels);
    lines.write_rest(out)
}

// The wire of a run, behind the kind.
fn add_wire(lines: &mut ObjectLines, rehearsal: &Rehearsal) {
    lines.text.push(",\"wire\":\"");
    for item in &rehearsal.played.wire {
        lines.text.push_char(item.symbol());
    }
    lines.text.push("\"");
}

fn add_explained(
    lines: &mut ObjectLines,
    rehearsal: &Rehearsal,
    words: PlanWords<'_>,
    labels: &Labels,
) {
    match tracks_of(lines.alloc, rehearsal) {
        Ok(along) => add_along(lines, &along, words, labels),
        Err(_) => lines.cut(),
    }
}

// The bytes of the wire, and what the starters put.
fn add_along(lines: &mut ObjectLines, along: &WireTracks, words: PlanWords<'_>, labels: &Labels) {
    lines.open("explain");
    lines.word("bytes", along.bytes.as_str());
    lines.open_list("starters");
    for track in &along.tracks {
        add_starter(lines, track, words, labels);
    }
    lines.close_list();
    lines.close();
}

fn add_starter(lines: &mut ObjectLines, track: &Track, words: PlanWords<'_>, labels: &Labels) {
    lines.open_element();
    lines.word("participant", labels.of(track.participant));
    add_one_at(lines, words, track.participant);
    lines.word("puts", track.puts.as_str());
    if let Some(slot) = track.lost {
        lines.number("lost", slot as u64);
    }
    lines.close();
}

// Those who were live at the end of a run.
fn add_won(lines: &mut ObjectLines, rehearsal: &Rehearsal, labels: &Labels) {
    lines.begin("won");
    lines.open_list("participants");
    for p in &rehearsal.played.won {
        lines.word_element(labels.of(*p));
    }
    lines.close_list();
    lines.end();
}
