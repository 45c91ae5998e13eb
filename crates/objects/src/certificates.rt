// Objects of the answer to a certificate.

use crate::fields::add_both_at;
use bus_rows::label_of;
use cert_check::Answer;
use certificate::{CertFault, Expected, Refusal};
use object_lines::ObjectLines;
use plan_core::Plan;
use plan_findings::{Break, Mistake, Reason};
use plan_words::PlanWords;
use run_parts::{Output, RunError};
use std::alloc::Global;

/// Writes the object of the answer to a certificate of the plan of these words, which may be refused there, and what is
/// wrong with it, where that was found.
///
/// # Errors
///
/// `Write` where the writer failed or took no bytes, and `NoMemory`, after which nothing was written.
pub fn write_answer<O: Output>(
    alloc: Global,
    words: PlanWords<'_>,
    answer: Answer,
    refusal: Option<&Refusal>,
    mistake: Option<Mistake>,
    out: &mut O,
) -> Result<(), RunError> {
    let mut lines = ObjectLines::new(alloc);
    lines.begin("certificate");
    add_answer(&mut lines, answer);
    if let Some(refusal) = refusal {
        add_refusal(&mut lines, refusal);
    }
    if let Answer::Wrong(CertFault::Pair(pair)) = answer {
        lines.number("pair", pair as u64);
    }
    if let Some(mistake) = &mistake {
        add_mistake(&mut lines, words, mistake);
    }
    lines.end();
    lines.write_rest(out)
}

fn add_answer(lines: &mut ObjectLines, answer: Answer) {
    match answer {
        Answer::Safe => add_accepted(lines, true),
        Answer::Unsafe => add_accepted(lines, false),
        Answer::Wrong(fault) => add_fault(lines, fault),
    }
}

fn add_accepted(lines: &mut ObjectLines, is_safe: bool) {
    lines.flag("accepted", true);
    lines.flag("safe", is_safe);
}

// What is wrong, and in which line.
fn add_fault(lines: &mut ObjectLines, fault: CertFault) {
    lines.flag("accepted", false);
    lines.word("code", code_of(fault));
    if let CertFault::Format(line) | CertFault::TooDeep(line) = fault {
        lines.number("line", line);
    }
}

fn code_of(fault: CertFault) -> &'static str {
    match fault {
        CertFault::Format(_) => "C1",
        CertFault::Count => "C2",
        CertFault::TooDeep(_) => "C3",
        CertFault::Pair(_) => "C5",
    }
}

// Of what is refused in a line: how many bytes of it stand before, and one, and what could stand there.
fn add_refusal(lines: &mut ObjectLines, refusal: &Refusal) {
    lines.number("column", refusal.place.column as u64);
    if let Some(expected) = refusal.place.expected {
        lines.word("expected", expected_word(expected));
    }
}

fn expected_word(expected: Expected) -> &'static str {
    match expected {
        Expected::Version => "version",
        Expected::Form => "form",
        Expected::Number => "number",
        Expected::Symbol => "symbol",
        Expected::Kind => "kind",
        Expected::Node => "node",
        Expected::Bit => "bit",
        Expected::Space(_) => "space",
        Expected::LineFeed(_) => "line feed",
        Expected::End => "end",
    }
}

fn add_mistake(lines: &mut ObjectLines, words: PlanWords<'_>, mistake: &Mistake) {
    match mistake {
        Mistake::Pair {
            participants,
            found,
            ..
        } => add_misproved(lines, words, *participants, *found),
        Mistake::Count {
            pairs,
            says,
            proofs,
        } => add_count(lines, *pairs, *proofs, *says),
        Mistake::Text | Mistake::Unsafe { .. } => {}
    }
}

// A pair of which what the certificate says is not so.
fn add_misproved(
    lines: &mut ObjectLines,
    words: PlanWords<'_>,
    participants: (u32, u32),
    found: Option<Break>,
) {
    lines.open("explain");
    lines.open_list("participants");
    add_label(lines, words.plan(), participants.0);
    add_label(lines, words.plan(), participants.1);
    lines.close_list();
    add_both_at(lines, words, participants);
    if let Some(found) = found {
        add_break(lines, found);
    }
    lines.close();
}

fn add_label(lines: &mut ObjectLines, plan: &Plan, p: u32) {
    match label_of(lines.alloc, plan, p) {
        Ok(label) => lines.word_element(label.as_str()),
        Err(_) => lines.cut(),
    }
}

fn add_break(lines: &mut ObjectLines, found: Break) {
    lines.number("word", found.word as u64);
    lines.number("slot", found.slot as u64);
    lines.word("why", word_of(found.reason));
}

fn word_of(reason: Reason) -> &'static str {
    match reason {
        Reason::NoSplit => "no_split",
        Reason::NotBothWrite => "not_both_write",
        Reason::NotBothRead => "not_both_read",
        Reason::NotBothRestart => "not_both_restart",
        Reason::NotBothStop => "not_both_stop",
        Reason::ReadsMayMeet => "reads_may_meet",
        Reason::ReadsNeverMeet => "reads_never_meet",
        Reason::UnknownWord => "unknown_word",
    }
}

// How many pairs the plan has, and how many proofs the certificate.
fn add_count(lines: &mut ObjectLines, pairs: u32, proofs: u64, says: Option<u32>) {
    lines.open("explain");
    lines.number("pairs", pairs as u64);
    lines.number("proofs", proofs);
    if let Some(says) = says {
        lines.number("says", says as u64);
    }
    lines.close();
}
