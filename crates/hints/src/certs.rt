// After a certificate that is wrong.

use crate::kinds::{Kind, is_binary, kind_of, push_kind};
use crate::lines::Lines;
use crate::marking::push_marked;
use crate::values::Hints;
use certificate::CertFault;
use certificate::places::{Expected, Last, Next, Place, Refusal};
use std::alloc::{AllocError, Global};

/// What to say of a certificate that has this fault, and is refused there, where it has a place.
///
/// # Errors
///
/// Where an allocation fails.
pub fn on_certificate(
    alloc: Global,
    fault: CertFault,
    refusal: Option<&Refusal>,
) -> Result<Hints, AllocError> {
    let mut lines = Lines::new(alloc);
    match (fault, refusal) {
        (CertFault::Count | CertFault::Pair(_), _) => lines.say(
            "the certificate does not prove the pairs of this plan: where the plan was changed, have it written again by 'twire certify PLAN -o CERT'",
        ),
        (_, Some(refusal)) => push_refusal(&mut lines, fault, refusal),
        (_, None) => {}
    }
    lines.finish()
}

fn push_refusal(lines: &mut Lines, fault: CertFault, refusal: &Refusal) {
    let kind = kind_of(refusal.front.as_slice());
    if is_binary(kind) {
        push_kind(lines, kind, Kind::Certificate);
    } else if refusal.is_ended && refusal.line.as_slice().ends_with(b"\r") {
        push_carriage_returns(lines);
    } else if refusal.place.end > refusal.line.len() {
        push_words(lines, fault, refusal.place.line);
    } else {
        push_place(lines, refusal);
        push_kind(lines, kind, Kind::Certificate);
    }
}

fn push_carriage_returns(lines: &mut Lines) {
    lines.say("the lines of this certificate end in CR LF, and are to end in LF alone");
    lines.say(
        "have it written again by 'twire certify PLAN -o CERT'; git keeps its LF by this line in .gitattributes:",
    );
    lines.detail("*.cert text eol=lf");
}

// The line alone, which is too long to be kept.
fn push_words(lines: &mut Lines, fault: CertFault, line: u64) {
    let words = match fault {
        CertFault::TooDeep(_) => "has a proof that is more than 512 nodes deep",
        _ => "is no line of a certificate in this place",
    };
    lines.say(format_args!("line {line} of the certificate {words}"));
}

// The place, marked in its line, and what is wrong there.
fn push_place(lines: &mut Lines, refusal: &Refusal) {
    let Place {
        line,
        start,
        end,
        expected,
        ..
    } = refusal.place;
    let text = refusal.line.as_slice();
    lines.say(format_args!("line {line} of the certificate:"));
    push_marked(
        lines,
        text.get(..start).unwrap_or(&[]),
        text.get(start..end).unwrap_or(&[]),
        text.get(end..).unwrap_or(&[]),
    );
    lines.say(match expected {
        Some(expected) if start == text.len() => words_at_end(expected),
        Some(expected) => words_of(expected),
        None => "this is more than 512 nodes deep in its proof",
    });
}

// What the end of a line lacks.
fn words_at_end(expected: Expected) -> &'static str {
    match expected {
        Expected::Node | Expected::Space(Next::Proof) => "the line ends before its proof does",
        Expected::LineFeed(_) => "the last line ends with a line feed too",
        Expected::Number | Expected::Space(Next::Number) => "a number is missing here",
        _ => words_of(expected),
    }
}

fn words_of(expected: Expected) -> &'static str {
    match expected {
        Expected::Version => "a certificate begins with the line 'cert 1'",
        Expected::Form => "expected here: 'pairs' and their number, or 'fault'",
        Expected::Number => {
            "a number here has no sign and no leading zeros, and is at most 4294967295"
        }
        Expected::Symbol => "the wire of a fault has '0', '1', 'l', 'h' and 'r' alone",
        Expected::Kind => "a kind is 'data', 'answer', 'restart', 'stop' or 'claim'",
        Expected::Node => {
            "expected here: 'P0' to 'P7', 'B', 'D', 'R', 'S' or '.', with one space between two of them"
        }
        Expected::Bit => "after 'P' stands the number of a bit, '0' to '7'",
        Expected::Space(next) => words_of_next(next),
        Expected::LineFeed(last) => words_of_last(last),
        Expected::End => "the text goes on after the fault",
    }
}

fn words_of_next(next: Next) -> &'static str {
    match next {
        Next::Number => "expected here: one space and a number",
        Next::Wire | Next::Kind => {
            "a fault has the number of its pair, the wire, and two kinds: 'fault 0 10010000l stop data'"
        }
        Next::Proof => "expected here: one space and the rest of the proof",
    }
}

fn words_of_last(last: Last) -> &'static str {
    match last {
        Last::Version => "nothing follows 'cert 1' in its line",
        Last::Pairs => "nothing follows the number of pairs in its line",
        Last::Fault => "nothing follows the two kinds of a fault in its line",
        Last::Proof => "the proof of the pair has ended before this",
    }
}
