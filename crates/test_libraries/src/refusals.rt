// Where certificates are refused, and what could stand there: the same however they are cut. And the end without a place.

use cert_check::{Answer, Checker, FeedError, Judged};
use certificate::{CertFault, Expected, Last, Next, Place, Refusal};
use plan_core::Plan;
use plan_text::read_plan;
use std::alloc::Global;
use std::test::Fail;

// Three writers, of which the last two may send the same byte.
const SAFE: &str =
    "plan 1\nmessage m write 1001000 11110000 stop else stop else stop ;\nmessage n write 1001000 11001111 stop else stop else stop ;\nmessage o write 1001000 1100xxxx stop else stop else stop ;\ncontroller a m ;\ncontroller b n ;\ncontroller c o ;\n";

// A text, the line that is refused, how many of its bytes stand before the place, what stands there, and what could.
type Case = (&'static str, u64, usize, &'static str, Expected);

static REFUSED: [Case; 12] = [
    ("cert 1", 1, 6, "", Expected::LineFeed(Last::Version)),
    ("cert 1\n", 2, 0, "", Expected::Form),
    ("cert 1\npairs\n", 2, 5, "", Expected::Space(Next::Number)),
    (
        "cert 1\npairs 1 2\n",
        2,
        7,
        " ",
        Expected::LineFeed(Last::Pairs),
    ),
    ("cert 1\nfault 0\n", 2, 7, "", Expected::Space(Next::Wire)),
    (
        "cert 1\nfault 0 1é0 stop data\n",
        2,
        9,
        "é",
        Expected::Symbol,
    ),
    (
        "cert 1\nfault 0 10\n",
        2,
        10,
        "",
        Expected::Space(Next::Kind),
    ),
    ("cert 1\nfault 0 10 stop da", 2, 16, "da", Expected::Kind),
    (
        "cert 1\nfault 0 10 stop data \n",
        2,
        20,
        " ",
        Expected::LineFeed(Last::Fault),
    ),
    ("cert 1\npairs 1\nP\n", 3, 1, "", Expected::Bit),
    (
        "cert 1\npairs 1\nSx\n",
        3,
        1,
        "x",
        Expected::Space(Next::Proof),
    ),
    (
        "cert 1\npairs 3\nB P2 .\nB P2 .\nB B . . ",
        5,
        8,
        "",
        Expected::Node,
    ),
];

// The answer for a certificate that comes in pieces of so many bytes.
fn in_pieces(alloc: Global, plan: &Plan, cert: &[u8], bytes: usize) -> Result<Judged, FeedError> {
    let mut checker = Checker::new(alloc, plan)?;
    for piece in cert.chunks(bytes.max(1)) {
        checker = checker.feed(alloc, plan, piece)?;
    }
    checker.end_at(alloc, plan)
}

// Whether what is refused is this place of its line, where this stands.
fn is_at(refusal: &Refusal, place: Place, marked: &[u8]) -> bool {
    refusal.place == place
        && refusal.is_whole
        && refusal.line.as_slice().get(place.start..place.end) == Some(marked)
}

// Whether the certificate is refused there, in pieces of so many bytes.
fn is_refused(alloc: Global, plan: &Plan, case: &Case, bytes: usize) -> bool {
    let (text, line, start, marked, expected) = *case;
    let place = Place {
        line,
        column: start.saturating_add(1),
        start,
        end: start.saturating_add(marked.len()),
        expected: Some(expected),
    };
    match in_pieces(alloc, plan, text.as_bytes(), bytes) {
        Ok(
            Judged {
                answer,
                refusal: Some(refusal),
            },
        ) => {
            answer == Answer::Wrong(CertFault::Format(line))
                && is_at(&refusal, place, marked.as_bytes())
        }
        _ => false,
    }
}

#[test]
fn certificates_are_refused_at_a_place(rt: HostRuntime) -> Result<(), Fail> {
    let plan = read_plan(rt.alloc(), SAFE.as_bytes())?;
    for case in &REFUSED {
        for bytes in &[1, 7, 4096] {
            assert!(rt; is_refused(rt.alloc(), &plan, case, *bytes));
        }
    }
    Ok(())
}

// The answer for a certificate that comes at once.
fn ended(alloc: Global, plan: &Plan, cert: &[u8]) -> Result<Answer, FeedError> {
    let checker = Checker::new(alloc, plan)?.feed(alloc, plan, cert)?;
    checker.end(alloc, plan)
}

#[test]
fn a_certificate_is_answered_without_a_place(rt: HostRuntime) -> Result<(), Fail> {
    let plan = read_plan(rt.alloc(), SAFE.as_bytes())?;
    let cert = b"cert 1\npairs 3\nB P2 .\nB P2 .\nB B . . .\n";
    assert!(rt; ended(rt.alloc(), &plan, cert) == Ok(Answer::Safe));
    Ok(())
}
