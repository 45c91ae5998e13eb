// The runs that no command makes, over streams that fail: a reader at each of its calls, and a writer after each number of
// bytes. Those that a command makes fail so in the trials.

use bench_run::{NoGate, run_bench};
use report::{FaultyReader, FaultyWriter, run_capture, run_certify, run_check};
use run_parts::{RunError, Status};
use spellings::{run_brief, run_expand, run_print};
use std::alloc::Global;
use std::sync::Wait;
use std::thread::Threads;
use std::time::Clock;
use verifying::run_verify;

#[derive(Clone, Copy)]
enum Run {
    Check,
    Certify,
    Verify,
    Print,
    Expand,
    Brief,
    Capture,
    Bench,
}

// A run, what it reads, and its report, with which it ends well. The second text is empty where it reads one alone.
struct Case {
    run: Run,
    first: &'static str,
    second: &'static str,
    report: &'static str,
}

const TWO_WRITERS: &str = "plan 1
message m write 1010000 xxxxxxxx stop else stop else stop ;
controller a m ;
controller b m ;
";

const TWO_PROVED: &str = "cert 1\npairs 1\nB B . . .\n";

const THREE_WRITERS: &str = "plan 1
message m write 1001000 11110000 stop else stop else stop ;
message n write 1001000 11001111 stop else stop else stop ;
message o write 1001000 1100xxxx stop else stop else stop ;
controller a m ;
controller b n ;
controller c o ;
";

const THREE_PROVED: &str = "cert 1\npairs 3\nB P2 .\nB P2 .\nB B . . .\n";

// A START and a STOP.
const DUMP: &str = "$var wire 1 ! scl $end $var wire 1 % sda $end $enddefinitions $end
#0 1! 1% #5 0% #7 x% #9 1%
";

static CASES: [Case; 8] = [
    Case {
        run: Run::Check,
        first: TWO_WRITERS,
        second: "",
        report: "safe: 1 pairs\n",
    },
    Case {
        run: Run::Certify,
        first: TWO_WRITERS,
        second: "",
        report: TWO_PROVED,
    },
    Case {
        run: Run::Verify,
        first: TWO_WRITERS,
        second: TWO_PROVED,
        report: "accepted safe\n",
    },
    Case {
        run: Run::Print,
        first: "plan 1 message m write 1001000 stop else stop ; controller a m ; # a comment",
        second: "",
        report: "plan 1\nmessage m write 1001000 stop else stop ;\ncontroller a m ;\n",
    },
    Case {
        run: Run::Expand,
        first: "brief 1 message m write 0x48 ; controller a m ;",
        second: "",
        report: "plan 1\nmessage m write 1001000 stop else stop ;\ncontroller a m ;\n",
    },
    Case {
        run: Run::Brief,
        first: "plan 1 message m write 1001000 stop else stop ; controller a m ;",
        second: "",
        report: "brief 1\nmessage m write 0x48 ;\ncontroller a m ;\n",
    },
    Case {
        run: Run::Capture,
        first: TWO_WRITERS,
        second: DUMP,
        report: "5-7 cut\n0 transactions, 0 unexplained\n",
    },
    Case {
        run: Run::Bench,
        first: THREE_WRITERS,
        second: THREE_PROVED,
        report: "wire 10010000l11001111ls\nwon b/n c/o\n",
    },
];

// How streams fail: readers give pieces and fail in these calls, where 0 is none, and a writer behind its room, where it else
// takes no bytes.
#[derive(Clone, Copy)]
struct Way {
    piece: usize,
    fails_at: [u32; 2],
    room: usize,
    fails: bool,
}

fn ends<R: Threads + Wait + Clock + Sync>(
    rt: &R,
    alloc: Global,
    case: &Case,
    way: Way,
    out: &mut FaultyWriter,
) -> Result<Status, RunError> {
    let first = &mut FaultyReader::new(case.first.as_bytes(), way.piece, way.fails_at[0]);
    let second = &mut FaultyReader::new(case.second.as_bytes(), way.piece, way.fails_at[1]);
    match case.run {
        Run::Check => run_check(rt, alloc, first, out, 1),
        Run::Certify => run_certify(alloc, first, out),
        Run::Verify => run_verify(alloc, first, second, out),
        Run::Print => run_print(alloc, first, out),
        Run::Expand => run_expand(alloc, first, out),
        Run::Brief => run_brief(alloc, first, out),
        Run::Capture => run_capture(rt, alloc, first, second, out, "scl", "sda"),
        Run::Bench => run_bench(
            rt,
            alloc,
            first,
            second,
            out,
            "a/m,b/n,c/o",
            true,
            "000000000000000000",
            &NoGate,
        ),
    }
}

// Whether the run ends so, and the writer has then taken as many first bytes of its report as it has room for.
fn takes<R: Threads + Wait + Clock + Sync>(
    rt: &R,
    alloc: Global,
    case: &Case,
    way: Way,
    wanted: Result<Status, RunError>,
) -> bool {
    let Ok(mut out) = FaultyWriter::new(alloc, way.room, way.fails) else {
        return false;
    };
    ends(rt, alloc, case, way, &mut out) == wanted
        && Some(out.taken.as_slice()) == case.report.as_bytes().get(..way.room)
}

// In how many calls a reader gives this text, the one that gives none among them.
fn calls_of(text: &str, piece: usize) -> u32 {
    let pieces = text.len().div_ceil(piece.max(1));
    u32::try_from(pieces).unwrap_or(u32::MAX).saturating_add(1)
}

// A run whose readers fail does not call its writer, which would fail.
fn is_unread_at_each_call<R: Threads + Wait + Clock + Sync>(
    rt: &R,
    alloc: Global,
    case: &Case,
    piece: usize,
) -> bool {
    let first = calls_of(case.first, piece);
    let second = if case.second.is_empty() {
        0
    } else {
        calls_of(case.second, piece)
    };
    for call in 1..=first.saturating_add(second) {
        let way = Way {
            piece,
            fails_at: [call, call.saturating_sub(first)],
            room: 0,
            fails: true,
        };
        if !takes(rt, alloc, case, way, Err(RunError::Read)) {
            return false;
        }
    }
    true
}

// A byte in each call, and all bytes in one.
const PIECES: [usize; 2] = [1, 65_536];

#[test]
fn a_reader_that_fails_at_any_call_is_read_and_nothing_is_written(rt: HostRuntime) {
    for case in &CASES {
        for piece in &PIECES {
            assert!(rt; is_unread_at_each_call(&rt, rt.alloc(), case, *piece));
        }
    }
}

fn takes_each_front<R: Threads + Wait + Clock + Sync>(
    rt: &R,
    alloc: Global,
    case: &Case,
    fails: bool,
) -> bool {
    for room in 0..=case.report.len() {
        let way = Way {
            piece: PIECES[1],
            fails_at: [0, 0],
            room,
            fails,
        };
        let wanted = if room < case.report.len() {
            Err(RunError::Write)
        } else {
            Ok(Status::Good)
        };
        if !takes(rt, alloc, case, way, wanted) {
            return false;
        }
    }
    true
}

#[test]
fn a_writer_that_fails_or_takes_none_has_the_first_bytes_of_the_report(rt: HostRuntime) {
    for case in &CASES {
        for fails in &[false, true] {
            assert!(rt; takes_each_front(&rt, rt.alloc(), case, *fails));
        }
    }
}
