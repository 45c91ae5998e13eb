// Where dumps are refused, what stands there, and what is expected: the same in pieces. What further lines are.

use std::alloc::{AllocError, Global};
use vcd_read::{Expected, Further, Level, Nobody, Opened, Probe, Reader, VcdError, Wrong};

/// The seven lines of definitions before the changes, which stand on line 8 and after.
const DEFINITIONS: &str = "$timescale
1 us $end
$scope module top $end
$var wire 1 ! scl $end
$var wire 1 \" sda $end
$upscope $end
$enddefinitions $end
";

// What is wrong with a dump: what has no end; or how many bytes of its changes stand before the token that is refused, its
// column, what stands before it in its line, the token, and what could stand there.
enum Due {
    Nothing,
    Open(Opened),
    Token(u64, u64, &'static str, &'static str, Expected),
}

const LATER: Expected = Expected::Change {
    time: 5,
    in_block: false,
};

const IN_BLOCK: Expected = Expected::Change {
    time: 0,
    in_block: true,
};

static BROKEN: [(&str, Due); 6] = [
    ("#5 0!\n#3 ", Due::Token(6, 1, "", "#3", LATER)),
    (
        "#7 b1 \x07 ",
        Due::Token(6, 7, "#7 b1 ", "\x07", Expected::Code),
    ),
    (
        "$dumpvars 0! $dumpall ",
        Due::Token(13, 14, "$dumpvars 0! ", "$dumpall", IN_BLOCK),
    ),
    ("$dumpvars b1", Due::Open(Opened::Block)),
    ("#1 b1", Due::Open(Opened::Change)),
    ("#1 0!", Due::Nothing),
];

fn feed(reader: &mut Reader, dump: &[u8], bytes: usize) -> Result<(), VcdError> {
    for piece in dump.chunks(bytes.max(1)) {
        reader.feed(piece)?;
    }
    Ok(())
}

// What is wrong with a dump in pieces of so many bytes.
fn wrong_of(alloc: Global, dump: &[u8], bytes: usize) -> Result<Option<Wrong>, AllocError> {
    let mut reader = Reader::new(alloc, "scl", "sda")?;
    if feed(&mut reader, dump, bytes).is_err() {
        return Ok(reader.take_wrong());
    }
    Ok(match reader.close() {
        Ok(_) => None,
        Err(refused) => refused.wrong(),
    })
}

fn is_due(wrong: Option<&Wrong>, due: &Due) -> bool {
    match (wrong, due) {
        (None, Due::Nothing) => true,
        (Some(Wrong::Unended(opened)), Due::Open(wanted)) => opened == wanted,
        (Some(Wrong::Token(place)), Due::Token(offset, column, before, token, expected)) => {
            place.offset == offset.saturating_add(DEFINITIONS.len() as u64)
                && place.column == *column
                && place.before() == before.as_bytes()
                && place.token() == token.as_bytes()
                && place.expected == *expected
        }
        _ => false,
    }
}

// The first of the changes with which something else is wrong, in some pieces.
fn other_row(alloc: Global) -> Result<Option<&'static str>, AllocError> {
    for (text, due) in &BROKEN {
        let dump = format!(in alloc; "{DEFINITIONS}{text}")?;
        for bytes in &[1, 7, 65_536] {
            if !is_due(wrong_of(alloc, dump.as_bytes(), *bytes)?.as_ref(), due) {
                return Ok(Some(*text));
            }
        }
    }
    Ok(None)
}

#[test]
fn what_is_wrong_has_its_place(rt: HostRuntime) {
    assert_eq!(rt; other_row(rt.alloc()), Ok(None));
}

// A line of 150,003 bytes before the token, in reads of 65,536: its end is kept. What follows a token in its line is known
// as far as it was read.
fn is_cut(alloc: Global) -> Result<bool, AllocError> {
    let mut dump = Vec::new(alloc);
    dump.extend_from_slice(DEFINITIONS.as_bytes())?;
    for _ in 0..50_000 {
        dump.extend_from_slice(b"0! ")?;
    }
    dump.extend_from_slice(b"0? #x 1! ")?;
    Ok(match wrong_of(alloc, dump.as_slice(), 65_536)? {
        Some(Wrong::Token(place)) => {
            place.column == 150_004
                && place.token() == b"#x".as_slice()
                && place.after() == b" 1! ".as_slice()
                && place.before().ends_with(b"0! 0! 0? ")
                && place.before().len() < 150_000
        }
        _ => false,
    })
}

#[test]
fn of_a_long_line_the_end_is_kept(rt: HostRuntime) {
    assert!(rt; is_cut(rt.alloc()) == Ok(true));
}

// ---- further lines

// A dump in which lines are named, coded, and bits of a vector, and change in each way that a change can be written.
const DRIVEN: &str =
    "$var wire 1 ! scl $end $var wire 1 \" sda $end $var wire 1 abcd oa $end $var reg 4 % ob [3:0] $end \
    $var real 64 r volts $end $enddefinitions $end\n$dumpvars 0! 0\" zabcd bx % $end\n#1 b1 % r1.5 r\n#1 xabcd\n\
    #4 1! 0abcd #4 b1010 %\n#5 1\" $comment 0abcd $end 1%\n#9 bz1 % 0abcd 1abcd\n#9 b0 % #12 bX1X %\n0!";

const LINES: [Probe<'static>; 4] = [
    Probe::Named("oa"),
    Probe::Bit("%", 0),
    Probe::Bit("%", 3),
    Probe::Coded("none"),
];

fn level_of(further: &Further, number: u32) -> Level {
    if further.unknown.wrapping_shr(number) & 1 != 0 {
        Level::Unknown
    } else if further.low.wrapping_shr(number) & 1 != 0 {
        Level::Low
    } else {
        Level::High
    }
}

// A line, when it changes, and to which level.
type Change = (u32, u64, Level);

fn push(changes: &mut Vec<Change>, change: Change) -> Result<(), AllocError> {
    changes.push(change)?;
    Ok(())
}

// The changes of each of the lines, as a reader finds them that has them as further ones.
fn further_of(alloc: Global, bytes: usize) -> Result<Vec<Change>, VcdError> {
    let (scl, sda) = (Probe::Named("scl"), Probe::Named("sda"));
    let mut reader = Reader::with(alloc, scl, sda, &LINES)?;
    let mut all = Vec::new(alloc);
    for piece in DRIVEN.as_bytes().chunks(bytes.max(1)) {
        reader.feed(piece)?;
        all.extend_from_slice(reader.further())?;
        reader.clear_samples();
    }
    let last = match reader.finish(&mut Nobody) {
        Ok(last) => last,
        Err(refused) => return Err(refused.error),
    };
    all.extend_from_slice(last.further())?;
    changes_of(alloc, all.as_slice())
}

fn changes_of(alloc: Global, all: &[Further]) -> Result<Vec<Change>, VcdError> {
    let mut changes = Vec::new(alloc);
    for number in 0..3u32 {
        let mut level = Level::Unknown;
        for further in all {
            if level_of(further, number) != level {
                level = level_of(further, number);
                push(&mut changes, (number, further.time, level))?;
            }
        }
    }
    Ok(changes)
}

// The same, where each line has a reader of its own, in which it is SDA.
fn alone_of(alloc: Global) -> Result<Vec<Change>, VcdError> {
    let mut changes = Vec::new(alloc);
    for (number, line) in (0..3u32).zip(LINES.as_slice()) {
        let mut reader = Reader::of(alloc, Probe::Named("scl"), *line)?;
        reader.feed(DRIVEN.as_bytes())?;
        let mut level = Level::Unknown;
        for sample in reader.end()?.iter() {
            if sample.sda != level {
                level = sample.sda;
                push(&mut changes, (number, sample.time, level))?;
            }
        }
    }
    Ok(changes)
}

#[test]
fn further_lines_are_those_of_readers_of_their_own(rt: HostRuntime) {
    let alone = alone_of(rt.alloc());
    assert!(rt; alone.as_ref().is_ok_and(|changes| changes.len() == 13));
    for bytes in [1usize, 7, 65_536] {
        assert!(rt; further_of(rt.alloc(), bytes) == alone);
    }
}
