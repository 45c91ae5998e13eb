// What a file is that stands in the place of another: its first bytes tell.

use crate::lines::Lines;
use crate::marking::first_line;

/// How many of the first bytes of a file are looked at.
pub const LOOKED_AT: usize = 4_096;

/// What a file is.
#[derive(Clone, Copy, PartialEq, Eq)]
pub enum Kind {
    Plan,
    Brief,
    Certificate,
    Dump,
    Gzip,
    Zip,
    Fst,
    Archive,
    Utf16,
    ByteOrderMark,
}

impl Kind {
    fn words(self) -> &'static str {
        match self {
            Kind::Plan => "this is a plan: commands that read a plan take it as it is",
            Kind::Brief => "this is a brief: 'twire expand' writes the plan that it means",
            Kind::Certificate => {
                "this is a certificate: 'twire verify PLAN CERT' takes it after its plan"
            }
            Kind::Dump => {
                "this is a value change dump: 'twire capture PLAN VCD' takes it after a plan"
            }
            Kind::Gzip => "this file is compressed by gzip: unpack it first with 'gunzip'",
            Kind::Zip => {
                "this is a ZIP archive, as a session of sigrok is (.sr): for a dump of one, 'sigrok-cli -i FILE -O vcd -o OUT'"
            }
            Kind::Fst => {
                "this is an FST file, as GTKWave has it: 'fst2vcd FILE' writes the dump that it holds"
            }
            Kind::Archive => "this is an archive or a compressed file: unpack it first",
            Kind::Utf16 => {
                "this text has two bytes for each character (UTF-16): save it as ASCII or UTF-8"
            }
            Kind::ByteOrderMark => {
                "this text begins with a byte order mark (EF BB BF): save it as UTF-8 without one"
            }
        }
    }
}

/// Whether the file is no text of ASCII, so that no place in it says more.
pub fn is_binary(found: Option<Kind>) -> bool {
    !matches!(
        found,
        None | Some(Kind::Plan | Kind::Brief | Kind::Certificate | Kind::Dump)
    )
}

/// Says what the file is, where it is not what was expected.
pub fn push_kind(lines: &mut Lines, found: Option<Kind>, expected: Kind) {
    match found {
        Some(kind) if kind != expected => lines.say(kind.words()),
        _ => {}
    }
}

// What files begin with that are packed by several programs: bzip2, xz, zstd and 7-Zip.
const ARCHIVES: [&[u8]; 4] = [
    b"BZh",
    b"\xfd7zXZ\x00",
    b"\x28\xb5\x2f\xfd",
    b"7z\xbc\xaf\x27\x1c",
];

// What an FST file begins with: a block of the kind 0, with the length of every header.
const FST: &[u8] = b"\x00\x00\x00\x00\x00\x00\x00\x01\x49";

const UTF_16: [&[u8]; 2] = [b"\xff\xfe", b"\xfe\xff"];

// The commands that a dump may begin with.
const COMMANDS: [&[u8]; 7] = [
    b"$date",
    b"$version",
    b"$timescale",
    b"$comment",
    b"$scope",
    b"$var",
    b"$enddefinitions",
];

/// What the first bytes of a file tell, if they do.
pub fn kind_of(head: &[u8]) -> Option<Kind> {
    if head.starts_with(b"\x1f\x8b") {
        Some(Kind::Gzip)
    } else if head.starts_with(b"PK\x03\x04") {
        Some(Kind::Zip)
    } else if head.starts_with(FST) {
        Some(Kind::Fst)
    } else if has_mark(head, &ARCHIVES) || is_tar(head) {
        Some(Kind::Archive)
    } else if head.starts_with(b"\xef\xbb\xbf") {
        Some(Kind::ByteOrderMark)
    } else if has_mark(head, &UTF_16) || is_wide(head) {
        Some(Kind::Utf16)
    } else {
        kind_of_text(after_comments(head))
    }
}

// Whether a file begins with one of these.
fn has_mark(head: &[u8], marks: &[&[u8]]) -> bool {
    marks.iter().any(|mark| head.starts_with(mark))
}

fn is_tar(head: &[u8]) -> bool {
    head.get(257..262) == Some(b"ustar".as_slice())
}

// ASCII with a zero beside each character.
fn is_wide(head: &[u8]) -> bool {
    match head {
        [0, a, 0, b, ..] | [a, 0, b, 0, ..] => is_printed(*a) && is_printed(*b),
        _ => false,
    }
}

fn is_printed(byte: u8) -> bool {
    matches!(byte, b'\t' | b'\n' | b'\r' | b' '..=b'~')
}

// What a text is, by the word or the command that it begins with.
fn kind_of_text(head: &[u8]) -> Option<Kind> {
    if has_word(head, b"plan") {
        Some(Kind::Plan)
    } else if has_word(head, b"brief") {
        Some(Kind::Brief)
    } else if has_word(head, b"cert") {
        Some(Kind::Certificate)
    } else if has_mark(head, &COMMANDS) {
        Some(Kind::Dump)
    } else {
        None
    }
}

// What stands after blanks and comments of a plan.
fn after_comments(head: &[u8]) -> &[u8] {
    let mut rest = head.trim_ascii_start();
    for _ in 0..LOOKED_AT {
        if !rest.starts_with(b"#") {
            break;
        }
        let comment = first_line(rest);
        let after = rest.get(comment.len()..).unwrap_or(&[]);
        rest = after.trim_ascii_start();
    }
    rest
}

// A word, a blank and a digit.
fn has_word(head: &[u8], word: &[u8]) -> bool {
    match head.strip_prefix(word) {
        Some([blank, digit, ..]) => blank.is_ascii_whitespace() && digit.is_ascii_digit(),
        _ => false,
    }
}
