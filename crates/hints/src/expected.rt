// What could stand in a place of a plan or of a brief, in words.

use crate::lines::Lines;
use plan_text::Expected;
use plan_text::places::Further;
use std::alloc::{AllocError, Global};

const NAME: &str = "a name (a letter, then letters, digits and '_', 32 at most)";

const ADDRESS: &str =
    "an address ('0x' and two digits, at most 0x7F, or '0b' and seven of '0', '1' and 'x')";

const KNOWN_ADDRESS: &str =
    "an address ('0x' and two digits, at most 0x7F, or '0b' and seven of '0' and '1')";

const BYTE: &str = "a data byte ('0x' and two digits, or '0b' and eight of '0', '1' and 'x')";

/// What could stand there, one after another, in a brief of the second version or in another text.
///
/// # Errors
///
/// Where an allocation fails.
pub(crate) fn words_of(
    alloc: Global,
    expected: Expected,
    is_second: bool,
) -> Result<Vec<&'static str>, AllocError> {
    match expected {
        Expected::Further(further) => further_words(alloc, further),
        Expected::BriefItem if is_second => SECOND_ITEMS.to_vec(alloc),
        _ => few(expected).to_vec(alloc),
    }
}

// The items of a brief of the second version.
const SECOND_ITEMS: &[&str] = &[
    "'device'",
    "'byte'",
    "'group'",
    "'message'",
    "'controller'",
    "'extend'",
    "'interrupt'",
    "'never'",
];

fn further_words(alloc: Global, further: Further) -> Result<Vec<&'static str>, AllocError> {
    let mut words = Vec::new(alloc);
    if further.bytes {
        words.push(BYTE)?;
        words.push("the name of one")?;
        words.push("'any'")?;
    }
    if further.bytes && further.made {
        words.push("a span as '0x02..0x0F'")?;
        words.push("'wr'")?;
        words.push("'rd'")?;
        words.push("'pec'")?;
        words.push("'sum'")?;
    }
    if further.times {
        words.push("'*' and a number or a range")?;
    }
    if further.refusal {
        words.push("'else'")?;
    }
    words.push("'write'")?;
    words.push("'read'")?;
    words.push(if further.is_inner { "')'" } else { "';'" })?;
    Ok(words)
}

fn few(expected: Expected) -> &'static [&'static str] {
    match expected {
        Expected::Item { never: false } => &["'message'", "'controller'", "'interrupt'"],
        Expected::Item { never: true } => &["'message'", "'controller'", "'interrupt'", "'never'"],
        Expected::BriefItem => &[
            "'device'",
            "'byte'",
            "'message'",
            "'controller'",
            "'interrupt'",
            "'never'",
        ],
        Expected::Name(_) => &[NAME],
        Expected::Sending => &["the name of a message", "';'"],
        Expected::Controller => &["the name of a controller"],
        Expected::Semicolon => &["';'"],
        Expected::Frame => &["'write'", "'read'"],
        Expected::Address => &["an address (seven of '0', '1' and 'x')"],
        Expected::KnownAddress => &["an address (seven of '0' and '1')"],
        Expected::Payload => &[
            "'stop'",
            "'again'",
            "a data byte (eight of '0', '1' and 'x')",
        ],
        Expected::Tail => &["'stop'", "'again'"],
        Expected::Else => &["'else'"],
        Expected::Count { ranges: false } => &["a count from 1 to 255"],
        Expected::Count { ranges: true } => &["a count from 1 to 255", "two of them as '2..4'"],
        Expected::Target => &[ADDRESS, "the name of a device"],
        Expected::KnownTarget => &[KNOWN_ADDRESS, "the name of a device"],
        Expected::Device { ends: false } => &["the name of a device"],
        Expected::Device { ends: true } => &["the name of a device", "';'"],
        Expected::BriefAddress => &[ADDRESS],
        Expected::BriefByte => &[BYTE],
        Expected::Times { ranges: false } => &["a number from 1 to 255"],
        Expected::Times { ranges: true } => &["a number from 1 to 255", "a range as '1..4'"],
        Expected::Bracket { opens: true } => &["'('"],
        Expected::Bracket { opens: false } => &["')'"],
        Expected::Refusal => &["'stop'", "'('"],
        Expected::Party => &[
            "the name of a controller",
            "a label (a controller, '/' and its message)",
        ],
        Expected::Version | Expected::Further(_) => &[],
    }
}

/// Says these as what is expected: `A`, `A or B`, `A, B or C`.
pub(crate) fn push_expected(lines: &mut Lines, words: &[&'static str]) {
    let Some((last, others)) = words.split_last() else {
        return;
    };
    lines.part("expected here: ");
    let mut before = "";
    for word in others {
        lines.part(before);
        lines.part(*word);
        before = ", ";
    }
    lines.part(if others.is_empty() { "" } else { " or " });
    lines.say(*last);
}
