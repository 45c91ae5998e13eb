// What the refusal of a text means, where that is no name and has a place of its own.

use crate::lines::Lines;
use crate::texts::RefusedIn;
use brief_tokens::Tokens;
use plan_core::limits::{
    MOST_BYTES, MOST_CONTROLLERS, MOST_INTERRUPTS, MOST_MESSAGES, MOST_NODES, MOST_SENDINGS,
};
use plan_text::places::{Kind, Over, token_at};
use plan_text::{Expected, Language, is_plan};

/// Of P1.
pub(crate) fn foreign(language: Language) -> &'static str {
    match language {
        Language::Plan => "a plan is ASCII, in its comments too",
        Language::Brief => "a brief is ASCII, but for the comments of a 'brief 2'",
    }
}

const PLAN_VERSION: &str =
    "a plan begins with 'plan 1', or with 'plan 2' where it has ranges of counts or 'never'";

const BRIEF_VERSION: &str = "a brief begins with 'brief 1' or 'brief 2'";

/// Says P2. One that is like a brief was taken as that.
pub(crate) fn push_version(lines: &mut Lines, refused: &RefusedIn<'_>) {
    match refused.language {
        Language::Brief => lines.say(BRIEF_VERSION),
        Language::Plan if !refused.takes_either || is_plan(refused.text) => lines.say(PLAN_VERSION),
        Language::Plan => {
            lines.say(PLAN_VERSION);
            lines.say(BRIEF_VERSION);
        }
    }
}

/// Notes that a plan of the first version is mended where it begins as one of the second.
pub(crate) fn mend_version(lines: &mut Lines, refused: &RefusedIn<'_>) {
    let mut tokens = Tokens::new(refused.text);
    let word = tokens.next();
    let start = token_at(refused.text, tokens.spot(), word.line).start;
    let version = tokens.next();
    let end = token_at(refused.text, tokens.spot(), version.line).end;
    if refused.text.get(start..end) == Some(b"plan 1".as_slice()) {
        lines.fix(start, end, "plan 2");
    }
}

/// Of P4, where this was expected.
pub(crate) fn bad_count(expected: Option<Expected>) -> &'static str {
    match expected {
        Some(Expected::Count { ranges: true }) => {
            "a count is a number from 1 to 255, or two of them as '2..4', the smaller first"
        }
        Some(Expected::Times { ranges: false }) => "a number after '*' is 1 to 255",
        Some(Expected::Times { ranges: true }) => {
            "a number after '*' is 1 to 255; a range, as '1..4', has the smaller first, which may be 0"
        }
        Some(Expected::Further(_) | Expected::BriefByte) => {
            "a span has the smaller byte first, and 'any but' leaves a byte"
        }
        _ => "a count is a number from 1 to 255",
    }
}

/// Says P5, of a message that is too long by so much.
pub(crate) fn push_over(lines: &mut Lines, over: Option<Over>) {
    match over {
        Some(Over::Bytes(more)) => {
            let bytes = more.saturating_add(MOST_BYTES);
            lines.say(format_args!(
                "with this a path of the message has {bytes} bytes, and may have {MOST_BYTES}"
            ));
        }
        Some(Over::Nodes(more)) => {
            let nodes = more.saturating_add(MOST_NODES);
            lines.say(format_args!(
                "with this the message has {nodes} headers and data bytes, and may have {MOST_NODES}"
            ));
        }
        None => {}
    }
}

/// Says P6, where this was expected.
pub(crate) fn push_limit(lines: &mut Lines, expected: Option<Expected>) {
    let (most, what) = match expected {
        // (what a head names)
        None => return lines.say("at most 64 texts make up a board"),
        Some(Expected::Name(Kind::Controller)) => (MOST_CONTROLLERS, "controllers"),
        Some(Expected::Party) => {
            lines.part("with the controllers that labels make, ");
            (MOST_CONTROLLERS, "controllers")
        }
        Some(Expected::Name(Kind::Interrupt)) => (MOST_INTERRUPTS, "interrupts"),
        Some(Expected::Sending) => (MOST_SENDINGS, "messages listed in all its controllers"),
        _ => (MOST_MESSAGES, "messages"),
    };
    lines.say(format_args!("a plan has at most {most} {what}"));
}
